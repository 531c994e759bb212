//! A poll of a meter as a job of a fleet: over any route, in clear or protected.
#![tactic(auto)]

pub mod laws;
mod poll_job;

pub use poll_job::PollJob;
