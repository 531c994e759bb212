//! Many jobs in one process: each is driven by what happens on its own line, whatever happens on the others.
#![tactic(auto)]

mod fleet;
mod job;
pub mod laws;
mod lines;
mod numbered;
mod running;

pub use fleet::{Fleet, FleetStep};
pub use job::{Job, JobStep};
pub use lines::{LineEvent, Lines, PIECE, SeatEvent, take_all, take_one};
pub use numbered::Numbered;
pub use running::{Limits, Moment, Outcome, Phase, Running, Step};
