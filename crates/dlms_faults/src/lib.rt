//! Why a run of the program ended early, and its message.
#![tactic(auto)]

mod columns;
mod fault;

pub use fault::Fault;
