//! A head end that polls a meter over a TCP connection or a serial line.
#![tactic(auto)]

mod calling;
mod clocks;
mod guards;
mod keeping;
pub mod laws;
mod poll_inputs;
mod polling;
mod rising;
mod routed;
mod secret;
mod way;

pub use calling::MOST_RETRIES;
pub use clocks::{Limit, judge};
pub use guards::{Accepted, Guards, NoGuards};
pub use keeping::{file_readings, hold_file, open_readings};
pub use poll_inputs::{HostPollInputs, PollInputs, SteadyPollInputs};
pub use polling::{PollSetup, Polling, poll};
pub use secret::{MOST_READ, secret_of};
