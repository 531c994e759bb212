//! Both ends of a line: a meter that answers at one, a head end that polls at the other, over any two streams.
#![tactic(auto)]

mod end;
mod fault;
mod head_end;
pub mod laws;
pub mod meter_end;
mod poll_end;
mod polling;

pub use end::{End, Heard, PIECE, bytes_of, put};
pub use fault::RunFault;
pub use head_end::{HeadEnd, PollTurn, dial};
pub use meter_end::Taken;
pub use poll_end::PollEnd;
pub use polling::{TURNS, poll, poller};
