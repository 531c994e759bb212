//! Requests to any meter over a line: an association, values, results, and its end.
#![tactic(auto)]

mod asking;
mod client_end;
mod fault;
mod watch;

pub use asking::{act, begin, end, get, get_part, get_part_watched, get_watched, set};
pub use client_end::ClientEnd;
pub use fault::CallFault;
pub use watch::{Unwatched, Watch};
