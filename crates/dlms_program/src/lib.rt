//! The program above the meter: the replay of a transcript and, from `dlms_words`, the job of its arguments.
#![tactic(auto)]

mod fault;
pub mod laws;
mod lines;
mod orders;
mod pairs;
mod pieces;
mod printing;
mod replaying;
mod streams;

pub use dlms_words::{Asking, Job, job};
pub use fault::ReplayFault;
pub use pieces::{MOST_BYTES, Piece};
pub use replaying::replay;
pub use streams::{Buffered, Sink, Source};
