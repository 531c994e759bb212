//! The association of a client with the meter: its request read, judged and written, and the meter's response.
#![tactic(auto)]

mod aarq;
mod conformance;
mod fault;
mod fields;
mod judging;
pub mod laws;
mod outcome;
mod reading;
mod response;
mod writing;

pub use aarq::{Aarq, Initiate, Mechanism};
pub use conformance::Conformance;
pub use fault::AcseFault;
pub use judging::{LEAST_SIZE, MOST_SIZE, verdict};
pub use outcome::Verdict;
pub use reading::read_aarq;
pub use response::read_aare;
pub use writing::{write_aare, write_aarq, write_rlre, write_rlrq};
