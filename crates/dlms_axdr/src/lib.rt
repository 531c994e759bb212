//! What A-XDR is made of: lengths, numbers and counted octets at the front of bytes, and why they cannot be read.
#![tactic(auto)]

mod fault;
mod parts;

pub use fault::DataFault;
pub use parts::{counted, eight, five, four, four_octets, length_of, one, taken, twelve, two};
