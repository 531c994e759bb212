//! Both ends in one program: a head end polls a meter over a socket, between pulses and stops, and files what it read.
#![tactic(auto)]

mod rounds;
mod socket;

pub use rounds::loopback;
pub use socket::{Joining, Line, Socket, sockets};
