//! TCP and UDP ports at which several meters push at once.
#![tactic(auto)]

mod datagrams;
mod port;

pub use datagrams::DatagramPort;
pub use port::{Arrival, PIECE, PushPort};
