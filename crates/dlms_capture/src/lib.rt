//! The contents of a capture of a network's traffic: the packets of its file, the ends and octets that a packet of IP carries by
//! TCP or UDP, and the octets of a connection in their order.
#![tactic(auto)]

mod file;
mod front;
mod interface;
pub mod laws;
mod order;
mod packet;
mod pcap;
mod pcapng;

pub use file::{File, Next, is_capture};
pub use interface::{Packet, Stamp};
pub use order::Order;
pub use packet::{Address, Ends, Place, Segment, Transport, segment_of};
