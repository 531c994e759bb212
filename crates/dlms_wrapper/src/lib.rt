//! The wrapper of DLMS messages over TCP and UDP (IEC 62056-47): a header of eight octets, then the APDU.
#![tactic(auto)]

mod fault;
mod header;
pub mod laws;
mod message;
mod reader;

pub use fault::{DatagramFault, HeaderFault};
pub use header::{Header, VERSION, read_header, write_header};
pub use message::{MOST_APDU, MOST_MESSAGE, Message};
pub use reader::MessageReader;
