//! Values of A-XDR, read and written, and the clock's seconds as date-times.
#![tactic(auto)]

mod bits;
mod building;
mod bytes;
mod data;
mod date_time;
mod descriptor;
mod fitting;
pub mod laws;
mod parts;
mod plain;
mod reading;
mod scanning;
mod sizing;
mod source;
mod tag;
mod writing;

pub use bits::Bits;
pub use building::{four, octet_string_of, room, three, time_of, two};
pub use bytes::Bytes;
pub use data::{Data, Items};
pub use date_time::{LAST_SECOND, octets, secs};
pub use descriptor::{Descriptor, Selector};
pub use dlms_axdr::{DataFault, counted};
pub use fitting::fits;
pub use reading::read;
pub use scanning::{is_value, span};
pub use writing::{append, append_counted, write};
