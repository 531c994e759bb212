//! Carries APDUs between a client's association and its meter: the trait `Carrier`, and carriers over TCP and HDLC.
#![tactic(auto)]

mod any;
mod carrier;
mod event;
mod hdlc;
mod kept;
pub mod laws;
mod phase;
mod tcp;

pub use any::{AnyCarrier, Route};
pub use carrier::Carrier;
pub use event::{Event, Fed};
pub use hdlc::HdlcCarrier;
pub use phase::Phase;
pub use tcp::TcpCarrier;
