//! HDLC frames of type 3.
#![tactic(auto)]

mod buffer;
mod client;
mod deframer;
mod division;
mod frame;
pub mod laws;
mod reading;
mod tables;
mod window;
mod writing;

pub use client::Client;
pub use deframer::Deframer;
pub use division::check;
pub use frame::{Address, Frame, MOST_SENT, MOST_TEXT, SentFrame};
