//! Both ends of the link: the meter's table and the client's rules.
#![tactic(auto)]

mod client;
mod client_row;
mod control;
mod kept;
mod last_answer;
pub mod laws;
mod out;
mod parameters;
mod phase;
mod segments;
mod server;
mod server_row;

pub use client::{ClientLink, LineFault};
pub use out::{ClientOut, LinkOut};
pub use parameters::is_proposable;
pub use server::ServerLink;
