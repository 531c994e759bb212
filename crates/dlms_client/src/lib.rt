//! One association with any meter, over a carrier of its APDUs.
#![tactic(auto)]

mod client;
pub mod laws;
mod outcome;
mod plan;

pub use client::Client;
pub use dlms_association::{Answer, AskFault, Denial, Fault, Granted};
pub use dlms_carrier::Route;
pub use outcome::{Heard, Outcome};
pub use plan::Plan;
