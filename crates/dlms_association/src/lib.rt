//! One association with any meter. It takes and returns APDUs, whatever transport carries them.
#![tactic(auto)]

mod answer;
mod apdu;
mod ask_fault;
mod exchange;
mod fault;
mod granted;
mod hearing;
pub mod laws;
mod opening;
mod requests;
mod stage;
mod step;
mod terms;

pub use answer::{Answer, Denial};
pub use apdu::{Apdu, MOST_APDU};
pub use ask_fault::AskFault;
pub use exchange::Association;
pub use fault::Fault;
pub use granted::Granted;
pub use step::Step;
pub use terms::Terms;
