//! A carrier that protects APDUs under security suite 0 and authentication mechanism 5 (IEC 62056-5-3; Green Book 9.2.7).
#![tactic(auto)]

mod fault;
mod fields;
mod guard;
pub mod laws;
mod made;
mod messages;
mod reply;
mod response;
mod secured;
mod stage;
mod taken;
mod terms;

pub use fault::SecuredFault;
pub use guard::Guard;
pub use secured::Secured;
pub use stage::{Granted, Stage};
pub use terms::Terms;
