//! The guards of protected associations, as a file of settings and its file of frame counters give them (security suite 0 of
//! IEC 62056-5-3).
#![tactic(auto)]

mod counters;
mod fault;
mod protection;

pub use counters::{heed, is_fresh, keep, skip};
pub use fault::GuardFault;
pub use protection::{POLL_COUNTERS, Protection, protection_of};
