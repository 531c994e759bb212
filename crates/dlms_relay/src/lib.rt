//! Pages in memory, each of whose writes and syncs is queued for another program to carry out.
#![tactic(auto)]

mod loading;
mod pages;
mod seal;

pub use pages::{Relay, RelayedPages};
pub use seal::seal_slot;
