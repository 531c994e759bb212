//! Events on a device of pages, each kept through a stop of the power once it is committed.
#![tactic(auto)]

mod fault;
mod format;
pub mod laws;
mod layout;
mod look;
mod numbers;
mod open;
mod page;
mod put;
mod renew;
mod replay;
mod ring_pages;
mod slot;
mod store;

pub use fault::{AddFault, OpenFault, StoreFault};
pub use layout::{BODIES, JOURNAL, JOURNAL_PAGES, PAGES, RING, RING_PAGES, Slot};
pub use look::{Journal, active};
pub use open::{Found, find};
pub use page::{Edition, open_edition};
pub use store::Store;
