//! The file that keeps the frame counters of one system title and key over restarts and power failures (security suite 0 of
//! IEC 62056-5-3). It allocates nothing, and does input and output only through a device of pages.
#![tactic(auto)]

mod change;
mod counters;
mod create;
mod fault;
mod file;
mod find;
mod fingerprint;
pub mod instance;
pub mod laws;
mod put;
mod slot;
mod table;

pub use counters::MOST_PEERS;
pub use fault::{CounterFault, CreateFault, OpenFault};
pub use file::{CounterFile, SLOTS};
