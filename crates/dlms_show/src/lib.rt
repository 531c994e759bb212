//! Shows the contents of a store's file: its pages, the slot that counts, the journal's events, what a recovery would do, the
//! state, and the rows of the load profile.
#![tactic(auto)]

mod fault;
mod file;
mod journal;
mod json;
mod pages;
mod profile;
mod report;
mod show;
mod state;
mod words;

pub use fault::ShowFault;
pub use json::write_json_report;
pub use report::{Curve, write_report};
pub use show::{show_file, show_file_as_json};
