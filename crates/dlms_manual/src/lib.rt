//! The manual page and the completions of shells, made from the table of commands.
#![tactic(auto)]

mod forms;
mod page;

pub use page::{completions, manual};
