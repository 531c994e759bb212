//! Which meter is at the other end of a line: the texts that its objects show.
#![tactic(auto)]

mod showing;
mod text;

pub use showing::{Expected, first_other, shown_text};
