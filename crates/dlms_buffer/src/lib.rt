//! The buffer of a profile (IEC 62056-6-2, Blue Book 4.3.6, class 7): its columns and its rows.
#![tactic(auto)]

mod cell;
mod cell_text;
mod clock;
mod column;
mod fault;
mod last_row;
mod packed;
mod selecting;
mod text;

pub use cell::Cell;
pub use cell_text::append_cell;
pub use clock::append_clock;
pub use column::{Column, column_of};
pub use fault::BufferFault;
pub use last_row::LastRow;
pub use packed::packed_row;
pub use selecting::{by_entries, by_range, first_of_last};
pub use text::{append_octets, append_value};
