//! How the program prints the values and the objects of a meter, and the rows of its profiles.
#![tactic(auto)]

mod attributes_json;
mod buffer_rows;
mod fault_json;
mod json_text;
mod last_texts;
mod listed_rows;
mod notified;
mod object_list;
mod objects;
mod other_values;
mod progress;
mod row_printer;
mod table;
mod table_json;
mod typed;
mod values;

pub use attributes_json::ClockChange;
pub use fault_json::{append_fault_json, put_fault};
pub use json_text::append_member;
pub use notified::Notified;
pub use object_list::{NoValues, Values};
pub use objects::ListForm;
pub use progress::{
    BytesSeen, Following, Progress, RowsSeen, Seen, Showing, Unfollowed, append_closing,
};
pub use row_printer::RowPrinter;
pub use table::{ColumnShape, Table};
pub use values::{Teller, put, put_clock, put_line};
