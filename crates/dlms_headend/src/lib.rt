//! The head end: a poll of the load profile over the client's link or any carrier, and the file of readings.
#![tactic(auto)]

mod answer;
mod asking;
mod buffer;
mod capture_objects;
mod carrier_poll;
mod columns_form;
mod due;
mod form;
mod get_answer;
pub mod laws;
mod lines;
mod listed;
mod plan;
mod poll_fault;
mod poller;
mod read_get_answer;
mod readings;
mod readings_fault;
mod row;
mod stage;
mod step;
mod talk;

pub use carrier_poll::CarrierPoll;
pub use listed::{ColumnList, ListedColumn, list_columns};
pub use plan::{Columns, Plan, PollTerms};
pub use poll_fault::PollFault;
pub use poller::Poller;
pub use readings::Readings;
pub use readings_fault::ReadingsFault;
pub use row::Row;
pub use step::{PollHeard, PollOutcome, PollStep};
