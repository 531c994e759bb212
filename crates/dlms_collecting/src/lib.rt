//! Polls many meters side by side in one process, each into a readings file of its own, or requests attributes of them, or compares and
//! corrects their clocks.
#![tactic(auto)]

mod collecting;
mod descriptors;
mod fault;
mod grouped;
pub mod laws;
mod list;
mod list_fault;
mod meter_file;
mod named;
mod order;
mod own;
mod pace;
mod progress;
mod report;
mod results;
mod round;
mod schedule;
mod texts;
mod values;
mod wires;

pub use collecting::{Collection, Purpose, collect};
pub use fault::{CollectFault, FailedMeter, FaultText, MeterFailure, MeterFault, Refusal};
pub use list::{Defaults, Meter, read_list};
pub use list_fault::{LineFault, ListFault};
pub use named::{Named, RowFormat, append_second};
pub use report::Tally;
pub use values::{MeterClock, MeterValue, ValueText};
