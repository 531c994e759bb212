//! Requests to a meter as a job of a fleet: one after another, as a script gives them, over any route, in clear or protected; and the
//! job of a seat that polls meters or asks them.
#![tactic(auto)]

mod ask_job;
mod attributes;
mod classes;
mod clock;
mod clock_script;
mod fault;
pub mod laws;
mod meter_job;
mod questions;
mod script;

pub use ask_job::AskJob;
pub use attributes::{Attributes, Reading};
pub use classes::{class_by_name, class_named, object_list, scale_of, scaler_of};
pub use clock::{Comparison, clock_in, is_off, second_of, shift_for, time_to_set, twelve};
pub use clock_script::{ClockScript, Correction, SHIFT_TIME, TIME, clock_part};
pub use fault::InquiryFault;
pub use meter_job::{JobFault, MeterJob};
pub use questions::{Questions, Reply};
pub use script::{Question, Script};
