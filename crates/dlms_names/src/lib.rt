//! The names that the standards give numbers: classes of objects with their attributes and methods, OBIS codes, results and
//! errors, services and APDUs. They are looked up; nothing is written here.
#![tactic(auto)]

mod class;
mod classes;
mod codes;
mod communication;
mod control;
mod exchange;
mod groups;
mod management;
mod measurement;
mod objects;
mod results;
mod services;
mod units;

pub use class::Class;
pub use classes::class_of;
pub use codes::code_name;
pub use groups::{medium_name, phase_name, processing_name, quantity_name};
pub use objects::{KnownObject, OBJECTS, code_of};
pub use results::{
    access_result, action_result, diagnostic, initiate_error, release_request, release_response,
    service_error, state_error,
};
pub use services::{apdu_name, service_name};
pub use units::unit_name;
