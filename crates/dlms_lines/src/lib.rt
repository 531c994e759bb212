//! Lines to a meter, with a deadline: connections and serial ports; what a tool in the field asks of the world, and why it ends.
#![tactic(auto)]

mod deadline;
mod fault;
pub mod laws;
mod line;
mod meter_line;
mod place;
mod serial;
mod steady;
mod wire;

pub use deadline::{Deadline, Timer, is_over};
pub use fault::{ClockFault, FieldFault};
pub use line::Line;
pub use meter_line::{Dialling, MeterLine};
pub use place::host_and_port;
pub use serial::Serial;
pub use steady::{HostClock, Steady, since};
