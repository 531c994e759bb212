//! The load profile as a step curve: in the terminal, and as a self-contained SVG.
#![tactic(auto)]

mod canvas;
mod captures;
mod choice;
mod date;
mod fault;
mod json;
mod quantity;
mod readings;
mod scale;
mod series;
mod svg;
mod terminal;
mod usual;

pub use captures::{Gap, Period, Sample, power};
pub use choice::Choice;
pub use date::{Date, Day, Iso, Minute};
pub use fault::PlotFault;
pub use quantity::{Quantity, Thousandth};
pub use readings::{Curve, Form, plot_chosen, plot_readings};
pub use series::Series;
pub use terminal::write_text;
