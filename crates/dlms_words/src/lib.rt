//! The command line: the commands, their arguments, and the job that they ask for.
#![tactic(auto)]

mod addresses;
mod arguments;
mod commands;
mod conflicts;
mod defaults;
mod grammar;
mod help;
mod jobs;
pub mod laws;
mod numbers;
mod requests;
mod shared;
mod table;
mod values;
mod words;

pub use addresses::{Place, split_place};
pub use arguments::{Argument, Kind};
pub use commands::{
    ActOptions, Asking, ClockOptions, CollectOptions, ColorChoice, Expecting, ExplainOptions,
    FormatOptions, GetOptions, Job, KeysOptions, ListOptions, ListenOptions, LoopbackOptions,
    MeterOptions, OutputFormat, PlotOptions, PollOptions, ProfileOptions, ServeOptions, SetOptions,
    Shell, ShowOptions, TableFormat, ValueFormat,
};
pub use help::ABOUT;
pub use numbers::number;
pub use table::{COMMANDS, CommandWords, VERSION};
pub use words::job;
