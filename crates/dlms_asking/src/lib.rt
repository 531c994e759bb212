//! The commands that ask a meter: the line and the route to it, the association and its protection, the requests.
#![tactic(auto)]

mod asking;
mod changes;
mod clock;
mod connection;
mod counter;
mod explained_messages;
mod explained_stream;
mod given;
mod guards;
mod keys;
mod listing;
mod over_line;
mod pace;
mod profile;
mod requests;
mod route;
mod security;
mod setting;
mod watched_line;

pub use asking::{ask_for_clock, ask_for_profile, ask_to_act, ask_to_get, ask_to_list, ask_to_set};
pub use clock::{append_correction, append_csv, correction_word};
pub use given::now;
pub use guards::{PollGuards, guards_of, passed};
pub use keys::{run_keys, stations_of};
pub use pace::{Pace, ask_for_pace};
pub use profile::{LAST_OF_DAY, MIDNIGHT, second_in};
pub use route::{PollLine, poll_line, poll_secret, public_route};
pub use watched_line::{CountsOctets, OctetProgress, SharedErrors, WatchedLine};
