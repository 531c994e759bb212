//! The settings of a client that protects its messages (security suite 0 of IEC 62056-5-3), as a TOML text says them, and its file of
//! frame counters; the keys of stations, which open the messages of a log.
#![tactic(auto)]

mod fault;
mod members;
mod place;
mod setting;
mod settings;
mod station;
mod stations;

pub use fault::{CountersFault, FileFault, SettingsFault, StationsFault};
pub use place::{
    StoredCounters, counters_path, make_counters, open_counters, read_settings, read_stations,
};
pub use setting::Setting;
pub use settings::Settings;
pub use station::Station;
pub use stations::{Keyring, Stations};
