//! Why settings are refused.

use crate::setting::Setting;
use dlms_counters::{CreateFault, OpenFault};
use std::io;
use thiserror::Error;

/// Why settings are refused. No fault contains a value, since it could be a key.
#[derive(Clone, Copy, Debug, PartialEq, Eq, Error)]
pub enum SettingsFault {
    /// The text is not TOML.
    #[error("the text is not TOML")]
    Toml,
    /// A name is not one of the settings.
    #[error("there is an unknown name")]
    Unknown,
    /// This setting is missing.
    #[error("a setting is missing")]
    Missing(Setting),
    /// This setting has a value of another type or length, a word that is not one of its own, or one that does not go with another.
    #[error("a setting has an invalid value")]
    Invalid(Setting),
    /// A growth was refused.
    #[error("out of memory")]
    Memory,
}

/// Why a text of stations is refused. No fault contains a value, since it could be a key.
#[derive(Clone, Copy, Debug, Error)]
pub enum StationsFault {
    /// The text is not TOML.
    #[error("the text is not TOML")]
    Toml,
    /// It has something else than `[[station]]` tables, or none of these.
    #[error("there is something else than [[station]] tables, or none of these")]
    Other,
    /// It has more than 256 stations.
    #[error("there are more than 256 stations")]
    Many,
    /// The station with this number, counted from 1, is refused.
    #[error("station {0}: {1}")]
    At(usize, SettingsFault),
    /// A growth was refused.
    #[error("out of memory")]
    Memory,
}

/// Why a file of settings or of stations is refused.
#[derive(Clone, Copy, Debug, Error)]
pub enum FileFault {
    /// A call of the system failed.
    #[error("{0}")]
    System(io::Error),
    /// Others than the file's owner may read or write it.
    #[error("others than its owner may read or write it")]
    Exposed,
    /// The file has more than 65,536 bytes.
    #[error("more than 65536 bytes")]
    Large,
    /// Its text says no settings.
    #[error("{0}")]
    Settings(SettingsFault),
    /// Its text says no stations.
    #[error("{0}")]
    Stations(StationsFault),
}

impl From<io::Error> for FileFault {
    fn from(error: io::Error) -> Self {
        FileFault::System(error)
    }
}

/// Why a file of counters was not made or opened.
#[derive(Clone, Copy, Debug, Error)]
pub enum CountersFault {
    /// A call of the system failed.
    #[error("{0}")]
    System(io::Error),
    /// The file was not made.
    #[error("{0}")]
    Create(CreateFault),
    /// The file was not opened.
    #[error("{0}")]
    Open(OpenFault),
}

impl From<io::Error> for CountersFault {
    fn from(error: io::Error) -> Self {
        CountersFault::System(error)
    }
}
