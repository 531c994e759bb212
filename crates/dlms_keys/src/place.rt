//! The files of settings and of frame counters.

ghost use Rattle.std.specs.Prelude.{◌≡◌, ◌==◌, IfOk, bit_and};
ghost use Rattle.std.specs.Path.{path_buf_bytes};
ghost use Rattle.dlms_keys.specs.Place.{counters_path};

use crate::fault::{CountersFault, FileFault};
use crate::settings::Settings;
use crate::stations::Stations;
use dlms_counters::{CounterFile, SLOTS};
use dlms_pages::{FilePages, FileSlots};
use std::alloc::{AllocError, Global};
use std::fs::{File, Files, OpenFile};
use std::io::Read;
use std::os::unix::fs::PermissionsExt;
use std::path::{Path, PathBuf};
use std::{fs, io};

/// The most bytes of a file of settings.
const MOST_BYTES: usize = 65_536;

/// The permissions of others than the owner (POSIX, S_IRWXG and S_IRWXO).
const OTHERS: u32 = 0o077;

/// The frame counters in a file of the system.
pub type StoredCounters = CounterFile<FilePages<FileSlots<File>, Global>>;

/// Whether only its owner may use a file of these permissions.
fn is_private(mode: u32) -> bool
    ensures { result ≡ (bit_and mode 0o077 == 0) }
{
    mode & OTHERS == 0
}

/// The text of a file that is its owner's alone.
fn private_text<H: Files + AllocGlobal>(host: &H, path: &str) -> Result<String, FileFault> {
    let file = fs::open(host, path)?;
    if !is_private(file.metadata()?.permissions().mode()) {
        return Err(FileFault::Exposed);
    }
    let text = io::read_to_string(host.alloc(), file.take(MOST_BYTES as u64 + 1))?;
    if text.len() > MOST_BYTES {
        return Err(FileFault::Large);
    }
    Ok(text)
}

/// Reads the settings in a file. A file that others than its owner may read or write is refused, and so is one of more than 65,536
/// bytes.
pub fn read_settings<H: Files + AllocGlobal>(host: &H, path: &str) -> Result<Settings, FileFault> {
    let text = private_text(host, path)?;
    match Settings::read(host.alloc(), text.as_str()) {
        Ok(settings) => Ok(settings),
        Err(fault) => Err(FileFault::Settings(fault)),
    }
}

/// Reads the keys of stations in a file. A file that others than its owner may read or write is refused, and so is one of more than
/// 65,536 bytes.
pub fn read_stations<H: Files + AllocGlobal>(host: &H, path: &str) -> Result<Stations, FileFault> {
    let text = private_text(host, path)?;
    match Stations::read(host.alloc(), text.as_str()) {
        Ok(stations) => Ok(stations),
        Err(fault) => Err(FileFault::Stations(fault)),
    }
}

/// The path of the file of counters: the one that the settings name, from the folder of their own file.
pub fn counters_path(alloc: Global, file: &str, settings: &Settings) -> Result<PathBuf, AllocError>
    ensures { IfOk result (λ path. path_buf_bytes path
        ≡ counters_path file.now settings.now.counters) }
{
    let folder = match Path::new(file).parent() {
        Some(folder) => folder,
        None => Path::new(""),
    };
    folder.join(alloc, settings.counters.as_str())
}

/// Makes the file of counters, where no file is. `first` is 0 for a new key, and otherwise a number above every counter that the
/// client used with this title and key.
pub fn make_counters<H: Files<File = File> + AllocGlobal>(
    host: &H,
    path: &str,
    settings: &Settings,
    first: u32,
) -> Result<StoredCounters, CountersFault> {
    let pages = FilePages::create_new(host, path, SLOTS)?;
    match CounterFile::create(pages, &settings.title, &settings.encryption_key, first) {
        Ok(counters) => Ok(counters),
        Err((pages, fault)) => {
            drop(pages);
            Err(CountersFault::Create(fault))
        }
    }
}

/// Opens the file of counters. A missing, damaged or foreign one is refused, and is never taken for a new one.
pub fn open_counters<H: Files<File = File> + AllocGlobal>(
    host: &H,
    path: &str,
    settings: &Settings,
) -> Result<StoredCounters, CountersFault> {
    let pages = FilePages::open(host, path, SLOTS)?;
    match CounterFile::open(pages, &settings.title, &settings.encryption_key) {
        Ok(counters) => Ok(counters),
        Err((pages, fault)) => {
            drop(pages);
            Err(CountersFault::Open(fault))
        }
    }
}
