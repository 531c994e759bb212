//! The folder in which a file stands.
use std::fs::{Files, OpenFile, OpenOptions};
use std::io;
use std::path::Path;

/// Makes the name of a file survive a stop: syncs its folder, or the current folder for a plain name. A folder that cannot be
/// opened for reading, or synced, is an error.
pub fn sync_folder<R: Files>(rt: &R, path: &str) -> io::Result<()> {
    let folder = match Path::new(path).parent() {
        Some(folder) if !folder.as_str().is_empty() => folder,
        _ => Path::new("."),
    };
    OpenOptions::new().read(true).open(rt, folder)?.sync_all()
}
