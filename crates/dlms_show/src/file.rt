//! A file's bytes, read and never written.
ghost use Rattle.std.specs.Prelude.{◌≤◌, length, IfOk};
ghost use Rattle.dlms_show.specs.declared.file.TheConstants.{MOST_BYTES};

use dlms_pages::SLOT_BYTES;
use dlms_store::PAGES;
use std::alloc::Global;
use std::fs::{File, OpenOptions, TryLockError};
use std::io;
use std::io::{ErrorKind, Read};
use std::rt::Files;

/// The bytes of the pages in a file: 62 slots of 544 bytes.
pub const MOST_BYTES: usize = PAGES as usize * SLOT_BYTES;

/// The first bytes of a file, and how many it has in all.
#[derive(Drop)]
pub struct Bytes {
    /// The bytes of its pages, as far as they are there.
    pub pages: Vec<u8>,
    /// How many bytes it has.
    pub length: u64,
}

/// Takes the file's shared advisory lock, and does not wait for it.
fn lock_shared(file: &File) -> io::Result<()> {
    match file.try_lock_shared() {
        Ok(()) => Ok(()),
        Err(TryLockError::WouldBlock) => Err(io::Error::new(
            ErrorKind::WouldBlock,
            "in use by another program",
        )),
        Err(TryLockError::Error(e)) => Err(e),
    }
}

/// Reads until the room is full or the file ends, and says how many bytes came.
fn fill(file: &mut File, room: &mut [u8]) -> io::Result<usize> {
    let mut filled = 0usize;
    for _ in 0..MOST_BYTES {
        if filled >= room.len() {
            break;
        }
        let count = file.read(&mut room[filled..])?;
        if count == 0 {
            break;
        }
        filled += count;
    }
    Ok(filled)
}

/// Reads a file's pages under its shared advisory lock, which other readers may hold too. The file is opened for reading alone. A
/// file that another program has for itself is the fault `WouldBlock`.
pub fn bytes_of<R: Files<File = File> + AllocGlobal>(rt: &R, path: &str) -> io::Result<Bytes>
    ensures { IfOk result (λ bytes. length bytes.pages.items ≤ MOST_BYTES) }
{
    let mut file = OpenOptions::new().read(true).open(rt, path)?;
    lock_shared(&file)?;
    let length = file.metadata()?.len();
    let mut pages = vec![in rt.alloc(); 0u8; MOST_BYTES]?;
    let filled = fill(&mut file, &mut pages)?;
    pages.truncate(filled);
    Ok(Bytes { pages, length })
}
