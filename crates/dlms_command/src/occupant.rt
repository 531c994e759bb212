//! The present contents of the file for a new meter, so that nothing of the user's is overwritten.

use dlms_pages::{PageRead, SLOT_BYTES, open_slot};
use dlms_store::PAGES;
use std::fs::{File, Files};
use std::io::{ErrorKind, Read};
use std::{fs, io};

/// The kind of a file's contents.
#[derive(Clone, Copy, PartialEq, Eq)]
pub enum Occupant {
    /// Nothing: the file is not there, or is empty.
    Nothing,
    /// A meter, damaged or not: at least one page under its seal, or the zeros of a format that was stopped.
    Meter,
    /// Something else.
    Other,
}

/// What one slot of a file tells.
#[derive(Clone, Copy, PartialEq, Eq)]
enum Slot {
    /// The file ends before it.
    End,
    /// A page under its seal.
    Page,
    /// Zeros.
    Zeros,
    /// Something else, or a part of a slot.
    Other,
}

/// Reads as much of a slot as the file has.
fn fill<R: Read>(reader: &mut R, slot: &mut [u8; SLOT_BYTES]) -> io::Result<usize> {
    let mut count = 0usize;
    for _ in 0..SLOT_BYTES {
        let Some(rest) = slot.get_mut(count..) else {
            return Ok(count);
        };
        match reader.read(rest) {
            Ok(0) => return Ok(count),
            Ok(more) => count = count.saturating_add(more),
            Err(error) if error.kind() == ErrorKind::Interrupted => {}
            Err(error) => return Err(error),
        }
    }
    Ok(count)
}

/// Reads the next slot, which has this number.
fn next_slot<R: Read>(reader: &mut R, index: u16) -> io::Result<Slot> {
    let mut slot = [0u8; SLOT_BYTES];
    let count = fill(reader, &mut slot)?;
    if count == 0 {
        return Ok(Slot::End);
    }
    if count < SLOT_BYTES {
        return Ok(Slot::Other);
    }
    match open_slot(index, &slot) {
        PageRead::Content(_) => Ok(Slot::Page),
        PageRead::Damaged if slot.iter().all(|octet| *octet == 0) => Ok(Slot::Zeros),
        PageRead::Damaged => Ok(Slot::Other),
    }
}

/// Reads slot after slot.
fn look<R: Read>(reader: &mut R) -> io::Result<Occupant> {
    let mut zeros = 0u16;
    for index in 0..PAGES {
        match next_slot(reader, index)? {
            Slot::Page => return Ok(Occupant::Meter),
            Slot::Zeros => zeros = zeros.saturating_add(1),
            Slot::End if index == 0 => return Ok(Occupant::Nothing),
            Slot::End | Slot::Other => {}
        }
    }
    if zeros == PAGES {
        Ok(Occupant::Meter)
    } else {
        Ok(Occupant::Other)
    }
}

/// The kind of a file's contents. A name that leads to no file is nothing; a folder, a device and a file that cannot be read are
/// errors.
pub fn occupant_of<H: Files<File = File>>(host: &H, file: &str) -> io::Result<Occupant> {
    match fs::metadata(host, file) {
        Ok(metadata) if !metadata.is_file() => {
            return Err(io::Error::new(ErrorKind::InvalidInput, "no plain file"));
        }
        Ok(_) => {}
        Err(error) if error.kind() == ErrorKind::NotFound => return Ok(Occupant::Nothing),
        Err(error) => return Err(error),
    }
    let mut reader = fs::open(host, file)?;
    look(&mut reader)
}

/// Refuses to format a file that holds something, unless it is a meter and `force` is set.
pub fn refuse_occupied<H: Files<File = File>>(host: &H, file: &str, force: bool) -> io::Result<()> {
    match occupant_of(host, file)? {
        Occupant::Nothing => Ok(()),
        Occupant::Meter if force => Ok(()),
        Occupant::Meter => Err(io::Error::new(
            ErrorKind::AlreadyExists,
            "it holds a meter already, which --force formats anew",
        )),
        Occupant::Other => Err(io::Error::new(
            ErrorKind::AlreadyExists,
            "it holds something that is no meter",
        )),
    }
}
