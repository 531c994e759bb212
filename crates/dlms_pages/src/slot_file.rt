//! A file as slots: what is asked of it, what came of that, and the rules by which it may be a disk.
ghost use Rattle.std.specs.Prelude.{◌≡◌, true, [], ◌∷◌};
ghost use Rattle.dlms_pages.specs.SlotCalls.{Asks, came_of, passed};
ghost use Rattle.dlms_pages.specs.Slots.{Slots, Gives};
ghost use Rattle.dlms_pages.specs.declared.asking.SlotCall.TheVariants.{Reads, Writes, Syncs};

use crate::asking::{Came, SlotCall};
use crate::past::Past;
use crate::seal::SLOT_BYTES;
use std::fs::OpenFile;
use std::io;
use std::io::{ErrorKind, Read, Seek, SeekFrom, Write};
use std::marker::Model;

/// A file in which slots of 544 bytes stand one after another: slot `i` from byte `544 * i` on.
pub trait SlotFile {
    /// The facts known about the file: the calls made, and whether it keeps the rules of `Slots`.
    ghost slots: { Self → Slots };

    /// Reads a slot, and says whether the file has all of it.
    fn read_slot(&mut self, index: u16, slot: &mut [u8; SLOT_BYTES]) -> io::Result<bool>
        ensures asked { Asks (slots self.old) (slots self.new)
            (Reads index (came_of result slot.new) ∷ []) }
        ensures gives { (slots self.old).keeps ≡ true
            → Gives (slots self.old) index (came_of result slot.new) };

    /// Writes a slot.
    fn write_slot(&mut self, index: u16, slot: &[u8; SLOT_BYTES]) -> io::Result<()>
        ensures { Asks (slots self.old) (slots self.new)
            (Writes index slot.now (passed result) ∷ []) };

    /// Asks the system to make what was written outlast a stop.
    fn sync(&mut self) -> io::Result<()>
        ensures { Asks (slots self.old) (slots self.new) (Syncs (passed result) ∷ []) };
}

/// A file of the system as slots. Whether it keeps the rules cannot be seen from outside.
#[derive(Drop)]
pub struct FileSlots<F> {
    file: F,
    past: Past<SlotCall>,
}

impl<F> Model for FileSlots<F> {
    ghost use Rattle.std.specs.Prelude.{[], false, reverse};
    ghost use Rattle.dlms_pages.specs.Slots.{Slots};

    ghost Value = { Slots };

    ghost view = { λ s. record {
      keeps = false;
      first = [];
      calls = reverse s.past.calls;
    } };
}

impl<F> FileSlots<F> {
    /// The slots of this file.
    pub fn of(file: F) -> FileSlots<F> {
        FileSlots {
            file,
            past: Past::new(),
        }
    }
}

impl<F: Read + Write + Seek + OpenFile> FileSlots<F> {
    // Reads the octets at the slot's place.
    fn get(&mut self, index: u16, slot: &mut [u8; SLOT_BYTES]) -> io::Result<bool>
        ensures { self.new ≡ self.old }
    {
        self.file
            .seek(SeekFrom::Start(u64::from(index) * SLOT_BYTES as u64))?;
        match self.file.read_exact(slot) {
            Ok(()) => Ok(true),
            Err(e) if e.kind() == ErrorKind::UnexpectedEof => Ok(false),
            Err(e) => Err(e),
        }
    }

    // Writes to the slot's place.
    fn put(&mut self, index: u16, slot: &[u8; SLOT_BYTES]) -> io::Result<()>
        ensures { self.new ≡ self.old }
    {
        self.file
            .seek(SeekFrom::Start(u64::from(index) * SLOT_BYTES as u64))?;
        self.file.write_all(slot.as_slice())
    }
}

impl<F: Read + Write + Seek + OpenFile> SlotFile for FileSlots<F> {
    ghost slots = { λ s. s };

    fn read_slot(&mut self, index: u16, slot: &mut [u8; SLOT_BYTES]) -> io::Result<bool> {
        let result = self.get(index, slot);
        let came = match &result {
            Ok(true) => Came::Slot(*slot),
            Ok(false) => Came::Short,
            Err(_) => Came::Failed,
        };
        self.past = self.past.and(&SlotCall::Reads { index, came });
        result
    }

    fn write_slot(&mut self, index: u16, slot: &[u8; SLOT_BYTES]) -> io::Result<()> {
        let result = self.put(index, slot);
        let passed = result.is_ok();
        self.past = self.past.and(&SlotCall::Writes {
            index,
            slot: *slot,
            passed,
        });
        result
    }

    fn sync(&mut self) -> io::Result<()> {
        let result = self.file.sync_all();
        let passed = result.is_ok();
        self.past = self.past.and(&SlotCall::Syncs { passed });
        result
    }
}
