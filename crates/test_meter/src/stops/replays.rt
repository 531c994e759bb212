//! Replays whose streams or device fail, or are interrupted.

use crate::stops::heaps::LEAST;
use crate::stops::stops::Fault;
use crate::stops::{FORMATS, formatted};
use dlms_meter::Meter;
use dlms_pages::MemoryPages;
use dlms_program::{ReplayFault, replay};
use dlms_store::PAGES;
use linked_list_allocator::LocalHeap;
use std::alloc::{AllocError, Global};
use std::io;
use std::io::{ErrorKind, Read, Write};

/// A line that counts a pulse. A page takes 82 of them: at the next one the device is called.
const PULSE: &[u8] = b"P 0 1\n";

/// What befalls the streams.
#[derive(Clone, Copy, PartialEq, Eq)]
enum Trouble {
    /// Nothing.
    Nothing,
    /// Each call is interrupted once.
    Interrupted,
    /// Behind the last byte the reader fails.
    ReaderFails,
    /// The writer fails after this many bytes.
    WriterFails(usize),
}

/// A replay, and its expected outcome.
#[derive(Clone, Copy)]
struct Case {
    /// How many pulses are counted first.
    pulses: u8,
    /// The lines after them.
    lines: &'static [u8],
    trouble: Trouble,
    /// How the device fails, from the first call after the format on.
    fault: Option<Fault>,
    ended: Result<(), ReplayFault>,
    printed: &'static [u8],
    /// The registers of the meter, if it is still there.
    registers: Option<[u32; 3]>,
}

/// The text replayed when the streams fail.
const STREAMS: Case = Case {
    pulses: 0,
    lines: b"P 0 42\nS\n",
    trouble: Trouble::Nothing,
    fault: None,
    ended: Ok(()),
    printed: b"state 42 0 0 0 0\n",
    registers: Some([42, 0, 0]),
};

/// A call that a signal interrupts is repeated; a reader that fails takes nothing back; a device that goes on failing is not opened
/// again, and one that failed once is, with the events that were settled before.
const CASES: [Case; 4] = [
    Case {
        trouble: Trouble::Interrupted,
        ..STREAMS
    },
    Case {
        lines: b"P 0 42\nS\nS",
        trouble: Trouble::ReaderFails,
        ended: Err(ReplayFault::Io),
        ..STREAMS
    },
    Case {
        pulses: 84,
        lines: b"P 3 1\nS\nO\nS\n",
        trouble: Trouble::Nothing,
        fault: Some(Fault::Fuse),
        ended: Err(ReplayFault::Recovery),
        printed: b"fault 2\nfault 3\nfault 3\nstate 82 0 0 0 0\nfault open 1\n",
        registers: None,
    },
    Case {
        pulses: 84,
        lines: b"O\nS\nP 0 1\nS\n",
        trouble: Trouble::Nothing,
        fault: Some(Fault::Once),
        ended: Ok(()),
        printed: b"fault 2\nfault 3\nopen\nstate 0 0 0 0 0\nstate 1 0 0 0 0\n",
        registers: Some([1, 0, 0]),
    },
];

/// Gives its bytes one at a time.
#[derive(Drop)]
struct Reader<'a> {
    bytes: &'a [u8],
    trouble: Trouble,
    interrupted: bool,
}

impl Read for Reader<'_> {
    fn read(&mut self, buf: &mut [u8]) -> io::Result<usize> {
        self.interrupted = !self.interrupted;
        if self.trouble == Trouble::Interrupted && self.interrupted {
            return Err(ErrorKind::Interrupted.into());
        }
        match (self.bytes.split_first(), buf.first_mut()) {
            (Some((first, rest)), Some(byte)) => {
                *byte = *first;
                self.bytes = rest;
                Ok(1)
            }
            _ if self.trouble == Trouble::ReaderFails => Err(ErrorKind::BrokenPipe.into()),
            _ => Ok(0),
        }
    }
}

/// Takes bytes one at a time.
#[derive(Drop)]
struct Writer {
    taken: Vec<u8>,
    trouble: Trouble,
    interrupted: bool,
}

impl Write for Writer {
    fn write(&mut self, buf: &[u8]) -> io::Result<usize> {
        self.interrupted = !self.interrupted;
        if self.trouble == Trouble::Interrupted && self.interrupted {
            return Err(ErrorKind::Interrupted.into());
        }
        if self.trouble == Trouble::WriterFails(self.taken.len()) {
            return Err(ErrorKind::BrokenPipe.into());
        }
        match buf.first() {
            Some(byte) => {
                self.taken.push(*byte)?;
                Ok(1)
            }
            None => Ok(0),
        }
    }

    fn flush(&mut self) -> io::Result<()> {
        Ok(())
    }
}

/// The lines of a case.
fn text_of(alloc: Global, case: &Case) -> Result<Vec<u8>, AllocError> {
    let mut text = Vec::new(alloc);
    for _ in 0..case.pulses {
        text.extend_from_slice(PULSE)?;
    }
    text.extend_from_slice(case.lines)?;
    Ok(text)
}

/// A device with this failure after a format.
fn device_of(alloc: Global, fault: Option<Fault>) -> Result<MemoryPages, AllocError> {
    let mut device = MemoryPages::new(alloc, PAGES)?;
    match fault {
        Some(Fault::Fuse) => device.fuse(FORMATS),
        Some(Fault::Once) => device.fail_once(FORMATS),
        None => {}
    }
    Ok(device)
}

/// Whether a replay comes out differently, if this many of the bytes can be printed.
fn differs(alloc: Global, case: &Case, room: usize) -> Result<bool, AllocError> {
    let text = text_of(alloc, case)?;
    let mut meter = formatted(alloc, device_of(alloc, case.fault)?);
    if meter.is_none() {
        return Ok(true);
    }
    let mut reader = Reader {
        bytes: text.as_slice(),
        trouble: case.trouble,
        interrupted: false,
    };
    let mut writer = Writer {
        taken: Vec::new(alloc),
        trouble: case.trouble,
        interrupted: false,
    };
    let ended = replay(alloc, &mut reader, &mut writer, &mut meter);
    let registers = meter.map(|meter| meter.state().registers());
    let printed = case.printed.get(..room).unwrap_or(case.printed);
    Ok(ended != case.ended || registers != case.registers || writer.taken.as_slice() != printed)
}

/// Whether a line `O` is refused its memory, on a heap of this many bytes, and what it prints then; None if anything else comes.
fn refused_on(alloc: Global, size: usize) -> Result<Option<bool>, AllocError> {
    let ample = LocalHeap::new(alloc, 65_536)?;
    let small = LocalHeap::new(alloc, size)?;
    let Ok(meter) = Meter::format(&ample, MemoryPages::new(alloc, PAGES)?) else {
        return Ok(None);
    };
    let mut meter = Some(meter);
    let mut reader: &[u8] = b"P 0 42\nO\nS\n";
    let mut writer = Vec::new(alloc);
    let ended = replay(&small, &mut reader, &mut writer, &mut meter);
    let printed = writer.as_slice();
    if ended.is_ok() && printed == b"open\nstate 42 0 0 0 0\n".as_slice() {
        return Ok(Some(false));
    }
    if ended == Err(ReplayFault::Recovery) && printed == b"fault open 4\n".as_slice() {
        return Ok(Some(true));
    }
    Ok(None)
}

/// Whether a line `O` is refused its memory on each heap that lacks the room of the lines and rows, and on no larger one, a step apart.
pub fn is_refused_at_recovery(alloc: Global) -> Result<bool, AllocError> {
    for step in 0..120usize {
        let size = step.saturating_mul(512);
        if refused_on(alloc, size)? != Some(size < LEAST) {
            return Ok(false);
        }
    }
    Ok(true)
}

/// How many replays there were, and how many came out otherwise.
pub fn replays(alloc: Global) -> Result<(u32, u32), AllocError> {
    let (mut runs, mut differ) = (0u32, 0u32);
    for case in &CASES {
        runs = runs.saturating_add(1);
        if differs(alloc, case, case.printed.len())? {
            differ = differ.saturating_add(1);
        }
    }
    for room in 0..STREAMS.printed.len() {
        let case = Case {
            lines: b"P 0 42\nS\nP 0 1\n",
            trouble: Trouble::WriterFails(room),
            ended: Err(ReplayFault::Io),
            ..STREAMS
        };
        runs = runs.saturating_add(1);
        if differs(alloc, &case, room)? {
            differ = differ.saturating_add(1);
        }
    }
    Ok((runs, differ))
}
