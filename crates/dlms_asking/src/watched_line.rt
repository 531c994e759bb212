//! A line that shows how many octets have come while they come.

use dlms_lines::Dialling;
use dlms_printing::{Progress, Seen, Showing};
use dlms_text::append_number;
use std::alloc::{AllocError, Global};
use std::cell::RefCell;
use std::io;
use std::io::{ErrorKind, Read, Write};
use std::time::Clock;

/// The milliseconds of a second, before which no rate is shown.
const SECOND: u64 = 1_000;

/// The octets that came from a meter.
#[derive(Clone, Copy)]
struct OctetsSeen {
    count: u64,
}

impl Seen for OctetsSeen {
    /// As `4096 octets, 512 a second`.
    fn append_progress(&self, text: &mut Vec<u8>, passed: u64) -> Result<(), AllocError> {
        append_number(text, self.count)?;
        text.extend_from_slice(b" octets")?;
        if passed < SECOND {
            return Ok(());
        }
        text.extend_from_slice(b", ")?;
        append_number(text, self.count.saturating_mul(SECOND) / passed)?;
        text.extend_from_slice(b" a second")
    }
}

/// Counts the octets that came from a meter.
pub trait CountsOctets {
    /// So many octets came.
    fn count(&mut self, octets: usize);
}

/// The errors, on which a line shows how many octets have come. What is written to them takes the place of that line.
#[derive(Drop)]
pub struct OctetProgress<'e, H, E> {
    progress: Progress<'e, H, E>,
    count: u64,
}

impl<'e, H: Clock, E: Write> OctetProgress<'e, H, E> {
    /// No octets have come.
    pub fn new(host: &'e H, alloc: Global, errors: &'e mut E, showing: Showing) -> Self {
        OctetProgress {
            progress: Progress::new(host, alloc, errors, showing),
            count: 0,
        }
    }

    /// No more octets come: the line is cleared.
    pub fn end(&mut self) {
        self.progress.clear();
    }
}

impl<H: Clock, E: Write> CountsOctets for OctetProgress<'_, H, E> {
    fn count(&mut self, octets: usize) {
        self.count = self.count.saturating_add(octets as u64);
        self.progress.show(&OctetsSeen { count: self.count });
    }
}

impl<H: Clock, E: Write> Write for OctetProgress<'_, H, E> {
    fn write(&mut self, buf: &[u8]) -> io::Result<usize> {
        let written = self.progress.write_instead(buf)?;
        Ok(written.min(buf.len()))
    }

    fn flush(&mut self) -> io::Result<()> {
        self.progress.flush()
    }
}

/// A line whose octets are counted.
#[derive(Drop)]
pub struct WatchedLine<'p, L, P> {
    pub line: L,
    pub progress: &'p RefCell<P>,
}

impl<L: Read, P: CountsOctets + Drop> Read for WatchedLine<'_, L, P> {
    fn read(&mut self, buf: &mut [u8]) -> io::Result<usize> {
        let count = self.line.read(buf)?;
        if let Ok(mut progress) = self.progress.try_borrow_mut() {
            progress.count(count);
        }
        Ok(count)
    }
}

impl<L: Write, P> Write for WatchedLine<'_, L, P> {
    fn write(&mut self, buf: &[u8]) -> io::Result<usize> {
        self.line.write(buf)
    }

    fn flush(&mut self) -> io::Result<()> {
        self.line.flush()
    }
}

impl<L: Read + Write + Dialling, P: CountsOctets + Drop> Dialling for WatchedLine<'_, L, P> {
    fn connect(&mut self, address: &str, seconds: u32) -> io::Result<bool> {
        self.line.connect(address, seconds)
    }

    fn failure(&self) -> Option<io::Error> {
        self.line.failure()
    }
}

/// Errors that a line shares with others.
#[derive(Drop)]
pub struct SharedErrors<'p, P>(pub &'p RefCell<P>);

impl<P: Write + Drop> Write for SharedErrors<'_, P> {
    fn write(&mut self, buf: &[u8]) -> io::Result<usize> {
        match self.0.try_borrow_mut() {
            Ok(mut errors) => errors.write(buf),
            Err(_) => Err(ErrorKind::Other.into()),
        }
    }

    fn flush(&mut self) -> io::Result<()> {
        match self.0.try_borrow_mut() {
            Ok(mut errors) => errors.flush(),
            Err(_) => Err(ErrorKind::Other.into()),
        }
    }
}
