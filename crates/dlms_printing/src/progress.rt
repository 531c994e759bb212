//! How far the rows of a profile, or the bytes of a file, have come, for somebody who waits for them.

use dlms_text::append_number;
use std::alloc::{AllocError, Global};
use std::io;
use std::io::Write;
use std::time::{Clock, Duration, Instant};

/// How much of the progress is shown.
#[derive(Clone, Copy, PartialEq, Eq)]
pub enum Showing {
    Nothing,
    /// A line at the end.
    Total,
    /// A line that is redrawn while rows come, and one at the end.
    Progress,
}

/// The shortest time between two drawings, in milliseconds.
const INTERVAL: u64 = 100;

/// The milliseconds of a second, before which no rate is shown.
const SECOND: u64 = 1_000;

/// The rows that were printed: how many, how many there are by the buffer, and the times of the first and the last one.
#[derive(Drop)]
pub struct RowsSeen {
    pub count: u32,
    pub all: u32,
    first: Vec<u8>,
    last: Vec<u8>,
}

impl RowsSeen {
    /// No rows yet.
    pub fn new(alloc: Global) -> Self {
        RowsSeen {
            count: 0,
            all: 0,
            first: Vec::new(alloc),
            last: Vec::new(alloc),
        }
    }

    /// No rows any more: they are counted anew.
    pub fn clear(&mut self) {
        self.count = 0;
        self.first.clear();
        self.last.clear();
    }

    /// A row with this time, or without one.
    pub fn note(&mut self, time: &[u8]) -> Result<(), AllocError> {
        self.count = self.count.saturating_add(1);
        if self.count == 1 {
            self.first.extend_from_slice(time)?;
        }
        self.last.clear();
        self.last.extend_from_slice(time)
    }

    /// Appends the line at the end: `96 rows, 2026-11-26T00:15:00 to 2026-11-27T00:00:00`.
    fn append_total(&self, text: &mut Vec<u8>) -> Result<(), AllocError> {
        let word: &[u8] = if self.count == 1 { b" row" } else { b" rows" };
        let (first, last) = (self.first.as_slice(), self.last.as_slice());
        append_closing(text, u64::from(self.count), word, first, last)
    }
}

/// The part of the expected data that has come.
pub trait Seen {
    /// Appends the line that is redrawn, after so many milliseconds.
    fn append_progress(&self, text: &mut Vec<u8>, passed: u64) -> Result<(), AllocError>;
}

/// The bytes of a file that were read, and how many it has.
#[derive(Clone, Copy)]
pub struct BytesSeen {
    pub done: u64,
    pub all: u64,
}

impl Seen for BytesSeen {
    /// As `1048576 of 4194304 bytes, 25 %`.
    fn append_progress(&self, text: &mut Vec<u8>, _passed: u64) -> Result<(), AllocError> {
        append_number(text, self.done)?;
        text.extend_from_slice(b" of ")?;
        append_number(text, self.all)?;
        text.extend_from_slice(b" bytes, ")?;
        append_number(text, self.done.saturating_mul(100) / self.all.max(1))?;
        text.extend_from_slice(b" %")
    }
}

impl Seen for RowsSeen {
    /// As `40 of 96 rows, 2026-11-26T10:00:00, 12 a second`.
    fn append_progress(&self, text: &mut Vec<u8>, passed: u64) -> Result<(), AllocError> {
        append_number(text, u64::from(self.count))?;
        text.extend_from_slice(b" of ")?;
        append_number(text, u64::from(self.all))?;
        text.extend_from_slice(b" rows")?;
        if !self.last.is_empty() {
            text.extend_from_slice(b", ")?;
            text.extend_from_slice(self.last.as_slice())?;
        }
        if passed < SECOND {
            return Ok(());
        }
        text.extend_from_slice(b", ")?;
        let thousands = u64::from(self.count).saturating_mul(SECOND);
        append_number(text, thousands / passed)?;
        text.extend_from_slice(b" a second")
    }
}

/// Appends a closing line: how many rows there are, by this word, and the times of the first and the last one, if they have times.
pub fn append_closing(
    text: &mut Vec<u8>,
    count: u64,
    word: &[u8],
    first: &[u8],
    last: &[u8],
) -> Result<(), AllocError> {
    append_number(text, count)?;
    text.extend_from_slice(word)?;
    if !first.is_empty() {
        text.extend_from_slice(b", ")?;
        text.extend_from_slice(first)?;
    }
    if count > 1 && !last.is_empty() {
        text.extend_from_slice(b" to ")?;
        text.extend_from_slice(last)?;
    }
    text.extend_from_slice(b"\n")
}

/// Follows rows while they come.
pub trait Following {
    /// More of the buffer was read.
    fn follow(&mut self, seen: &RowsSeen);

    /// No more comes; whether all of it came.
    fn end(&mut self, seen: &RowsSeen, is_whole: bool);
}

/// Follows no rows.
#[derive(Clone, Copy)]
pub struct Unfollowed;

impl Following for Unfollowed {
    fn follow(&mut self, _seen: &RowsSeen) {}

    fn end(&mut self, _seen: &RowsSeen, _is_whole: bool) {}
}

/// The line of progress, on standard error.
#[derive(Drop)]
pub struct Progress<'e, H, E> {
    host: &'e H,
    alloc: Global,
    errors: &'e mut E,
    showing: Showing,
    begun: Option<Instant>,
    /// How many milliseconds had passed at the last drawing.
    drawn: Option<u64>,
    /// How wide the drawn line is.
    width: usize,
}

/// The milliseconds of a duration.
fn milliseconds(passed: Duration) -> u64 {
    passed
        .as_secs()
        .saturating_mul(SECOND)
        .saturating_add(u64::from(passed.subsec_millis()))
}

/// Appends blanks.
pub fn append_blanks(text: &mut Vec<u8>, count: usize) -> Result<(), AllocError> {
    for _ in 0..count {
        text.extend_from_slice(b" ")?;
    }
    Ok(())
}

impl<'e, H: Clock, E: Write> Progress<'e, H, E> {
    /// Nothing is drawn yet.
    pub fn new(host: &'e H, alloc: Global, errors: &'e mut E, showing: Showing) -> Self {
        Progress {
            host,
            alloc,
            errors,
            showing,
            begun: None,
            drawn: None,
            width: 0,
        }
    }

    /// The milliseconds since the first look at the buffer; `None` if the clock cannot be read.
    fn passed(&mut self) -> Option<u64> {
        let Ok(now) = Instant::now(self.host) else {
            return None;
        };
        match self.begun {
            Some(begun) => Some(milliseconds(now.duration_since(begun))),
            None => {
                self.begun = Some(now);
                Some(0)
            }
        }
    }

    /// Whether the line may be drawn again after this time.
    fn is_due(&self, passed: u64) -> bool {
        match self.drawn {
            Some(drawn) => passed >= drawn.saturating_add(INTERVAL),
            None => true,
        }
    }

    /// Appends the line over the one that was drawn before it.
    fn append_drawing<S: Seen>(
        &mut self,
        text: &mut Vec<u8>,
        seen: &S,
        passed: u64,
    ) -> Result<(), AllocError> {
        text.extend_from_slice(b"\r")?;
        seen.append_progress(text, passed)?;
        let width = text.len().saturating_sub(1);
        append_blanks(text, self.width.saturating_sub(width))?;
        self.width = width;
        Ok(())
    }

    /// Draws the line again, at most ten times a second. Errors in writing are ignored.
    pub fn show<S: Seen>(&mut self, seen: &S) {
        if self.showing != Showing::Progress {
            return;
        }
        let Some(passed) = self.passed() else {
            return;
        };
        if !self.is_due(passed) {
            return;
        }
        self.drawn = Some(passed);
        let mut text = Vec::new(self.alloc);
        if self.append_drawing(&mut text, seen, passed).is_ok() {
            let _written = self.errors.write_all(text.as_slice());
        }
    }

    /// Clears the line that was drawn. Errors in writing are ignored.
    pub fn clear(&mut self) {
        let mut text = Vec::new(self.alloc);
        if self.append_clearing(&mut text).is_ok() {
            let _written = self.errors.write_all(text.as_slice());
        }
        self.width = 0;
    }

    /// Writes something else in place of the line that was drawn.
    pub fn write_instead(&mut self, octets: &[u8]) -> io::Result<usize> {
        self.clear();
        self.errors.write(octets)
    }

    /// Flushes standard error.
    pub fn flush(&mut self) -> io::Result<()> {
        self.errors.flush()
    }

    /// Appends what clears the line that was drawn.
    fn append_clearing(&self, text: &mut Vec<u8>) -> Result<(), AllocError> {
        if self.width == 0 {
            return Ok(());
        }
        text.extend_from_slice(b"\r")?;
        append_blanks(text, self.width)?;
        text.extend_from_slice(b"\r")
    }

    /// Appends the last line.
    fn append_end(
        &self,
        text: &mut Vec<u8>,
        seen: &RowsSeen,
        is_whole: bool,
    ) -> Result<(), AllocError> {
        self.append_clearing(text)?;
        if is_whole || seen.count > 0 {
            seen.append_total(text)?;
        }
        Ok(())
    }
}

impl<H: Clock, E: Write> Following for Progress<'_, H, E> {
    fn follow(&mut self, seen: &RowsSeen) {
        if seen.count > 0 {
            self.show(seen);
        } else if self.showing == Showing::Progress {
            let _begun = self.passed();
        }
    }

    fn end(&mut self, seen: &RowsSeen, is_whole: bool) {
        if self.showing == Showing::Nothing {
            return;
        }
        let mut text = Vec::new(self.alloc);
        if self.append_end(&mut text, seen, is_whole).is_ok() {
            let _written = self.errors.write_all(text.as_slice());
        }
    }
}
