//! The line that shows how far a collection has come.

use crate::pace::milliseconds_between;
use crate::report::Tally;
use dlms_ends::put;
use dlms_filing::Output;
use std::io;
use std::io::Write;
use std::time::Instant;

/// Clears the line of a terminal from the cursor on (ECMA-48, EL).
const CLEAR: &[u8] = b"\r\x1b[K";

/// The line, if it is shown.
#[derive(Clone, Copy)]
pub struct Progress {
    is_wanted: bool,
    is_shown: bool,
    start: Instant,
}

/// The seconds to go: for so many meters, if that many ended in this many milliseconds.
fn seconds_left(left: usize, ended: usize, passed: u64) -> u64 {
    let milliseconds = (left as u64).saturating_mul(passed) / (ended as u64).max(1);
    milliseconds / 1_000
}

/// Polls a second, in tenths.
fn tenths_a_second(ended: usize, passed: u64) -> u64 {
    (ended as u64).saturating_mul(10_000) / passed.max(1)
}

impl Progress {
    /// A line that is shown only if it is wanted. The time to go is counted from this moment on.
    pub fn new(is_wanted: bool, start: Instant) -> Self {
        Progress {
            is_wanted,
            is_shown: false,
            start,
        }
    }

    /// Shows how far the collection has come: this many polls run, and this many meters wait. Errors in writing are ignored.
    pub fn show<E: Write>(
        &mut self,
        errors: &mut E,
        now: Instant,
        tally: &Tally,
        running: usize,
        waiting: usize,
    ) {
        if !self.is_wanted {
            return;
        }
        self.is_shown = true;
        let passed = milliseconds_between(self.start, now);
        let Tally { done, failed, rows } = *tally;
        let ended = done.saturating_add(failed);
        let left = running.saturating_add(waiting);
        let tenths = tenths_a_second(ended, passed);
        let (rate, tenth) = (tenths / 10, tenths % 10);
        let seconds = seconds_left(left, ended, passed);
        let _written = write!(
            errors,
            "\r{done} done, {failed} failed, {running} running, {waiting} left, {rows} rows, {rate}.{tenth} polls/s, {seconds} s to go\x1b[K"
        );
    }

    /// Removes the line. Errors in writing are ignored.
    pub fn clear<E: Write>(&mut self, errors: &mut E) {
        if self.is_shown {
            self.is_shown = false;
            let _written = errors.write_all(CLEAR);
        }
    }
}

/// The errors, on which the line of progress is removed before another one is written.
#[derive(Drop)]
pub struct AboveProgress<'a, E> {
    progress: &'a mut Progress,
    errors: &'a mut E,
}

impl<'a, E> AboveProgress<'a, E> {
    /// The errors under this line.
    pub fn new(progress: &'a mut Progress, errors: &'a mut E) -> Self {
        AboveProgress { progress, errors }
    }
}

impl<E: Write> Output for AboveProgress<'_, E> {
    fn write_out(&mut self, bytes: &[u8]) -> io::Result<()> {
        self.progress.clear(self.errors);
        put(self.errors, bytes)
    }

    fn flush_out(&mut self) -> io::Result<()> {
        self.errors.flush()
    }
}
