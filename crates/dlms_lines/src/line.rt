//! The head end's line to a meter: it does not wait for ever, and keeps why it failed.

ghost use Rattle.std.specs.Prelude.{◌≡◌, Result, Ok, Err, None, [], ◌∷◌};
ghost use Rattle.std.specs.Io.{ReadsAtMost, WritesAtMost};
ghost use Rattle.std.specs.Io.KnownBytes.{Keeps, ReadConsumes, WriteAppends};
ghost use Rattle.std.specs.IoError.{error_kind};
ghost use Rattle.std.specs.declared.io.Error.{Error};
ghost use Rattle.std.specs.declared.time.Instant.{Instant as InstantOf};
ghost use Rattle.dlms_filing.specs.Disk.{Called};
ghost use Rattle.dlms_lines.specs.Line.{IsHeard, ReadsAt, WritesAt, failure_behind, is_failure, is_late, is_silent};

use crate::deadline::Deadline;
use crate::steady::{Steady, seconds_between};
use std::io;
use std::io::{ErrorKind, Read, Write};
use std::time::Instant;

/// For how many seconds an answer is waited for, unless the caller says otherwise.
pub const WAIT_SECONDS: u64 = 2;

/// A stream that reports silence when no answer has arrived for a number of seconds after something was sent, whatever else arrives,
/// and at once after a deadline.
#[derive(Drop)]
pub struct Line<T, S> {
    clock: T,
    stream: S,
    sent: Instant,
    wait: u64,
    until: Option<Deadline>,
    failure: Option<io::Error>,
}

/// Whether the deadline is over, if there is one.
fn is_late(until: Option<Deadline>, now: Instant) -> bool
    ensures { result ≡ is_late until now }
{
    match until {
        Some(deadline) => deadline.left(now) == 0,
        None => false,
    }
}

/// Whether nothing more is waited for at a moment.
fn is_silent(sent: Instant, wait: u64, until: Option<Deadline>, now: Instant) -> bool
    ensures { result ≡ is_silent sent wait until now }
{
    seconds_between(sent, now) >= wait || is_late(until, now)
}

/// The result of a read: a stream that has ended is an error.
fn count_or_end(read: io::Result<usize>) -> io::Result<usize>
    ensures { IsHeard read result }
{
    match read {
        Ok(0) => Err(io::Error::new(ErrorKind::UnexpectedEof, "closed by the other end")),
        Ok(count) => Ok(count),
        Err(error) => Err(error),
    }
}

/// Whether an error is why a line failed. That a call would wait, or was interrupted, is no failure.
fn is_failure(error: io::Error) -> bool
    ensures { result ≡ is_failure (error_kind error) }
{
    match error.kind() {
        ErrorKind::WouldBlock | ErrorKind::TimedOut | ErrorKind::Interrupted => false,
        _ => true,
    }
}

/// Why a line failed, after a call.
fn failure_behind(failure: Option<io::Error>, called: io::Result<usize>) -> Option<io::Error>
    ensures { result ≡ failure_behind failure called }
{
    match called {
        Ok(_count) => failure,
        Err(error) => {
            if is_failure(error) {
                Some(error)
            } else {
                failure
            }
        }
    }
}

impl<T: Steady, S> Line<T, S> {
    /// A line over a stream, whose reads give `WouldBlock` or `TimedOut` if nothing comes for this many seconds.
    pub fn new(clock: T, stream: S, sent: Instant, wait: u64, until: Option<Deadline>) -> Self
        ensures { result ≡ record {
          clock = clock;
          stream = stream;
          sent = sent;
          wait = wait;
          until = until;
          failure = None;
        } }
    {
        Line {
            clock,
            stream,
            sent,
            wait,
            until,
            failure: None,
        }
    }

    /// The system's error, if the line failed.
    pub fn failure(&self) -> Option<io::Error>
        ensures { result ≡ self.now.failure }
    {
        self.failure
    }
}

impl<T: Steady, S: Read + Drop> Read for Line<T, S> {
    ghost remaining = { λ l. S.remaining l.stream };

    fn read(&mut self, buf: &mut [u8]) -> io::Result<usize>
        ensures bound { ReadsAtMost result buf.new }
        ensures bytes { ReadConsumes (S.remaining self.old.stream)
            (S.remaining self.new.stream) result buf.new }
        ensures kept { (self.new.sent ≡ self.old.sent) × (self.new.wait ≡ self.old.wait)
            × (self.new.until ≡ self.old.until) }
        ensures reads { (said : Result InstantOf Error)
            × Called (T.said self.old.clock) (T.said self.new.clock) (said ∷ [])
            × ReadsAt self.old.sent self.old.wait self.old.until said self.old.stream self.old.failure result self.new.stream self.new.failure }
    {
        let now = match self.clock.moment() {
            Ok(now) => now,
            Err(error) => return Err(error),
        };
        if is_silent(self.sent, self.wait, self.until, now) {
            return Err(ErrorKind::TimedOut.into());
        }
        let read = count_or_end(self.stream.read(buf));
        self.failure = failure_behind(self.failure, read);
        read
    }
}

impl<T: Steady, S: Write + Drop> Write for Line<T, S> {
    ghost contents = { λ l. S.contents l.stream };

    fn write(&mut self, buf: &[u8]) -> io::Result<usize>
        ensures bound { WritesAtMost result buf.now }
        ensures bytes { WriteAppends (S.contents self.old.stream)
            (S.contents self.new.stream) result buf.now }
        ensures kept { (self.new.wait ≡ self.old.wait) × (self.new.until ≡ self.old.until) }
        ensures writes { (said : Result InstantOf Error)
            × Called (T.said self.old.clock) (T.said self.new.clock) (said ∷ [])
            × WritesAt self.old.sent said self.old.stream self.old.failure result self.new.sent self.new.stream self.new.failure }
    {
        self.sent = match self.clock.moment() {
            Ok(now) => now,
            Err(error) => return Err(error),
        };
        let written = self.stream.write(buf);
        self.failure = failure_behind(self.failure, written);
        written
    }

    fn flush(&mut self) -> io::Result<()>
        ensures bytes { Keeps (S.contents self.old.stream) (S.contents self.new.stream) }
        ensures sent { self.new.sent ≡ self.old.sent }
        ensures kept { (self.new.wait ≡ self.old.wait) × (self.new.until ≡ self.old.until) }
        ensures failure { self.new.failure ≡ self.old.failure }
    {
        self.stream.flush()
    }
}
