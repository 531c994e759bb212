//! What a head end asks of the world besides its line and the place of its readings.

ghost use Rattle.std.specs.Prelude.{◌≡◌, Result, Ok, Some, None, IsNone, [], ◌∷◌};
ghost use Rattle.std.specs.declared.io.Error.{Error};
ghost use Rattle.std.specs.declared.time.Instant.{Instant as InstantOf};
ghost use Rattle.dlms_filing.specs.Disk.{Called};
ghost use Rattle.dlms_lines.specs.Steady.{Begins, IsSince};
ghost use Rattle.dlms_lines.specs.Watching.{Sees, bytes_in, error_in};
ghost use Rattle.dlms_lines.specs.Watching.Sight.{Dates, Pauses, Reads, Starts};

use crate::secret::{MOST_READ, first_bytes};
use arrayvec::ArrayVec;
use dlms_lines::{HostClock, Steady, Timer, since};
use std::fs::Files;
use std::time::{Clock, Duration, Instant};
use std::{io, thread};

/// For how many seconds a poll pauses before it tries again.
const PAUSE_SECONDS: u64 = 1;

/// A steady clock, the clock of the day, and the files of secrets.
pub trait PollInputs: Timer {
    /// The steady clock begins anew.
    fn start(&mut self) -> io::Result<()>
        ensures { Sees (Self.seen self.old) (Self.seen self.new) (Starts (error_in result) ∷ []) };

    /// Lets a second go by.
    fn pause(&mut self)
        ensures { Sees (Self.seen self.old) (Self.seen self.new) (Pauses ∷ []) };

    /// The second of the clock of the day, counted from 1970-01-01 00:00:00 UTC.
    fn date(&mut self) -> io::Result<u64>
        ensures { Sees (Self.seen self.old) (Self.seen self.new) (Dates result ∷ []) };

    /// The first bytes of a file, enough to tell the secret in it, or that it is too long.
    fn secret(&mut self, file: &str) -> io::Result<ArrayVec<u8, MOST_READ>>
        ensures { Sees (Self.seen self.old) (Self.seen self.new)
            (Reads file.now (bytes_in result (λ secret. secret.items)) ∷ []) };
}

/// The system's clocks and files, over a steady clock.
#[derive(Drop)]
pub struct SteadyPollInputs<'r, R, T> {
    rt: &'r R,
    clock: T,
    start: Option<Instant>,
}

/// The system's clocks and files.
pub type HostPollInputs<'r, R> = SteadyPollInputs<'r, R, HostClock<'r, R>>;

impl<'r, R> SteadyPollInputs<'r, R, HostClock<'r, R>> {
    /// The steady clock has not begun.
    pub fn new(rt: &'r R) -> Self {
        SteadyPollInputs::over(rt, HostClock::new(rt))
    }
}

impl<'r, R, T> SteadyPollInputs<'r, R, T> {
    /// The steady clock has not begun.
    pub fn over(rt: &'r R, clock: T) -> Self
        ensures clock { result.clock ≡ clock }
        ensures start { IsNone result.start }
    {
        SteadyPollInputs {
            rt,
            clock,
            start: None,
        }
    }
}

impl<R, T: Steady> Timer for SteadyPollInputs<'_, R, T> {
    fn seconds(&mut self) -> io::Result<u64>
        ensures start { self.new.start ≡ self.old.start }
        ensures idle { IsNone self.old.start
            → (result ≡ Ok 0) × Called (T.said self.old.clock) (T.said self.new.clock) [] }
        ensures looks { (start : InstantOf) → self.old.start ≡ Some start
            → (said : Result InstantOf Error)
            × Called (T.said self.old.clock) (T.said self.new.clock) (said ∷ [])
            × IsSince start said result }
    {
        match self.start {
            Some(start) => since(start, self.clock.moment()),
            None => Ok(0),
        }
    }
}

impl<R: Clock + Files, T: Steady> PollInputs for SteadyPollInputs<'_, R, T> {
    fn start(&mut self) -> io::Result<()>
        ensures { (said : Result InstantOf Error)
            × Called (T.said self.old.clock) (T.said self.new.clock) (said ∷ [])
            × Begins self.old.start said result self.new.start }
    {
        match self.clock.moment() {
            Ok(now) => {
                self.start = Some(now);
                Ok(())
            }
            Err(error) => Err(error),
        }
    }

    fn pause(&mut self)
        ensures { self.new ≡ self.old }
    {
        thread::sleep(self.rt, Duration::from_secs(PAUSE_SECONDS));
    }

    fn date(&mut self) -> io::Result<u64>
        ensures { self.new ≡ self.old }
    {
        Ok(self.rt.since_1970()?.as_secs())
    }

    fn secret(&mut self, file: &str) -> io::Result<ArrayVec<u8, MOST_READ>>
        ensures { self.new ≡ self.old }
    {
        first_bytes(self.rt, file)
    }
}
