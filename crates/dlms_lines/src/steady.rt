//! A steady clock.

ghost use Rattle.std.specs.Prelude.{◌≡◌, List, Option, Result, None, [], ◌∷◌};
ghost use Rattle.std.specs.declared.io.Error.{Error};
ghost use Rattle.std.specs.declared.time.Instant.{Instant as InstantOf};
ghost use Rattle.dlms_filing.specs.Disk.{Called};
ghost use Rattle.dlms_lines.specs.Steady.{IsSince, seconds_between};

use std::io;
use std::time::{Clock, Instant};

/// A clock that does not go back.
pub trait Steady {
    /// The outcomes of the looks at it, one after another, if they are known. For the system's clock they are not; a theorem about
    /// code that takes any steady clock also holds for clocks whose looks are known.
    ghost said: { Self → Option (List (Result InstantOf Error)) } = { λ _. None };

    /// The moment that it is.
    fn moment(&mut self) -> io::Result<Instant>
        ensures { Called (said self.old) (said self.new) (result ∷ []) };
}

/// The system's steady clock.
#[derive(Drop)]
pub struct HostClock<'r, C> {
    clock: &'r C,
}

impl<'r, C> HostClock<'r, C> {
    pub fn new(clock: &'r C) -> Self {
        HostClock { clock }
    }
}

impl<C: Clock> Steady for HostClock<'_, C> {
    fn moment(&mut self) -> io::Result<Instant> {
        Instant::now(self.clock)
    }
}

/// The whole seconds between two moments.
pub fn seconds_between(earlier: Instant, later: Instant) -> u64
    ensures { result ≡ seconds_between earlier later }
{
    later.duration_since(earlier).as_secs()
}

/// The whole seconds since a beginning, by this look at the clock.
pub fn since(start: Instant, said: io::Result<Instant>) -> io::Result<u64>
    ensures { IsSince start said result }
{
    match said {
        Ok(now) => Ok(seconds_between(start, now)),
        Err(error) => Err(error),
    }
}
