//! The deadline of a poll.

ghost use Rattle.std.specs.Prelude.{◌≡◌, ◌-◌, ◌↔◌, IsTrue, List, Option, None, [], ◌∷◌};
ghost use Rattle.dlms_lines.specs.Deadline.{IsOver, left_at};
ghost use Rattle.dlms_lines.specs.Watching.{Sight, Sees, ok_in};
ghost use Rattle.dlms_lines.specs.Watching.Sight.{Second};

use crate::steady::seconds_between;
use std::io;
use std::time::Instant;

/// A steady clock since a beginning.
pub trait Timer {
    /// The looks at it, in order, each with its outcome, if these are known. For the system's clock they are not; a theorem about
    /// code that takes any timer also holds for timers whose looks are known.
    ghost seen: { Self → Option (List Sight) } = { λ _. None };

    /// How many whole seconds have gone by since the beginning.
    fn seconds(&mut self) -> io::Result<u64>
        ensures { Sees (seen self.old) (seen self.new) (Second (ok_in result) ∷ []) };
}

/// Until when a poll may go on.
#[derive(Clone, Copy)]
pub struct Deadline {
    start: Instant,
    seconds: u32,
}

/// Whether a poll that may take this many seconds must end.
pub fn is_over(seconds: u64, elapsed: u64) -> bool
    ensures { IsTrue result ↔ IsOver seconds elapsed }
{
    seconds <= elapsed
}

/// How many seconds are left.
pub fn left(seconds: u64, elapsed: u64) -> u64
    ensures { result ≡ seconds - elapsed }
{
    seconds.saturating_sub(elapsed)
}

impl Deadline {
    /// This many seconds after a moment.
    pub fn new(start: Instant, seconds: u32) -> Self
        ensures { result ≡ record { start = start; seconds = seconds } }
    {
        Deadline { start, seconds }
    }

    /// The number of seconds left at a moment; 0 if the poll must end.
    pub fn left(self, now: Instant) -> u64
        ensures { result ≡ left_at self now }
    {
        left(u64::from(self.seconds), seconds_between(self.start, now))
    }
}
