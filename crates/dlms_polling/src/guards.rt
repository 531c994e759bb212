//! What protects the associations of a poll: a guard for each, and the meter's counters, which are kept.

ghost use Rattle.std.specs.Prelude.{◌≡◌, List, Option, None, [], ◌∷◌};
ghost use Rattle.dlms_filing.specs.Disk.{Called};
ghost use Rattle.dlms_lines.specs.Watching.{error_in};
ghost use Rattle.dlms_polling.specs.Guards.{Guarding, accepted_of, guard_in, nothing, oldest_after};
ghost use Rattle.dlms_polling.specs.Guards.Guarding.{Gives, Keeps};

use dlms_ends::{PollEnd, RunFault};
use dlms_secured::Guard;

/// What the guard of an association has accepted from the meter.
#[derive(Clone, Copy)]
pub struct Accepted {
    /// The meter's system title; none before the meter sent it.
    pub title: Option<[u8; 8]>,
    /// The meter's frame counter after the first read of the line in which a message was accepted; none if there was no such read.
    pub oldest: Option<u32>,
    /// The meter's frame counter that was accepted last; none if no message was accepted.
    pub latest: Option<u32>,
}

impl Accepted {
    /// Nothing was accepted.
    pub fn nothing() -> Self
        ensures { result ≡ nothing }
    {
        Accepted {
            title: None,
            oldest: None,
            latest: None,
        }
    }

    /// What the guard of a poll has accepted, if this counter was accepted first.
    pub fn by(oldest: Option<u32>, poll: &PollEnd) -> Self
        ensures { result ≡ accepted_of oldest poll.now }
    {
        Accepted {
            title: poll.peer(),
            oldest,
            latest: poll.last_accepted(),
        }
    }
}

/// The counter that was accepted first, after another read.
pub fn oldest_after(oldest: Option<u32>, poll: &PollEnd) -> Option<u32>
    ensures { result ≡ oldest_after oldest poll.now }
{
    match oldest {
        Some(counter) => Some(counter),
        None => poll.last_accepted(),
    }
}

/// What gives the guards of protected associations, and keeps the meter's counters.
pub trait Guards {
    /// What was asked of it, in order, each with its outcome, if these are known. For the system's they are not; a theorem about code
    /// that takes any guards also holds for those whose past is known.
    ghost given: { Self → Option (List Guarding) } = { λ _. None };

    /// A new guard for one association. Its challenge and its frame counters were given for no other, and are not given again, even
    /// after the power fails.
    fn guard(&mut self) -> Result<Box<Guard>, RunFault>
        ensures { Called (given self.old) (given self.new)
            (Gives (guard_in result (λ guard. guard.value)) ∷ []) };

    /// Keeps the meter's last counter after an association. One whose first message is not newer than all of earlier associations is
    /// refused.
    fn keep(&mut self, accepted: Accepted) -> Result<(), RunFault>
        ensures { Called (given self.old) (given self.new)
            (Keeps accepted (error_in result) ∷ []) };
}

/// No guards, for polls in clear. A protected association is not begun with these.
#[derive(Clone, Copy)]
pub struct NoGuards;

impl Guards for NoGuards {
    fn guard(&mut self) -> Result<Box<Guard>, RunFault> {
        Err(RunFault::Io)
    }

    fn keep(&mut self, _accepted: Accepted) -> Result<(), RunFault> {
        Ok(())
    }
}
