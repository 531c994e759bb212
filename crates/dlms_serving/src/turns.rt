//! When a connection's turn on the meter's line is over.

ghost use Rattle.std.specs.Prelude.{◌≡◌, ◌≤◌, ◌+◌, ◌↔◌, IsTrue, None, false, if◌then◌else◌};
ghost use Rattle.dlms_serving.specs.Connection.{behind_outcome};
ghost use Rattle.dlms_serving.specs.Turns.{Tells};

use crate::refusals::Outcome;
use crate::talking::Rules;

/// Behind so many refused association requests the turn of a connection is over, so that each of them is counted before the next,
pub const PORT_REFUSALS: u8 = 1;

/// and that of a serial line.
pub const LINE_REFUSALS: u8 = 5;

/// After how many seconds a turn is over.
#[derive(Clone, Copy, PartialEq, Eq)]
pub struct Times {
    /// A connection on which no frame was answered for this many seconds is closed.
    pub inactivity: u32,
    /// While another connection waits, one on which no frame of an open association was answered for this many seconds is closed.
    pub idle: u32,
    /// Once another connection has waited for this many seconds of a turn, that turn is over in any case.
    pub longest: u32,
}

/// The outcomes of the associations that were asked for in a turn.
#[derive(Clone, Copy, PartialEq, Eq)]
pub struct Tries {
    /// How many were refused.
    pub refusals: u8,
    /// Whether a secret was proved since the watch last heard of that.
    pub is_proved: bool,
}

/// The events of a connection's turn, in seconds of the clock.
#[derive(Clone, Copy, PartialEq, Eq)]
pub struct Turn {
    /// When a frame was last answered; initially when the turn began.
    pub answered: u64,
    /// When a frame was last answered after which an association was open; initially when the turn began.
    pub held: u64,
    /// Since when in this turn another connection waits, if one does.
    pub waited: Option<u64>,
    /// The outcomes of the associations that were asked for.
    pub tries: Tries,
}

/// Why a turn is over.
#[derive(Clone, Copy, PartialEq, Eq)]
pub enum Over {
    /// So many association requests were refused.
    Refused,
    /// No frame was answered for so long.
    Inactive,
    /// Another connection waits, and no frame of an open association was answered for so long.
    Idle,
    /// Another connection has waited for so long.
    Long,
}

/// The tries after this outcome of an association that was asked for, if there was one.
pub fn behind_outcome(outcome: Option<Outcome>, tries: Tries) -> Tries
    ensures { result ≡ behind_outcome outcome tries }
{
    match outcome {
        Some(Outcome::Refused) => Tries {
            refusals: tries.refusals.saturating_add(1),
            ..tries
        },
        Some(Outcome::Proved) => Tries {
            is_proved: true,
            ..tries
        },
        Some(Outcome::Opened) | None => tries,
    }
}

/// Whether this many seconds have passed since then.
pub fn have_passed(seconds: u32, since: u64, now: u64) -> bool
    ensures { IsTrue result ↔ (since + seconds ≤ now) }
{
    match now.checked_sub(since) {
        Some(passed) => passed >= u64::from(seconds),
        None => false,
    }
}

impl Turn {
    /// A turn that begins at this second, while no other connection is known to wait.
    pub fn begins(now: u64) -> Turn
        ensures { result ≡ record {
          answered = now;
          held = now;
          waited = None;
          tries = record { refusals = 0; is_proved = false };
        } }
    {
        Turn {
            answered: now,
            held: now,
            waited: None,
            tries: Tries {
                refusals: 0,
                is_proved: false,
            },
        }
    }

    /// The same turn after frames that were answered at this second, and whether an association was then open.
    pub fn answers(self, now: u64, associated: bool) -> Turn
        ensures { result ≡ record self {
          answered = now;
          held = if associated then now else self.held;
        } }
    {
        Turn {
            answered: now,
            held: if associated { now } else { self.held },
            ..self
        }
    }

    /// Whether the turn is over at this second, and the first of the reasons for which it is.
    pub fn over(self, rules: Rules, now: u64) -> Option<Over>
        ensures { Tells rules self now result }
    {
        let times = rules.times;
        if self.tries.refusals >= rules.refusals {
            return Some(Over::Refused);
        }
        if have_passed(times.inactivity, self.answered, now) {
            return Some(Over::Inactive);
        }
        let since = self.waited?;
        if have_passed(times.idle, self.held, now) {
            return Some(Over::Idle);
        }
        if have_passed(times.longest, since, now) {
            return Some(Over::Long);
        }
        None
    }
}
