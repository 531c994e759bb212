//! The clock of a state and of an outlook: the last moment, and the offset added to it.
ghost use Rattle.std.specs.Prelude.{◌≡◌, None};
ghost use Rattle.dlms_state.specs.Clock.{IsInRange, clock_step};
ghost use Rattle.dlms_state.specs.Events.{clock_at, passes};
ghost use Rattle.dlms_state.specs.Refusal.{refusal};

use crate::event;

/// The last moment, and the offset that makes it the second that the clock shows.
#[derive(Clone, Copy)]
pub(crate) struct Clock {
    pub(crate) last: u32,
    pub(crate) offset: i64,
}

impl Clock {
    ghost use Rattle.dlms_state.specs.declared.event.Event.{Event};

    /// The second that it shows.
    pub(crate) fn second(self) -> u32
        requires { IsInRange self.last self.offset }
        ensures { result ≡ clock_at self.last self.offset }
    {
        (i64::from(self.last) + self.offset) as u32
    }

    /// At a later moment.
    pub(crate) fn at(self, moment: u32) -> Clock
        requires passes { refusal self.last self.offset (Event.Moment moment) ≡ None }
        ensures step { result ≡ clock_step (Event.Moment moment) self }
        ensures in_range { IsInRange result.last result.offset }
    {
        Clock {
            last: moment,
            offset: self.offset,
        }
    }

    /// Set to a second.
    pub(crate) fn set_to(self, seconds: u32) -> Clock
        requires passes { refusal self.last self.offset (Event.SetTime seconds) ≡ None }
        ensures step { result ≡ clock_step (Event.SetTime seconds) self }
        ensures in_range { IsInRange result.last result.offset }
    {
        Clock {
            last: self.last,
            offset: i64::from(seconds) - i64::from(self.last),
        }
    }

    /// The clock moved by this many seconds.
    pub(crate) fn shifted(self, by: i16) -> Clock
        requires range { IsInRange self.last self.offset }
        requires passes { refusal self.last self.offset (Event.Shift by) ≡ None }
        ensures step { result ≡ clock_step (Event.Shift by) self }
        ensures in_range { IsInRange result.last result.offset }
    {
        Clock {
            last: self.last,
            offset: self.offset + i64::from(by),
        }
    }

    /// At the nearest full minute.
    pub(crate) fn adjusted(self) -> Clock
        requires range { IsInRange self.last self.offset }
        requires passes { refusal self.last self.offset Event.AdjustMinute ≡ None }
        ensures step { result ≡ clock_step Event.AdjustMinute self }
        ensures in_range { IsInRange result.last result.offset }
    {
        self.set_to(event::nearest_minute(self.second()))
    }
}

/// Whether the clock, going from one second to another, passes the end of a period; with period 0 none ends.
pub(crate) fn passes(period: u32, before: u32, after: u32) -> bool
    ensures { result ≡ passes period before after }
{
    period > 0 && before / period < after / period
}
