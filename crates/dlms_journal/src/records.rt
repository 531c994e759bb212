//! The events that records say, one after another.
ghost use Rattle.std.specs.Iterator.{YieldsFirst, item_count};
ghost use Rattle.std.specs.Prelude.{◌≡◌, ◌<◌, List, ℕ, length, IfSome, IfNone, IsTrue, IsFalse};
ghost use Rattle.dlms_state.specs.declared.event.Event.{Event as EventOf};
ghost use Rattle.dlms_journal.specs.Record.{Holds};

use crate::reading::event_at;
use dlms_state::Event;
use std::marker::Model;

/// The events of whole records, in their order.
#[derive(Drop)]
pub struct Records<'a> {
    rest: &'a [u8],
}

impl<'a> Model for Records<'a> {
    ghost use Rattle.std.specs.Prelude.{List};
    ghost use Rattle.dlms_state.specs.declared.event.Event.{Event};
    ghost use Rattle.dlms_journal.specs.Record.{Holds};
    ghost use Rattle.dlms_journal.specs.Reading.{events_in};

    ghost Value = { List Event };

    ghost view = { λ r. events_in r.rest.now };

    ghost invariant = { λ r. Holds r.rest.now (events_in r.rest.now) };
}

impl<'a> Iterator for Records<'a> {
    type Item = Event;

    ghost next_gives = { YieldsFirst (λ r. r) };

    ghost remaining = { item_count (λ r. r) };

    fn next(&mut self) -> Option<Event> {
        match event_at(self.rest) {
            Some((event, rest)) => {
                self.rest = rest;
                Some(event)
            }
            None => None,
        }
    }
}

/// Whether the bytes are whole records.
fn are_whole(bytes: &[u8]) -> bool
    ensures whole { IsTrue result → (events : List EventOf) × Holds bytes.now events }
    ensures none { IsFalse result → (events : List EventOf) → Holds bytes.now events → ⊥ }
{
    let mut rest = bytes;
    while !rest.is_empty() {
        match event_at(rest) {
            Some((_, behind)) => rest = behind,
            None => return false,
        }
    }
    true
}

/// The events of consecutive records; none if the bytes are not whole records. No bytes are no events.
pub fn records_of(bytes: &[u8]) -> Option<Records<'_>>
    ensures some { IfSome result (λ events. Holds bytes.now events) }
    ensures none { IfNone result ((events : List EventOf) → Holds bytes.now events → ⊥) }
{
    if !are_whole(bytes) {
        return None;
    }
    Some(Records { rest: bytes })
}
