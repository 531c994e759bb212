//! The purposes of the places of pages.
ghost use Rattle.std.specs.Prelude.{◌≡◌};
ghost use Rattle.dlms_survey.specs.Places.{IsPlace, IsInSlot, in_slot, place_at};

use dlms_store::{JOURNAL, RING, Slot};
use std::fmt;

/// The purpose of a page's place.
#[derive(Clone, Copy, PartialEq, Eq)]
pub enum Place {
    /// The gate of a slot.
    Gate(Slot),
    /// A slot's body of this index.
    Body(Slot, u16),
    /// The journal page of this index.
    Journal(u16),
    /// The ring page of this index.
    Ring(u16),
}

/// The purpose of the page with this number, counted from its slot's gate.
fn in_slot(slot: Slot, number: u16) -> Place
    ensures place { IsInSlot slot number result }
    ensures exact { result ≡ in_slot slot number }
{
    if number == 0 {
        Place::Gate(slot)
    } else {
        Place::Body(slot, number - 1)
    }
}

/// The purpose of a page's place.
pub fn place_of(page: u16) -> Place
    ensures place { IsPlace page result }
    ensures exact { result ≡ place_at page }
{
    if page >= RING {
        return Place::Ring(page - RING);
    }
    if page >= JOURNAL {
        return Place::Journal(page - JOURNAL);
    }
    let second = Slot::Second.gate();
    if page < second {
        in_slot(Slot::First, page)
    } else {
        in_slot(Slot::Second, page - second)
    }
}

/// The place in fifteen columns.
impl fmt::Display for Place {
    fn fmt<W: fmt::Write>(&self, f: &mut fmt::Formatter<W>) -> fmt::Result {
        let (name, number) = match self {
            Place::Gate(slot) => ("gate of slot", slot.index()),
            Place::Body(Slot::First, body) => ("slot 0 body", *body),
            Place::Body(Slot::Second, body) => ("slot 1 body", *body),
            Place::Journal(index) => ("journal", *index),
            Place::Ring(index) => ("ring", *index),
        };
        write!(f, "{name:<12} {number:>2}")
    }
}
