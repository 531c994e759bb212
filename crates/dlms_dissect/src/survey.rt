//! The objects that the fields of an APDU name.

ghost use Rattle.std.specs.Prelude.{◌≡◌, MatchOption};
ghost use Rattle.dlms_dissect.specs.Survey.{IsSurvey, chief, name_at, noted, nothing, rank, with_name};
ghost use Rattle.dlms_dissect.specs.Walk.{SpellsNothing, pending_of, told_of};

use crate::fields::Field;
use crate::named::Named;
use crate::secrecy::{Secrecy, secrecy_at};
use crate::walk::{Event, Walk};
use dlms_data::Descriptor;

/// Facts of an APDU: its invoke-id-and-priority, and the first most secret object that it names.
#[derive(Clone, Copy)]
pub struct Survey {
    pub invoke: Option<u8>,
    pub chief: Option<Named>,
}

/// The rank of secrecy of an object.
fn rank(named: Named) -> u8
    ensures { result ≡ rank named }
{
    match secrecy_at(named) {
        Secrecy::Open => 0,
        Secrecy::Unknown => 1,
        Secrecy::Secret => 2,
    }
}

/// The one of which more is kept secret, and of two alike the first.
fn chief(one: Option<Named>, other: Named) -> Option<Named>
    ensures { result ≡ chief one other }
{
    match one {
        Some(one) if rank(other) <= rank(one) => Some(one),
        _ => Some(other),
    }
}

/// The attribute or method whose class, name and number are at the front.
pub fn name_at(octets: &[u8], method: bool) -> Option<Named>
    ensures { result ≡ name_at octets.now method }
{
    match octets {
        [high, low, a, b, c, d, e, f, id, ..] => Some(Named {
            descriptor: Descriptor {
                class: u16::from(*high) * 256 + u16::from(*low),
                name: [*a, *b, *c, *d, *e, *f],
                id: *id,
            },
            method,
        }),
        _ => None,
    }
}

impl Survey {
    /// Nothing was read.
    fn nothing() -> Survey
        ensures { result ≡ nothing }
    {
        Survey {
            invoke: None,
            chief: None,
        }
    }

    /// The same with one more name, if there is one.
    fn with_name(self, named: Option<Named>) -> Survey
        ensures { result ≡ with_name self named }
    {
        match named {
            Some(named) => Survey {
                chief: chief(self.chief, named),
                ..self
            },
            None => self,
        }
    }

    /// The same after one more field.
    fn with(self, event: Event<'_>) -> Survey
        ensures { result ≡ noted self (told_of event.entry) }
    {
        match event {
            Event::Field(Field::Invoke, octets) => Survey {
                invoke: octets.first().copied(),
                ..self
            },
            Event::Field(Field::Attribute | Field::Notified, octets) => {
                self.with_name(name_at(octets, false))
            }
            Event::Field(Field::Method, octets) => self.with_name(name_at(octets, true)),
            Event::Field(Field::Access, [choice, octets @ ..]) => {
                self.with_name(name_at(octets, *choice == 3))
            }
            _ => self,
        }
    }
}

/// The facts and names of the fields of a walk, if the octets spell them.
pub fn survey_of(walk: Walk<'_>) -> Option<Survey>
    ensures { MatchOption result (SpellsNothing (pending_of walk.entry) walk.entry.rest.now)
        (IsSurvey (pending_of walk.entry) walk.entry.rest.now) }
{
    let mut survey = Survey::nothing();
    let mut left = walk;
    'fields: while !left.is_done() {
        let (event, behind) = left.next()?;
        survey = survey.with(event);
        left = behind;
    }
    if left.rest.is_empty() {
        Some(survey)
    } else {
        None
    }
}
