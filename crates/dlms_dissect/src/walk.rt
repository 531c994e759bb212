//! The fields of an APDU, one after another.

ghost use Rattle.std.specs.Prelude.{◌≡◌, ◌<◌, ◌∷◌, [], length, true, false, IfSome};
ghost use Rattle.dlms_dissect.specs.Walk.{IsNext, pending_of};

use crate::fields::{Field, front_at};
use crate::nodes::length_at;

/// The next element of an APDU.
#[derive(Clone, Copy)]
pub enum Step {
    /// A field.
    One(Field),
    /// A list of such fields, after their number.
    Many(Field),
}

/// A field with its octets, or the number of a list's fields.
#[derive(Clone, Copy)]
pub enum Event<'a> {
    Field(Field, &'a [u8]),
    List(Field, u32),
}

/// The elements still to be read: some values, then some fields of a list, then these steps.
#[derive(Clone, Copy)]
pub struct Walk<'a> {
    pub values: usize,
    pub items: usize,
    pub item: Field,
    pub steps: &'static [Step],
    pub rest: &'a [u8],
}

/// Reads a field, which this rest follows.
fn read_field<'a>(field: Field, behind: Walk<'a>) -> Option<(Event<'a>, Walk<'a>)>
    ensures next { IsNext (Step.One field ∷ pending_of behind.entry) behind.entry.rest.now result }
    ensures shorter { IfSome result (λ r. length r.1.rest.now < length behind.entry.rest.now) }
{
    let front = front_at(field, behind.rest)?;
    if front.own == 0 || front.own > behind.rest.len() {
        return None;
    }
    let (own, rest) = behind.rest.split_at(front.own);
    if front.values > rest.len() || behind.values > rest.len() - front.values {
        return None;
    }
    let walk = Walk {
        values: front.values + behind.values,
        rest,
        ..behind
    };
    Some((Event::Field(field, own), walk))
}

/// Reads the number of a list's fields, which these steps follow.
fn read_list<'a>(
    field: Field,
    steps: &'static [Step],
    bytes: &'a [u8],
) -> Option<(Event<'a>, Walk<'a>)>
    ensures next { IsNext (Step.Many field ∷ steps.now) bytes.now result }
    ensures shorter { IfSome result (λ r. length r.1.rest.now < length bytes.now) }
{
    let length = length_at(bytes)?;
    if length.octets == 0 || length.octets > bytes.len() {
        return None;
    }
    let walk = Walk {
        values: 0,
        items: length.number as usize,
        item: field,
        steps,
        rest: &bytes[length.octets..],
    };
    Some((Event::List(field, length.number), walk))
}

/// Reads a step, which these follow.
fn read_step<'a>(
    step: Step,
    steps: &'static [Step],
    bytes: &'a [u8],
) -> Option<(Event<'a>, Walk<'a>)>
    ensures next { IsNext (step ∷ steps.now) bytes.now result }
    ensures shorter { IfSome result (λ r. length r.1.rest.now < length bytes.now) }
{
    match step {
        Step::One(field) => read_field(field, Walk::new(steps, bytes)),
        Step::Many(field) => read_list(field, steps, bytes),
    }
}

impl<'a> Walk<'a> {
    /// Before the first of these steps.
    pub fn new(steps: &'static [Step], bytes: &'a [u8]) -> Walk<'a>
        ensures pending { pending_of result ≡ steps.now }
        ensures rest { result.rest.now ≡ bytes.now }
    {
        Walk {
            values: 0,
            items: 0,
            item: Field::Value,
            steps,
            rest: bytes,
        }
    }

    /// Whether no step is left.
    pub fn is_done(self) -> bool
        ensures done { result ≡ true → pending_of self.entry ≡ [] }
        ensures left { result ≡ false → pending_of self.entry ≡ [] → ⊥ }
    {
        self.values == 0 && self.items == 0 && self.steps.is_empty()
    }

    /// The next field, and the rest after it; none if the rest spells nothing.
    pub fn next(self) -> Option<(Event<'a>, Walk<'a>)>
        requires { pending_of self ≡ [] → ⊥ }
        ensures next { IsNext (pending_of self.entry) self.entry.rest.now result }
        ensures shorter { IfSome result (λ r. length r.1.rest.now < length self.entry.rest.now) }
    {
        if self.values > 0 {
            let behind = Walk {
                values: self.values - 1,
                ..self
            };
            return read_field(Field::Value, behind);
        }
        if self.items > 0 {
            let behind = Walk {
                items: self.items - 1,
                ..self
            };
            return read_field(self.item, behind);
        }
        let (step, steps) = self.steps.split_first()?;
        read_step(*step, steps, self.rest)
    }
}
