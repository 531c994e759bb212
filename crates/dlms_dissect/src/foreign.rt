//! APDUs of services that the meter's readers refuse, by a reader of their own: all forms that the standard has.

ghost use Rattle.std.specs.Prelude.{◌≡◌, option_map, IfSome};
ghost use Rattle.dlms_dissect.specs.Foreign.{IsForeign, asked_by, role_of};
ghost use Rattle.dlms_dissect.specs.Forms.{form_at, row_of};
ghost use Rattle.dlms_dissect.specs.Items.{IsItem};
ghost use Rattle.dlms_dissect.specs.Openly.{Leaves};
ghost use Rattle.dlms_dissect.specs.declared.walk.Event.{Event};

use crate::fields::Field;
use crate::forms::{Form, form_at};
use crate::items::{Item, item_of};
use crate::named::Asked;
use crate::openly::left_of;
use crate::secrecy::Secrecy;
use crate::survey::{Survey, survey_of};
use crate::walk::{Event, Walk};
use arrayvec::ArrayVec;

/// The number of levels of values that are distinguished: deeper ones are reported at the last one.
const MOST_LEVELS: usize = 64;

/// Such an APDU.
#[derive(Clone, Copy)]
pub struct Foreign<'a> {
    pub tag: u8,
    pub form: Form,
    pub survey: Survey,
    fields: &'a [u8],
}

/// The role of an APDU in a session.
#[derive(Clone, Copy)]
pub enum Role {
    /// It asks for an answer.
    Asks,
    /// It answers.
    Answers,
    /// It answers what is not followed here.
    AnswersUnfollowed,
    /// It says something by itself.
    Says,
}

/// The role of an APDU with this tag.
fn role_of(tag: u8) -> Role
    ensures { result ≡ role_of tag }
{
    match tag {
        0xc0 | 0xc1 | 0xc3 => Role::Asks,
        0xc4 | 0xc5 | 0xc7 => Role::Answers,
        0x0c | 0xda => Role::AnswersUnfollowed,
        _ => Role::Says,
    }
}

/// Reads such an APDU.
pub fn read_foreign(bytes: &[u8]) -> Option<Foreign<'_>>
    ensures { IsForeign bytes.now result }
{
    let tag = *bytes.first()?;
    let (form, fields) = form_at(bytes)?;
    let survey = survey_of(Walk::new(form.steps, fields))?;
    Some(Foreign {
        tag,
        form,
        survey,
        fields,
    })
}

impl<'a> Foreign<'a> {
    /// Its role in a session.
    pub fn role(self) -> Role
        ensures { result ≡ role_of self.entry.tag }
    {
        role_of(self.tag)
    }

    /// The object that it asks for; if there are several, the most secret one.
    pub fn requested_object(self) -> Option<Asked>
        ensures { result ≡ asked_by self.entry.survey }
    {
        match (self.survey.invoke, self.survey.chief) {
            (Some(invoke), Some(named)) => Some(Asked { invoke, named }),
            _ => None,
        }
    }

    /// The number of its octets from the first field on that is reported by its length or not at all, given this secrecy of its
    /// values. Those before may be shown beside the report (`laws::no_octet_beside_a_secret`).
    pub fn hidden_len(self, secrecy: Secrecy) -> usize
        ensures { Leaves secrecy self.entry.form.steps.now self.entry.fields.now result }
    {
        left_of(secrecy, Walk::new(self.form.steps, self.fields))
    }

    /// Its fields, one after another, given this secrecy of its values.
    pub fn telling(self, secrecy: Secrecy) -> Telling<'a>
        ensures { result.secrecy ≡ secrecy }
    {
        Telling {
            walk: Walk::new(self.form.steps, self.fields),
            secrecy,
            levels: ArrayVec::new(),
        }
    }
}

/// The fields of such an APDU, one after another.
#[derive(Drop)]
pub struct Telling<'a> {
    walk: Walk<'a>,
    secrecy: Secrecy,
    /// For each value whose inner values are being reported, the number of values still to come after it.
    levels: ArrayVec<usize, MOST_LEVELS>,
}

/// The rest after the values inside one, if this many follow it.
fn behind_values<'a>(walk: Walk<'a>, others: usize) -> Walk<'a> {
    let mut left = walk;
    'inner: while left.values > others && !left.is_done() {
        let Some((_, behind)) = left.next() else {
            return left;
        };
        left = behind;
    }
    left
}

/// Whether this is a value.
fn is_value(event: Event<'_>) -> bool {
    matches!(event, Event::Field(Field::Value, _))
}

/// Whether the values in a field stand a level deeper.
fn has_level(event: Event<'_>) -> bool {
    matches!(
        event,
        Event::Field(
            Field::Value | Field::Attribute | Field::Access | Field::ShortName,
            _
        )
    )
}

/// Ends the levels whose values are all reported, if this many values follow.
fn close(levels: &mut ArrayVec<usize, MOST_LEVELS>, values: usize) {
    for _ in 0..MOST_LEVELS {
        match levels.last() {
            Some(others) if values <= *others => {}
            _ => return,
        }
        let _ended = levels.pop();
    }
}

impl<'a> Telling<'a> {
    /// The next field, and its depth. The inner values of a secret are not reported.
    pub fn next(&mut self) -> Option<(usize, Item<'a>)>
        ensures shown { IfSome result (λ r. (event : Event) × IsItem self.old.secrecy event r.1) }
        ensures secrecy { self.new.secrecy ≡ self.old.secrecy }
    {
        close(&mut self.levels, self.walk.values);
        if self.walk.is_done() {
            return None;
        }
        let level = self.levels.len();
        let others = self.walk.values.saturating_sub(1);
        let (event, behind) = self.walk.next()?;
        let secrecy = self.secrecy;
        if matches!(secrecy, Secrecy::Secret) && is_value(event) {
            self.walk = behind_values(behind, others);
        } else {
            self.walk = behind;
            if behind.values > others && has_level(event) {
                let _deeper = self.levels.try_push(others);
            }
        }
        Some((level, item_of(secrecy, event)))
    }
}

/// The octet, counted from 1, at which an APDU does not fit its form, if its first octets name one of the standard's.
pub fn misfit(bytes: &[u8]) -> Option<(Form, usize)>
    ensures { option_map (λ found. row_of found.0) result ≡ option_map (λ found. found.0)
        (form_at bytes.now) }
{
    let (form, fields) = form_at(bytes)?;
    let mut left = Walk::new(form.steps, fields);
    'fields: while !left.is_done() {
        let Some((_, behind)) = left.next() else {
            break;
        };
        left = behind;
    }
    let read = bytes.len().saturating_sub(left.rest.len());
    Some((form, read.saturating_add(1)))
}
