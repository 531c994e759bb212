//! The octets of an APDU that may be shown beside its report: those of its first fields, up to the one that is reported by its
//! length or not at all.

ghost use Rattle.std.specs.Prelude.{◌≡◌};
ghost use Rattle.dlms_dissect.specs.Openly.{Leaves, LeavesFields, LeavesOfAcse, is_open, is_open_tag, is_open_value};
ghost use Rattle.dlms_dissect.specs.Walk.{pending_of, told_of};

use crate::acse::{field_at, is_counted};
use crate::fields::Field;
use crate::items::{has_block, is_string, tag_of};
use crate::secrecy::Secrecy;
use crate::walk::{Event, Walk};

/// Whether a value is shown as it is.
fn is_open_value(secrecy: Secrecy, octets: &[u8]) -> bool
    ensures { result ≡ is_open_value secrecy octets.now }
{
    match secrecy {
        Secrecy::Open => true,
        Secrecy::Unknown => !is_string(tag_of(octets)),
        Secrecy::Secret => false,
    }
}

/// Whether a field is shown as it is, and neither by its length nor hidden.
fn is_open(secrecy: Secrecy, event: Event<'_>) -> bool
    ensures { result ≡ is_open secrecy (told_of event.entry) }
{
    match event {
        Event::List(_, _) => true,
        Event::Field(Field::Value, octets) => is_open_value(secrecy, octets),
        Event::Field(Field::BlockResult, octets) => !has_block(octets),
        Event::Field(Field::ShortData, octets) => tag_of(octets) != 2,
        Event::Field(Field::Block | Field::Octets | Field::Key | Field::Ciphered, _) => false,
        Event::Field(_, _) => true,
    }
}

/// How many octets stand from the first field of a walk on that is not told as it is.
pub fn left_of(secrecy: Secrecy, walk: Walk<'_>) -> usize
    ensures { Leaves secrecy (pending_of walk.entry) walk.entry.rest.now result }
{
    let mut left = walk;
    'fields: while !left.is_done() {
        let Some((event, behind)) = left.next() else {
            return left.rest.len();
        };
        if !is_open(secrecy, event) {
            return left.rest.len();
        }
        left = behind;
    }
    left.rest.len()
}

/// Whether a field of an association with this tag is shown as it is.
fn is_open_tag(tag: u8) -> bool
    ensures { result ≡ is_open_tag tag }
{
    matches!(
        tag,
        0x80 | 0x88
            | 0x89
            | 0x8a
            | 0x8b
            | 0xa1
            | 0xa2
            | 0xa3
            | 0xa4
            | 0xa5
            | 0xa6
            | 0xa7
            | 0xa8
            | 0xa9
    )
}

/// How many octets of these fields stand from the first one on that is not told as it is.
fn left_of_fields(fields: &[u8]) -> usize
    ensures { LeavesFields fields.now result }
{
    let mut rest = fields;
    'fields: while let Some((tag, _, behind)) = field_at(rest) {
        if !is_open_tag(tag) {
            return rest.len();
        }
        rest = behind;
    }
    rest.len()
}

/// How many octets of an association's APDU stand from the first field on that is not told as it is; all of what no length counts.
pub fn left_of_acse(bytes: &[u8]) -> usize
    ensures { LeavesOfAcse bytes.now result }
{
    if !is_counted(bytes) {
        return bytes.len();
    }
    match field_at(bytes) {
        Some((_, fields, _)) => left_of_fields(fields),
        None => bytes.len(),
    }
}
