//! Reads one value.

ghost use Rattle.std.specs.Prelude.{◌≡◌, ◌↔◌, ◌++◌, ℕ, List, IfOk, IsOkAnd, IsTrue};
ghost use Rattle.dlms_values.specs.Reading.{Tells, content_at, nested, value_at};
ghost use Rattle.dlms_values.specs.Spelling.{IsSpelling};
ghost use Rattle.dlms_values.specs.Value.{Value as Shown};
ghost use Rattle.dlms_values.specs.View.{value_of, values_in};

use crate::fault::ValueFault;
use crate::items::Items;
use crate::parts::length_of;
use crate::plain::{compact, read_plain};
use crate::scanning::after_several;
use crate::types::{Tag, type_of};
use crate::value::Value;

/// The values of an array or a structure, after its tag.
fn items(room: u8, bytes: &[u8]) -> Result<(Items<'_>, &[u8]), ValueFault>
    ensures { Tells (λ x. (values_in x.0, x.1.now)) result (nested room bytes.now) }
{
    if room == 0 {
        return Err(ValueFault::Depth);
    }
    let (count, bytes) = length_of(bytes)?;
    let levels = room - 1;
    let rest = after_several(levels, count, bytes)?;
    Ok((
        Items {
            levels,
            count,
            bytes,
        },
        rest,
    ))
}

/// The content after a tag.
#[tactic(auto, unfolding(crate::specs::Reading::content_at))]
fn content(room: u8, tag: Tag, bytes: &[u8]) -> Result<(Value<'_>, &[u8]), ValueFault>
    ensures { Tells (λ x. (value_of x.0, x.1.now)) result (content_at (nested room) tag bytes.now) }
{
    match tag {
        Tag::Array => {
            let (items, rest) = items(room, bytes)?;
            Ok((Value::Array(items), rest))
        }
        Tag::Structure => {
            let (items, rest) = items(room, bytes)?;
            Ok((Value::Structure(items), rest))
        }
        Tag::CompactArray => {
            let (array, rest) = compact(bytes)?;
            Ok((Value::CompactArray(array), rest))
        }
        Tag::Plain(tag) => read_plain(tag, bytes),
    }
}

/// The value at the front, with room for this many levels, and what follows it.
pub(crate) fn value_with(room: u8, bytes: &[u8]) -> Result<(Value<'_>, &[u8]), ValueFault>
    ensures { Tells (λ x. (value_of x.0, x.1.now)) result (value_at room bytes.now) }
{
    match bytes {
        [] => Err(ValueFault::Short),
        [first, rest @ ..] => match type_of(*first) {
            None => Err(ValueFault::Tag),
            Some(tag) => content(room, tag, rest),
        },
    }
}

/// The value at the front of the octets, of at most eight levels, and what follows it. Takes no memory: the value borrows the octets.
pub fn read(bytes: &[u8]) -> Result<(Value<'_>, &[u8]), ValueFault>
    // The octets before the rest spell the value.
    ensures found { IfOk result (λ x. (text : List ℕ) × (bytes.now ≡ text ++ x.1.now)
        × IsSpelling text (value_of x.0)) }
    // What is spelled at the front is read.
    ensures only { (v : Shown) (text rest : List ℕ) → IsSpelling text v → bytes.now ≡ text ++ rest
        → IsOkAnd result (λ x. (value_of x.0 ≡ v) × (x.1.now ≡ rest)) }
    // Which fault it is.
    ensures exact { Tells (λ x. (value_of x.0, x.1.now)) result (value_at 8 bytes.now) }
{
    value_with(8, bytes)
}

/// Whether the octets are one value of at most eight levels, and nothing else.
pub fn is_value(bytes: &[u8]) -> bool
    ensures { IsTrue result ↔ ((v : Shown) × IsSpelling bytes.now v) }
{
    match read(bytes) {
        Ok((_value, rest)) => rest.is_empty(),
        Err(_) => false,
    }
}
