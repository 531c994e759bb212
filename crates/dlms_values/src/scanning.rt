//! How far a value reaches.

ghost use Rattle.std.specs.Prelude.{◌≡◌};
ghost use Rattle.dlms_values.specs.Reading.{Tells, behind, content_at, nested, value_at, values_at};

use crate::fault::ValueFault;
use crate::parts::length_of;
use crate::plain::{compact, read_plain};
use crate::types::{Tag, type_of};

/// What follows the value at the front, with room for this many levels.
#[cycle(scanner)]
fn after_value(room: u8, bytes: &[u8]) -> Result<&[u8], ValueFault>
    ensures { Tells (λ x. x.now) result (behind (value_at room bytes.now)) }
{
    match bytes {
        [] => Err(ValueFault::Short),
        [first, rest @ ..] => match type_of(*first) {
            None => Err(ValueFault::Tag),
            Some(tag) => after_content(room, tag, rest),
        },
    }
}

/// What follows the content after a tag.
#[cycle(scanner)]
#[tactic(auto, using(crate::proofs::Scan::behind_map), unfolding(crate::specs::Reading::content_at))]
fn after_content(room: u8, tag: Tag, bytes: &[u8]) -> Result<&[u8], ValueFault>
    ensures { Tells (λ x. x.now) result (behind (content_at (nested room) tag bytes.now)) }
{
    match tag {
        Tag::Array => after_items(room, bytes),
        Tag::Structure => after_items(room, bytes),
        Tag::CompactArray => {
            let (_, rest) = compact(bytes)?;
            Ok(rest)
        }
        Tag::Plain(tag) => {
            let (_, rest) = read_plain(tag, bytes)?;
            Ok(rest)
        }
    }
}

/// What follows a count and so many values.
#[cycle(scanner)]
fn after_items(room: u8, bytes: &[u8]) -> Result<&[u8], ValueFault>
    ensures { Tells (λ x. x.now) result (behind (nested room bytes.now)) }
{
    if room == 0 {
        return Err(ValueFault::Depth);
    }
    let (count, rest) = length_of(bytes)?;
    after_several(room - 1, count, rest)
}

/// What follows so many values.
#[cycle(scanner)]
pub fn after_several(room: u8, count: u32, bytes: &[u8]) -> Result<&[u8], ValueFault>
    ensures { Tells (λ x. x.now) result (behind (values_at room count bytes.now)) }
{
    let mut rest = bytes;
    for _ in 0..count {
        rest = after_value(room, rest)?;
    }
    Ok(rest)
}
