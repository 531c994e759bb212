//! Values that contain no others.

ghost use Rattle.std.specs.Prelude.{◌≡◌};
ghost use Rattle.dlms_values.specs.Reading.{Tells, bits_at, octets_at, number_at, plain_at, plain_tags_at, types_at, compact_at, signed_at};
ghost use Rattle.std.specs.List.{list_all};
ghost use Rattle.dlms_values.specs.Types.{is_plain_tag, unsigned_size, octets_size};
ghost use Rattle.dlms_values.specs.View.{bits_in, value_of};

use crate::bits::Bits;
use crate::fault::ValueFault;
use crate::parts::{counted, eight, four, length_of, one, taken, two};
use crate::types::{OctetsKind, Plain, SignedKind, UnsignedKind, is_plain_tag};
use crate::value::{CompactArray, Value};

/// A length and that many bits.
#[tactic(auto, unfolding(crate::specs::Reading::bits_at))]
fn bits(bytes: &[u8]) -> Result<(Bits<'_>, &[u8]), ValueFault>
    ensures { Tells (λ x. (bits_in x.0, x.1.now)) result (bits_at bytes.now) }
{
    let (count, rest) = length_of(bytes)?;
    let count = count as usize;
    let (front, rest) = taken(rest, (count + 7) / 8)?;
    Ok((
        Bits {
            bytes: front,
            count,
        },
        rest,
    ))
}

/// An integer with a sign.
fn signed(kind: SignedKind, bytes: &[u8]) -> Result<(i64, &[u8]), ValueFault>
    ensures { Tells (λ x. (x.0, x.1.now)) result (signed_at kind bytes.now) }
{
    match kind {
        SignedKind::Integer | SignedKind::DeltaInteger => {
            let (n, rest) = one(bytes)?;
            Ok((i64::from(n.cast_signed()), rest))
        }
        SignedKind::Long | SignedKind::DeltaLong => {
            let (n, rest) = two(bytes)?;
            Ok((i64::from(n.cast_signed()), rest))
        }
        SignedKind::DoubleLong | SignedKind::DeltaDoubleLong => {
            let (n, rest) = four(bytes)?;
            Ok((i64::from(n.cast_signed()), rest))
        }
        SignedKind::Long64 => {
            let (n, rest) = eight(bytes)?;
            Ok((n.cast_signed(), rest))
        }
    }
}

/// An integer without a sign.
fn unsigned(kind: UnsignedKind, bytes: &[u8]) -> Result<(u64, &[u8]), ValueFault>
    ensures { Tells (λ x. (x.0, x.1.now)) result (number_at (unsigned_size kind) bytes.now) }
{
    match kind {
        UnsignedKind::Bcd
        | UnsignedKind::Enum
        | UnsignedKind::Unsigned
        | UnsignedKind::DeltaUnsigned => {
            let (n, rest) = one(bytes)?;
            Ok((u64::from(n), rest))
        }
        UnsignedKind::LongUnsigned | UnsignedKind::DeltaLongUnsigned => {
            let (n, rest) = two(bytes)?;
            Ok((u64::from(n), rest))
        }
        UnsignedKind::DoubleLongUnsigned | UnsignedKind::DeltaDoubleLongUnsigned => {
            let (n, rest) = four(bytes)?;
            Ok((u64::from(n), rest))
        }
        UnsignedKind::Long64Unsigned => eight(bytes),
    }
}

/// Octets: as many as a length says, or as the type has.
fn octets(kind: OctetsKind, bytes: &[u8]) -> Result<(&[u8], &[u8]), ValueFault>
    ensures { Tells (λ x. (x.0.now, x.1.now)) result (octets_at (octets_size kind) bytes.now) }
{
    match kind {
        OctetsKind::OctetString | OctetsKind::VisibleString | OctetsKind::Utf8String => {
            counted(bytes)
        }
        OctetsKind::DateTime => taken(bytes, 12),
        OctetsKind::Date => taken(bytes, 5),
        OctetsKind::Time => taken(bytes, 4),
    }
}

/// The content of a value whose type is known, without the tag before it.
#[tactic(auto, unfolding(crate::specs::Reading::plain_at))]
pub fn read_plain(tag: Plain, bytes: &[u8]) -> Result<(Value<'_>, &[u8]), ValueFault>
    ensures { Tells (λ x. (value_of x.0, x.1.now)) result (plain_at tag bytes.now) }
{
    match tag {
        Plain::Null => Ok((Value::Null, bytes)),
        Plain::DontCare => Ok((Value::DontCare, bytes)),
        Plain::Boolean => {
            let (n, rest) = one(bytes)?;
            Ok((Value::Boolean(0 < n), rest))
        }
        Plain::BitString => {
            let (bits, rest) = bits(bytes)?;
            Ok((Value::BitString(bits), rest))
        }
        Plain::Float32 => {
            let (n, rest) = four(bytes)?;
            Ok((Value::Float32(n), rest))
        }
        Plain::Float64 => {
            let (n, rest) = eight(bytes)?;
            Ok((Value::Float64(n), rest))
        }
        Plain::Signed(kind) => {
            let (n, rest) = signed(kind, bytes)?;
            Ok((Value::Signed(kind, n), rest))
        }
        Plain::Unsigned(kind) => {
            let (n, rest) = unsigned(kind, bytes)?;
            Ok((Value::Unsigned(kind, n), rest))
        }
        Plain::Octets(kind) => {
            let (octets, rest) = octets(kind, bytes)?;
            Ok((Value::Octets(kind, octets), rest))
        }
    }
}

/// Whether each is the tag of a type that contains no other values.
fn are_plain(tags: &[u8]) -> bool
    ensures { result ≡ list_all is_plain_tag tags.now }
{
    tags.iter().all(|tag| is_plain_tag(*tag))
}

/// The tags of `count` types that contain no other values.
#[tactic(auto, unfolding(crate::specs::Reading::plain_tags_at))]
fn plain_tags(count: usize, bytes: &[u8]) -> Result<(&[u8], &[u8]), ValueFault>
    ensures { Tells (λ x. (x.0.now, x.1.now)) result (plain_tags_at count bytes.now) }
{
    let (tags, rest) = taken(bytes, count)?;
    if !are_plain(tags) {
        return Err(ValueFault::Nested);
    }
    Ok((tags, rest))
}

/// Whether the elements of a compact array are structures, and the tags of their types.
#[tactic(auto, unfolding(crate::specs::Reading::types_at))]
fn types(bytes: &[u8]) -> Result<(bool, &[u8], &[u8]), ValueFault>
    ensures { Tells (λ x. ((x.0, x.1.now), x.2.now)) result (types_at bytes.now) }
{
    match bytes {
        [] => Err(ValueFault::Short),
        [first, rest @ ..] => {
            if *first == 2 {
                let (count, rest) = length_of(rest)?;
                let (tags, rest) = plain_tags(count as usize, rest)?;
                Ok((true, tags, rest))
            } else {
                let (tags, rest) = plain_tags(1, bytes)?;
                Ok((false, tags, rest))
            }
        }
    }
}

/// The content of a compact array.
#[tactic(auto, unfolding(crate::specs::Reading::compact_at))]
pub fn compact(bytes: &[u8]) -> Result<(CompactArray<'_>, &[u8]), ValueFault>
    ensures { Tells (λ x. (value_of (Value.CompactArray x.0), x.1.now)) result (compact_at bytes.now) }
{
    let (is_structure, tags, rest) = types(bytes)?;
    let (contents, rest) = counted(rest)?;
    Ok((
        CompactArray {
            is_structure,
            tags,
            contents,
        },
        rest,
    ))
}
