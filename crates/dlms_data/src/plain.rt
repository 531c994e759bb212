//! Values that hold no others.

ghost use Rattle.std.specs.Prelude.{◌≡◌};
ghost use Rattle.dlms_data.specs.Memory.{NeedsFirst};
ghost use Rattle.dlms_axdr.specs.Reading.{Gives, Tells, behind};
ghost use Rattle.dlms_data.specs.Reading.{bits_at, plain_at};
ghost use Rattle.dlms_data.specs.View.{value_of};

use crate::data::Data;
use crate::parts::{bits, octets};
use crate::tag::Plain;
use dlms_axdr::{
    DataFault, counted, eight, five, four, four_octets, length_of, one, taken, twelve, two,
};
use std::alloc::Allocator;

/// The content after the tag of a type that contains no other values.
#[tactic(auto, using(crate::proofs::Wanting::wanting), unfolding(crate::specs::Reading::plain_at))]
pub fn plain<A: Allocator>(
    alloc: A,
    tag: Plain,
    bytes: &[u8],
) -> Result<(Data<A>, &[u8]), DataFault>
    ensures { Gives (λ x. (value_of x.0, x.1.now)) NeedsFirst result (plain_at tag bytes.now) }
{
    match tag {
        Plain::Null => Ok((Data::Null, bytes)),
        Plain::Boolean => {
            let (n, rest) = one(bytes)?;
            Ok((Data::Boolean(0 < n), rest))
        }
        Plain::BitString => {
            let (bits, rest) = bits(alloc, bytes)?;
            Ok((Data::BitString(bits), rest))
        }
        Plain::DoubleLong => {
            let (n, rest) = four(bytes)?;
            Ok((Data::DoubleLong(n.cast_signed()), rest))
        }
        Plain::DoubleLongUnsigned => {
            let (n, rest) = four(bytes)?;
            Ok((Data::DoubleLongUnsigned(n), rest))
        }
        Plain::OctetString => {
            let (octets, rest) = octets(alloc, bytes)?;
            Ok((Data::OctetString(octets), rest))
        }
        Plain::VisibleString => {
            let (octets, rest) = octets(alloc, bytes)?;
            Ok((Data::VisibleString(octets), rest))
        }
        Plain::Utf8String => {
            let (octets, rest) = octets(alloc, bytes)?;
            Ok((Data::Utf8String(octets), rest))
        }
        Plain::Bcd => {
            let (n, rest) = one(bytes)?;
            Ok((Data::Bcd(n), rest))
        }
        Plain::Integer => {
            let (n, rest) = one(bytes)?;
            Ok((Data::Integer(n.cast_signed()), rest))
        }
        Plain::Long => {
            let (n, rest) = two(bytes)?;
            Ok((Data::Long(n.cast_signed()), rest))
        }
        Plain::Unsigned => {
            let (n, rest) = one(bytes)?;
            Ok((Data::Unsigned(n), rest))
        }
        Plain::LongUnsigned => {
            let (n, rest) = two(bytes)?;
            Ok((Data::LongUnsigned(n), rest))
        }
        Plain::Long64 => {
            let (n, rest) = eight(bytes)?;
            Ok((Data::Long64(n.cast_signed()), rest))
        }
        Plain::Long64Unsigned => {
            let (n, rest) = eight(bytes)?;
            Ok((Data::Long64Unsigned(n), rest))
        }
        Plain::Enum => {
            let (n, rest) = one(bytes)?;
            Ok((Data::Enum(n), rest))
        }
        Plain::DateTime => {
            let (octets, rest) = twelve(bytes)?;
            Ok((Data::DateTime(octets), rest))
        }
        Plain::Date => {
            let (octets, rest) = five(bytes)?;
            Ok((Data::Date(octets), rest))
        }
        Plain::Time => {
            let (octets, rest) = four_octets(bytes)?;
            Ok((Data::Time(octets), rest))
        }
    }
}

/// What follows a length and that many bits.
#[tactic(auto, unfolding(crate::specs::Reading::bits_at))]
fn after_bits(bytes: &[u8]) -> Result<&[u8], DataFault>
    ensures { Tells (λ x. x.now) result (behind (bits_at bytes.now)) }
{
    let (count, rest) = length_of(bytes)?;
    let (_, rest) = taken(rest, (count as usize + 7) / 8)?;
    Ok(rest)
}

/// What follows the content after the tag of a type that contains no other values.
#[tactic(auto, using(crate::proofs::Scan::behind_map), unfolding(crate::specs::Reading::plain_at, dlms_axdr::specs::Reading::number_at))]
pub fn after_plain(tag: Plain, bytes: &[u8]) -> Result<&[u8], DataFault>
    ensures { Tells (λ x. x.now) result (behind (plain_at tag bytes.now)) }
{
    let size = match tag {
        Plain::Null => return Ok(bytes),
        Plain::BitString => return after_bits(bytes),
        Plain::OctetString | Plain::VisibleString | Plain::Utf8String => {
            let (_, rest) = counted(bytes)?;
            return Ok(rest);
        }
        Plain::Boolean | Plain::Bcd | Plain::Integer | Plain::Unsigned | Plain::Enum => 1,
        Plain::Long | Plain::LongUnsigned => 2,
        Plain::DoubleLong | Plain::DoubleLongUnsigned | Plain::Time => 4,
        Plain::Date => 5,
        Plain::Long64 | Plain::Long64Unsigned => 8,
        Plain::DateTime => 12,
    };
    let (_, rest) = taken(bytes, size)?;
    Ok(rest)
}
