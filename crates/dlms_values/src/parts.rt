//! Reads what follows a tag: lengths, numbers, octets.

ghost use Rattle.std.specs.Prelude.{◌≡◌, ◌<◌, length, IfOk};
ghost use Rattle.byteorder.specs.Endian.{big_number};
ghost use Rattle.dlms_values.specs.Reading.{Tells, taken_at, length_at, number_at, counted_at};

use crate::fault::ValueFault;
use byteorder::{BigEndian, ByteOrder};

/// The first `n` octets, and those after them.
#[tactic(auto, unfolding(crate::specs::Reading::taken_at))]
pub fn taken(bytes: &[u8], n: usize) -> Result<(&[u8], &[u8]), ValueFault>
    ensures exact { Tells (λ x. (x.0.now, x.1.now)) result (taken_at n bytes.now) }
    ensures length { IfOk result (λ x. length x.0.now ≡ n) }
{
    if bytes.len() < n {
        return Err(ValueFault::Short);
    }
    Ok(bytes.split_at(n))
}

/// A number of one octet.
#[tactic(auto, unfolding(crate::specs::Reading::number_at))]
pub fn one(bytes: &[u8]) -> Result<(u8, &[u8]), ValueFault>
    ensures { Tells (λ x. (x.0, x.1.now)) result (number_at 1 bytes.now) }
{
    let (front, rest) = taken(bytes, 1)?;
    Ok((front[0], rest))
}

/// A number of two octets.
#[tactic(auto, unfolding(crate::specs::Reading::number_at))]
pub fn two(bytes: &[u8]) -> Result<(u16, &[u8]), ValueFault>
    ensures { Tells (λ x. (x.0, x.1.now)) result (number_at 2 bytes.now) }
{
    let (front, rest) = taken(bytes, 2)?;
    Ok((BigEndian::read_u16(front), rest))
}

/// A number of four octets.
#[tactic(auto, unfolding(crate::specs::Reading::number_at))]
pub fn four(bytes: &[u8]) -> Result<(u32, &[u8]), ValueFault>
    ensures { Tells (λ x. (x.0, x.1.now)) result (number_at 4 bytes.now) }
{
    let (front, rest) = taken(bytes, 4)?;
    Ok((BigEndian::read_u32(front), rest))
}

/// A number of eight octets.
#[tactic(auto, unfolding(crate::specs::Reading::number_at))]
pub fn eight(bytes: &[u8]) -> Result<(u64, &[u8]), ValueFault>
    ensures { Tells (λ x. (x.0, x.1.now)) result (number_at 8 bytes.now) }
{
    let (front, rest) = taken(bytes, 8)?;
    Ok((BigEndian::read_u64(front), rest))
}

/// The number of one to four octets.
fn number_of(bytes: &[u8]) -> u32
    requires some { 0 < length bytes.now }
    requires few { length bytes.now < 5 }
    ensures { result ≡ big_number (length bytes.now) bytes.now }
{
    match bytes.len() {
        1 => u32::from(bytes[0]),
        2 => u32::from(BigEndian::read_u16(bytes)),
        3 => BigEndian::read_u24(bytes),
        _ => BigEndian::read_u32(bytes),
    }
}

/// A length, in any of its spellings.
#[tactic(auto, unfolding(crate::specs::Reading::length_at, crate::specs::Reading::number_at))]
pub fn length_of(bytes: &[u8]) -> Result<(u32, &[u8]), ValueFault>
    ensures { Tells (λ x. (x.0, x.1.now)) result (length_at bytes.now) }
{
    match bytes {
        [] => Err(ValueFault::Short),
        [first, rest @ ..] => {
            let first = *first;
            if first < 128 {
                return Ok((u32::from(first), rest));
            }
            if first < 129 || 132 < first {
                return Err(ValueFault::Length);
            }
            let (front, rest) = taken(rest, usize::from(first) - 128)?;
            Ok((number_of(front), rest))
        }
    }
}

/// A length, in any of its spellings, and that many octets.
#[tactic(auto, unfolding(crate::specs::Reading::counted_at))]
pub fn counted(bytes: &[u8]) -> Result<(&[u8], &[u8]), ValueFault>
    ensures { Tells (λ x. (x.0.now, x.1.now)) result (counted_at bytes.now) }
{
    let (count, rest) = length_of(bytes)?;
    taken(rest, count as usize)
}
