//! Reads lengths, numbers and octets at the front of bytes, without memory.

ghost use Rattle.std.specs.Prelude.{◌≡◌, ◌≤◌, ◌<◌, ◌+◌, length, IfOk};
ghost use Rattle.byteorder.specs.Endian.{big_number};
ghost use Rattle.dlms_axdr.specs.Reading.{Tells, taken_at, length_at, number_at, octets_at};

use crate::fault::DataFault;
use byteorder::{BigEndian, ByteOrder};

/// The first `n` bytes, and those after them.
#[tactic(auto, unfolding(crate::specs::Reading::taken_at))]
pub fn taken(bytes: &[u8], n: usize) -> Result<(&[u8], &[u8]), DataFault>
    ensures told { Tells (λ x. (x.0.now, x.1.now)) result (taken_at n bytes.now) }
    ensures length { IfOk result (λ x. length x.0.now ≡ n) }
{
    if bytes.len() < n {
        return Err(DataFault::Short);
    }
    Ok(bytes.split_at(n))
}

/// A number of one byte.
#[tactic(auto, unfolding(crate::specs::Reading::number_at))]
pub fn one(bytes: &[u8]) -> Result<(u8, &[u8]), DataFault>
    ensures told { Tells (λ x. (x.0, x.1.now)) result (number_at 1 bytes.now) }
{
    let (front, rest) = taken(bytes, 1)?;
    Ok((front[0], rest))
}

/// A number of two bytes.
#[tactic(auto, unfolding(crate::specs::Reading::number_at))]
pub fn two(bytes: &[u8]) -> Result<(u16, &[u8]), DataFault>
    ensures told { Tells (λ x. (x.0, x.1.now)) result (number_at 2 bytes.now) }
{
    let (front, rest) = taken(bytes, 2)?;
    Ok((BigEndian::read_u16(front), rest))
}

/// A number of four bytes.
#[tactic(auto, unfolding(crate::specs::Reading::number_at))]
pub fn four(bytes: &[u8]) -> Result<(u32, &[u8]), DataFault>
    ensures told { Tells (λ x. (x.0, x.1.now)) result (number_at 4 bytes.now) }
{
    let (front, rest) = taken(bytes, 4)?;
    Ok((BigEndian::read_u32(front), rest))
}

/// A number of eight bytes.
#[tactic(auto, unfolding(crate::specs::Reading::number_at))]
pub fn eight(bytes: &[u8]) -> Result<(u64, &[u8]), DataFault>
    ensures told { Tells (λ x. (x.0, x.1.now)) result (number_at 8 bytes.now) }
{
    let (front, rest) = taken(bytes, 8)?;
    Ok((BigEndian::read_u64(front), rest))
}

/// The number of one to four bytes.
fn number_of(bytes: &[u8]) -> u32
    requires some { 0 < length bytes.now }
    requires few { length bytes.now < 5 }
    ensures { result ≡ big_number (length bytes.now) bytes.now }
{
    match bytes.len() {
        1 => u32::from(bytes[0]),
        2 => u32::from(BigEndian::read_u16(bytes)),
        3 => BigEndian::read_u24(bytes),
        _ => BigEndian::read_u32(bytes),
    }
}

/// A length, in any of its spellings.
#[tactic(auto, unfolding(crate::specs::Reading::length_at, crate::specs::Reading::number_at))]
pub fn length_of(bytes: &[u8]) -> Result<(u32, &[u8]), DataFault>
    ensures told { Tells (λ x. (x.0, x.1.now)) result (length_at bytes.now) }
{
    match bytes {
        [] => Err(DataFault::Short),
        [first, rest @ ..] => {
            let first = *first;
            if first < 128 {
                return Ok((u32::from(first), rest));
            }
            if first < 129 || 132 < first {
                return Err(DataFault::Length);
            }
            let (front, rest) = taken(rest, usize::from(first) - 128)?;
            Ok((number_of(front), rest))
        }
    }
}

/// A length, in any of its spellings, and that many octets: returns the octets and what follows them. Takes no memory.
#[tactic(auto, unfolding(crate::specs::Reading::octets_at))]
pub fn counted(bytes: &[u8]) -> Result<(&[u8], &[u8]), DataFault>
    ensures told { Tells (λ x. (x.0.now, x.1.now)) result (octets_at bytes.now) }
{
    let (count, rest) = length_of(bytes)?;
    taken(rest, count as usize)
}

/// Twelve octets.
pub fn twelve(bytes: &[u8]) -> Result<([u8; 12], &[u8]), DataFault>
    ensures { Tells (λ x. (x.0, x.1.now)) result (taken_at 12 bytes.now) }
{
    let (front, rest) = taken(bytes, 12)?;
    let mut octets = [0; 12];
    octets.copy_from_slice(front);
    Ok((octets, rest))
}

/// Five octets.
pub fn five(bytes: &[u8]) -> Result<([u8; 5], &[u8]), DataFault>
    ensures { Tells (λ x. (x.0, x.1.now)) result (taken_at 5 bytes.now) }
{
    let (front, rest) = taken(bytes, 5)?;
    let mut octets = [0; 5];
    octets.copy_from_slice(front);
    Ok((octets, rest))
}

/// Four octets.
pub fn four_octets(bytes: &[u8]) -> Result<([u8; 4], &[u8]), DataFault>
    ensures { Tells (λ x. (x.0, x.1.now)) result (taken_at 4 bytes.now) }
{
    let (front, rest) = taken(bytes, 4)?;
    let mut octets = [0; 4];
    octets.copy_from_slice(front);
    Ok((octets, rest))
}
