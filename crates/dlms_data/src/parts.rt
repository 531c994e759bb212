//! Reads octets and bits, which their length precedes, into memory.

ghost use Rattle.dlms_axdr.specs.Reading.{Gives, octets_at};
ghost use Rattle.dlms_data.specs.Memory.{HasSome};
ghost use Rattle.dlms_data.specs.Reading.{bits_at};

use crate::bits::Bits;
use crate::bytes::{Bytes, copied};
use dlms_axdr::{DataFault, counted, length_of, taken};
use std::alloc::Allocator;

/// A length and that many octets.
pub fn octets<A: Allocator>(alloc: A, bytes: &[u8]) -> Result<(Bytes<A>, &[u8]), DataFault>
    ensures { Gives (λ x. (x.0, x.1.now)) HasSome result (octets_at bytes.now) }
{
    let (front, rest) = counted(bytes)?;
    Ok((Bytes::from_slice(alloc, front)?, rest))
}

/// A length and that many bits.
#[tactic(auto, unfolding(crate::specs::Reading::bits_at))]
pub fn bits<A: Allocator>(alloc: A, bytes: &[u8]) -> Result<(Bits<A>, &[u8]), DataFault>
    ensures { Gives (λ x. (x.0, x.1.now)) HasSome result (bits_at bytes.now) }
{
    let (count, rest) = length_of(bytes)?;
    let count = count as usize;
    let (front, rest) = taken(rest, (count + 7) / 8)?;
    Ok((Bits::from_vec(copied(alloc, front)?, count), rest))
}
