//! The parts of a form, read from left to right, each with the bytes after it. A part that contains a value is first skipped, and
//! created once everything has been read, so that no memory is allocated before.

ghost use Rattle.std.specs.Prelude.{◌≡◌, length, IfOk, IsOk, MatchResult, option_map};
ghost use Rattle.dlms_data.specs.Memory.{NeedsMemory};
ghost use Rattle.dlms_data.specs.Value.{Value};
ghost use Rattle.dlms_data.specs.View.{value_of};
ghost use Rattle.dlms_apdu.specs.Reading.{Tells, SelectorNeeds, ParameterNeeds, end_at, Passes, Makes, byte_at, taken_at, number_at, flag_at, descriptor_at, value_at, raw_at, selector_at, parameter_at, block_at};
ghost use Rattle.dlms_apdu.specs.View.{selection_of, block_of};

use crate::fault::{ApduFault, Refusal};
use byteorder::{BigEndian, ByteOrder};
use dlms_data::{Data, DataFault, Descriptor, Selector, counted, read, span};
use std::alloc::Allocator;

/// A byte.
pub fn byte(bytes: &[u8]) -> Result<(u8, &[u8]), Refusal>
    ensures { Tells (λ x. (x.0, x.1.now)) result (byte_at bytes.now) }
{
    match bytes {
        [] => Err(Refusal::Short),
        [first, rest @ ..] => Ok((*first, rest)),
    }
}

/// The first `n` bytes.
#[tactic(auto, unfolding(crate::specs::Reading::taken_at))]
fn taken(bytes: &[u8], n: usize) -> Result<(&[u8], &[u8]), Refusal>
    ensures exact { Tells (λ x. (x.0.now, x.1.now)) result (taken_at n bytes.now) }
    ensures length { IfOk result (λ x. length x.0.now ≡ n) }
{
    if bytes.len() < n {
        return Err(Refusal::Short);
    }
    Ok(bytes.split_at(n))
}

/// A number of two bytes.
#[tactic(auto, unfolding(crate::specs::Reading::number_at, crate::specs::Reading::and_then))]
fn two(bytes: &[u8]) -> Result<(u16, &[u8]), Refusal>
    ensures { Tells (λ x. (x.0, x.1.now)) result (number_at 2 bytes.now) }
{
    let (front, rest) = taken(bytes, 2)?;
    Ok((BigEndian::read_u16(front), rest))
}

/// A number of four bytes.
#[tactic(auto, unfolding(crate::specs::Reading::number_at, crate::specs::Reading::and_then))]
pub fn four(bytes: &[u8]) -> Result<(u32, &[u8]), Refusal>
    ensures { Tells (λ x. (x.0, x.1.now)) result (number_at 4 bytes.now) }
{
    let (front, rest) = taken(bytes, 4)?;
    Ok((BigEndian::read_u32(front), rest))
}

/// A boolean.
#[tactic(auto, unfolding(crate::specs::Reading::flag_at, crate::specs::Reading::and_then))]
pub fn flag(bytes: &[u8]) -> Result<(bool, &[u8]), Refusal>
    ensures { Tells (λ x. (x.0, x.1.now)) result (flag_at bytes.now) }
{
    let (first, rest) = byte(bytes)?;
    Ok((first != 0, rest))
}

/// A class, a name and the number of an attribute or method.
#[tactic(auto, unfolding(crate::specs::Reading::descriptor_at, crate::specs::Reading::and_then))]
pub fn descriptor(bytes: &[u8]) -> Result<(Descriptor, &[u8]), Refusal>
    ensures { Tells (λ x. (x.0, x.1.now)) result (descriptor_at bytes.now) }
{
    let (class, rest) = two(bytes)?;
    let (front, rest) = taken(rest, 6)?;
    let mut name = [0; 6];
    name.copy_from_slice(front);
    let (id, rest) = byte(rest)?;
    Ok((Descriptor { class, name, id }, rest))
}

/// A length and a block's bytes.
pub fn raw(bytes: &[u8]) -> Result<(&[u8], &[u8]), Refusal>
    ensures { Tells (λ x. (x.0.now, x.1.now)) result (raw_at bytes.now) }
{
    match counted(bytes) {
        Ok(found) => Ok(found),
        Err(DataFault::Short) => Err(Refusal::Short),
        Err(_) => Err(Refusal::Choice),
    }
}

/// Whether a block is the last one, its number, and its bytes.
#[derive(Clone, Copy)]
pub struct Block<'a> {
    pub last: bool,
    pub number: u32,
    pub raw: &'a [u8],
}

/// A block.
#[tactic(auto, unfolding(crate::specs::Reading::block_at, crate::specs::Reading::and_then))]
pub fn read_block(bytes: &[u8]) -> Result<(Block<'_>, &[u8]), Refusal>
    ensures { Tells (λ x. (block_of x.0, x.1.now)) result (block_at bytes.now) }
{
    let (last, rest) = flag(bytes)?;
    let (number, rest) = four(rest)?;
    let (raw, rest) = raw(rest)?;
    Ok((Block { last, number, raw }, rest))
}

/// The bytes after a value.
#[tactic(auto, using(crate::proofs::Behind::behind_value))]
pub fn after_value(bytes: &[u8]) -> Result<&[u8], Refusal>
    ensures { Passes (λ x. x.now) result (value_at bytes.now) }
{
    match span(bytes) {
        Ok(len) => Ok(bytes.split_at(len).1),
        Err(_) => Err(Refusal::Data),
    }
}

/// The value at the front.
pub fn value<A: Allocator + Copy>(alloc: A, bytes: &[u8]) -> Result<Data<A>, ApduFault>
    requires { IsOk (value_at bytes.now) }
    ensures { Makes value_of NeedsMemory result (value_at bytes.now) }
{
    match read(alloc, bytes) {
        Ok((value, _)) => Ok(value),
        Err(_) => Err(ApduFault::Memory),
    }
}

/// The bytes after a selector or its absence.
#[tactic(auto, unfolding(crate::specs::Reading::selector_at, crate::specs::Reading::some_selector_at, crate::specs::Reading::and_then))]
pub fn after_selector(bytes: &[u8]) -> Result<&[u8], Refusal>
    ensures { Passes (λ x. x.now) result (selector_at bytes.now) }
{
    match bytes {
        [] => Err(Refusal::Short),
        [0, rest @ ..] => Ok(rest),
        [1, rest @ ..] => {
            let (_, rest) = byte(rest)?;
            after_value(rest)
        }
        _ => Err(Refusal::Choice),
    }
}

/// The selector at the front, or none.
#[tactic(auto, unfolding(crate::specs::Reading::selector_at, crate::specs::Reading::some_selector_at, crate::specs::Reading::and_then))]
pub fn selector<A: Allocator + Copy>(
    alloc: A,
    bytes: &[u8],
) -> Result<Option<Selector<A>>, ApduFault>
    requires { IsOk (selector_at bytes.now) }
    ensures { Makes (option_map selection_of) SelectorNeeds result (selector_at bytes.now) }
{
    match bytes {
        [1, number, rest @ ..] => {
            let value = value(alloc, rest)?;
            Ok(Some(Selector {
                number: *number,
                value,
            }))
        }
        _ => Ok(None),
    }
}

/// The bytes after a parameter or its absence.
#[tactic(auto, unfolding(crate::specs::Reading::parameter_at, crate::specs::Reading::some_parameter_at, crate::specs::Reading::and_then))]
pub fn after_parameter(bytes: &[u8]) -> Result<&[u8], Refusal>
    ensures { Passes (λ x. x.now) result (parameter_at bytes.now) }
{
    match bytes {
        [] => Err(Refusal::Short),
        [0, rest @ ..] => Ok(rest),
        [1, rest @ ..] => after_value(rest),
        _ => Err(Refusal::Choice),
    }
}

/// The parameter at the front, or none.
#[tactic(auto, unfolding(crate::specs::Reading::parameter_at, crate::specs::Reading::some_parameter_at, crate::specs::Reading::and_then))]
pub fn parameter<A: Allocator + Copy>(alloc: A, bytes: &[u8]) -> Result<Option<Data<A>>, ApduFault>
    requires { IsOk (parameter_at bytes.now) }
    ensures { Makes (option_map value_of) ParameterNeeds result (parameter_at bytes.now) }
{
    match bytes {
        [1, rest @ ..] => Ok(Some(value(alloc, rest)?)),
        _ => Ok(None),
    }
}

/// Refuses bytes after the last part.
pub fn ended(bytes: &[u8]) -> Result<(), Refusal>
    ensures { Tells (λ x. tt) result (end_at bytes.now) }
{
    if bytes.is_empty() {
        Ok(())
    } else {
        Err(Refusal::Trailing)
    }
}
