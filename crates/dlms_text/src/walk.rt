//! Encodings (A-XDR), read value by value, without building the tree of their values.

ghost use Rattle.std.specs.Prelude.{◌≡◌, ◌++◌, IfNone, IfSome, IsErr};
ghost use Rattle.dlms_text.specs.Walking.{IsFront, Reads};
ghost use Rattle.dlms_data.specs.Memory.{NeedsFirst};
ghost use Rattle.dlms_data.specs.Reading.{data_at};
ghost use Rattle.dlms_data.specs.Spelling.{IsSpelling};
ghost use Rattle.dlms_data.specs.Value.{Value};
ghost use Rattle.dlms_data.specs.View.{value_of};

use crate::fault::{ValueFault, of_data};
use dlms_axdr::length_of;
use dlms_data::{Data, read, span};
use std::alloc::Allocator;

/// The front of an encoding.
#[derive(Clone, Copy, Debug, PartialEq, Eq)]
pub enum Front {
    /// The head of an array of this many values, which follow it.
    Array(u32),
    /// The head of a structure of this many values, which follow it.
    Structure(u32),
    /// A value that contains no others, or bytes that are no value.
    Plain,
}

/// The head at the front of an encoding, and the octets after it; without a head, the whole encoding.
pub fn front_of(bytes: &[u8]) -> (Front, &[u8])
    ensures { IsFront bytes.now result.0 result.1.now }
{
    match bytes {
        [1, rest @ ..] => match length_of(rest) {
            Ok((count, rest)) => (Front::Array(count), rest),
            Err(_) => (Front::Plain, bytes),
        },
        [2, rest @ ..] => match length_of(rest) {
            Ok((count, rest)) => (Front::Structure(count), rest),
            Err(_) => (Front::Plain, bytes),
        },
        _ => (Front::Plain, bytes),
    }
}

/// The encoding of the value at the front, and what follows it; none if no value is there. It takes no memory.
pub fn first_of(bytes: &[u8]) -> Option<(&[u8], &[u8])>
    ensures parts { IfSome result (λ x. bytes.now ≡ x.0.now ++ x.1.now) }
    ensures value { IfSome result (λ x. (v : Value) × IsSpelling x.0.now v) }
    ensures none { IfNone result (IsErr (data_at 8 bytes.now)) }
{
    match span(bytes) {
        Ok(length) => Some(bytes.split_at(length)),
        Err(_) => None,
    }
}

/// The value at the front, and what follows it. `Form` means that no value is there. It takes the memory of the value's tree, and
/// `Memory` comes only if there is a value, and it needs memory.
pub fn value_at<A: Allocator + Copy>(alloc: A, bytes: &[u8]) -> Result<(Data<A>, &[u8]), ValueFault>
    ensures { Reads (λ x. (value_of x.0, x.1.now)) NeedsFirst result (data_at 8 bytes.now) }
{
    match read(alloc, bytes) {
        Ok((value, length)) => Ok((value, &bytes[length..])),
        Err(fault) => Err(of_data(fault)),
    }
}
