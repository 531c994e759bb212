//! The pieces of encodings, as they are appended.

ghost use Rattle.std.specs.Prelude.{◌≡◌, ◌<◌, ◌++◌, ◌∷◌, OnOk, length};
ghost use Rattle.dlms_data.specs.Value.{boolean, double_long_unsigned, enumerated, integer, long_unsigned, octet_string, unsigned};
ghost use Rattle.dlms_data.specs.Writing.{canonical, short_length};

use std::alloc::{AllocError, Allocator};

/// The tags of an array, of a structure and of an octet string.
pub const ARRAY: u8 = 1;

pub const STRUCTURE: u8 = 2;

const OCTET_STRING: u8 = 9;

/// Appends a tag, and a count in its shortest spelling.
#[tactic(auto, unfolding(dlms_data::specs::Writing::short_length))]
pub fn put_count<A: Allocator>(out: &mut Vec<u8, A>, tag: u8, count: u16) -> Result<(), AllocError>
    ensures { OnOk result (out.new.items ≡ out.old.items ++ tag ∷ short_length count) }
{
    let [high, low] = count.to_be_bytes();
    if count < 128 {
        out.extend_from_slice(&[tag, low])
    } else if count < 256 {
        out.extend_from_slice(&[tag, 129, low])
    } else {
        out.extend_from_slice(&[tag, 130, high, low])
    }
}

/// Appends an octet string.
pub fn put_octets<A: Allocator>(out: &mut Vec<u8, A>, octets: &[u8]) -> Result<(), AllocError>
    requires { length octets.now < 65536 }
    ensures { OnOk result (out.new.items ≡ out.old.items ++ canonical (octet_string octets.now)) }
{
    put_count(out, OCTET_STRING, octets.len() as u16)?;
    out.extend_from_slice(octets)
}

/// Appends a double-long-unsigned.
pub fn put_number<A: Allocator>(out: &mut Vec<u8, A>, number: u32) -> Result<(), AllocError>
    ensures { OnOk result (out.new.items ≡ out.old.items
        ++ canonical (double_long_unsigned number)) }
{
    let [a, b, c, d] = number.to_be_bytes();
    out.extend_from_slice(&[6, a, b, c, d])
}

/// Appends a long-unsigned.
pub fn put_long_unsigned<A: Allocator>(out: &mut Vec<u8, A>, number: u16) -> Result<(), AllocError>
    ensures { OnOk result (out.new.items ≡ out.old.items ++ canonical (long_unsigned number)) }
{
    let [high, low] = number.to_be_bytes();
    out.extend_from_slice(&[18, high, low])
}

/// Appends an integer.
pub fn put_integer<A: Allocator>(out: &mut Vec<u8, A>, number: i8) -> Result<(), AllocError>
    ensures { OnOk result (out.new.items ≡ out.old.items ++ canonical (integer number)) }
{
    out.extend_from_slice(&[15, number.cast_unsigned()])
}

/// Appends an unsigned.
pub fn put_unsigned<A: Allocator>(out: &mut Vec<u8, A>, number: u8) -> Result<(), AllocError>
    ensures { OnOk result (out.new.items ≡ out.old.items ++ canonical (unsigned number)) }
{
    out.extend_from_slice(&[17, number])
}

/// Appends an enum.
pub fn put_enum<A: Allocator>(out: &mut Vec<u8, A>, number: u8) -> Result<(), AllocError>
    ensures { OnOk result (out.new.items ≡ out.old.items ++ canonical (enumerated number)) }
{
    out.extend_from_slice(&[22, number])
}

/// Appends a boolean.
pub fn put_boolean<A: Allocator>(out: &mut Vec<u8, A>, truth: bool) -> Result<(), AllocError>
    ensures { OnOk result (out.new.items ≡ out.old.items ++ canonical (boolean truth)) }
{
    out.extend_from_slice(&[3, u8::from(truth)])
}
