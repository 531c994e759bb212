//! Numbers, digits and strings of JSON (RFC 8259).

ghost use Rattle.std.specs.Prelude.{◌≡◌, decimal};
ghost use Rattle.dlms_text.specs.Json.{Grows, letter_of, letters_of, pair_of, pairs_of, quoted};

use itoa::Buffer;
use std::alloc::{AllocError, Allocator};

const DIGITS: [u8; 16] = *b"0123456789abcdef";

/// Appends octets. If memory runs out, the text is unchanged.
fn append_octets<A: Allocator>(text: &mut Vec<u8, A>, octets: &[u8]) -> Result<(), AllocError>
    ensures { Grows result text.old.items text.new.items octets.now }
{
    text.extend_from_slice(octets)
}

/// An octet as two lower case hexadecimal digits, the high four bits first.
fn pair(octet: u8) -> [u8; 2]
    ensures { result ≡ pair_of octet }
{
    [
        DIGITS[usize::from(octet / 16)],
        DIGITS[usize::from(octet % 16)],
    ]
}

/// Appends each octet as two lower case hexadecimal digits. If memory runs out, a part of them is appended.
pub fn append_pairs<A: Allocator>(text: &mut Vec<u8, A>, bytes: &[u8]) -> Result<(), AllocError>
    ensures { Grows result text.old.items text.new.items (pairs_of bytes.now) }
{
    'octets: for byte in bytes {
        let digits = pair(*byte);
        append_octets(text, &digits)?;
    }
    Ok(())
}

/// Appends an octet of a text in UTF-8, escaped if JSON does not allow it between quotes.
fn append_letter<A: Allocator>(text: &mut Vec<u8, A>, octet: u8) -> Result<(), AllocError>
    ensures { Grows result text.old.items text.new.items (letter_of octet) }
{
    if octet == b'"' || octet == b'\\' {
        append_octets(text, &[b'\\', octet])
    } else if octet < b' ' {
        let [high, low] = pair(octet);
        append_octets(text, &[b'\\', b'u', b'0', b'0', high, low])
    } else {
        append_octets(text, &[octet])
    }
}

/// Appends the octets of a text in UTF-8, for a place between double quotes: a double quote and a backslash after a backslash, a control
/// character as \u00 and two digits, all others as they are. If memory runs out, a part is appended.
pub fn append_text<A: Allocator>(text: &mut Vec<u8, A>, bytes: &[u8]) -> Result<(), AllocError>
    ensures { Grows result text.old.items text.new.items (letters_of bytes.now) }
{
    'octets: for byte in bytes {
        append_letter(text, *byte)?;
    }
    Ok(())
}

/// Appends a text in UTF-8 between double quotes, as `append_text` does. If memory runs out, a part is appended.
pub fn append_quoted<A: Allocator>(text: &mut Vec<u8, A>, bytes: &[u8]) -> Result<(), AllocError>
    ensures { Grows result text.old.items text.new.items (quoted (letters_of bytes.now)) }
{
    append_octets(text, b"\"")?;
    append_text(text, bytes)?;
    append_octets(text, b"\"")
}

/// Appends a number in decimal digits. If memory runs out, a part is appended.
pub fn append_number<A: Allocator>(text: &mut Vec<u8, A>, number: u64) -> Result<(), AllocError>
    ensures { Grows result text.old.items text.new.items (decimal number) }
{
    let mut buffer = Buffer::new();
    append_octets(text, buffer.format(number).as_bytes())
}
