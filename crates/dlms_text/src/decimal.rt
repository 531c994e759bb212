//! Numbers with a scaler.

ghost use Rattle.std.specs.Prelude.{◌≡◌, ◌++◌, replicate, OnOk};
ghost use Rattle.dlms_text.specs.Decimals.{scaled, with_point};

use itoa::Buffer;
use std::alloc::{AllocError, Allocator};

/// Appends zeros.
fn append_zeros<A: Allocator>(text: &mut Vec<u8, A>, count: usize) -> Result<(), AllocError>
    ensures { OnOk result (text.new.items ≡ text.old.items ++ replicate count 48) }
{
    'zeros: for _zero in 0..count {
        text.push(b'0')?;
    }
    Ok(())
}

/// Appends digits, this many of them after a point.
fn append_with_point<A: Allocator>(
    text: &mut Vec<u8, A>,
    digits: &[u8],
    places: usize,
) -> Result<(), AllocError>
    ensures { OnOk result (text.new.items ≡ text.old.items ++ with_point digits.now places) }
{
    if places < digits.len() {
        let whole = digits.len() - places;
        text.extend_from_slice(&digits[..whole])?;
        text.push(b'.')?;
        return text.extend_from_slice(&digits[whole..]);
    }
    text.extend_from_slice(b"0.")?;
    append_zeros(text, places - digits.len())?;
    text.extend_from_slice(digits)
}

/// Appends a number times a power of ten in decimal digits: all of them, and no more of them after the point than the power needs.
pub fn append_decimal<A: Allocator>(
    text: &mut Vec<u8, A>,
    is_negative: bool,
    number: u64,
    power: i16,
) -> Result<(), AllocError>
    ensures { OnOk result (text.new.items ≡ text.old.items ++ scaled is_negative number power) }
{
    let mut buffer = Buffer::new();
    let digits = buffer.format(number).as_bytes();
    if is_negative {
        text.push(b'-')?;
    }
    if power < 0 {
        return append_with_point(text, digits, usize::from(power.unsigned_abs()));
    }
    text.extend_from_slice(digits)?;
    if number > 0 {
        append_zeros(text, power as usize)?;
    }
    Ok(())
}
