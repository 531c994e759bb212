//! Values as text.

ghost use Rattle.std.specs.Prelude.{◌≡◌, ◌++◌, OnOk, codes, decimal, false, from_bits};
ghost use Rattle.std.specs.Float.{binary32, binary64};
ghost use Rattle.std.specs.List.{list_all};
ghost use Rattle.dlms_text.specs.Decimals.{scaled};
ghost use Rattle.dlms_text.specs.Json.{pairs_of};
ghost use Rattle.dlms_values.specs.View.{value_of};
ghost use Rattle.dlms_buffer.specs.Texts.{is_printable, text_of_octets, word_of, scaled_signed, IsFloatText, IsTextOf, GrewBy};

use dlms_text::{append_decimal, append_number, append_pairs};
use dlms_values::Value;
use ryu::Buffer;
use std::alloc::{AllocError, Allocator};
use std::num::{f32_from_bits_with_nan, f64_from_bits_with_nan};

/// Whether an octet is a character of printable ASCII.
fn is_printable(octet: u8) -> bool
    ensures { result ≡ is_printable octet }
{
    32 <= octet && octet <= 126
}

/// Whether all octets are characters of printable ASCII.
fn are_printable(octets: &[u8]) -> bool
    ensures { result ≡ list_all is_printable octets.now }
{
    octets.iter().all(|octet| is_printable(*octet))
}

/// Appends octets as they are if each is printable, else in hexadecimal digits.
pub fn append_octets<A: Allocator>(text: &mut Vec<u8, A>, octets: &[u8]) -> Result<(), AllocError>
    ensures { OnOk result (text.new.items ≡ text.old.items ++ text_of_octets octets.now) }
{
    if are_printable(octets) {
        text.extend_from_slice(octets)?;
        return Ok(());
    }
    append_pairs(text, octets)?;
    Ok(())
}

/// Appends `true` or `false`.
fn append_word<A: Allocator>(text: &mut Vec<u8, A>, b: bool) -> Result<(), AllocError>
    ensures { OnOk result (text.new.items ≡ text.old.items ++ word_of b) }
{
    if b {
        text.extend_from_slice(b"true")
    } else {
        text.extend_from_slice(b"false")
    }
}

/// Appends a number with a sign, times a power of ten.
fn append_signed<A: Allocator>(text: &mut Vec<u8, A>, n: i64, scaler: i8) -> Result<(), AllocError>
    ensures { OnOk result (text.new.items ≡ text.old.items ++ scaled_signed n scaler) }
{
    append_decimal(text, n < 0, n.unsigned_abs(), i16::from(scaler))
}

/// Appends how many values there are.
fn append_count<A: Allocator>(text: &mut Vec<u8, A>, count: u32) -> Result<(), AllocError>
    ensures { OnOk result (text.new.items ≡ text.old.items ++ (decimal count ++ codes " values")) }
{
    append_number(text, u64::from(count))?;
    text.extend_from_slice(b" values")?;
    Ok(())
}

/// Appends a float of four octets.
fn append_float32<A: Allocator>(text: &mut Vec<u8, A>, bits: u32) -> Result<(), AllocError>
    ensures { OnOk result (GrewBy (IsFloatText binary32
        (from_bits binary32 bits)) text.old.items text.new.items) }
{
    let value = f32_from_bits_with_nan(bits);
    if !value.is_finite() {
        text.extend_from_slice(b"NaN")?;
        return Ok(());
    }
    text.extend_from_slice(Buffer::new().format_finite(value).as_bytes())?;
    Ok(())
}

/// Appends a float of eight octets.
fn append_float64<A: Allocator>(text: &mut Vec<u8, A>, bits: u64) -> Result<(), AllocError>
    ensures { OnOk result (GrewBy (IsFloatText binary64
        (from_bits binary64 bits)) text.old.items text.new.items) }
{
    let value = f64_from_bits_with_nan(bits);
    if !value.is_finite() {
        text.extend_from_slice(b"NaN")?;
        return Ok(());
    }
    text.extend_from_slice(Buffer::new().format_finite(value).as_bytes())?;
    Ok(())
}

/// Appends a value as text: an integer times ten to the power of the scaler; octets as they are if they are printable.
pub fn append_value<A: Allocator>(
    text: &mut Vec<u8, A>,
    value: &Value<'_>,
    scaler: i8,
) -> Result<(), AllocError>
    ensures { OnOk result (GrewBy (IsTextOf scaler
        (value_of value.now)) text.old.items text.new.items) }
{
    match *value {
        Value::Null | Value::DontCare => Ok(()),
        Value::Boolean(b) => append_word(text, b),
        Value::BitString(bits) => append_pairs(text, bits.as_bytes()),
        Value::Float32(bits) => append_float32(text, bits),
        Value::Float64(bits) => append_float64(text, bits),
        Value::Signed(_, n) => append_signed(text, n, scaler),
        Value::Unsigned(_, n) => append_decimal(text, false, n, i16::from(scaler)),
        Value::Octets(_, octets) => append_octets(text, octets),
        Value::CompactArray(array) => append_pairs(text, array.contents),
        Value::Array(items) => append_count(text, items.len()),
        Value::Structure(items) => append_count(text, items.len()),
    }
}
