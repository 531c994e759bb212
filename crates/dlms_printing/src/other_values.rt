//! Values of the types of Data that this project's own meter never sends: floats, deltas, compact arrays.

use dlms_buffer::append_value;
use dlms_text::{ValueFault, append_decimal};
use dlms_values::{OctetsKind, SignedKind, UnsignedKind, Value, read};
use std::alloc::{AllocError, Global};
use std::str;

/// The name of a number's type (IEC 62056-6-2, the common data types).
fn signed_name(kind: SignedKind) -> &'static str {
    match kind {
        SignedKind::DeltaInteger => "delta-integer",
        SignedKind::DeltaLong => "delta-long",
        SignedKind::DeltaDoubleLong => "delta-double-long",
        SignedKind::Integer => "integer",
        SignedKind::Long => "long",
        SignedKind::DoubleLong => "double-long",
        SignedKind::Long64 => "long64",
    }
}

fn unsigned_name(kind: UnsignedKind) -> &'static str {
    match kind {
        UnsignedKind::DeltaUnsigned => "delta-unsigned",
        UnsignedKind::DeltaLongUnsigned => "delta-long-unsigned",
        UnsignedKind::DeltaDoubleLongUnsigned => "delta-double-long-unsigned",
        UnsignedKind::Bcd => "bcd",
        UnsignedKind::Enum => "enum",
        UnsignedKind::Unsigned => "unsigned",
        UnsignedKind::LongUnsigned => "long-unsigned",
        UnsignedKind::DoubleLongUnsigned => "double-long-unsigned",
        UnsignedKind::Long64Unsigned => "long64-unsigned",
    }
}

fn octets_name(kind: OctetsKind) -> &'static str {
    match kind {
        OctetsKind::OctetString => "octet-string",
        OctetsKind::VisibleString => "visible-string",
        OctetsKind::Utf8String => "utf8-string",
        OctetsKind::DateTime => "date-time",
        OctetsKind::Date => "date",
        OctetsKind::Time => "time",
    }
}

/// The name of a value's type.
pub fn type_name(value: &Value<'_>) -> &'static str {
    match value {
        Value::Null => "null",
        Value::Boolean(_) => "boolean",
        Value::BitString(_) => "bit-string",
        Value::Octets(kind, _) => octets_name(*kind),
        Value::Array(_) => "array",
        Value::Structure(_) => "structure",
        Value::Float32(_) => "float32",
        Value::Float64(_) => "float64",
        Value::Signed(kind, _) => signed_name(*kind),
        Value::Unsigned(kind, _) => unsigned_name(*kind),
        Value::CompactArray(_) => "compact-array",
        Value::DontCare => "dont-care",
    }
}

/// The float that is all of an encoding; `None` if it is something else.
pub fn float_in(bytes: &[u8]) -> Option<Value<'_>> {
    match read(bytes) {
        Ok((value, [])) if is_float(&value) => Some(value),
        _ => None,
    }
}

/// Whether a value is a float.
pub fn is_float(value: &Value<'_>) -> bool {
    matches!(value, Value::Float32(_) | Value::Float64(_))
}

/// The exponent in the text of a float after its `e`; 0 without an exponent.
fn exponent_in(text: &[u8]) -> i32 {
    match str::from_utf8(text) {
        Ok(text) => text.parse::<i32>().unwrap_or(0),
        Err(_) => 0,
    }
}

/// Appends a float times ten to the power of the scaler. The scaler is added to its exponent, so that no digit changes.
pub fn append_float(
    alloc: Global,
    text: &mut Vec<u8>,
    value: &Value<'_>,
    scaler: i8,
) -> Result<(), AllocError> {
    let mut words = Vec::new(alloc);
    append_value(&mut words, value, 0)?;
    let words = words.as_slice();
    let (digits, exponent) = match words.iter().position(|octet| *octet == b'e') {
        Some(at) => (&words[..at], exponent_in(&words[at + 1..])),
        None => (words, 0),
    };
    text.extend_from_slice(digits)?;
    let exponent = exponent.saturating_add(i32::from(scaler));
    if exponent == 0 || words == b"NaN".as_slice() {
        return Ok(());
    }
    text.extend_from_slice(b"e")?;
    append_decimal(text, exponent < 0, u64::from(exponent.unsigned_abs()), 0)
}

/// Appends the line of a value: the name of its type, and the value.
fn append_line(text: &mut Vec<u8>, depth: u8, value: &Value<'_>) -> Result<(), AllocError> {
    for _ in 0..depth {
        text.extend_from_slice(b"  ")?;
    }
    text.extend_from_slice(type_name(value).as_bytes())?;
    text.extend_from_slice(b" ")?;
    append_value(text, value, 0)?;
    text.extend_from_slice(b"\n")
}

/// Appends the line of the value at the front of an encoding, and returns what follows it.
pub fn append_other<'b>(
    text: &mut Vec<u8>,
    depth: u8,
    bytes: &'b [u8],
) -> Result<&'b [u8], ValueFault> {
    let Ok((value, rest)) = read(bytes) else {
        return Err(ValueFault::Form);
    };
    append_line(text, depth, &value)?;
    Ok(rest)
}
