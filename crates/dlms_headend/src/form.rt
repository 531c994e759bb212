//! The form of the buffer's encoding, told without memory.

ghost use Rattle.std.specs.Prelude.{◌≡◌, ℕ, List, Some, None, MatchBool, MatchOption, option_map, IfSome, length, ◌<◌};
ghost use Rattle.dlms_data.specs.Spelling.{IsSpelling};
ghost use Rattle.dlms_data.specs.Value.{Value, Values, structure, none};
ghost use Rattle.dlms_headend.specs.Form.{begins, body_of, StandIn, IsFirst, IsFour};
ghost use Rattle.dlms_headend.specs.Rows.{four_in, octets_in, register_in, fields_in, IsRow, AreRows, IsEncoded};
ghost use Rattle.dlms_headend.specs.declared.row.Row.{Row as RowOf};

use dlms_data::{is_value, secs, span};

pub const ARRAY: u8 = 0x01;

const STRUCTURE: u8 = 0x02;

const DOUBLE_LONG_UNSIGNED: u8 = 0x06;

const OCTET_STRING: u8 = 0x09;

/// Whether the bytes begin with this tag.
pub fn begins(tag: u8, bytes: &[u8]) -> bool
    ensures { result ≡ begins tag bytes.now }
{
    match bytes {
        [first, ..] => *first == tag,
        _ => false,
    }
}

/// The content after a tag and a length.
pub fn body(bytes: &[u8]) -> &[u8]
    ensures { result.now ≡ body_of bytes.now }
{
    match bytes {
        [_, first, rest @ ..] if *first < 128 => rest,
        [_, first, rest @ ..] => {
            let width = usize::from(*first - 128);
            if width < rest.len() {
                &rest[width..]
            } else {
                &[]
            }
        }
        _ => &[],
    }
}

/// The bytes of the first of values that stand one after another, and those of the others.
fn front(bytes: &[u8]) -> Option<(&[u8], &[u8])>
    ensures first { (vs : Values) → StandIn bytes.now vs
        → MatchOption result (vs ≡ none) (λ x. IsFirst vs x.0.now x.1.now) }
    ensures shorter { IfSome result (λ x. length x.1.now < length bytes.now) }
{
    match span(bytes) {
        Ok(len) => Some(bytes.split_at(len)),
        Err(_) => None,
    }
}

/// The bytes of four values, which are all that stand here.
pub fn four(bytes: &[u8]) -> Option<(&[u8], &[u8], &[u8], &[u8])>
    ensures { (vs : Values) → StandIn bytes.now vs
        → MatchOption result (four_in (structure vs) ≡ None)
        (λ x. IsFour (structure vs) x.0.now x.1.now x.2.now x.3.now) }
{
    let Some((first, rest)) = front(bytes) else {
        return None;
    };
    let Some((second, rest)) = front(rest) else {
        return None;
    };
    let Some((third, rest)) = front(rest) else {
        return None;
    };
    let Some((fourth, rest)) = front(rest) else {
        return None;
    };
    if !rest.is_empty() {
        return None;
    }
    Some((first, second, third, fourth))
}

/// The bytes of the four values of a structure.
pub fn parts(bytes: &[u8]) -> Option<(&[u8], &[u8], &[u8], &[u8])>
    ensures { (v : Value) → IsSpelling bytes.now v
        → MatchOption result (four_in v ≡ None) (λ x. IsFour v x.0.now x.1.now x.2.now x.3.now) }
{
    if !begins(STRUCTURE, bytes) {
        return None;
    }
    four(body(bytes))
}

/// The octets of an octet-string.
pub fn octets(bytes: &[u8]) -> Option<&[u8]>
    ensures { (v : Value) → IsSpelling bytes.now v
        → option_map (λ octets. octets.now) result ≡ octets_in v }
{
    if !begins(OCTET_STRING, bytes) {
        return None;
    }
    Some(body(bytes))
}

/// Whether the bytes are those of a register.
fn is_register(bytes: &[u8]) -> bool
    ensures { (v : Value) → IsSpelling bytes.now v
        → MatchBool result ((n : ℕ) × (register_in v ≡ Some n)) (register_in v ≡ None) }
{
    begins(DOUBLE_LONG_UNSIGNED, bytes)
}

/// The octets of a row's time, if the bytes are those of octets and three registers.
fn time(bytes: &[u8]) -> Option<&[u8]>
    ensures { (v : Value) → IsSpelling bytes.now v
        → MatchOption result (fields_in v ≡ None) (λ time. (registers : List ℕ)
        × (fields_in v ≡ Some (time.now, registers))) }
{
    let Some((time, first, second, third)) = parts(bytes) else {
        return None;
    };
    if !is_register(first) {
        return None;
    }
    if !is_register(second) {
        return None;
    }
    if !is_register(third) {
        return None;
    }
    octets(time)
}

/// Whether the bytes are those of a row.
fn is_row(bytes: &[u8]) -> bool
    ensures { (v : Value) → IsSpelling bytes.now v
        → MatchBool result ((row : RowOf) × IsRow v row) ((row : RowOf) → IsRow v row → ⊥) }
{
    let Some(time) = time(bytes) else {
        return false;
    };
    match secs(time) {
        Some(_) => true,
        None => false,
    }
}

/// Whether each of the values that stand here is a row's.
fn are_rows(bytes: &[u8]) -> bool
    ensures { (vs : Values) → StandIn bytes.now vs
        → MatchBool result ((rows : List RowOf) × AreRows vs rows) ((rows : List RowOf)
        → AreRows vs rows → ⊥) }
{
    let mut rest = bytes;
    while !rest.is_empty() {
        let Some((first, behind)) = front(rest) else {
            return false;
        };
        if !is_row(first) {
            return false;
        }
        rest = behind;
    }
    true
}

/// Whether the bytes are the encoding of an array of rows.
pub fn is_profile(bytes: &[u8]) -> bool
    ensures { MatchBool result ((rows : List RowOf) × IsEncoded bytes.now rows) ((rows : List RowOf)
        → IsEncoded bytes.now rows → ⊥) }
{
    if !is_value(bytes) {
        return false;
    }
    if !begins(ARRAY, bytes) {
        return false;
    }
    are_rows(body(bytes))
}
