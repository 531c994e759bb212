//! The form of the encoding of the columns, told without memory.

ghost use Rattle.std.specs.Prelude.{◌≡◌, MatchBool, bytes_eq, pos};
ghost use Rattle.dlms_data.specs.Spelling.{IsSpelling};
ghost use Rattle.dlms_data.specs.Value.{Value, Values, array, integer, long_unsigned, octet_string};
ghost use Rattle.dlms_headend.specs.Columns.{column, columns, clock_column, register_column};
ghost use Rattle.dlms_headend.specs.Form.{StandIn};

use crate::asking::CLOCK;
use crate::form::{ARRAY, begins, body, four, octets, parts};

const INTEGER: u8 = 0x0f;

const LONG_UNSIGNED: u8 = 0x12;

/// The classes of the clock and of a register.
const CLOCK_CLASS: u8 = 8;

const REGISTER_CLASS: u8 = 3;

/// The logical names of the three registers, in the order of a row.
const FIRST_REGISTER: [u8; 6] = [1, 0, 1, 8, 0, 255];

const SECOND_REGISTER: [u8; 6] = [1, 0, 2, 8, 0, 255];

const THIRD_REGISTER: [u8; 6] = [1, 0, 3, 8, 0, 255];

fn are_same(bytes: &[u8], others: &[u8]) -> bool
    ensures { result ≡ bytes_eq bytes.now others.now }
{
    bytes == others
}

/// Whether the bytes are those of this long-unsigned.
fn is_long_unsigned(bytes: &[u8], number: u8) -> bool
    ensures { (v : Value) → IsSpelling bytes.now v
        → MatchBool result (v ≡ long_unsigned number) (v ≡ long_unsigned number → ⊥) }
{
    are_same(bytes, &[LONG_UNSIGNED, 0, number])
}

/// Whether the bytes are those of the integer 2, the attribute that holds a value.
fn is_value_attribute(bytes: &[u8]) -> bool
    ensures { (v : Value) → IsSpelling bytes.now v
        → MatchBool result (v ≡ integer (pos 2)) (v ≡ integer (pos 2) → ⊥) }
{
    are_same(bytes, &[INTEGER, 2])
}

/// Whether the bytes are those of this logical name.
fn is_name(bytes: &[u8], name: &[u8]) -> bool
    ensures { (v : Value) → IsSpelling bytes.now v
        → MatchBool result (v ≡ octet_string name.now) (v ≡ octet_string name.now → ⊥) }
{
    let Some(found) = octets(bytes) else {
        return false;
    };
    are_same(found, name)
}

/// Whether the bytes are those of the column of this class and logical name: attribute 2, data index 0.
fn is_column(bytes: &[u8], class: u8, name: &[u8]) -> bool
    ensures { (v : Value) → IsSpelling bytes.now v
        → MatchBool result (v ≡ column class name.now) (v ≡ column class name.now → ⊥) }
{
    let Some((first, second, third, fourth)) = parts(bytes) else {
        return false;
    };
    if !is_long_unsigned(first, class) {
        return false;
    }
    if !is_name(second, name) {
        return false;
    }
    if !is_value_attribute(third) {
        return false;
    }
    is_long_unsigned(fourth, 0)
}

/// Whether the values that stand here are the four columns.
fn are_four(bytes: &[u8]) -> bool
    ensures { (vs : Values) → StandIn bytes.now vs
        → MatchBool result (array vs ≡ columns) (array vs ≡ columns → ⊥) }
{
    let Some((first, second, third, fourth)) = four(bytes) else {
        return false;
    };
    if !is_column(first, CLOCK_CLASS, &CLOCK) {
        return false;
    }
    if !is_column(second, REGISTER_CLASS, &FIRST_REGISTER) {
        return false;
    }
    if !is_column(third, REGISTER_CLASS, &SECOND_REGISTER) {
        return false;
    }
    is_column(fourth, REGISTER_CLASS, &THIRD_REGISTER)
}

/// Whether the bytes are those of the four columns: the clock and the three registers.
pub fn are_columns(bytes: &[u8]) -> bool
    ensures { (v : Value) → IsSpelling bytes.now v
        → MatchBool result (v ≡ columns) (v ≡ columns → ⊥) }
{
    if !begins(ARRAY, bytes) {
        return false;
    }
    are_four(body(bytes))
}
