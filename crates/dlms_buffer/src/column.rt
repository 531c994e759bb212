//! The columns of a profile.

ghost use Rattle.std.specs.Prelude.{◌≡◌, ◌<◌, ◌^◌, ℕ, ℤ, List, All, map, length, IfSome, IfNone, IfOk, IfErr, FitsSigned};
ghost use Rattle.std.specs.Int.{w8};
ghost use Rattle.dlms_values.specs.declared.types.SignedKind.TheVariants.{Integer};
ghost use Rattle.dlms_values.specs.declared.types.UnsignedKind.TheVariants.{LongUnsigned};
ghost use Rattle.dlms_values.specs.declared.types.OctetsKind.TheVariants.{OctetString};
ghost use Rattle.dlms_values.specs.Value.{Values, signed, unsigned, octets, cons};
ghost use Rattle.dlms_values.specs.View.{value_of, values_in};
ghost use Rattle.dlms_buffer.specs.Columns.{object_of, IsInRange};

use dlms_values::{Items, OctetsKind, SignedKind, UnsignedKind, Value};

/// A column: an attribute that the profile captures.
#[derive(Clone, Copy, Debug, PartialEq, Eq)]
pub struct Column {
    pub class: u16,
    pub name: [u8; 6],
    pub attribute: i8,
    /// Which element of the attribute; 0 for the whole attribute.
    pub index: u16,
}

/// The first field, a long-unsigned.
fn number(fields: &mut Items<'_>) -> Option<u16>
    ensures some { IfSome result (λ n. values_in fields.old
        ≡ cons (unsigned LongUnsigned n) (values_in fields.new)) }
    ensures none { IfNone result ((n : ℕ) (rest : Values) → n < 2 ^ 16
        → ¬ (values_in fields.old ≡ cons (unsigned LongUnsigned n) rest)) }
{
    let Value::Unsigned(kind, n) = fields.next_value()? else {
        return None;
    };
    if kind != UnsignedKind::LongUnsigned {
        return None;
    }
    u16::try_from(n).ok()
}

/// The first field, an integer.
fn attribute(fields: &mut Items<'_>) -> Option<i8>
    ensures some { IfSome result (λ z. values_in fields.old
        ≡ cons (signed Integer z) (values_in fields.new)) }
    ensures none { IfNone result ((z : ℤ) (rest : Values) → FitsSigned w8 z
        → ¬ (values_in fields.old ≡ cons (signed Integer z) rest)) }
{
    let Value::Signed(kind, z) = fields.next_value()? else {
        return None;
    };
    if kind != SignedKind::Integer {
        return None;
    }
    i8::try_from(z).ok()
}

/// The first field, a logical name.
fn name(fields: &mut Items<'_>) -> Option<[u8; 6]>
    ensures some { IfSome result (λ b. values_in fields.old
        ≡ cons (octets OctetString b) (values_in fields.new)) }
    ensures none { IfNone result ((b : List ℕ) (rest : Values) → length b ≡ 6
        → ¬ (values_in fields.old ≡ cons (octets OctetString b) rest)) }
{
    let Value::Octets(kind, bytes) = fields.next_value()? else {
        return None;
    };
    if kind != OctetsKind::OctetString || bytes.len() != 6 {
        return None;
    }
    let mut name = [0; 6];
    name.copy_from_slice(bytes);
    Some(name)
}

/// The column of a capture object, if it is one.
pub fn column_of(object: Value<'_>) -> Option<Column>
    ensures some { IfSome result (λ c. value_of object.entry ≡ object_of c) }
    ensures none { IfNone result ((c : Column) → IsInRange c
        → ¬ (value_of object.entry ≡ object_of c)) }
{
    let Value::Structure(fields) = object else {
        return None;
    };
    let mut fields = fields;
    let class = number(&mut fields)?;
    let name = name(&mut fields)?;
    let attribute = attribute(&mut fields)?;
    let index = number(&mut fields)?;
    if fields.next_value().is_some() {
        return None;
    }
    Some(Column {
        class,
        name,
        attribute,
        index,
    })
}
