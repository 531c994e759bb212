//! The fields of an association's APDUs that the meter's readers do not return. They contain no octet of a secret.

ghost use Rattle.std.specs.Prelude.{◌≡◌, ◌<◌, length, option_map, IfSome};
ghost use Rattle.dlms_dissect.specs.Acse.{HasInitiate, InitiateIn, IsFound, counted_at, field_at, is_counted, object_number, requires_authentication, title_in};

use crate::nodes::length_at;

/// What such an APDU names.
#[derive(Clone, Copy)]
pub struct Acse<'a> {
    /// The number of the application context.
    pub context: Option<u8>,
    /// The number of the mechanism.
    pub mechanism: Option<u8>,
    /// Whether authentication is required, if a requirement is named.
    pub requirement: Option<bool>,
    pub called_title: Option<&'a [u8]>,
    pub calling_title: Option<&'a [u8]>,
    pub responding_title: Option<&'a [u8]>,
    /// The result of a response.
    pub outcome: Option<u8>,
    /// The number of octets of an authentication value, whose octets are not told.
    pub has_value: bool,
    pub ciphered: Option<CipheredInitiate>,
}

/// A ciphered initiate request or response: the security control, the invocation counter, and how many octets.
#[derive(Clone, Copy)]
pub struct CipheredInitiate {
    pub control: u8,
    pub counter: u32,
    pub len: usize,
}

/// The content of a length, and the bytes after that.
fn counted_at(bytes: &[u8]) -> Option<(&[u8], &[u8])>
    ensures exact { option_map (λ r. (r.0.now, r.1.now)) result ≡ counted_at bytes.now }
    ensures shorter { IfSome result (λ r. length r.1.now < length bytes.now) }
{
    let l = length_at(bytes)?;
    if l.octets == 0 || l.octets > bytes.len() {
        return None;
    }
    let rest = &bytes[l.octets..];
    let number = l.number as usize;
    if number > rest.len() {
        return None;
    }
    Some((&rest[..number], &rest[number..]))
}

/// The field at the front: its tag, its value, and the bytes after it.
pub fn field_at(bytes: &[u8]) -> Option<(u8, &[u8], &[u8])>
    ensures exact { option_map (λ r. (r.0, r.1.now, r.2.now)) result ≡ field_at bytes.now }
    ensures shorter { IfSome result (λ r. length r.2.now < length bytes.now) }
{
    let (tag, rest) = bytes.split_first()?;
    let (value, behind) = counted_at(rest)?;
    Some((*tag, value, behind))
}

/// The value of the first field with this tag, if only fields come before it.
fn find(fields: &[u8], tag: u8) -> Option<&[u8]>
    ensures { IsFound tag fields.now (option_map (λ value. value.now) result) }
{
    let mut rest = fields;
    'fields: while let Some((found, value, behind)) = field_at(rest) {
        if found == tag {
            return Some(value);
        }
        rest = behind;
    }
    None
}

/// Whether the length after the tag counts all bytes after it (BER: every APDU of an association has one).
pub fn is_counted(bytes: &[u8]) -> bool
    ensures { result ≡ is_counted bytes.now }
{
    match field_at(bytes) {
        Some((_, _, behind)) => behind.is_empty(),
        None => false,
    }
}

/// The last number of a name that begins like those of DLMS UA, followed by this kind.
fn object_number(name: &[u8], kind: u8) -> Option<u8>
    ensures { result ≡ object_number name.now kind }
{
    match name {
        [0x60, 0x85, 0x74, 0x05, 0x08, found, number] if *found == kind => Some(*number),
        _ => None,
    }
}

/// The octets of a title, an octet-string.
fn title_in(value: &[u8]) -> Option<&[u8]>
    ensures { option_map (λ title. title.now) result ≡ title_in value.now }
{
    match value {
        [0x04, len, title @ ..] if usize::from(*len) == title.len() => Some(title),
        _ => None,
    }
}

/// Whether a requirement, a bit-string of one bit, asks for authentication.
fn requires_authentication(value: &[u8]) -> Option<bool>
    ensures { result ≡ requires_authentication value.now }
{
    match value {
        [0x07, 0x80] => Some(true),
        [0x07, 0x00] => Some(false),
        _ => None,
    }
}

/// The octets of the initiate request or response in these fields.
fn initiate_in(fields: &[u8]) -> Option<&[u8]>
    ensures { HasInitiate fields.now (option_map (λ octets. octets.now) result) }
{
    match find(fields, 0xbe) {
        Some(user) => title_in(user),
        None => None,
    }
}

/// The octets of the initiate request or response in an association's APDU, ciphered or not.
pub fn initiate_of(bytes: &[u8]) -> Option<&[u8]>
    ensures { InitiateIn (field_at bytes.now) (option_map (λ octets. octets.now) result) }
{
    match field_at(bytes) {
        Some((_, fields, _)) => initiate_in(fields),
        None => None,
    }
}

/// The security header of a ciphered initiate request (21) or response (28), and the number of octets after it.
fn ciphered_in(user: &[u8]) -> Option<CipheredInitiate> {
    let apdu = title_in(user)?;
    let (tag, ciphered, _) = field_at(apdu)?;
    match (tag, ciphered) {
        (0x21 | 0x28, [control, a, b, c, d, text @ ..]) => Some(CipheredInitiate {
            control: *control,
            counter: u32::from_be_bytes([*a, *b, *c, *d]),
            len: text.len(),
        }),
        _ => None,
    }
}

/// The result of a response, an integer.
fn outcome_in(value: &[u8]) -> Option<u8> {
    match value {
        [0x02, 0x01, outcome] => Some(*outcome),
        _ => None,
    }
}

/// The content of the one field with this tag.
fn behind_tag(value: &[u8], tag: u8) -> Option<&[u8]> {
    match field_at(value) {
        Some((found, content, _)) if found == tag => Some(content),
        _ => None,
    }
}

/// The application context in the fields.
fn context_of(fields: &[u8]) -> Option<u8> {
    object_number(behind_tag(find(fields, 0xa1)?, 0x06)?, 1)
}

/// The mechanism in the field with this tag.
fn mechanism_of(fields: &[u8], tag: u8) -> Option<u8> {
    object_number(find(fields, tag)?, 2)
}

/// The requirement in the field with this tag.
fn requirement_of(fields: &[u8], tag: u8) -> Option<bool> {
    requires_authentication(find(fields, tag)?)
}

/// The title in the field with this tag.
fn title_of(fields: &[u8], tag: u8) -> Option<&[u8]> {
    title_in(find(fields, tag)?)
}

/// The result in the fields.
fn outcome_of(fields: &[u8]) -> Option<u8> {
    outcome_in(find(fields, 0xa2)?)
}

/// The ciphered initiate request or response in the fields.
fn ciphered_of(fields: &[u8]) -> Option<CipheredInitiate> {
    ciphered_in(find(fields, 0xbe)?)
}

/// The content of an association request or response.
pub fn acse_of(bytes: &[u8]) -> Acse<'_> {
    let fields = match field_at(bytes) {
        Some((_, fields, _)) => fields,
        None => &bytes[..0],
    };
    let is_request = matches!(bytes.first(), Some(0x60));
    let (mechanism, requirement) = if is_request {
        (0x8b, 0x8a)
    } else {
        (0x89, 0x88)
    };
    Acse {
        context: context_of(fields),
        mechanism: mechanism_of(fields, mechanism),
        requirement: requirement_of(fields, requirement),
        called_title: if is_request {
            title_of(fields, 0xa2)
        } else {
            None
        },
        calling_title: title_of(fields, 0xa6),
        responding_title: title_of(fields, 0xa4),
        outcome: outcome_of(fields),
        has_value: find(fields, 0xac).is_some() || find(fields, 0xaa).is_some(),
        ciphered: ciphered_of(fields),
    }
}
