//! The fields of the APDUs, by what each is.

ghost use Rattle.std.specs.Prelude.{◌≡◌};
ghost use Rattle.dlms_dissect.specs.Fields.{access_at, agreed_at, attribute_at, block_result_at, choice_at, ciphered_at, exception_at, fixed_len, front_at, key_at, none_at, optional_text, result_at, return_at, short_data_at, short_name_at, short_result_at, spans};

use crate::nodes::{Front, length_at, node_at, text_behind};

/// A field of an APDU (IEC 62056-5-3, the ASN.1 of the services, in A-XDR).
#[derive(Clone, Copy)]
pub enum Field {
    /// An invoke-id-and-priority.
    Invoke,
    /// A long-invoke-id-and-priority, of four octets.
    LongInvoke,
    /// The number of a block, of four octets.
    Number,
    /// The number of a block, of two octets.
    ShortNumber,
    /// An octet whose bits say how blocks go on.
    Control,
    /// An attribute of an object, with a selection or without.
    Attribute,
    /// A method of an object.
    Method,
    /// An attribute, of which a notification is.
    Notified,
    /// A value.
    Value,
    /// A value that may be absent.
    Parameter,
    /// A value, or a Data-Access-Result.
    GetResult,
    /// An Action-Result, followed by the method's return value, if it has one.
    Return,
    /// A Data-Access-Result.
    AccessResult,
    /// The state-error and the service-error of an exception.
    Exception,
    /// The service and the error of a confirmed-service-error.
    ServiceError,
    /// A block: whether it is the last one, its number, and its octets.
    Block,
    /// The same, or a Data-Access-Result in place of the octets.
    BlockResult,
    /// A date-time, or none.
    Time,
    /// A date-time that may be absent.
    OptionalTime,
    /// A system title.
    Title,
    /// Octets whose length is reported.
    Octets,
    /// Ciphered octets, after their security header.
    Ciphered,
    /// The information on a key, which may be absent.
    Key,
    /// A request of an access: what it does, and of what.
    Access,
    /// The list of these in an access's response, which is absent.
    NoAccess,
    /// The result of an access: what it did, and a Data-Access-Result or an Action-Result.
    AccessDone,
    /// A variable by its short name.
    ShortName,
    /// The result of a read by short names.
    ShortData,
    /// The result of a write by short names.
    ShortResult,
}

/// So many octets, and so many values in them.
fn spans(own: usize, values: usize) -> Option<Front>
    ensures { result ≡ spans own values }
{
    Some(Front { own, values })
}

/// How many octets a field has that always has the same number.
fn fixed_len(field: Field) -> usize
    ensures { result ≡ fixed_len field }
{
    match field {
        Field::Invoke | Field::Control | Field::AccessResult => 1,
        Field::ShortNumber | Field::AccessDone => 2,
        Field::ServiceError => 3,
        Field::LongInvoke | Field::Number => 4,
        Field::Method | Field::Notified => 9,
        _ => 0,
    }
}

/// An attribute: class, name and number, and 00, or 01 with a selector and its value.
fn attribute_at(bytes: &[u8]) -> Option<Front>
    ensures { result ≡ attribute_at bytes.now }
{
    match bytes {
        [_, _, _, _, _, _, _, _, _, 0, ..] => spans(10, 0),
        [_, _, _, _, _, _, _, _, _, 1, _, ..] => spans(11, 1),
        _ => None,
    }
}

/// 00, or 01 and a value.
fn choice_at(bytes: &[u8]) -> Option<Front>
    ensures { result ≡ choice_at bytes.now }
{
    match bytes {
        [0, ..] => spans(1, 0),
        [1, ..] => spans(1, 1),
        _ => None,
    }
}

/// 00 and a value, or 01 and a result.
fn result_at(bytes: &[u8]) -> Option<Front>
    ensures { result ≡ result_at bytes.now }
{
    match bytes {
        [0, ..] => spans(1, 1),
        [1, ..] => spans(2, 0),
        _ => None,
    }
}

/// A result, and 00, or 01 and the return value.
fn return_at(bytes: &[u8]) -> Option<Front>
    ensures { result ≡ return_at bytes.now }
{
    match bytes {
        [_, 0, ..] => spans(2, 0),
        [_, 1, 0, ..] => spans(3, 1),
        [_, 1, 1, ..] => spans(4, 0),
        _ => None,
    }
}

/// A state-error and a service-error, followed by an invocation counter if that is the error.
fn exception_at(bytes: &[u8]) -> Option<Front>
    ensures { result ≡ exception_at bytes.now }
{
    match bytes {
        [_, 6, ..] => spans(6, 0),
        _ => spans(2, 0),
    }
}

/// Whether it is the last block, its number, and 00 with its octets, or 01 and a result.
fn block_result_at(bytes: &[u8]) -> Option<Front>
    ensures { result ≡ block_result_at bytes.now }
{
    match bytes {
        [_, _, _, _, _, 0, ..] => text_behind(6, bytes),
        [_, _, _, _, _, 1, ..] => spans(7, 0),
        _ => None,
    }
}

/// 00, or 01 and a text.
fn optional_text(bytes: &[u8]) -> Option<Front>
    ensures { result ≡ optional_text bytes.now }
{
    match bytes {
        [0, ..] => spans(1, 0),
        [1, ..] => text_behind(1, bytes),
        _ => None,
    }
}

/// An agreed key: its parameters, and its ciphered part.
fn agreed_at(bytes: &[u8]) -> Option<Front>
    ensures { result ≡ agreed_at bytes.now }
{
    let parameters = text_behind(2, bytes)?;
    if parameters.own > bytes.len() {
        return None;
    }
    let ciphered = text_behind(0, &bytes[parameters.own..])?;
    spans(parameters.own + ciphered.own, 0)
}

/// 00, or 01 with an identified key, a wrapped key or an agreed key.
fn key_at(bytes: &[u8]) -> Option<Front>
    ensures { result ≡ key_at bytes.now }
{
    match bytes {
        [0, ..] => spans(1, 0),
        [1, 0, ..] => spans(3, 0),
        [1, 1, ..] => text_behind(3, bytes),
        [1, 2, ..] => agreed_at(bytes),
        _ => None,
    }
}

/// 00: nothing.
fn none_at(bytes: &[u8]) -> Option<Front>
    ensures { result ≡ none_at bytes.now }
{
    match bytes {
        [0, ..] => spans(1, 0),
        _ => None,
    }
}

/// A text that begins with a security header, of five octets at least.
fn ciphered_at(bytes: &[u8]) -> Option<Front>
    ensures { result ≡ ciphered_at bytes.now }
{
    if length_at(bytes)?.number < 5 {
        return None;
    }
    text_behind(0, bytes)
}

/// The kind of an access: 01 gets, 02 sets, 03 acts, 04 and 05 get and set with a selection.
fn access_at(bytes: &[u8]) -> Option<Front>
    ensures { result ≡ access_at bytes.now }
{
    match bytes {
        [1 | 2 | 3, ..] => spans(10, 0),
        [4 | 5, ..] => spans(11, 1),
        _ => None,
    }
}

/// A variable by its short name: 02 and the name, 04 with a selector and its value, 05 and the number of a block.
fn short_name_at(bytes: &[u8]) -> Option<Front>
    ensures { result ≡ short_name_at bytes.now }
{
    match bytes {
        [2 | 5, ..] => spans(3, 0),
        [4, ..] => spans(4, 1),
        _ => None,
    }
}

/// The result of a read: 00 and a value, 01 and an error, 02 and a block, 03 and the number of one.
fn short_data_at(bytes: &[u8]) -> Option<Front>
    ensures { result ≡ short_data_at bytes.now }
{
    match bytes {
        [0, ..] => spans(1, 1),
        [1, ..] => spans(2, 0),
        [2, ..] => text_behind(4, bytes),
        [3, ..] => spans(3, 0),
        _ => None,
    }
}

/// The result of a write: 00, 01 and an error, 02 and the number of a block.
fn short_result_at(bytes: &[u8]) -> Option<Front>
    ensures { result ≡ short_result_at bytes.now }
{
    match bytes {
        [0, ..] => spans(1, 0),
        [1, ..] => spans(2, 0),
        [2, ..] => spans(3, 0),
        _ => None,
    }
}

/// The field at the front: the number of its own octets, and the number of values after these in it. It is not checked whether
/// there are that many octets.
pub fn front_at(field: Field, bytes: &[u8]) -> Option<Front>
    ensures { result ≡ front_at field bytes.now }
{
    match field {
        Field::Value => node_at(bytes),
        Field::Attribute => attribute_at(bytes),
        Field::Parameter => choice_at(bytes),
        Field::GetResult => result_at(bytes),
        Field::Return => return_at(bytes),
        Field::Exception => exception_at(bytes),
        Field::Block => text_behind(5, bytes),
        Field::BlockResult => block_result_at(bytes),
        Field::Time | Field::Title | Field::Octets => text_behind(0, bytes),
        Field::Ciphered => ciphered_at(bytes),
        Field::OptionalTime => optional_text(bytes),
        Field::Key => key_at(bytes),
        Field::Access => access_at(bytes),
        Field::NoAccess => none_at(bytes),
        Field::ShortName => short_name_at(bytes),
        Field::ShortData => short_data_at(bytes),
        Field::ShortResult => short_result_at(bytes),
        other => spans(fixed_len(other), 0),
    }
}
