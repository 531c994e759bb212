//! The forms of the APDUs of services (IEC 62056-5-3, 9.5, the ASN.1 of the APDUs), of all that the standard has.

ghost use Rattle.std.specs.Prelude.{◌≡◌, ◌+◌, ◌*◌, map, option_map};
ghost use Rattle.dlms_dissect.specs.Forms.{chosen_forms, entry_of, form_at, form_in, plain_forms, row_of};

use crate::fields::Field;
use crate::walk::Step;
use crate::walk::Step::{Many, One};

/// A form: its name, and its fields.
#[derive(Clone, Copy)]
pub struct Form {
    pub name: &'static str,
    pub steps: &'static [Step],
}

/// A form, and the number by which an APDU has it.
#[derive(Clone, Copy)]
struct Entry {
    number: u16,
    name: &'static str,
    steps: &'static [Step],
}

/// An entry of a table.
macro_rules! entry {
    ($number:literal, $name:literal, $($step:expr),+) => {
        Entry {
            number: $number,
            name: $name,
            steps: &[$($step),+],
        }
    };
}

/// The forms of the APDUs whose tag is followed by a choice, by the number of these two octets.
#[rattlefmt::skip]
const CHOSEN: [Entry; 26] = [
    entry!(0xc001, "get-request-normal", One(Field::Invoke), One(Field::Attribute)),
    entry!(0xc002, "get-request-next", One(Field::Invoke), One(Field::Number)),
    entry!(0xc003, "get-request-with-list", One(Field::Invoke), Many(Field::Attribute)),
    entry!(0xc101, "set-request-normal", One(Field::Invoke), One(Field::Attribute), One(Field::Value)),
    entry!(0xc102, "set-request-with-first-datablock", One(Field::Invoke), One(Field::Attribute), One(Field::Block)),
    entry!(0xc103, "set-request-with-datablock", One(Field::Invoke), One(Field::Block)),
    entry!(0xc104, "set-request-with-list", One(Field::Invoke), Many(Field::Attribute), Many(Field::Value)),
    entry!(0xc105, "set-request-with-list-and-first-datablock", One(Field::Invoke), Many(Field::Attribute), One(Field::Block)),
    entry!(0xc301, "action-request-normal", One(Field::Invoke), One(Field::Method), One(Field::Parameter)),
    entry!(0xc302, "action-request-next-pblock", One(Field::Invoke), One(Field::Number)),
    entry!(0xc303, "action-request-with-list", One(Field::Invoke), Many(Field::Method), Many(Field::Value)),
    entry!(0xc304, "action-request-with-first-pblock", One(Field::Invoke), One(Field::Method), One(Field::Block)),
    entry!(0xc305, "action-request-with-list-and-first-pblock", One(Field::Invoke), Many(Field::Method), One(Field::Block)),
    entry!(0xc306, "action-request-with-pblock", One(Field::Invoke), One(Field::Block)),
    entry!(0xc401, "get-response-normal", One(Field::Invoke), One(Field::GetResult)),
    entry!(0xc402, "get-response-with-datablock", One(Field::Invoke), One(Field::BlockResult)),
    entry!(0xc403, "get-response-with-list", One(Field::Invoke), Many(Field::GetResult)),
    entry!(0xc501, "set-response-normal", One(Field::Invoke), One(Field::AccessResult)),
    entry!(0xc502, "set-response-datablock", One(Field::Invoke), One(Field::Number)),
    entry!(0xc503, "set-response-last-datablock", One(Field::Invoke), One(Field::AccessResult), One(Field::Number)),
    entry!(0xc504, "set-response-last-datablock-with-list", One(Field::Invoke), Many(Field::AccessResult), One(Field::Number)),
    entry!(0xc505, "set-response-with-list", One(Field::Invoke), Many(Field::AccessResult)),
    entry!(0xc701, "action-response-normal", One(Field::Invoke), One(Field::Return)),
    entry!(0xc702, "action-response-with-pblock", One(Field::Invoke), One(Field::Block)),
    entry!(0xc703, "action-response-with-list", One(Field::Invoke), Many(Field::Return)),
    entry!(0xc704, "action-response-next-pblock", One(Field::Invoke), One(Field::Number)),
];

/// The forms of the other APDUs, by their tag.
#[rattlefmt::skip]
const PLAIN: [Entry; 32] = [
    entry!(0x05, "read-request", Many(Field::ShortName)),
    entry!(0x06, "write-request", Many(Field::ShortName), Many(Field::Value)),
    entry!(0x0c, "read-response", Many(Field::ShortData)),
    entry!(0x0d, "write-response", Many(Field::ShortResult)),
    entry!(0x0e, "confirmed-service-error", One(Field::ServiceError)),
    entry!(0x0f, "data-notification", One(Field::LongInvoke), One(Field::Time), One(Field::Value)),
    entry!(0x10, "data-notification-confirm", One(Field::LongInvoke), One(Field::Time)),
    entry!(0x16, "unconfirmed-write-request", Many(Field::ShortName), Many(Field::Value)),
    entry!(0x18, "information-report-request", One(Field::OptionalTime), Many(Field::ShortName), Many(Field::Value)),
    entry!(0xc2, "event-notification-request", One(Field::OptionalTime), One(Field::Notified), One(Field::Value)),
    entry!(0xd8, "exception-response", One(Field::Exception)),
    entry!(0xd9, "access-request", One(Field::LongInvoke), One(Field::Time), Many(Field::Access), Many(Field::Value)),
    entry!(0xda, "access-response", One(Field::LongInvoke), One(Field::Time), One(Field::NoAccess), Many(Field::Value), Many(Field::AccessDone)),
    entry!(0xdb, "general-glo-ciphering", One(Field::Title), One(Field::Ciphered)),
    entry!(0xdc, "general-ded-ciphering", One(Field::Title), One(Field::Ciphered)),
    entry!(0xdd, "general-ciphering", One(Field::Octets), One(Field::Title), One(Field::Title), One(Field::Time), One(Field::Octets), One(Field::Key), One(Field::Ciphered)),
    entry!(0xdf, "general-signing", One(Field::Octets), One(Field::Title), One(Field::Title), One(Field::Time), One(Field::Octets), One(Field::Octets), One(Field::Octets)),
    entry!(0xe0, "general-block-transfer", One(Field::Control), One(Field::ShortNumber), One(Field::ShortNumber), One(Field::Octets)),
    entry!(0xc8, "glo-get-request", One(Field::Ciphered)),
    entry!(0xc9, "glo-set-request", One(Field::Ciphered)),
    entry!(0xca, "glo-event-notification-request", One(Field::Ciphered)),
    entry!(0xcb, "glo-action-request", One(Field::Ciphered)),
    entry!(0xcc, "glo-get-response", One(Field::Ciphered)),
    entry!(0xcd, "glo-set-response", One(Field::Ciphered)),
    entry!(0xcf, "glo-action-response", One(Field::Ciphered)),
    entry!(0xd0, "ded-get-request", One(Field::Ciphered)),
    entry!(0xd1, "ded-set-request", One(Field::Ciphered)),
    entry!(0xd2, "ded-event-notification-request", One(Field::Ciphered)),
    entry!(0xd3, "ded-action-request", One(Field::Ciphered)),
    entry!(0xd4, "ded-get-response", One(Field::Ciphered)),
    entry!(0xd5, "ded-set-response", One(Field::Ciphered)),
    entry!(0xd7, "ded-action-response", One(Field::Ciphered)),
];

/// The form of this number.
fn form_in(entries: &[Entry], number: u16) -> Option<Form>
    ensures { option_map row_of result ≡ form_in (map entry_of entries.now) number }
{
    match entries {
        [] => None,
        [entry, rest @ ..] => {
            if entry.number == number {
                Some(Form {
                    name: entry.name,
                    steps: entry.steps,
                })
            } else {
                form_in(rest, number)
            }
        }
    }
}

/// The form of an APDU whose tag is followed by a choice, which are the two octets of this number.
fn chosen_form(number: u16) -> Option<Form>
    ensures { option_map row_of result ≡ form_in chosen_forms number }
{
    form_in(&CHOSEN, number)
}

/// The form of an APDU with this tag, if no choice follows it.
fn plain_form(tag: u8) -> Option<Form>
    ensures { option_map row_of result ≡ form_in plain_forms tag }
{
    form_in(&PLAIN, u16::from(tag))
}

/// The form of an APDU, and the octets of its fields.
pub fn form_at(bytes: &[u8]) -> Option<(Form, &[u8])>
    ensures { option_map (λ found. (row_of found.0, found.1.now)) result ≡ form_at bytes.now }
{
    let (tag, rest) = bytes.split_first()?;
    if let Some(form) = plain_form(*tag) {
        return Some((form, rest));
    }
    let (choice, rest) = rest.split_first()?;
    let form = chosen_form(u16::from(*tag) * 256 + u16::from(*choice))?;
    Some((form, rest))
}
