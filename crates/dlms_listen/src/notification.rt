//! A notification: its APDU, read.

ghost use Rattle.std.specs.Prelude.{◌≡◌, ◌∷◌, Some, option_map, IfOk, IfErr};
ghost use Rattle.dlms_values.specs.Spelling.{IsSpelling};
ghost use Rattle.dlms_values.specs.Value.{Value};
ghost use Rattle.dlms_listen.specs.Receiving.{IsNone, refusal_of};
ghost use Rattle.dlms_listen.specs.Notification.{IsNotification, attributed, data_in, event_in, fields_in, said, stamped, tagged, timed, twelve};

use crate::fault::Refusal;
use dlms_data::Descriptor;
use dlms_values::is_value;

/// The tag of a data-notification (IEC 62056-5-3, 9.5), and that of an event-notification-request.
const DATA: u8 = 0x0f;

const EVENT: u8 = 0xc2;

/// A data notification or an event notification. It borrows the octets of its value.
#[derive(Clone, Copy)]
pub struct Notification<'a> {
    /// The long-invoke-id-and-priority of a data notification.
    pub invoke: Option<u32>,
    /// The date-time at which the meter made it, if it says so.
    pub time: Option<[u8; 12]>,
    /// The attribute that an event notification is about.
    pub attribute: Option<Descriptor>,
    /// The encoding of its value, which is one value.
    pub value: &'a [u8],
}

/// The twelve octets of a date-time, and what follows them.
fn twelve(octets: &[u8]) -> Option<([u8; 12], &[u8])>
    ensures { option_map (λ x. (x.0, x.1.now)) result ≡ twelve octets.now }
{
    match octets {
        [a, b, c, d, e, f, g, h, i, j, k, l, rest @ ..] => {
            Some(([*a, *b, *c, *d, *e, *f, *g, *h, *i, *j, *k, *l], rest))
        }
        _ => None,
    }
}

/// The same, as a date-time that is there.
fn stamped(octets: &[u8]) -> Option<(Option<[u8; 12]>, &[u8])>
    ensures { option_map (λ x. (x.0, x.1.now)) result ≡ stamped octets.now }
{
    let (time, rest) = twelve(octets)?;
    Some((Some(time), rest))
}

/// A date-time after the tag of an octet-string, and what follows it.
fn tagged(octets: &[u8]) -> Option<(Option<[u8; 12]>, &[u8])>
    ensures { option_map (λ x. (x.0, x.1.now)) result ≡ tagged octets.now }
{
    match octets {
        [12, rest @ ..] => stamped(rest),
        _ => None,
    }
}

/// A date-time or none, and what follows it.
fn timed(octets: &[u8]) -> Option<(Option<[u8; 12]>, &[u8])>
    ensures { option_map (λ x. (x.0, x.1.now)) result ≡ timed octets.now }
{
    match octets {
        [0, rest @ ..] => Some((None, rest)),
        [12, rest @ ..] => stamped(rest),
        [9, rest @ ..] => tagged(rest),
        _ => None,
    }
}

/// The fields of a data notification, after its tag.
fn data_in(octets: &[u8]) -> Option<Notification<'_>>
    ensures { option_map said result ≡ data_in octets.now }
{
    match octets {
        [a, b, c, d, rest @ ..] => {
            let (time, value) = timed(rest)?;
            Some(Notification {
                invoke: Some(u32::from_be_bytes([*a, *b, *c, *d])),
                time,
                attribute: None,
                value,
            })
        }
        _ => None,
    }
}

/// The attribute and the value of an event notification of this time.
fn attributed(time: Option<[u8; 12]>, octets: &[u8]) -> Option<Notification<'_>>
    ensures { option_map said result ≡ attributed time octets.now }
{
    match octets {
        [a, b, c, d, e, f, g, h, id, value @ ..] => Some(Notification {
            invoke: None,
            time,
            attribute: Some(Descriptor {
                class: u16::from_be_bytes([*a, *b]),
                name: [*c, *d, *e, *f, *g, *h],
                id: *id,
            }),
            value,
        }),
        _ => None,
    }
}

/// The fields of an event notification, after its tag.
fn event_in(octets: &[u8]) -> Option<Notification<'_>>
    ensures { option_map said result ≡ event_in octets.now }
{
    match octets {
        [0, rest @ ..] => attributed(None, rest),
        [1, rest @ ..] => {
            let (time, rest) = timed(rest)?;
            attributed(time, rest)
        }
        _ => None,
    }
}

/// The fields of an APDU, if they are those of its service.
fn fields_in(apdu: &[u8]) -> Option<Notification<'_>>
    ensures { option_map said result ≡ fields_in apdu.now }
{
    match apdu {
        [DATA, rest @ ..] => data_in(rest),
        [EVENT, rest @ ..] => event_in(rest),
        _ => None,
    }
}

/// Why an APDU is no notification.
fn refusal_of(apdu: &[u8]) -> Refusal
    ensures { result ≡ refusal_of apdu.now }
{
    match apdu {
        [] => Refusal::Another(None),
        [DATA | EVENT, ..] => Refusal::Malformed,
        [first, ..] => Refusal::Another(Some(*first)),
    }
}

/// Reads a notification, which must be all of an APDU. Its value is one value of at most eight levels, and nothing follows it.
pub fn read_notification(apdu: &[u8]) -> Result<Notification<'_>, Refusal>
    ensures ok { IfOk result (λ n. IsNotification apdu.now (said n)) }
    ensures err { IfErr result (λ _. IsNone apdu.now) }
    ensures why { IfErr result (λ why. why ≡ refusal_of apdu.now) }
{
    let Some(notification) = fields_in(apdu) else {
        return Err(refusal_of(apdu));
    };
    if is_value(notification.value) {
        Ok(notification)
    } else {
        Err(refusal_of(apdu))
    }
}
