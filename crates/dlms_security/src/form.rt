//! The ciphered forms of an APDU (Green Book 9.2.7.2 and 9.5), written and read. Lengths are in A-XDR.
ghost use Rattle.std.specs.Prelude.{◌≡◌, ◌≤◌, ◌<◌, ◌+◌, ◌++◌, length, option_map, MatchResult, IsTrue, Ok, Err};
ghost use Rattle.dlms_security.specs.declared.body.TheConstants.{MOST_BODY};
ghost use Rattle.dlms_security.specs.Form.{form_tag, is_form_tag, general_tag, is_general, kind_of, is_of, front_of, message_of, length_octets, content, exactly, content_of, content_of_one, content_of_two, header, general, service, parts};

use crate::body::MOST_BODY;
use crate::fault::UnprotectFault;
use crate::kind::KeyKind;
use arrayvec::ArrayVec;

/// The most bytes of an APDU that is protected or accepted.
pub const MOST_APDU: usize = 1024;

/// The most bytes of a message: at most 18 are in front of the text, and 12 after it.
pub const MOST_MESSAGE: usize = 1056;

/// The ciphered form in which an APDU goes out. Both are accepted.
#[derive(Clone, Copy, Debug, PartialEq, Eq)]
pub enum Form {
    /// The form of the APDU's own service, such as glo-get-request (tag 0xC8). Services with logical names have one; the
    /// initiate services have none under a dedicated key.
    Service,
    /// general-glo-ciphering (tag 0xDB) or general-ded-ciphering (0xDC), for every APDU. It contains the sender's system
    /// title.
    General,
}

/// The fields in front of a protected body. Only the general forms contain a title.
#[derive(Clone, Copy)]
pub struct Head {
    pub tag: u8,
    pub title: Option<[u8; 8]>,
    pub control: u8,
    pub counter: u32,
}

/// The tag of the ciphered form of the APDUs with this tag, if there is one.
fn form_tag(kind: KeyKind, tag: u8) -> Option<u8>
    ensures { result ≡ form_tag kind tag }
{
    match kind {
        KeyKind::Global => match tag {
            0x01 | 0x08 | 0x0E => Some(tag + 0x20),
            0xC0 | 0xC1 | 0xC2 | 0xC3 | 0xC4 | 0xC5 | 0xC7 => Some(tag + 8),
            _ => None,
        },
        KeyKind::Dedicated => match tag {
            0xC0 | 0xC1 | 0xC2 | 0xC3 | 0xC4 | 0xC5 | 0xC7 => Some(tag + 0x10),
            _ => None,
        },
    }
}

/// Whether this is the tag of some service's ciphered form.
fn is_form_tag(tag: u8) -> bool
    ensures { result ≡ is_form_tag tag }
{
    match tag {
        0x21 | 0x28 | 0x2E | 0xC8 | 0xC9 | 0xCA | 0xCB | 0xCC | 0xCD | 0xCF => true,
        0xD0 | 0xD1 | 0xD2 | 0xD3 | 0xD4 | 0xD5 | 0xD7 => true,
        _ => false,
    }
}

/// The tag of the general form under a kind of key.
fn general_tag(kind: KeyKind) -> u8
    ensures { result ≡ general_tag kind }
{
    match kind {
        KeyKind::Global => 0xDB,
        KeyKind::Dedicated => 0xDC,
    }
}

/// The kind of key that a message is protected by, from its first byte; `None` if it is not protected. A receiver with both
/// keys has two [`crate::Security`] values, and passes the message to the one of its kind.
pub fn kind_of(message: &[u8]) -> Option<KeyKind>
    ensures { result ≡ kind_of message.now }
{
    match message {
        [] => None,
        [tag, ..] => match *tag {
            0x21 | 0x28 | 0x2E | 0xC8 | 0xC9 | 0xCA | 0xCB | 0xCC | 0xCD | 0xCF | 0xDB => {
                Some(KeyKind::Global)
            }
            0xD0 | 0xD1 | 0xD2 | 0xD3 | 0xD4 | 0xD5 | 0xD7 | 0xDC => Some(KeyKind::Dedicated),
            _ => None,
        },
    }
}

/// Whether a message with this tag may contain the APDU under this kind of key.
pub fn is_of(kind: KeyKind, tag: u8, apdu: &[u8]) -> bool
    ensures { result ≡ is_of kind tag apdu.now }
{
    if tag == general_tag(kind) {
        return true;
    }
    match apdu {
        [] => false,
        [first, ..] => match form_tag(kind, *first) {
            Some(form) => form == tag,
            None => false,
        },
    }
}

/// A length in its shortest encoding.
fn length_octets(len: u16) -> ArrayVec<u8, 3>
    ensures { result.items ≡ length_octets len }
{
    let mut octets = ArrayVec::new();
    if len < 0x80 {
        octets.push(len as u8);
    } else if len < 0x100 {
        octets.push(0x81);
        octets.push(len as u8);
    } else {
        octets.push(0x82);
        octets.push((len / 256) as u8);
        octets.push((len % 256) as u8);
    }
    octets
}

/// The start of a message, in front of its length. An APDU whose service has no ciphered form has none.
pub fn front_of(kind: KeyKind, form: Form, title: &[u8; 8], apdu: &[u8]) -> Option<ArrayVec<u8, 10>>
    ensures { option_map (λ front. front.items) result ≡ front_of kind form title.now apdu.now }
{
    let mut front = ArrayVec::new();
    match form {
        Form::Service => match apdu {
            [] => return None,
            [first, ..] => front.push(form_tag(kind, *first)?),
        },
        Form::General => {
            front.push(general_tag(kind));
            front.push(8);
            let _fits = front.try_extend_from_slice(title);
        }
    }
    Some(front)
}

/// The message of a front, a header and a protected body.
pub fn message_of(
    front: &[u8],
    control: u8,
    counter: u32,
    body: &[u8],
) -> ArrayVec<u8, MOST_MESSAGE>
    requires front { length front.now ≤ 10 }
    requires body { length body.now ≤ MOST_BODY }
    ensures { result.items ≡ message_of front.now (content control counter body.now) }
{
    let mut message = ArrayVec::new();
    let length = length_octets(body.len() as u16 + 5);
    let _fits = message.try_extend_from_slice(front);
    let _fits = message.try_extend_from_slice(length.as_slice());
    message.push(control);
    let _fits = message.try_extend_from_slice(&counter.to_be_bytes());
    let _fits = message.try_extend_from_slice(body);
    message
}

/// The rest of a message, if it has this length.
fn exactly(len: usize, rest: &[u8]) -> Option<&[u8]>
    ensures { option_map (λ r. r.now) result ≡ exactly len rest.now }
{
    if len == rest.len() { Some(rest) } else { None }
}

/// The content after a length of one byte, after 0x81.
fn content_of_one(octets: &[u8]) -> Option<&[u8]>
    ensures { option_map (λ r. r.now) result ≡ content_of_one octets.now }
{
    match octets {
        [a, rest @ ..] => exactly(usize::from(*a), rest),
        _ => None,
    }
}

/// The content after a length of two bytes, after 0x82.
fn content_of_two(octets: &[u8]) -> Option<&[u8]>
    ensures { option_map (λ r. r.now) result ≡ content_of_two octets.now }
{
    match octets {
        [a, b, rest @ ..] => exactly(usize::from(*a) * 256 + usize::from(*b), rest),
        _ => None,
    }
}

/// The content after a length, if the length is exactly that of the content.
fn content_of(octets: &[u8]) -> Option<&[u8]>
    ensures { option_map (λ r. r.now) result ≡ content_of octets.now }
{
    match octets {
        [] => None,
        [first, rest @ ..] => {
            let first = *first;
            if first < 0x80 {
                exactly(usize::from(first), rest)
            } else if first == 0x81 {
                content_of_one(rest)
            } else if first == 0x82 {
                content_of_two(rest)
            } else {
                None
            }
        }
    }
}

/// The parts of a content: security control, invocation counter and body.
fn header(tag: u8, title: Option<[u8; 8]>, content: &[u8]) -> Option<(Head, &[u8])>
    ensures { option_map (λ x. (x.0, x.1.now)) result ≡ header tag title content.now }
{
    match content {
        [control, a, b, c, d, body @ ..] => Some((
            Head {
                tag,
                title,
                control: *control,
                counter: u32::from_be_bytes([*a, *b, *c, *d]),
            },
            body,
        )),
        _ => None,
    }
}

/// The parts of a general form, after its tag.
fn general(tag: u8, octets: &[u8]) -> Option<(Head, &[u8])>
    ensures { option_map (λ x. (x.0, x.1.now)) result ≡ general tag octets.now }
{
    match octets {
        [eight, a, b, c, d, e, f, g, h, rest @ ..] => {
            if *eight != 8 {
                return None;
            }
            let title = [*a, *b, *c, *d, *e, *f, *g, *h];
            header(tag, Some(title), content_of(rest)?)
        }
        _ => None,
    }
}

/// The parts of a service's own ciphered form, after its tag.
fn service(tag: u8, octets: &[u8]) -> Option<(Head, &[u8])>
    ensures { option_map (λ x. (x.0, x.1.now)) result ≡ service tag octets.now }
{
    header(tag, None, content_of(octets)?)
}

/// The parts of a message.
pub fn parts(message: &[u8]) -> Result<(Head, &[u8]), UnprotectFault>
    ensures { MatchResult result (λ x. parts message.now ≡ Ok (x.0, x.1.now)) (λ f. parts message.now ≡ Err f) }
{
    match message {
        [] => Err(UnprotectFault::Short),
        [tag, rest @ ..] => {
            let tag = *tag;
            let found = if tag == 0xDB || tag == 0xDC {
                general(tag, rest)
            } else if is_form_tag(tag) {
                service(tag, rest)
            } else {
                return Err(UnprotectFault::NotProtected);
            };
            match found {
                Some(parts) => Ok(parts),
                None => Err(UnprotectFault::Short),
            }
        }
    }
}
