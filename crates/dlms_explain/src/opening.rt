//! Ciphered APDUs, opened by keys, and explained below their own lines. Without keys nothing is said here.

use crate::association_text::{write_initiate_request, write_initiate_response};
use crate::joined_text::Kept;
use crate::units::Units;
use crate::words::{Text, Verdict, line};
use arrayvec::ArrayVec;
use dlms_acse::{Initiate, Verdict as Granted, read_aare, read_aarq};
use dlms_dissect::{Parties, Side, acse_of, initiate_of};
use dlms_security::{Closed, Known, Opener, Plain, UnprotectFault, header_of};
use std::alloc::Allocator;

/// The first octet of an association request (IEC 62056-5-3, 9.5), of its response, of a release request, and of its response.
const AARQ: u8 = 0x60;

const AARE: u8 = 0x61;

const RLRQ: u8 = 0x62;

const RLRE: u8 = 0x63;

/// The first octet of an initiate request, and of the response.
const INITIATE_REQUEST: u8 = 0x01;

const INITIATE_RESPONSE: u8 = 0x08;

/// The most octets of an initiate request or response that is read: one with a dedicated key has 31.
const MOST_INITIATE: usize = 64;

/// What opens the ciphered APDUs, what the last association has said of its ends, the blocks of their APDUs so far, and the scalers
/// and units of the meter's objects. It has no `Debug` form, so that no key is printed by mistake.
#[derive(Drop)]
pub struct Opening<A: Allocator, O> {
    opener: O,
    /// A frame's octets are shown beside it, up to the first that is reported by its length or not at all.
    pub hex: bool,
    /// The scalers and units that were read from the meter.
    pub units: Units,
    /// The blocks of general block transfers so far.
    pub blocks: Kept<A>,
    parties: Option<Parties>,
    client: Option<[u8; 8]>,
    meter: Option<[u8; 8]>,
    dedicated_key: Option<[u8; 16]>,
}

/// Eight octets, as a title.
fn title_of(octets: Option<&[u8]>) -> Option<[u8; 8]> {
    match octets? {
        [a, b, c, d, e, f, g, h] => Some([*a, *b, *c, *d, *e, *f, *g, *h]),
        _ => None,
    }
}

/// The dedicated key in an initiate request, if it has one of suite 0.
fn dedicated_key_in(apdu: &[u8]) -> Option<[u8; 16]> {
    match apdu {
        [INITIATE_REQUEST, 1, 16, rest @ ..] => {
            let mut key = [0; 16];
            key.copy_from_slice(rest.get(..16)?);
            Some(key)
        }
        _ => None,
    }
}

impl<A: Allocator, O: Opener> Opening<A, O> {
    /// Before the first APDU.
    pub fn new(opener: O, hex: bool) -> Self {
        Opening {
            opener,
            hex,
            units: Units::new(),
            blocks: None,
            parties: None,
            client: None,
            meter: None,
            dedicated_key: None,
        }
    }

    /// Nothing is known of an association, and no block is kept.
    pub fn forget(&mut self) {
        self.blocks = None;
        self.client = None;
        self.meter = None;
        self.dedicated_key = None;
    }

    /// Another meter is asked: no scaler and no unit is known.
    pub fn forget_units(&mut self) {
        self.units = Units::new();
    }

    /// The next APDU is one of these ends.
    pub fn follow(&mut self, parties: Parties) {
        let (is_same, is_same_meter) = match self.parties {
            Some(last) => (last.are_same(parties), last.meter == parties.meter),
            None => (false, false),
        };
        if !is_same {
            self.forget();
        }
        if !is_same_meter {
            self.forget_units();
        }
        self.parties = Some(parties);
    }

    /// An association begins, or is accepted: the titles of its ends.
    fn learn(&mut self, apdu: &[u8]) {
        match apdu.first() {
            Some(&AARQ) => {
                self.forget();
                self.client = title_of(acse_of(apdu).calling_title);
            }
            Some(&AARE) => self.meter = title_of(acse_of(apdu).responding_title),
            _ => {}
        }
    }

    /// The titles and keys that are known of the association of a message from this side.
    fn known(&self, side: Option<Side>) -> Known {
        let (sender, receiver) = match side {
            Some(Side::Client) => (self.client, self.meter),
            Some(Side::Meter) => (self.meter, self.client),
            None => (None, None),
        };
        Known {
            sender,
            receiver,
            dedicated_key: self.dedicated_key,
        }
    }

    /// The APDU in a message from this side, or why it is not opened; nothing without keys.
    fn open(&mut self, side: Option<Side>, message: &[u8]) -> Option<Result<Plain, Closed>> {
        let opened = self.opener.open(&self.known(side), message);
        if let Some(Ok(plain)) = &opened
            && let Some(key) = dedicated_key_in(plain.apdu.as_slice())
        {
            self.dedicated_key = Some(key);
        }
        opened
    }

    /// The ciphered part of an APDU from this side, opened: the APDU itself, or the initiate request or response in one of an
    /// association, and which of the two it is.
    pub fn opened(
        &mut self,
        side: Option<Side>,
        apdu: &[u8],
    ) -> Option<(bool, Result<Plain, Closed>)> {
        self.learn(apdu);
        if header_of(apdu).is_some() {
            return Some((false, self.open(side, apdu)?));
        }
        if !matches!(apdu.first(), Some(&(AARQ | AARE | RLRQ | RLRE))) {
            return None;
        }
        let message = initiate_of(apdu)?;
        if header_of(message).is_none() {
            return None;
        }
        Some((true, self.open(side, message)?))
    }
}

/// The words for why a message is refused under its keys.
fn refusal_words(fault: UnprotectFault) -> &'static str {
    match fault {
        UnprotectFault::WrongTag => "tag wrong",
        UnprotectFault::AnotherService => "no APDU of this service in it",
        UnprotectFault::AnotherControl => "another protection than that of suite 0",
        UnprotectFault::Long => "more than 1024 octets",
        _ => "cut off",
    }
}

/// The words for why a message is not opened.
fn closed_words(closed: Closed) -> &'static str {
    match closed {
        Closed::NoKey => "no key of this title",
        Closed::UnknownTitle => "the sender's title is not known",
        Closed::NoDedicatedKey => "the dedicated key is not known",
        Closed::NoAuthenticationKey => "no authentication key of this title",
        Closed::Refused(fault) => refusal_words(fault),
    }
}

/// The words for an APDU that is opened.
fn opened_words(is_authenticated: bool) -> &'static str {
    if is_authenticated {
        "authenticated"
    } else {
        "encrypted only: not authenticated"
    }
}

/// The line with the outcome of opening a message.
pub fn write_verdict<A: Allocator>(
    text: &mut Text<A>,
    is_part: bool,
    opened: &Result<Plain, Closed>,
) {
    let verdict = match opened {
        Ok(plain) => Verdict {
            is_part,
            is_authenticated: Some(plain.is_authenticated),
            words: opened_words(plain.is_authenticated),
        },
        Err(closed) => Verdict {
            is_part,
            is_authenticated: None,
            words: closed_words(*closed),
        },
    };
    text.mark(verdict);
    line(text, 2, verdict.words);
}

/// Octets after others, if they fit.
fn append(octets: &mut ArrayVec<u8, 128>, more: &[u8]) {
    let _fits = octets.try_extend_from_slice(more);
}

/// An association's APDU of this tag with these fields and this user information.
fn association_with(tag: u8, fields: &[u8], user: &[u8]) -> ArrayVec<u8, 128> {
    let mut octets = ArrayVec::new();
    let user_len = user.len().min(MOST_INITIATE) as u8;
    let fields_len = fields.len().min(32) as u8;
    append(&mut octets, &[tag, fields_len + user_len + 4]);
    append(&mut octets, fields);
    append(&mut octets, &[0xbe, user_len + 2, 0x04, user_len]);
    append(&mut octets, user);
    octets
}

/// The content of an initiate request.
fn request_in(apdu: &[u8]) -> Option<Initiate> {
    match read_aarq(association_with(AARQ, &[], apdu).as_slice()) {
        Ok(request) => request.initiate,
        Err(_) => None,
    }
}

/// The fields of an accepting response: its result and its diagnostic.
const ACCEPTED: [u8; 12] = [
    0xa2, 0x03, 0x02, 0x01, 0x00, 0xa3, 0x05, 0xa1, 0x03, 0x02, 0x01, 0x00,
];

/// The content of an initiate response.
fn response_in(apdu: &[u8]) -> Option<Granted> {
    read_aare(association_with(AARE, ACCEPTED.as_slice(), apdu).as_slice()).ok()
}

/// The lines of an initiate request or response; none of another APDU.
pub fn write_initiate<A: Allocator>(text: &mut Text<A>, apdu: &[u8]) -> bool {
    match apdu.first() {
        Some(&INITIATE_REQUEST) => {
            write_initiate_request(text, request_in(apdu));
            true
        }
        Some(&INITIATE_RESPONSE) => {
            write_initiate_response(text, response_in(apdu));
            true
        }
        _ => false,
    }
}
