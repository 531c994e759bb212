//! Values for SET: with their type, or in the type that the attribute has.

use crate::connection::Calls;
use crate::given::value_given;
use crate::requests::{CLOCK, MeterSession, SECOND, is_done};
use dlms_data::{Data, Descriptor, octet_string_of};
use dlms_faults::Fault;
use dlms_text::{Kind, ValueFault, date_time_in, kind_of_tag, value_as};
use std::alloc::Global;
use std::rt::Files;
use std::time::Clock;

/// The tag of an octet-string (A-XDR, IEC 62056-6-2, common data types), and how many octets a date-time has.
const OCTET_STRING: u8 = 9;

const LONG: u8 = 12;

/// A value as the command line gives it.
#[derive(Drop)]
pub enum Given<'a> {
    /// One that says its type.
    Typed(Data<Global>),
    /// One that is to be written in the attribute's type.
    Plain(&'a str),
}

/// Whether a word may be the name of a type: a small letter, then small letters, digits and dashes.
fn may_be_type(word: &str) -> bool {
    let octets = word.as_bytes();
    match octets {
        [first, ..] if first.is_ascii_lowercase() => octets.iter().all(|octet| {
            octet.is_ascii_lowercase() || octet.is_ascii_digit() || *octet == b'-'
        }),
        _ => false,
    }
}

/// Whether a text is one that says its type.
fn says_type(text: &str) -> bool {
    match text.split_once(':') {
        Some((word, _)) => may_be_type(word),
        None => text == "null" || text == "now",
    }
}

/// The value that a text gives, if it says its type, or the text itself.
pub fn given_in<'a, H: Files + Clock + AllocGlobal>(
    host: &H,
    text: &'a str,
) -> Result<Given<'a>, Fault<'a>> {
    if says_type(text) {
        Ok(Given::Typed(value_given(host, text)?))
    } else {
        Ok(Given::Plain(text))
    }
}

/// The value that a text writes in this kind.
fn value_of_kind(alloc: Global, kind: Kind, text: &str) -> Result<Data<Global>, Fault<'_>> {
    match value_as(alloc, kind, text) {
        Ok(value) => Ok(value),
        Err(ValueFault::Form) => Err(Fault::Unfit(text, kind.meaning())),
        Err(ValueFault::Memory) => Err(Fault::MEMORY),
    }
}

/// The value that a text writes, for an attribute whose value now has this encoding: of an octet-string with a date-time a time, if the
/// text is one.
fn value_like<'a>(
    alloc: Global,
    said: &'a str,
    encoding: &[u8],
    text: &'a str,
) -> Result<Data<Global>, Fault<'a>> {
    let kind = match encoding {
        [tag, ..] => kind_of_tag(*tag),
        [] => None,
    };
    let Some(kind) = kind else {
        return Err(Fault::Untyped(said));
    };
    match (encoding, date_time_in(text)) {
        ([OCTET_STRING, LONG, ..], Some(octets)) => Ok(octet_string_of(alloc, &octets)?),
        _ => value_of_kind(alloc, kind, text),
    }
}

impl<'a, C: Calls> MeterSession<'a, '_, C> {
    /// The value that a text writes in the type of an attribute: a clock's time as a date-time, any other in the type of the value that
    /// the attribute has, which is read.
    fn value_in_type(
        &mut self,
        said: &'a str,
        attribute: Descriptor,
        text: &'a str,
    ) -> Result<Data<Global>, Fault<'a>> {
        if attribute.class == CLOCK && attribute.id == SECOND {
            return match date_time_in(text) {
                Some(octets) => Ok(octet_string_of(self.alloc, &octets)?),
                None => Err(Fault::Unfit(text, "a time as 2026-01-31T12:00:00Z, or now,")),
            };
        }
        let told = self.fetch(said, attribute);
        if is_done(told)? {
            value_like(self.alloc, said, self.calls.value(), text)
        } else {
            Err(Fault::Untyped(said))
        }
    }

    /// The value to set an attribute to.
    pub fn value_to_set(
        &mut self,
        said: &'a str,
        attribute: Descriptor,
        value: Given<'a>,
    ) -> Result<Data<Global>, Fault<'a>> {
        match value {
            Given::Typed(value) => Ok(value),
            Given::Plain(text) => self.value_in_type(said, attribute, text),
        }
    }
}
