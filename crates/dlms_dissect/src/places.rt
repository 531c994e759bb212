//! The position of a fault in bytes that a reader refused.

ghost use Rattle.std.specs.Prelude.{◌≡◌, [], Some};
ghost use Rattle.dlms_dissect.specs.Places.{IsApduFault, IsShown, IsValueFault, IsValuesFault, Shows, ShowsValue, acse_words, data_words, is_refused, is_shown, reason_in, reason_of, refused, refused_value};

use crate::parties::Side;
use dlms_acse::AcseFault;
use dlms_apdu::{ApduFault, read_request, read_response};
use dlms_data::{DataFault, counted, span};
use std::alloc::Allocator;

/// Why bytes are not readable, and at which octet, counted from 1, that stands.
#[derive(Clone, Copy)]
pub struct Fault {
    pub words: &'static str,
    pub octet: usize,
}

/// Why bytes are refused, by their reader: out of memory is no reason, because it is reported only of a valid APDU.
fn reason_of(told: ApduFault) -> Option<ApduFault>
    ensures { result ≡ reason_of told }
{
    match told {
        ApduFault::Memory => None,
        _ => Some(told),
    }
}

/// Why a reader gave no APDU, if it gave none.
fn reason_in<T: Drop>(read: Result<T, ApduFault>) -> Option<ApduFault>
    ensures { result ≡ reason_in read }
{
    match read {
        Ok(_) => None,
        Err(told) => reason_of(told),
    }
}

/// Why the reader of one end's APDUs refuses the bytes, if it does.
fn reading_fault<A: Allocator + Copy>(alloc: A, side: Side, bytes: &[u8]) -> Option<ApduFault>
    ensures { result ≡ refused side bytes.now }
{
    match side {
        Side::Client => reason_in(read_request(alloc, bytes)),
        Side::Meter => reason_in(read_response(alloc, bytes)),
    }
}

/// Whether refused bytes already show the fault: by the fault, or, if bytes follow the APDU, by being the APDU.
fn is_shown(fault: ApduFault, told: Option<ApduFault>) -> bool
    ensures { result ≡ is_shown fault told }
{
    match told {
        Some(told) => told.number() == fault.number(),
        None => fault.number() == ApduFault::Trailing.number(),
    }
}

/// How many octets the shortest beginning has that shows the fault.
fn shortest<A: Allocator + Copy>(alloc: A, side: Side, fault: ApduFault, bytes: &[u8]) -> usize
    requires shown { Shows side fault bytes.now }
    requires none { Shows side fault [] → ⊥ }
    ensures { IsShown (Shows side fault) bytes.now result }
{
    let mut low = 0usize;
    let mut high = bytes.len();
    'halving: while high - low > 1 {
        let middle = low + (high - low) / 2;
        if is_shown(fault, reading_fault(alloc, side, &bytes[..middle])) {
            high = middle;
        } else {
            low = middle;
        }
    }
    high
}

/// The message for a fault of a value.
fn data_words(fault: DataFault) -> &'static str
    ensures { result.now ≡ data_words fault }
{
    match fault {
        DataFault::Short => "the value is cut short",
        DataFault::Tag => "no type has this tag",
        DataFault::Length => "no length begins so",
        DataFault::Depth => "more than eight levels",
        DataFault::Memory => "out of memory",
    }
}

/// Whether the reader of values refuses the bytes so.
fn shows_value(fault: DataFault, bytes: &[u8]) -> bool
    ensures { result ≡ is_refused fault (refused_value bytes.now) }
{
    match span(bytes) {
        Ok(_) => false,
        Err(told) => told.number() == fault.number(),
    }
}

/// How many octets the shortest beginning has that is refused with this fault.
fn shortest_value(fault: DataFault, bytes: &[u8]) -> usize
    requires shown { ShowsValue fault bytes.now }
    requires none { ShowsValue fault [] → ⊥ }
    ensures { IsShown (ShowsValue fault) bytes.now result }
{
    let mut low = 0usize;
    let mut high = bytes.len();
    'halving: while high - low > 1 {
        let middle = low + (high - low) / 2;
        if shows_value(fault, &bytes[..middle]) {
            high = middle;
        } else {
            low = middle;
        }
    }
    high
}

/// The message for bytes that the reader of values refuses, after this many octets.
fn refused_value(fault: DataFault, bytes: &[u8], before: usize) -> Fault
    requires { ShowsValue fault bytes.now }
    ensures { IsValueFault (Some fault) bytes.now before result }
{
    match fault {
        DataFault::Short => Fault {
            words: data_words(fault),
            octet: before.saturating_add(bytes.len()).saturating_add(1),
        },
        _ => Fault {
            words: data_words(fault),
            octet: before.saturating_add(shortest_value(fault, bytes)),
        },
    }
}

/// The fault of bytes that should be one value and are not, after this many octets.
pub fn value_fault(bytes: &[u8], before: usize) -> Fault
    ensures { IsValueFault (refused_value bytes.now) bytes.now before result }
{
    match span(bytes) {
        Ok(len) => Fault {
            words: "bytes follow the value",
            octet: before.saturating_add(len).saturating_add(1),
        },
        Err(fault) => refused_value(fault, bytes, before),
    }
}

/// The fault of the first invalid one of the values, one after another; the values begin after this many octets.
fn first_value_fault(bytes: &[u8], before: usize) -> Fault
    ensures { IsValuesFault bytes.now before result }
{
    let mut rest = bytes;
    let mut place = before;
    'values: while let Ok(len) = span(rest) {
        place = place.saturating_add(len);
        rest = &rest[len..];
    }
    value_fault(rest, place)
}

/// The fault that the reader of one end's APDUs reported for these bytes, and its position.
pub fn apdu_fault<A: Allocator + Copy>(
    alloc: A,
    side: Side,
    fault: ApduFault,
    bytes: &[u8],
) -> Fault
    requires { refused side bytes.now ≡ Some fault }
    ensures { IsApduFault side fault bytes.now result }
{
    match fault {
        ApduFault::Short => Fault {
            words: "the bytes end within the APDU",
            octet: bytes.len().saturating_add(1),
        },
        ApduFault::Choice => Fault {
            words: "no form has this byte here",
            octet: shortest(alloc, side, fault, bytes),
        },
        ApduFault::Trailing => Fault {
            words: "bytes follow the APDU",
            octet: shortest(alloc, side, fault, bytes).saturating_add(1),
        },
        ApduFault::Data => {
            let before = shortest(alloc, side, fault, bytes);
            first_value_fault(&bytes[before..], before)
        }
        ApduFault::Memory => Fault {
            words: "out of memory",
            octet: 0,
        },
    }
}

/// The message for a fault of an association's APDU.
fn acse_words(fault: AcseFault) -> &'static str
    ensures { result.now ≡ acse_words fault }
{
    match fault {
        AcseFault::Short => "the bytes end too soon, or a field is missing",
        AcseFault::Tag => "another APDU",
        AcseFault::Length => "no length begins so, or bytes follow the end",
        AcseFault::Repeated => "a tag occurs twice",
    }
}

/// The number of octets of fields before the one that has a fault, or before their end.
fn octets_before(fields: &[u8]) -> usize {
    let mut seen = [false; 256];
    let mut rest = fields;
    for _ in 0..fields.len() {
        let [tag, behind @ ..] = rest else {
            break;
        };
        let tag = usize::from(*tag);
        if seen[tag] {
            break;
        }
        seen[tag] = true;
        match counted(behind) {
            Ok((_, after)) => rest = after,
            Err(_) => break,
        }
    }
    fields.len().saturating_sub(rest.len())
}

/// The fault that the reader of an association's APDUs told of these bytes, and the field at which it stands.
pub fn acse_fault(fault: AcseFault, bytes: &[u8]) -> Fault
    ensures { result.words.now ≡ acse_words fault }
{
    let words = acse_words(fault);
    let octet = match bytes {
        [_, rest @ ..] => match counted(rest) {
            Ok((fields, behind)) => {
                let front = rest
                    .len()
                    .saturating_sub(fields.len())
                    .saturating_sub(behind.len());
                front
                    .saturating_add(octets_before(fields))
                    .saturating_add(2)
            }
            Err(_) => 2,
        },
        [] => 1,
    };
    Fault { words, octet }
}
