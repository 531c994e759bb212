//! The lines of a telegram, and what they are of.

ghost use Rattle.std.specs.Prelude.{◌≢◌, IfSome, IfNone, EachIndex, slice_index};
ghost use Rattle.dlms_telegram.specs.Line.{IsSplit};

use crate::numbers::digits;

/// The ends of a line, and the octets around the groups of a line.
const LF: u8 = 0x0a;

const CR: u8 = 0x0d;

const OPEN: u8 = b'(';

const CLOSE: u8 = b')';

/// The last value group of a name (IEC 62056-6-1).
const CURRENT: u8 = 255;

/// A data line.
#[derive(Clone, Copy)]
pub struct DataLine<'a> {
    /// The name of its object (OBIS code), if it has one of five value groups or six.
    pub name: Option<[u8; 6]>,
    /// Its values, each in parentheses.
    pub groups: &'a [u8],
}

/// The octets before and after the first octet of a kind.
pub fn split_at(octets: &[u8], mark: u8) -> Option<(&[u8], &[u8])>
    ensures some { IfSome result (λ parts. IsSplit octets.now mark parts.0.now parts.1.now) }
    ensures none { IfNone result (EachIndex octets.now (λ k. slice_index octets.now k ≢ mark)) }
{
    for (i, octet) in octets.iter().enumerate() {
        if *octet == mark {
            return Some((&octets[..i], &octets[i + 1..]));
        }
    }
    None
}

/// The first line of a text, without its end, and the text after it.
pub fn line_in(text: &[u8]) -> (&[u8], &[u8]) {
    let (line, rest) = split_at(text, LF).unwrap_or((text, &[]));
    match line {
        [line @ .., CR] => (line, rest),
        _ => (line, rest),
    }
}

/// The number of a value group, and what follows this octet after it.
fn group_before(text: &[u8], mark: u8) -> Option<(u8, &[u8])> {
    let (digit, rest) = split_at(text, mark)?;
    Some((small(digit)?, rest))
}

/// The number of a value group.
fn small(text: &[u8]) -> Option<u8> {
    match text {
        [] => None,
        _ => u8::try_from(digits(0, text)?).ok(),
    }
}

/// The name that a text is: A-B:C.D.E, or A-B:C.D.E*F (IEC 62056-6-1).
fn name_in(text: &[u8]) -> Option<[u8; 6]> {
    let (a, rest) = group_before(text, b'-')?;
    let (b, rest) = group_before(rest, b':')?;
    let (c, rest) = group_before(rest, b'.')?;
    let (d, rest) = group_before(rest, b'.')?;
    match group_before(rest, b'*') {
        Some((e, f)) => Some([a, b, c, d, e, small(f)?]),
        None => Some([a, b, c, d, small(rest)?, CURRENT]),
    }
}

/// Reads a line that has values. A line that only goes on with those of the line before has no name.
pub fn read_line(line: &[u8]) -> Option<DataLine<'_>> {
    let (name, _) = split_at(line, OPEN)?;
    Some(DataLine {
        name: name_in(name),
        groups: &line[name.len()..],
    })
}

/// The first value of a line without its parentheses, and the values after it.
pub fn group_in(groups: &[u8]) -> Option<(&[u8], &[u8])> {
    match groups {
        [OPEN, rest @ ..] => split_at(rest, CLOSE),
        _ => None,
    }
}
