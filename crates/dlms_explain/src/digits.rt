//! Hexadecimal digits in the lines of other programs' logs, however these spell octets.

ghost use Rattle.std.specs.Prelude.{◌<◌, IfSome};

use std::alloc::{AllocError, Allocator};

/// A word of hexadecimal digits: the number of its digits, and its octets in the line with `0x` or `x` before it, or `h` after it.
#[derive(Clone, Copy)]
pub struct Group {
    pub digits: usize,
    pub len: usize,
}

/// Words of hexadecimal digits, one after another.
#[derive(Clone, Copy)]
pub struct Run {
    /// How many octets of the line it has.
    pub len: usize,
    pub digits: usize,
    pub groups: usize,
    /// Each word has an even number of digits.
    pub is_pairs: bool,
    /// How many digits the last word has.
    last: usize,
}

/// What may stand between the words of a run.
#[derive(Clone, Copy, PartialEq, Eq)]
pub enum Between {
    /// The separators of octets: blanks, `:`, `-`, `,`, `;`, `_`, `|`, quotes, backslashes, but no colon followed by a blank.
    Separators,
    /// One to eight characters, none of them a letter or a digit.
    Anything,
}

/// How many digits of a run are enough to hide it.
pub const LEAST_HIDDEN: usize = 6;

/// The most characters between two words of a run.
const MOST_BETWEEN: usize = 8;

/// Whether a word has this octet: a letter or a digit.
pub fn is_word(byte: u8) -> bool {
    byte.is_ascii_alphanumeric()
}

/// How many letters and digits are in front.
pub fn word_len(bytes: &[u8]) -> usize {
    bytes
        .iter()
        .position(|byte| !byte.is_ascii_alphanumeric())
        .unwrap_or(bytes.len())
}

/// The octet before this place.
pub fn before(line: &[u8], at: usize) -> Option<u8> {
    line.get(at.checked_sub(1)?).copied()
}

/// How many hexadecimal digits are in front.
pub fn digits_len(bytes: &[u8]) -> usize {
    bytes
        .iter()
        .position(|byte| !byte.is_ascii_hexdigit())
        .unwrap_or(bytes.len())
}

/// Whether the octet at this place is the x of a mark `0x`.
fn is_mark(bytes: &[u8], at: usize, byte: u8) -> bool {
    matches!(byte, b'x' | b'X') && before(bytes, at) == Some(b'0')
}

/// How many octets hexadecimal digits in front have, with marks `0x` between them: octets may be written `0x850x74`, without a blank.
pub fn marked_len(bytes: &[u8]) -> usize {
    bytes
        .iter()
        .enumerate()
        .position(|(at, byte)| !byte.is_ascii_hexdigit() && !is_mark(bytes, at, *byte))
        .unwrap_or(bytes.len())
}

/// How many of these octets are hexadecimal digits.
pub fn digits_in(bytes: &[u8]) -> usize {
    bytes.iter().filter(|byte| byte.is_ascii_hexdigit()).count()
}

/// Whether a letter or a digit is in front.
fn begins_word(bytes: &[u8]) -> bool {
    match bytes {
        [first, ..] => first.is_ascii_alphanumeric(),
        [] => false,
    }
}

/// How long the mark of hexadecimal digits in front is.
fn mark_len(bytes: &[u8]) -> usize {
    match bytes {
        [b'0', b'x' | b'X', ..] => 2,
        [b'x' | b'X', ..] => 1,
        _ => 0,
    }
}

/// The word in front, if it is one of hexadecimal digits.
fn group_of(word: &[u8]) -> Option<Group> {
    let mark = mark_len(word);
    let behind = word.get(mark..)?;
    let digits = digits_len(behind);
    let rest = behind.get(digits..)?;
    let end = usize::from(matches!(rest, [b'h' | b'H', ..]));
    let rest = rest.get(end..)?;
    if digits == 0 || begins_word(rest) {
        return None;
    }
    Some(Group {
        digits,
        len: mark.saturating_add(digits).saturating_add(end),
    })
}

/// The text before the next word, if it may be between two words of digits.
fn gap(bytes: &[u8]) -> Option<&[u8]> {
    let front = bytes.get(..MOST_BETWEEN + 1).unwrap_or(bytes);
    let len = front.iter().position(|byte| byte.is_ascii_alphanumeric())?;
    if len == 0 {
        return None;
    }
    bytes.get(..len)
}

/// Whether these characters separate octets.
fn are_separators(between: &[u8]) -> bool {
    between.iter().all(|byte| {
        matches!(
            *byte,
            b' ' | b'\t' | b'\r' | b':' | b'-' | b',' | b';' | b'_' | b'|' | b'"' | b'\'' | b'\\'
        )
    }) && !between.ends_with(b": ")
}

impl Run {
    /// A run that begins with this word.
    fn new(group: Group) -> Run {
        Run {
            len: group.len,
            digits: group.digits,
            groups: 1,
            is_pairs: group.digits % 2 == 0,
            last: group.digits,
        }
    }

    /// The run, extended by one more word.
    fn with(self, between: usize, group: Group) -> Run {
        Run {
            len: self.len.saturating_add(between).saturating_add(group.len),
            digits: self.digits.saturating_add(group.digits),
            groups: self.groups.saturating_add(1),
            is_pairs: self.is_pairs && group.digits % 2 == 0,
            last: group.digits,
        }
    }

    /// Whether the run goes on over these characters with this word: a point alone joins words of an even number of digits.
    fn goes_on(self, kind: Between, between: &[u8], group: Group) -> bool {
        if between == b".".as_slice() {
            return self.last % 2 == 0 && group.digits % 2 == 0;
        }
        kind == Between::Anything || are_separators(between)
    }

    /// The run with the next word, if that belongs to it.
    fn next(self, kind: Between, bytes: &[u8]) -> Option<Run> {
        let rest = bytes.get(self.len..)?;
        let between = gap(rest)?;
        let word = rest.get(between.len()..)?;
        let group = group_of(word)?;
        if !self.goes_on(kind, between, group) || (!between.ends_with(b":") && time_len(word) > 0) {
            return None;
        }
        Some(self.with(between.len(), group))
    }
}

/// The longest run of words of hexadecimal digits at the front, at which a word begins.
pub fn run_of(kind: Between, bytes: &[u8]) -> Option<Run> {
    let mut run = Run::new(group_of(bytes)?);
    for _ in 0..bytes.len() {
        let Some(longer) = run.next(kind, bytes) else {
            break;
        };
        run = longer;
    }
    Some(run)
}

/// The octet of two digits.
fn octet_of(high: u8, low: u8) -> Option<u8> {
    Some(digit(high)? * 16 + digit(low)?)
}

/// The octet of the next two digits of a run of pairs, and the rest after them.
pub fn next_pair(run: &[u8]) -> Option<(u8, &[u8])> {
    let mut rest = run;
    for _ in 0..run.len() {
        match rest {
            [b'0', b'x' | b'X', behind @ ..] => rest = behind,
            [high, low, behind @ ..] => {
                if let Some(octet) = octet_of(*high, *low) {
                    return Some((octet, behind));
                }
                rest = rest.get(1..).unwrap_or(&[]);
            }
            _ => return None,
        }
    }
    None
}

/// The octets of a run of pairs.
pub fn octets_of<A: Allocator>(alloc: A, run: &[u8]) -> Result<Vec<u8, A>, AllocError> {
    let mut octets = Vec::with_capacity(alloc, run.len() / 2)?;
    let mut rest = run;
    for _ in 0..run.len() {
        let Some((octet, behind)) = next_pair(rest) else {
            break;
        };
        octets.push(octet)?;
        rest = behind;
    }
    Ok(octets)
}

/// The value of a hexadecimal digit.
pub fn digit(byte: u8) -> Option<u8>
    ensures { IfSome result (λ value. value < 16) }
{
    match byte {
        b'0'..=b'9' => Some(byte - b'0'),
        b'a'..=b'f' => Some(byte - b'a' + 10),
        b'A'..=b'F' => Some(byte - b'A' + 10),
        _ => None,
    }
}

/// Whether this shape is at the front: each digit of the shape matches a decimal digit up to it, anything else matches itself.
fn has_shape(bytes: &[u8], shape: &[u8]) -> bool {
    let Some(front) = bytes.get(..shape.len()) else {
        return false;
    };
    front.iter().zip(shape).all(|(byte, most)| {
        if most.is_ascii_digit() {
            byte.is_ascii_digit() && *byte <= *most
        } else {
            *byte == *most
        }
    })
}

/// How many decimal digits are in front.
fn decimals_len(bytes: &[u8]) -> usize {
    bytes
        .iter()
        .position(|byte| !byte.is_ascii_digit())
        .unwrap_or(bytes.len())
}

/// How long a fraction in front is: a point or a comma, and up to nine decimal digits.
fn fraction_len(bytes: &[u8]) -> usize {
    match bytes {
        [b'.' | b',', behind @ ..] => match decimals_len(behind) {
            len @ 1..=9 => len.saturating_add(1),
            _ => 0,
        },
        _ => 0,
    }
}

/// This length, if the text after it belongs neither to a word nor to a run of octets.
fn len_if_bounded(bytes: &[u8], len: usize) -> usize {
    match bytes.get(len..) {
        Some([b'Z' | b'z', behind @ ..]) if !begins_word(behind) => len,
        Some([b':' | b'-' | b'/' | b'.', ..]) => 0,
        Some(behind) if !begins_word(behind) => len,
        _ => 0,
    }
}

/// How long a time of day in front is.
fn time_len(bytes: &[u8]) -> usize {
    if !has_shape(bytes, b"29:59:59") {
        return 0;
    }
    let behind = bytes.get(8..).unwrap_or(&[]);
    len_if_bounded(bytes, fraction_len(behind).saturating_add(8))
}

/// The length of a date at the front, with the time of day after it.
fn date_len(bytes: &[u8]) -> usize {
    let is_date = has_shape(bytes, b"2999-19-39")
        || has_shape(bytes, b"2999/19/39")
        || has_shape(bytes, b"39/39/2999")
        || has_shape(bytes, b"39.19.2999");
    if !is_date {
        return 0;
    }
    match bytes.get(10..) {
        Some([b'T' | b't' | b' ' | b'_', behind @ ..]) if time_len(behind) > 0 => {
            time_len(behind).saturating_add(11)
        }
        _ => len_if_bounded(bytes, 10),
    }
}

/// The length of a date or a time of day at the front; 0 without one.
pub fn stamp_len(bytes: &[u8]) -> usize {
    match date_len(bytes) {
        0 => time_len(bytes),
        len => len,
    }
}

/// The length of a part of an IPv4 address at the front, with the point after it.
fn part_len(bytes: &[u8]) -> usize {
    match decimals_len(bytes) {
        len @ 1..=3 => match bytes.get(len..) {
            Some([b'.', ..]) => len.saturating_add(1),
            _ => 0,
        },
        _ => 0,
    }
}

/// How long a port in front is, with its colon.
fn port_len(bytes: &[u8]) -> usize {
    match bytes {
        [b':', behind @ ..] => match decimals_len(behind) {
            len @ 1..=5 => len_if_bounded(bytes, len.saturating_add(1)),
            _ => 0,
        },
        _ => 0,
    }
}

/// The length of an IPv4 address at the front, with its port; 0 without one.
fn address_len(bytes: &[u8]) -> usize {
    let mut len = 0usize;
    for _ in 0..3 {
        let part = part_len(bytes.get(len..).unwrap_or(&[]));
        if part == 0 {
            return 0;
        }
        len = len.saturating_add(part);
    }
    match decimals_len(bytes.get(len..).unwrap_or(&[])) {
        last @ 1..=3 => len = len.saturating_add(last),
        _ => return 0,
    }
    match port_len(bytes.get(len..).unwrap_or(&[])) {
        0 => len_if_bounded(bytes, len),
        port => len.saturating_add(port),
    }
}

/// The length of seconds or milliseconds since 1970 at the front of a line, or of seconds with a fraction; 0 without such a number.
fn seconds_len(bytes: &[u8]) -> usize {
    let len = decimals_len(bytes);
    let fraction = match bytes.get(len..) {
        Some(behind @ [b'.', ..]) => fraction_len(behind),
        _ => 0,
    };
    let is_time = fraction > 0 && matches!(len, 1..=13)
        || matches!(len, 10 | 13) && matches!(bytes, [b'1', ..]);
    if is_time {
        len_if_bounded(bytes, len.saturating_add(fraction))
    } else {
        0
    }
}

/// The length of a time or an address at the beginning of a word, after this octet, and perhaps at the front of a line; 0 without
/// one. After a colon or a point there is none, since octets may end with these.
pub fn plain_len(before: Option<u8>, is_front: bool, word: &[u8]) -> usize {
    if matches!(before, Some(b':' | b'.')) {
        return 0;
    }
    let seconds = if is_front { seconds_len(word) } else { 0 };
    seconds.max(stamp_len(word)).max(address_len(word))
}
