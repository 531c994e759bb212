//! Dumps of octets, as `hexdump -C`, `xxd` and others write them: in each line an offset, octets, and their letters.

use crate::digits::{digit, digits_len, is_word};

/// How far a dump has come: how many digits its offsets have, and the last of them.
#[derive(Clone, Copy, PartialEq, Eq)]
pub struct Offset {
    digits: usize,
    value: u64,
}

/// A line of a dump.
#[derive(Clone, Copy)]
pub enum DumpLine<'a> {
    /// The words in front of its offset, the offset, and pairs of hexadecimal digits with blanks between them.
    Octets(&'a [u8], Offset, &'a [u8]),
    /// The offset after the last octet.
    End,
    /// `*`: lines as the one before are left out.
    LeftOut,
}

/// An offset and what follows it.
#[derive(Clone, Copy)]
struct Begun<'a> {
    offset: Offset,
    has_colon: bool,
    behind: &'a [u8],
}

/// The least and the most digits of an offset, and the least after other words of a line.
const LEAST_DIGITS: usize = 4;

const MOST_DIGITS: usize = 16;

const LEAST_BEHIND_WORDS: usize = 8;

/// An offset is a multiple of this if no dump is in progress.
const MULTIPLE: u64 = 8;

/// The number of pairs before a wider gap, and the length of the rest, if that has as many pairs again.
const HALF: usize = 8;

const HALF_LEN: usize = 23;

/// Where in a line an offset is looked for.
const MOST_WORDS: usize = 64;

/// The value of these hexadecimal digits, at most sixteen.
fn value_of(digits: &[u8]) -> u64 {
    let mut value = 0u64;
    for byte in digits {
        let low = digit(*byte).unwrap_or(0);
        value = value.saturating_mul(16).saturating_add(u64::from(low));
    }
    value
}

/// The offset in front, if there is one.
fn offset_of(bytes: &[u8]) -> Option<Begun<'_>> {
    let word = bytes.strip_prefix(b"0x".as_slice()).unwrap_or(bytes);
    let digits = digits_len(word);
    if digits < LEAST_DIGITS || digits > MOST_DIGITS {
        return None;
    }
    let offset = Offset {
        digits,
        value: value_of(word.get(..digits)?),
    };
    let rest = word.get(digits..)?;
    let (has_colon, behind) = match rest {
        [b':', behind @ ..] => (true, behind),
        _ => (false, rest),
    };
    Some(Begun {
        offset,
        has_colon,
        behind,
    })
}

/// How many blanks are in front.
fn blanks_len(bytes: &[u8]) -> usize {
    bytes
        .iter()
        .position(|byte| !matches!(*byte, b' ' | b'\t'))
        .unwrap_or(bytes.len())
}

/// Whether the octets of a line continue after this many blanks: `rest` follows them, this many pairs come before them, and the
/// offset before those had a colon.
fn is_within(has_colon: bool, blanks: usize, pairs: usize, rest: &[u8]) -> bool {
    match blanks {
        0 => false,
        1 => true,
        2 => !has_colon || pairs == HALF && rest.len() > HALF_LEN,
        _ => false,
    }
}

/// The length of the digits at the front, if they are octets: consecutive pairs after an offset with a colon, otherwise one pair.
fn octets_len(has_colon: bool, bytes: &[u8]) -> Option<usize> {
    let digits = digits_len(bytes);
    let is_octets = if has_colon {
        digits > 0 && digits % 2 == 0
    } else {
        digits == 2
    };
    match bytes.get(digits..)? {
        [next, ..] if is_word(*next) => None,
        _ if is_octets => Some(digits),
        _ => None,
    }
}

/// The number of characters of a line after its offset that are the digits of octets, with the blanks before them: at least two
/// blanks after an offset that may be octets itself.
fn area_len(has_colon: bool, is_even: bool, behind: &[u8]) -> usize {
    let mut len = 0usize;
    let mut pairs = 0usize;
    for _ in 0..behind.len() {
        let rest = behind.get(len..).unwrap_or(&[]);
        let blanks = blanks_len(rest);
        let rest = rest.get(blanks..).unwrap_or(&[]);
        let is_within = if len == 0 {
            blanks > usize::from(!has_colon && is_even)
        } else {
            is_within(has_colon, blanks, pairs, rest)
        };
        let Some(digits) = octets_len(has_colon, rest) else {
            break;
        };
        if !is_within {
            break;
        }
        len = len.saturating_add(blanks).saturating_add(digits);
        pairs = pairs.saturating_add(digits / 2);
    }
    len
}

/// Whether this may follow the octets of a line: nothing, or letters after at least two blanks, or after a bar.
fn is_text(behind: &[u8]) -> bool {
    matches!(
        behind,
        [] | [b'\r'] | [b' ' | b'\t', b' ' | b'\t' | b'|' | b'>' | b'\r', ..] | [b'\t', ..] | [b' ']
    )
}

/// Whether an offset may be that of a line, if a dump has come this far.
fn may_follow(open: Option<Offset>, offset: Offset) -> bool {
    let follows = match open {
        Some(open) => open.digits == offset.digits && open.value < offset.value,
        None => false,
    };
    follows || offset.value % MULTIPLE == 0
}

/// The line of a dump whose offset is at this place.
fn octets_at(open: Option<Offset>, line: &[u8], at: usize) -> Option<DumpLine<'_>> {
    let words = line.get(..at)?;
    let Begun {
        offset,
        has_colon,
        behind,
    } = offset_of(line.get(at..)?)?;
    if !may_follow(open, offset)
        || (at > 0 && !words.trim_ascii().is_empty() && offset.digits < LEAST_BEHIND_WORDS)
    {
        return None;
    }
    let len = area_len(has_colon, offset.digits % 2 == 0, behind);
    if len == 0 || !is_text(behind.get(len..)?) {
        return None;
    }
    Some(DumpLine::Octets(words, offset, behind.get(..len)?))
}

/// Whether this line is an offset alone, following that of the line before.
fn is_end(open: Offset, line: &[u8]) -> bool {
    match offset_of(line.trim_ascii()) {
        Some(begun) => {
            begun.behind.is_empty()
                && begun.offset.digits == open.digits
                && begun.offset.value > open.value
        }
        None => false,
    }
}

/// The role of a line in a dump that has come this far, if it belongs to it or begins one.
pub fn dump_line(open: Option<Offset>, line: &[u8]) -> Option<DumpLine<'_>> {
    if let Some(open) = open {
        if line.trim_ascii() == b"*".as_slice() {
            return Some(DumpLine::LeftOut);
        }
        if is_end(open, line) {
            return Some(DumpLine::End);
        }
    }
    let mut is_begin = true;
    for at in 0..line.len().min(MOST_WORDS) {
        if is_begin && let Some(found) = octets_at(open, line, at) {
            return Some(found);
        }
        is_begin = matches!(line[at], b' ' | b'\t');
    }
    None
}
