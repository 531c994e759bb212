//! Lines of other programs' logs: where their octets are, and whose they are.

use crate::digits::{
    Between, LEAST_HIDDEN, before, is_word, next_pair, plain_len, run_of, stamp_len, word_len,
};
use dlms_dissect::Side;

/// The octets of a line, and the line's statement about them.
#[derive(Clone, Copy)]
pub struct Logged<'a> {
    /// The line's own words in front, as a time.
    pub words: &'a [u8],
    pub side: Option<Side>,
    /// Pairs of hexadecimal digits, and what separates them.
    pub run: &'a [u8],
}

/// Octets of a line, from this place to that one.
#[derive(Clone, Copy)]
struct Place {
    from: usize,
    to: usize,
    digits: usize,
    is_pairs: bool,
}

/// A word that says whose octets follow, from this place on.
#[derive(Clone, Copy)]
struct Mark {
    side: Side,
    at: usize,
}

/// The flag of a frame.
const FLAG: u8 = 0x7e;

/// The words of logs before octets of the client.
const CLIENT: [&[u8]; 17] = [
    b"tx",
    b"txd",
    b"send",
    b"sends",
    b"sending",
    b"sent",
    b"write",
    b"writes",
    b"writing",
    b"written",
    b"wrote",
    b"transmit",
    b"transmitting",
    b"transmitted",
    b"request",
    b"req",
    b"outgoing",
];

/// The words of logs before octets of the meter.
const METER: [&[u8]; 16] = [
    b"rx",
    b"rxd",
    b"recv",
    b"receive",
    b"receives",
    b"receiving",
    b"received",
    b"read",
    b"reads",
    b"reading",
    b"response",
    b"resp",
    b"rsp",
    b"reply",
    b"answer",
    b"incoming",
];

/// Whether this word is among these, in letters of either case.
fn is_among(words: &[&[u8]], word: &[u8]) -> bool {
    words.iter().any(|known| known.eq_ignore_ascii_case(word))
}

/// The sender of octets, by the word before them.
fn side_of_word(word: &[u8]) -> Option<Side> {
    if is_among(&CLIENT, word) {
        Some(Side::Client)
    } else if is_among(&METER, word) {
        Some(Side::Meter)
    } else {
        None
    }
}

/// How many letters are in front.
fn letters_len(bytes: &[u8]) -> usize {
    bytes
        .iter()
        .position(|byte| !byte.is_ascii_alphabetic())
        .unwrap_or(bytes.len())
}

/// The arrow in front, if there is one.
fn arrow(bytes: &[u8]) -> Option<Side> {
    match bytes {
        [b'-' | b'=' | b'>', b'>', ..] => Some(Side::Client),
        [b'<', b'-' | b'=' | b'<', ..] => Some(Side::Meter),
        _ => None,
    }
}

/// The last word of these that says whose octets follow.
fn last_word(words: &[u8]) -> Option<Mark> {
    let mut found = None;
    let mut at = 0usize;
    for _ in 0..words.len() {
        let rest = words.get(at..).unwrap_or(&[]);
        let len = letters_len(rest);
        let word = rest.get(..len).unwrap_or(&[]);
        match side_of_word(word) {
            Some(side) => found = Some(Mark { side, at }),
            None => {}
        }
        at = at.saturating_add(len.max(1));
    }
    found
}

/// The last arrow of these words, or `>` or `<` in front of them.
fn last_arrow(words: &[u8]) -> Option<Mark> {
    for at in (0..words.len()).rev() {
        match words.get(at..).and_then(|rest| arrow(rest)) {
            Some(side) => return Some(Mark { side, at }),
            None => {}
        }
    }
    match words {
        [b'>', ..] => Some(Mark {
            side: Side::Client,
            at: 0,
        }),
        [b'<', ..] => Some(Mark {
            side: Side::Meter,
            at: 0,
        }),
        _ => None,
    }
}

/// How long what begins at this place of a line is, and the octets that are there.
fn step(line: &[u8], at: usize, is_front: bool) -> (usize, Option<Place>) {
    let rest = line.get(at..).unwrap_or(&[]);
    let plain = plain_len(before(line, at), is_front, rest);
    if plain > 0 {
        return (plain, None);
    }
    match run_of(Between::Separators, rest) {
        Some(run) => {
            let place = Place {
                from: at,
                to: at.saturating_add(run.len),
                digits: run.digits,
                is_pairs: run.is_pairs,
            };
            (run.len, Some(place))
        }
        None => (word_len(rest).max(1), None),
    }
}

/// The longest octets of a line.
fn longest(line: &[u8]) -> Option<Place> {
    let mut best: Option<Place> = None;
    let mut at = 0usize;
    let mut is_front = true;
    for _ in 0..line.len() {
        if at >= line.len() {
            break;
        }
        let (len, found) = step(line, at, is_front);
        is_front = is_front && !line[at].is_ascii_alphanumeric();
        best = longer(best, found);
        at = at.saturating_add(len);
    }
    best
}

/// The longer one of two places, the first of equal ones.
fn longer(one: Option<Place>, other: Option<Place>) -> Option<Place> {
    match (one, other) {
        (Some(one), Some(other)) if one.digits < other.digits => Some(other),
        (None, other) => other,
        (one, _) => one,
    }
}

/// Whether a letter or a digit is among these octets.
fn has_word(octets: &[u8]) -> bool {
    octets.iter().any(|byte| is_word(*byte))
}

/// The first date or time of these words.
fn first_stamp(words: &[u8]) -> &[u8] {
    for at in 0..words.len() {
        let rest = &words[at..];
        let len = stamp_len(rest);
        if len > 0 {
            return rest.get(..len).unwrap_or(&[]);
        }
    }
    &[]
}

/// Whether a line is an object of JSON, or a string.
fn is_json(line: &[u8]) -> bool {
    matches!(
        line.trim_ascii_start(),
        [b'{' | b'"' | b'\'', ..] | [b'[', b'{' | b'"', ..]
    )
}

/// Words without what leads from them to the octets.
fn without_end(words: &[u8]) -> &[u8] {
    let mut rest = words;
    for _ in 0..words.len() {
        match rest {
            [
                front @ ..,
                b' '
                | b'\t'
                | b':'
                | b'='
                | b','
                | b'('
                | b'['
                | b'{'
                | b'<'
                | b'>'
                | b'|'
                | b'-'
                | b'"'
                | b'\'',
            ] => {
                rest = front;
            }
            _ => break,
        }
    }
    rest
}

/// The statement of a line's words before its octets.
fn statement_of<'a>(line: &[u8], words: &'a [u8]) -> &'a [u8] {
    if is_json(line) {
        first_stamp(words)
    } else {
        without_end(words)
    }
}

/// Whether a line is a tag or a comment of XML.
pub fn is_xml(line: &[u8]) -> bool {
    match line.trim_ascii() {
        [b'<', first, .., b'>'] => {
            first.is_ascii_alphabetic() || matches!(*first, b'/' | b'!' | b'?')
        }
        _ => false,
    }
}

/// Whether this run of pairs in a line is octets that are to be read: it begins with a frame's flag; or, but not in XML, the line
/// says whose octets follow, and they end it, or there is nothing else in the line.
fn is_read(line: &[u8], place: Place, is_marked: bool, front: &[u8], behind: &[u8]) -> bool {
    let run = line.get(place.from..place.to).unwrap_or(&[]);
    let is_long = place.digits >= LEAST_HIDDEN;
    let is_end = !has_word(behind);
    let is_alone = is_end && !has_word(front);
    is_long && matches!(next_pair(run), Some((FLAG, _)))
        || !is_xml(line) && (is_long && is_marked && is_end || is_alone)
}

/// The octets of a line that names the direction, then a time, then its octets, as in `TX: 13:01:42 7E A0`.
pub fn timed_of(line: &[u8]) -> Option<Logged<'_>> {
    let (word, rest) = match line.trim_ascii_start() {
        [a, b, b':', rest @ ..] => ([*a, *b], rest),
        _ => return None,
    };
    let side = side_of_word(&word)?;
    let rest = rest.trim_ascii_start();
    let len = stamp_len(rest);
    let (words, behind) = (rest.get(..len)?, rest.get(len..)?);
    let digits = behind.trim_ascii();
    let run = run_of(Between::Separators, digits)?;
    if len == 0 || !run.is_pairs || run.len != digits.len() {
        return None;
    }
    Some(Logged {
        words,
        side: Some(side),
        run: digits,
    })
}

/// The octets of a line of another program's log, if it has some that are to be read.
pub fn logged_of(line: &[u8]) -> Option<Logged<'_>> {
    let place = longest(line)?;
    let run = line.get(place.from..place.to)?;
    let front = line.get(..place.from)?;
    let behind = line.get(place.to..)?;
    let mark = last_word(front).or(last_arrow(front));
    let side = match mark {
        Some(mark) => Some(mark.side),
        None => last_word(behind).map(|mark| mark.side),
    };
    if !place.is_pairs || !is_read(line, place, side.is_some(), front, behind) {
        return None;
    }
    let words = match mark {
        Some(mark) => front.get(..mark.at)?,
        None => front,
    };
    Some(Logged {
        words: statement_of(line, words),
        side,
        run,
    })
}
