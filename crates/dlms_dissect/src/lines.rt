//! The content of a line.

ghost use Rattle.std.specs.Prelude.{◌≡◌, ◌<◌, false, length, option_map, IfNone, IfSome};
ghost use Rattle.std.specs.List.{list_all};
ghost use Rattle.dlms_dissect.specs.Lines.{IsHeld, IsHeldBehind, IsLogged, IsMarked, IsWorded, are_pairs, begins_with, digit_of, first_pair, is_logged, is_marked, is_parting, mark_of_log, pair_of};

use crate::parties::Side;

/// The content of a line.
#[derive(Clone, Copy)]
pub enum Line<'a> {
    /// Pairs of hexadecimal digits, and the sender of the bytes, if the line states it.
    Pairs(Option<Side>, &'a [u8]),
    /// The line states a sender, and no pairs of hexadecimal digits follow.
    NoPairs,
    /// A log's own words, as a time, then one that says whose bytes follow, then pairs of hexadecimal digits.
    Logged(&'a [u8], Side, &'a [u8]),
    /// `I`: silence, after which the client's bytes are a new stretch.
    Silence,
    /// `O`: the meter stops and comes back, and knows of no link and no half frame.
    Stop,
    /// Anything else.
    Other,
}

/// The number of a hexadecimal digit.
fn digit(byte: u8) -> Option<u8>
    ensures value { result ≡ digit_of byte }
    ensures small { IfSome result (λ value. value < 16) }
{
    match byte {
        b'0'..=b'9' => Some(byte - b'0'),
        b'a'..=b'f' => Some(byte - b'a' + 10),
        b'A'..=b'F' => Some(byte - b'A' + 10),
        _ => None,
    }
}

/// What may stand between two pairs.
fn is_parting(byte: u8) -> bool
    ensures { result ≡ is_parting byte }
{
    matches!(byte, b' ' | b'\t' | b'\r' | b':')
}

/// The byte of the first two digits, if there are two at the front.
fn pair(digits: &[u8]) -> Option<u8>
    ensures { result ≡ pair_of digits.now }
{
    match digits {
        [high, low, ..] => Some(digit(*high)? * 16 + digit(*low)?),
        _ => None,
    }
}

/// The byte of the first pair, after what may precede it, and the rest after the pair.
pub fn first_pair(digits: &[u8]) -> Option<(u8, &[u8])>
    ensures found { option_map (λ found. (found.0, found.1.now)) result ≡ first_pair digits.now }
    ensures shorter { IfSome result (λ found. length found.1.now < length digits.now) }
{
    let mut rest = digits;
    'skipping: while let [first, behind @ ..] = rest {
        if is_parting(*first) {
            rest = behind;
        } else {
            let [_, after @ ..] = behind else {
                return None;
            };
            return Some((pair(rest)?, after));
        }
    }
    None
}

/// Whether nothing but blanks and colons stands here.
fn is_blank(digits: &[u8]) -> bool
    ensures { result ≡ list_all is_parting digits.now }
{
    digits.iter().all(|byte| is_parting(*byte))
}

/// Whether there are pairs of hexadecimal digits, at least one, and nothing else but blanks and colons between them.
fn are_pairs(digits: &[u8]) -> bool
    ensures { result ≡ are_pairs digits.now }
{
    let mut rest = digits;
    let mut has_pair = false;
    'pairs: while let Some((_, behind)) = first_pair(rest) {
        rest = behind;
        has_pair = true;
    }
    has_pair && is_blank(rest)
}

/// The pairs of a line that says whose they are.
fn pairs_of(side: Side, digits: &[u8]) -> Line<'_>
    ensures { IsHeldBehind side digits.now result }
{
    if are_pairs(digits) {
        Line::Pairs(Some(side), digits)
    } else {
        Line::NoPairs
    }
}

/// Whether a word is at the front, in letters of either case.
fn begins_with(words: &[u8], word: &[u8]) -> bool
    ensures { result ≡ begins_with words.now word.now }
{
    match word {
        [] => true,
        [letter, rest @ ..] => match words {
            [] => false,
            [byte, behind @ ..] => {
                byte.to_ascii_lowercase() == *letter && begins_with(behind, rest)
            }
        },
    }
}

/// The sender of the bytes that follow, by a log's word at the front.
fn mark(words: &[u8]) -> Option<(Side, usize)>
    ensures { result ≡ mark_of_log words.now }
{
    if begins_with(words, b">") {
        Some((Side::Client, 1))
    } else if begins_with(words, b"tx") {
        Some((Side::Client, 2))
    } else if begins_with(words, b"send") {
        Some((Side::Client, 4))
    } else if begins_with(words, b"<-") {
        Some((Side::Meter, 2))
    } else if begins_with(words, b"<") {
        Some((Side::Meter, 1))
    } else if begins_with(words, b"rx") {
        Some((Side::Meter, 2))
    } else if begins_with(words, b"recv") {
        Some((Side::Meter, 4))
    } else {
        None
    }
}

/// The sender and the pairs of the bytes that follow, if a log's word at the front states it.
fn sender_mark(words: &[u8]) -> Option<(Side, &[u8])>
    ensures some { IfSome result (λ found. IsMarked words.now found.0 found.1.now) }
    ensures none { IfNone result (is_marked words.now ≡ false) }
{
    let (side, len) = mark(words)?;
    let digits = words.get(len..)?;
    if are_pairs(digits) {
        Some((side, digits))
    } else {
        None
    }
}

/// A log's words before the one that says whose bytes follow, whose they are, and their pairs.
fn log_front(line: &[u8]) -> Option<(&[u8], Side, &[u8])>
    ensures some { IfSome result (λ found. IsLogged line.now found.0.now found.1 found.2.now) }
    ensures none { IfNone result (is_logged line.now ≡ false) }
{
    for at in 0..line.len() {
        if let Some((side, digits)) = sender_mark(&line[at..]) {
            return Some((&line[..at], side, digits));
        }
    }
    None
}

/// The content of the line if it has no pairs and no mark at the front.
fn line_of_words(line: &[u8]) -> Line<'_>
    ensures { IsWorded line.now result }
{
    match log_front(line) {
        Some((words, side, digits)) => Line::Logged(words, side, digits),
        None => Line::Other,
    }
}

/// The content of the line.
pub fn line_of(line: &[u8]) -> Line<'_>
    ensures { IsHeld line.now result }
{
    match line {
        [b'I'] => Line::Silence,
        [b'O'] => Line::Stop,
        [b'>', digits @ ..] => pairs_of(Side::Client, digits),
        [b'<', digits @ ..] => pairs_of(Side::Meter, digits),
        _ if are_pairs(line) => Line::Pairs(None, line),
        _ => line_of_words(line),
    }
}
