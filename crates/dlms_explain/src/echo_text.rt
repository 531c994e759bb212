//! The words of a line that is not read: its octets are left out, and what would steer a terminal is shown by its number.

use crate::digits::{
    Between, LEAST_HIDDEN, before, digits_in, is_word, marked_len, plain_len, run_of,
};
use crate::json::write_quoted;
use crate::layout::Layout;
use crate::words::{Text, hexadecimal, number};
use std::alloc::Allocator;

/// The number of consecutive digits that count as octets, whose letters may follow them.
const LEAST_OCTETS: usize = 16;

/// How the words of a line are written.
#[derive(Clone, Copy)]
pub struct Written {
    /// With octets, too.
    pub raw: bool,
    /// In JSON they are written within a string.
    pub layout: Layout,
}

/// The element at the front of a line, from some place on.
#[derive(Clone, Copy)]
enum Step {
    /// So many octets that may be shown.
    Shown(usize),
    Hidden(Hidden),
}

/// Digits that are not shown.
#[derive(Clone, Copy)]
struct Hidden {
    from: usize,
    to: usize,
    digits: usize,
    /// The rest is not shown either.
    is_last: bool,
}

/// Whether a letter steers a terminal, or turns or hides what is around it.
pub fn is_steering(letter: char) -> bool {
    matches!(
        letter,
        '\u{0}'..='\u{8}'
            | '\u{a}'..='\u{1f}'
            | '\u{7f}'..='\u{9f}'
            | '\u{ad}'
            | '\u{61c}'
            | '\u{180e}'
            | '\u{200b}'..='\u{200f}'
            | '\u{2028}'..='\u{202e}'
            | '\u{2060}'..='\u{206f}'
            | '\u{feff}'
            | '\u{fff9}'..='\u{fffb}'
    )
}

/// The digits of a letter's number, without leading zeros.
fn write_number_of<A: Allocator>(text: &mut Text<A>, letter: char) {
    let value = u32::from(letter);
    let mut is_begun = false;
    for shift in [20u32, 16, 12, 8, 4, 0] {
        let digit = (value >> shift) % 16;
        is_begun = is_begun || digit > 0 || shift == 0;
        if is_begun {
            hexadecimal(text, digit as u8);
        }
    }
}

/// Words, in which each letter that steers a terminal is its number, as `\u{1b}`.
fn write_words<A: Allocator>(text: &mut Text<A>, words: &str) {
    for letter in words.chars() {
        if is_steering(letter) {
            text.push("\\u{");
            write_number_of(text, letter);
            text.push("}");
        } else {
            text.letter(letter);
        }
    }
}

/// The same, by how they are written.
fn write_part<A: Allocator>(text: &mut Text<A>, written: Written, words: &str) {
    if written.layout.is_json() {
        write_quoted(text, words);
    } else if written.raw {
        text.push(words);
    } else {
        write_words(text, words);
    }
}

/// Digits in a row, within a word that has other letters too. A mark `0x` between them ends no row.
fn step_within(line: &[u8], at: usize, rest: &[u8]) -> Step {
    let len = marked_len(rest);
    let digits = digits_in(rest.get(..len).unwrap_or(&[]));
    if digits < LEAST_HIDDEN {
        return Step::Shown(len.max(1));
    }
    Step::Hidden(Hidden {
        from: at,
        to: at.saturating_add(len).min(line.len()),
        digits,
        is_last: digits >= LEAST_OCTETS,
    })
}

/// The element at the front of a word that begins here.
fn step_of_word(line: &[u8], at: usize, before: Option<u8>, is_front: bool, rest: &[u8]) -> Step {
    let plain = plain_len(before, is_front, rest);
    if plain > 0 {
        return Step::Shown(plain);
    }
    let Some(run) = run_of(Between::Anything, rest) else {
        return step_within(line, at, rest);
    };
    if run.digits < LEAST_HIDDEN {
        return Step::Shown(run.len);
    }
    Step::Hidden(Hidden {
        from: at,
        to: at.saturating_add(run.len).min(line.len()),
        digits: run.digits,
        is_last: run.groups > 1 || run.digits >= LEAST_OCTETS,
    })
}

/// The element at this place of a line.
fn step_of(line: &[u8], at: usize, is_front: bool) -> Step {
    let rest = line.get(at..).unwrap_or(&[]);
    match rest {
        [first, ..] if is_word(*first) => {
            let before = before(line, at);
            match before {
                Some(byte) if is_word(byte) => step_within(line, at, rest),
                _ => step_of_word(line, at, before, is_front, rest),
            }
        }
        _ => Step::Shown(1),
    }
}

/// The next digits from this place on that are not shown.
fn next_hidden(line: &[u8], from: usize) -> Option<Hidden> {
    let mut at = from;
    let mut is_front = from == 0;
    for _ in from..line.len() {
        if at >= line.len() {
            return None;
        }
        match step_of(line, at, is_front) {
            Step::Hidden(hidden) => return Some(hidden),
            Step::Shown(len) => {
                is_front = is_front && len == 1 && !is_word(line[at]);
                at = at.saturating_add(len);
            }
        }
    }
    None
}

/// How many digits are not shown.
fn write_hidden<A: Allocator>(text: &mut Text<A>, hidden: Hidden) {
    text.push("(");
    number(text, hidden.digits as u64);
    text.push(" digits)");
}

/// The words of a line without its octets: each run of six or more hexadecimal digits is replaced by their number. After one of
/// several words or of sixteen digits nothing is shown, because the same octets may be there as letters.
fn write_masked<A: Allocator>(text: &mut Text<A>, written: Written, words: &str) {
    let mut at = 0;
    for _ in 0..words.len() {
        let Some(hidden) = next_hidden(words.as_bytes(), at) else {
            break;
        };
        write_part(text, written, words.get(at..hidden.from).unwrap_or(""));
        write_hidden(text, hidden);
        if hidden.is_last {
            return;
        }
        at = hidden.to;
    }
    write_part(text, written, words.get(at..).unwrap_or(""));
}

/// Whether a line is what a transcript says of the meter's state: a word, and decimal numbers.
fn is_state(words: &str) -> bool {
    match words.strip_prefix("state ") {
        Some(numbers) => numbers
            .as_bytes()
            .iter()
            .all(|byte| byte.is_ascii_digit() || *byte == b' '),
        None => false,
    }
}

/// The words of a line as they are shown.
pub fn write_echo<A: Allocator>(text: &mut Text<A>, written: Written, words: &str) {
    if written.raw || is_state(words) {
        write_part(text, written, words);
    } else {
        write_masked(text, written, words);
    }
}
