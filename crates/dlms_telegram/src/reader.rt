//! The telegrams of a line that comes in pieces.

ghost use Rattle.std.specs.Prelude.{◌≡◌, ◌<◌, IfNone, IfSome};
ghost use Rattle.dlms_telegram.specs.Telegram.{IsNone, IsTelegram, begins, end_of, is_digit_of, is_found, is_spelled, is_text, verdict};

use crate::division::check;
use crate::lines::{line_in, split_at};
use arrayvec::ArrayVec;
use std::marker::Model;

/// The most octets of a telegram.
pub const MOST_TELEGRAM: usize = 4096;

/// The first octet of a telegram, and the mark at its end (IEC 62056-21, 6.3.2).
const START: u8 = b'/';

const MARK: u8 = b'!';

const CR: u8 = 0x0d;

const LF: u8 = 0x0a;

/// The number of octets between the mark and the end of the line: the check and a carriage return.
const TAIL: usize = 5;

/// The tag of general-glo-ciphering, the length of the title after it, and the first octet of a length of two (IEC 62056-5-3).
const CIPHERED: u8 = 0xdb;

const TITLE: u8 = 0x08;

const TWO: u8 = 0x82;

/// The outcome of the last call of a reader.
#[derive(Clone, Copy)]
pub enum Found {
    Nothing,
    /// A telegram whose check is right, or that has none.
    Telegram,
    /// The octets of a ciphered telegram, which nothing has opened.
    Sealed,
    /// A telegram with a wrong check.
    WrongCheck,
    /// A telegram that is longer than `MOST_TELEGRAM`. Its octets are dropped.
    Long,
}

/// A telegram.
#[derive(Clone, Copy)]
pub struct Telegram<'a> {
    /// Its octets before the exclamation mark.
    pub text: &'a [u8],
    /// Whether it has a check, which is right.
    pub is_checked: bool,
}

impl<'a> Telegram<'a> {
    /// The identification of the meter: the first line after the slash.
    pub fn identification(&self) -> &'a [u8] {
        match line_in(self.text) {
            ([_, identification @ ..], _) => identification,
            _ => &[],
        }
    }
}

/// Whether an octet is the hexadecimal digit of a number.
fn is_digit_of(number: u16, octet: u8) -> bool
    requires { number < 16 }
    ensures { result ≡ is_digit_of number octet }
{
    if number < 10 {
        u16::from(octet) == 0x30 + number
    } else {
        u16::from(octet) == 0x37 + number || u16::from(octet) == 0x57 + number
    }
}

/// Whether four digits are those of a number.
fn is_spelled(number: u16, a: u8, b: u8, c: u8, d: u8) -> bool
    ensures { result ≡ is_spelled number a b c d }
{
    is_digit_of(number / 4096, a)
        && is_digit_of(number / 256 % 16, b)
        && is_digit_of(number / 16 % 16, c)
        && is_digit_of(number % 16, d)
}

/// Whether what follows the mark of a telegram is its check; `None` if it is neither that nor nothing.
fn end_of(number: u16, tail: &[u8]) -> Option<bool>
    ensures { result ≡ end_of number tail.now }
{
    match tail {
        [] => Some(false),
        [a, b] => {
            if *a == CR && *b == LF {
                Some(false)
            } else {
                None
            }
        }
        [a, b, c, d, ..] => {
            if is_spelled(number, *a, *b, *c, *d) {
                Some(true)
            } else {
                None
            }
        }
        [a] => {
            if *a == CR || *a == LF {
                Some(false)
            } else {
                None
            }
        }
        _ => None,
    }
}

/// The outcome of a telegram with such a tail.
fn verdict(end: Option<bool>) -> Found
    ensures { result ≡ verdict end }
{
    match end {
        Some(_) => Found::Telegram,
        None => Found::WrongCheck,
    }
}

/// Whether a telegram may begin with this octet.
fn begins(octet: u8) -> bool
    ensures { result ≡ begins octet }
{
    octet == START || octet == CIPHERED
}

/// Whether a telegram may contain this octet.
fn is_text(octet: u8) -> bool
    ensures { result ≡ is_text octet }
{
    octet == CR || octet == LF || octet == 0x09 || (0x20 <= octet && octet < 0x7f)
}

/// Whether something is complete.
fn is_found(found: Found) -> bool
    ensures { result ≡ is_found found }
{
    match found {
        Found::Nothing => false,
        Found::Telegram | Found::Sealed | Found::WrongCheck | Found::Long => true,
    }
}

/// The telegram that is all of these octets, from its first to its check, or to its mark if it has no check.
pub fn read_telegram(octets: &[u8]) -> Option<Telegram<'_>>
    ensures some { IfSome result (λ t. IsTelegram octets.now t.text.now t.is_checked) }
    ensures none { IfNone result (IsNone octets.now) }
{
    let (text, tail) = split_at(octets, MARK)?;
    if text.is_empty() || text[0] != START {
        return None;
    }
    let marked = &octets[..text.len() + 1];
    let is_checked = end_of(check(marked), tail)?;
    Some(Telegram { text, is_checked })
}

/// Finds the telegrams of a line: in clear, from the slash to the check, or ciphered, as bare general-glo-ciphering APDUs. It allocates
/// nothing. After each `feed` look at `found` and `octets`.
#[derive(Drop)]
pub struct TelegramReader {
    octets: ArrayVec<u8, MOST_TELEGRAM>,
    /// The number of octets up to the mark, and of a ciphered telegram the number of all; 0 before it is known.
    marked: usize,
    found: Found,
}

impl Model for TelegramReader {
    ghost use Rattle.dlms_telegram.specs.Telegram.{Kept};

    ghost Value = { Kept };

    ghost view = { λ r. record { octets = r.octets.items; marked = r.marked; found = r.found } };
}

impl TelegramReader {
    ghost use Rattle.std.specs.Prelude.{◌≡◌, ◌<◌, ◌≤◌, drop, length, take};
    ghost use Rattle.dlms_telegram.specs.Check.{check_of};
    ghost use Rattle.dlms_telegram.specs.declared.reader.Found.TheVariants.{Nothing};
    ghost use Rattle.dlms_telegram.specs.Telegram.{Takes, after, end_of, verdict, count_fed, dropped, fed};
    ghost use Rattle.dlms_telegram.specs.Telegram.{first_octet, nothing, sealed_octet, tail_octet, text_octet, whole_of, with_octet};

    /// At the beginning of a line.
    pub fn new() -> Self
        ensures { result ≡ nothing Nothing }
    {
        TelegramReader {
            octets: ArrayVec::new(),
            marked: 0,
            found: Found::Nothing,
        }
    }

    /// No octets are kept.
    fn clear(&mut self, found: Found)
        ensures { self.new ≡ nothing found }
    {
        self.octets.clear();
        self.marked = 0;
        self.found = found;
    }

    /// Takes an octet outside of telegrams.
    fn begin(&mut self, octet: u8)
        ensures { self.new ≡ first_octet octet }
    {
        self.clear(Found::Nothing);
        if begins(octet) {
            self.octets.push(octet);
        }
    }

    /// Keeps an octet.
    fn push(&mut self, octet: u8, marked: usize, found: Found)
        ensures { self.new ≡ with_octet self.old octet marked found }
    {
        if self.octets.try_push(octet).is_err() {
            self.clear(Found::Long);
            return;
        }
        self.marked = marked;
        self.found = found;
    }

    /// Takes an octet before the mark.
    fn take_text(&mut self, octet: u8)
        ensures { self.new ≡ text_octet self.old octet }
    {
        let count = self.octets.len();
        if octet == MARK {
            self.push(octet, count + 1, Found::Nothing);
        } else if is_text(octet) {
            self.push(octet, 0, Found::Nothing);
        } else {
            self.clear(Found::Nothing);
        }
    }

    /// The outcome of the telegram that the next octet ends.
    fn verdict(&self) -> Found
        ensures { result ≡ verdict (end_of (check_of (take self.now.marked self.now.octets))
            (drop self.now.marked self.now.octets)) }
    {
        let octets = self.octets.as_slice();
        if self.marked <= octets.len() {
            verdict(end_of(check(&octets[..self.marked]), &octets[self.marked..]))
        } else {
            verdict(end_of(check(octets), &[]))
        }
    }

    /// Takes an octet after the mark.
    fn take_tail(&mut self, octet: u8)
        ensures { self.new ≡ tail_octet self.old octet }
    {
        if octet == LF {
            let found = self.verdict();
            self.push(octet, self.marked, found);
        } else if self.octets.len().saturating_sub(self.marked) < TAIL {
            self.push(octet, self.marked, Found::Nothing);
        } else {
            self.clear(Found::Nothing);
        }
    }

    /// The number of octets of a ciphered telegram, if it is known with this octet.
    fn whole_with(&self, octet: u8) -> usize
        ensures { result ≡ whole_of self.now octet }
    {
        match self.octets.as_slice() {
            [_, _, _, _, _, _, _, _, _, _, _, high] => {
                13 + 256 * usize::from(*high) + usize::from(octet)
            }
            _ => self.marked,
        }
    }

    /// Takes an octet of a ciphered telegram.
    fn take_sealed(&mut self, octet: u8)
        ensures { self.new ≡ sealed_octet self.old octet }
    {
        let count = self.octets.len();
        if (count == 1 && octet != TITLE) || (count == 10 && octet != TWO) {
            self.begin(octet);
            return;
        }
        let whole = self.whole_with(octet);
        if whole > MOST_TELEGRAM {
            self.clear(Found::Long);
            return;
        }
        let found = if count + 1 == whole {
            Found::Sealed
        } else {
            Found::Nothing
        };
        self.push(octet, whole, found);
    }

    /// Takes an octet.
    fn take(&mut self, octet: u8)
        ensures { self.new ≡ after self.old octet }
    {
        match self.octets.as_slice() {
            [] => self.begin(octet),
            [CIPHERED, ..] => self.take_sealed(octet),
            _ => {
                if begins(octet) {
                    self.begin(octet);
                } else if self.marked == 0 {
                    self.take_text(octet);
                } else {
                    self.take_tail(octet);
                }
            }
        }
    }

    /// Drops what the last call completed.
    fn forget(&mut self)
        ensures { self.new ≡ dropped self.old }
    {
        if is_found(self.found) {
            self.clear(Found::Nothing);
        }
    }

    /// Takes octets up to the first that completes something.
    fn take_all(&mut self, octets: &[u8]) -> usize
        ensures kept { self.new ≡ fed self.old octets.now }
        ensures count { result ≡ count_fed self.old octets.now }
        ensures len { result ≤ length octets.now }
        ensures some { 0 < length octets.now → 0 < result }
    {
        for (i, octet) in octets.iter().enumerate() {
            self.take(*octet);
            if is_found(self.found) {
                return i + 1;
            }
        }
        octets.len()
    }

    /// Takes octets, at most to the end of the next telegram, and returns how many it took; pass the others to the next call. It drops
    /// what the call before completed.
    pub fn feed(&mut self, octets: &[u8]) -> usize
        ensures len { result ≤ length octets.now }
        ensures some { 0 < length octets.now → 0 < result }
        ensures takes { Takes self.old (take result octets.now) self.new }
    {
        self.forget();
        self.take_all(octets)
    }

    /// The outcome of the last call.
    pub fn found(&self) -> Found
        ensures { result ≡ self.now.found }
    {
        self.found
    }

    /// The octets of the telegram that the last call completed, or of one that has begun.
    pub fn octets(&self) -> &[u8]
        ensures { result.now ≡ self.now.octets }
    {
        self.octets.as_slice()
    }
}
