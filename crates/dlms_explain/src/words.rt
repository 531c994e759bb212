//! The words that a text is put together of.

ghost use Rattle.std.specs.Prelude.{◌≡◌, ◌<◌, ◌++◌, ◌∷◌, [], true, false, IsErr, OnOk, string_bytes};

use itoa::Buffer;
use std::alloc::{AllocError, Allocator};
use std::mem;

/// The digits of hexadecimal numbers.
const DIGITS: [&str; 16] = [
    "0", "1", "2", "3", "4", "5", "6", "7", "8", "9", "a", "b", "c", "d", "e", "f",
];

/// The outcome of opening a ciphered APDU.
#[derive(Clone, Copy)]
pub struct Verdict {
    /// It is the initiate request or response in an APDU, and not the APDU itself.
    pub is_part: bool,
    /// Whether a tag authenticates it; nothing if it was not opened.
    pub is_authenticated: Option<bool>,
    pub words: &'static str,
}

/// A text that is put together. Once a growth was refused it accepts no more words, and says so at its end.
#[derive(Drop)]
pub struct Text<A: Allocator> {
    words: String<A>,
    is_refused: bool,
    /// Lines are not indented by the APDU that they are inside.
    is_flat: bool,
    /// Whether the lines of a value's parts are written: in one line they are left out.
    pub has_parts: bool,
    /// Each value is also written as objects of JSON, a line each.
    pub is_json: bool,
    /// The lines that are written are those objects.
    pub is_typed: bool,
    /// How many levels all lines are deeper.
    depth: u8,
    /// Where the line of a verdict begins, and the verdict.
    verdict: Option<(usize, Verdict)>,
    /// Where the line of an APDU begins that is joined of blocks, and how many octets the APDU has.
    joined: Option<(usize, usize)>,
}

/// The words before the line that begins here, and those after it.
fn around(words: &str, at: usize) -> Option<(&str, &str)> {
    let (before, rest) = (words.get(..at)?, words.get(at..)?);
    match rest.split_once("\n") {
        Some((_, after)) => Some((before, after)),
        None => Some((before, "")),
    }
}

impl<A: Allocator> Text<A> {
    /// New text is appended to these words.
    pub fn new(words: String<A>) -> Text<A>
        ensures { result.is_refused ≡ false }
    {
        Text::flat_if(false, words)
    }

    /// The same; if this is true, lines are not indented by the APDU that they are inside.
    pub fn flat_if(is_flat: bool, words: String<A>) -> Text<A>
        ensures { result.is_refused ≡ false }
    {
        Text {
            words,
            is_refused: false,
            is_flat,
            has_parts: true,
            is_json: false,
            is_typed: false,
            depth: 0,
            verdict: None,
            joined: None,
        }
    }

    /// The line of this verdict begins here.
    pub fn mark(&mut self, verdict: Verdict)
        ensures { self.new.is_refused ≡ self.old.is_refused }
    {
        self.verdict = Some((self.words.len(), verdict));
    }

    /// The line of an APDU of this length that is joined of blocks begins here.
    pub fn mark_joined(&mut self, len: usize)
        ensures { self.new.is_refused ≡ self.old.is_refused }
    {
        self.joined = Some((self.words.len(), len));
    }

    /// The lines that follow are of an APDU inside another one.
    pub fn go_in(&mut self)
        ensures { self.new.is_refused ≡ self.old.is_refused }
    {
        if !self.is_flat {
            self.depth = self.depth.saturating_add(2);
        }
    }

    /// The lines that follow are not.
    pub fn go_out(&mut self)
        ensures { self.new.is_refused ≡ self.old.is_refused }
    {
        self.depth = self.depth.saturating_sub(2);
    }

    /// The words before a verdict, the verdict, and the lines after its own; all words without one.
    pub fn parts(&self) -> (&str, Option<(Verdict, &str)>) {
        let all = self.words.as_str();
        let Some((at, verdict)) = self.verdict else {
            return (all, None);
        };
        match around(all, at) {
            Some((before, inside)) => (before, Some((verdict, inside))),
            None => (all, None),
        }
    }

    /// Of words before a verdict: those before an APDU that is joined of blocks, its length, and its lines.
    pub fn joined_in<'a>(&self, outside: &'a str) -> Option<(&'a str, usize, &'a str)> {
        let (at, len) = self.joined?;
        let (before, lines) = around(outside, at)?;
        Some((before, len, lines))
    }

    /// Appends words of any length.
    fn append(&mut self, words: &str)
        ensures refused { self.old.is_refused ≡ true → self.new.is_refused ≡ true }
        ensures words { self.new.is_refused ≡ false
            → string_bytes self.new.words ≡ string_bytes self.old.words ++ words.now }
    {
        if !self.is_refused {
            self.is_refused = self.words.push_str(words).is_err();
        }
    }

    /// Appends words. One or two letters are appended by themselves, which costs less than a copy.
    pub fn push(&mut self, words: &str)
        ensures refused { self.old.is_refused ≡ true → self.new.is_refused ≡ true }
        ensures words { self.new.is_refused ≡ false
            → string_bytes self.new.words ≡ string_bytes self.old.words ++ words.now }
    {
        match words.as_bytes() {
            [first] if first.is_ascii() => self.letter(char::from(*first)),
            [first, last] if first.is_ascii() && last.is_ascii() => {
                self.letter(char::from(*first));
                self.letter(char::from(*last));
            }
            _ => self.append(words),
        }
    }

    /// Appends a letter.
    pub fn letter(&mut self, letter: char)
        ensures refused { self.old.is_refused ≡ true → self.new.is_refused ≡ true }
        ensures ascii { letter < 128 → self.new.is_refused ≡ false
            → string_bytes self.new.words ≡ string_bytes self.old.words ++ letter ∷ [] }
    {
        if !self.is_refused {
            self.is_refused = self.words.push(letter).is_err();
        }
    }

    /// Appends words if this is true.
    pub fn push_if(&mut self, is_so: bool, words: &str) {
        if is_so {
            self.push(words);
        }
    }

    /// Appends the first words if this is true, otherwise the others.
    pub fn either(&mut self, is_so: bool, words: &str, others: &str) {
        if is_so {
            self.push(words);
        } else {
            self.push(others);
        }
    }

    /// The number of its octets.
    pub fn len(&self) -> usize {
        self.words.len()
    }

    /// Its words.
    pub fn as_str(&self) -> &str {
        self.words.as_str()
    }

    /// Its words are let go, and another text begins.
    pub fn clear(&mut self)
        ensures { self.new.is_refused ≡ false }
    {
        self.words.clear();
        self.is_refused = false;
        self.depth = 0;
        self.verdict = None;
        self.joined = None;
    }

    /// A growth of something else was refused.
    pub fn refuse(&mut self)
        ensures { self.new.is_refused ≡ true }
    {
        self.is_refused = true;
    }

    /// Whether each growth was granted.
    pub fn check_memory(&self) -> Result<(), AllocError>
        ensures granted { OnOk result (self.now.is_refused ≡ false) }
        ensures refused { IsErr result → self.now.is_refused ≡ true }
    {
        if self.is_refused {
            Err(AllocError)
        } else {
            Ok(())
        }
    }
}

impl<A: Allocator + Copy> Text<A> {
    /// New text is appended to these words, which are taken out up to its end.
    pub fn behind(words: &mut String<A>) -> Text<A>
        ensures { result.is_refused ≡ false }
    {
        let none = String::new(*words.allocator());
        Text::new(mem::replace(words, none))
    }

    /// The words are put back; whether each growth was granted.
    pub fn end(self, words: &mut String<A>) -> Result<(), AllocError>
        ensures granted { OnOk result (self.is_refused ≡ false) }
        ensures refused { IsErr result → self.is_refused ≡ true }
    {
        let granted = self.check_memory();
        *words = self.words;
        granted
    }
}

/// Begins a line, two blanks deeper for each level.
pub fn begin<A: Allocator>(text: &mut Text<A>, depth: u8) {
    for _ in 0..depth.saturating_add(text.depth) {
        text.push("  ");
    }
}

/// Ends a line.
pub fn end<A: Allocator>(text: &mut Text<A>) {
    text.push("\n");
}

/// Ends the line of a value, and its object.
pub fn end_value<A: Allocator>(text: &mut Text<A>) {
    let is_typed = text.is_typed;
    text.push_if(is_typed, "}");
    end(text);
}

/// A line of these words.
pub fn line<A: Allocator>(text: &mut Text<A>, depth: u8, words: &str) {
    begin(text, depth);
    text.push(words);
    end(text);
}

/// A number in decimal digits.
pub fn number<A: Allocator>(text: &mut Text<A>, value: u64) {
    let mut digits = Buffer::new();
    text.push(digits.format(value));
}

/// A line of a label, a number, and the text after it.
pub fn number_line<A: Allocator>(
    text: &mut Text<A>,
    depth: u8,
    label: &str,
    value: u64,
    behind: &str,
) {
    begin(text, depth);
    text.push(label);
    number(text, value);
    text.push(behind);
    end(text);
}

/// A number with its sign, if it is below 0.
pub fn signed_number<A: Allocator>(text: &mut Text<A>, value: i64) {
    let mut digits = Buffer::new();
    text.push(digits.format(value));
}

/// A number of two decimal digits, or more if it has them.
pub fn two_digits<A: Allocator>(text: &mut Text<A>, value: u8) {
    if value < 10 {
        text.push("0");
    }
    number(text, u64::from(value));
}

/// A hexadecimal digit; of a greater number its last one.
pub fn hexadecimal<A: Allocator>(text: &mut Text<A>, value: u8) {
    text.push(DIGITS[usize::from(value % 16)]);
}

/// An octet in two hexadecimal digits.
pub fn octet<A: Allocator>(text: &mut Text<A>, value: u8) {
    hexadecimal(text, value / 16);
    hexadecimal(text, value);
}

/// Octets in hexadecimal digits.
pub fn octets<A: Allocator>(text: &mut Text<A>, values: &[u8]) {
    for value in values {
        octet(text, *value);
    }
}

/// A line of a label and octets.
pub fn octets_line<A: Allocator>(text: &mut Text<A>, depth: u8, label: &str, values: &[u8]) {
    begin(text, depth);
    text.push(label);
    octets(text, values);
    end(text);
}

/// A name and its number, as `object-undefined (4)`; a number without a name gets a word for its kind.
pub fn name_and_number<A: Allocator>(
    text: &mut Text<A>,
    name: Option<&str>,
    kind: &str,
    value: u64,
) {
    match name {
        Some(name) => {
            text.push(name);
            text.push(" (");
            number(text, value);
            text.push(")");
        }
        None => {
            text.push(kind);
            text.push(" ");
            number(text, value);
        }
    }
}

/// A line of a label, and of a name and its number.
pub fn named_line<A: Allocator>(
    text: &mut Text<A>,
    depth: u8,
    label: &str,
    name: Option<&str>,
    kind: &str,
    value: u64,
) {
    begin(text, depth);
    text.push(label);
    name_and_number(text, name, kind, value);
    end(text);
}
