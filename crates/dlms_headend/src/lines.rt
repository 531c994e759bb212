//! Lines of a readings file, read.

ghost use Rattle.std.specs.Prelude.{◌≡◌, ◌+◌, ◌<◌, ◌^◌, ◌∷◌, ◌++◌, ℕ, List, length, IfSome, IfNone, IfOk, IfErr, OnOk, OnErr, [], string_bytes};
ghost use Rattle.std.specs.Fmt.{decimal};
ghost use Rattle.dlms_headend.specs.Lines.{is_plain, Lacks, field, line, text_of, IsFile, BeginsWith, Refuses, StopsIn};

use crate::readings_fault::ReadingsFault;
use crate::row::{Row, keep};
use dlms_data::LAST_SECOND;
use std::alloc::{AllocError, Allocator};
use std::str;

/// Whether there is no sign at the front, and no leading zero.
fn is_plain(digits: &[u8]) -> bool
    ensures { result ≡ is_plain digits.now }
{
    match digits {
        [] => false,
        [first] => *first != b'+',
        [first, ..] => *first != b'+' && *first != b'0',
    }
}

/// The number whose plain decimal digits these are: no sign, no leading zeros.
fn number(digits: &[u8]) -> Option<u32>
    ensures some { IfSome result (λ n. digits.now ≡ decimal n) }
    ensures fits { IfSome result (λ n. n < 2 ^ 32) }
    ensures none { IfNone result ((n : ℕ) → n < 2 ^ 32 → digits.now ≡ decimal n → ⊥) }
{
    if !is_plain(digits) {
        return None;
    }
    let Ok(text) = str::from_utf8(digits) else {
        return None;
    };
    text.parse::<u32>().ok()
}

/// Splits the bytes at the first separator.
fn split_at_separator(bytes: &[u8], separator: u8) -> Option<(&[u8], &[u8])>
    ensures found { IfSome result (λ parts. (bytes.now ≡ parts.0.now ++ separator ∷ parts.1.now)
        × Lacks separator parts.0.now) }
    ensures none { IfNone result (Lacks separator bytes.now) }
{
    for (at, byte) in bytes.iter().enumerate() {
        if *byte == separator {
            return Some((&bytes[..at], &bytes[at + 1..]));
        }
    }
    None
}

/// The number before the first separator, and the bytes after that.
fn number_before(bytes: &[u8], separator: u8) -> Option<(u32, &[u8])>
    requires { separator < 48 }
    ensures some { IfSome result (λ x. (bytes.now ≡ field x.0 separator x.1.now) × (x.0 < 2 ^ 32)) }
    ensures none { IfNone result ((n : ℕ) (rest : List ℕ) → n < 2 ^ 32
        → bytes.now ≡ field n separator rest → ⊥) }
{
    let (before, behind) = split_at_separator(bytes, separator)?;
    let value = number(before)?;
    Some((value, behind))
}

/// The row whose line is the first, and what follows the line.
fn row(bytes: &[u8]) -> Option<(Row, &[u8])>
    ensures some { IfSome result (λ x. BeginsWith bytes.now x.0 x.1.now) }
    ensures none { IfNone result ((row : Row) (rest : List ℕ) → BeginsWith bytes.now row rest → ⊥) }
    ensures shorter { IfSome result (λ x. length x.1.now < length bytes.now) }
{
    let (clock, rest) = number_before(bytes, b',')?;
    let (first, rest) = number_before(rest, b',')?;
    let (second, rest) = number_before(rest, b',')?;
    let (third, rest) = number_before(rest, b'\n')?;
    if clock > LAST_SECOND {
        return None;
    }
    let row = Row {
        clock,
        registers: [first, second, third],
    };
    Some((row, rest))
}

/// The number of lines of the text, each of which is the line of a row; if one is not, its fault.
fn count(text: &[u8]) -> Result<usize, ReadingsFault>
    ensures ok { IfOk result (λ count. (rows : List Row) × IsFile text.now rows
        × (count ≡ length rows)) }
    ensures err { IfErr result (λ fault. Refuses text.now fault) }
{
    let mut rest = text;
    let mut count = 0usize;
    while !rest.is_empty() {
        let Some((_, behind)) = row(rest) else {
            return Err(ReadingsFault::Line(count + 1));
        };
        rest = behind;
        count += 1;
    }
    Ok(count)
}

/// The rows of a text, which is read once. Memory runs out only if the text has octets, perhaps before a line of another form.
fn rows_at_once<A: Allocator>(alloc: A, text: &[u8]) -> Result<Vec<Row, A>, ReadingsFault>
    ensures ok { IfOk result (λ rows. IsFile text.now rows.items) }
    ensures err { IfErr result (StopsIn text.now) }
{
    let mut rows = Vec::new(alloc);
    let mut rest = text;
    while !rest.is_empty() {
        let Some((row, behind)) = row(rest) else {
            return Err(ReadingsFault::Line(rows.len() + 1));
        };
        keep(&mut rows, row)?;
        rest = behind;
    }
    Ok(rows)
}

/// The fault of a text for whose rows there was no memory: that of a line of another form, if it has one.
fn fault_without_memory(text: &[u8]) -> ReadingsFault
    requires { 0 < length text.now }
    ensures { Refuses text.now result }
{
    match count(text) {
        Ok(_) => ReadingsFault::Memory,
        Err(fault) => fault,
    }
}

/// The rows of a text. A line of another form is reported even if memory runs out before it.
pub fn rows<A: Allocator>(alloc: A, text: &[u8]) -> Result<Vec<Row, A>, ReadingsFault>
    ensures ok { IfOk result (λ rows. IsFile text.now rows.items) }
    ensures err { IfErr result (Refuses text.now) }
{
    match rows_at_once(alloc, text) {
        Ok(rows) => Ok(rows),
        Err(ReadingsFault::Line(number)) => Err(ReadingsFault::Line(number)),
        Err(ReadingsFault::Memory) => Err(fault_without_memory(text)),
    }
}

/// Appends a row's line to the text.
fn write<A: Allocator>(text: &mut String<A>, row: &Row) -> Result<(), AllocError>
    ensures { OnOk result (string_bytes text.new ≡ string_bytes text.old ++ line row.now []) }
{
    let clock = row.clock;
    let [first, second, third] = row.registers;
    write!(text, "{clock},{first},{second},{third}\n")
}

/// Appends the lines of the rows. Those of none take no memory.
#[tactic(auto, using(crate::proofs::Files::text_grows))]
pub fn append<A: Allocator>(text: &mut String<A>, rows: &[Row]) -> Result<(), AllocError>
    ensures text { OnOk result (string_bytes text.new ≡ string_bytes text.old ++ text_of rows.now) }
    ensures memory { OnErr result (0 < length rows.now) }
{
    for row in rows {
        write(text, row)?;
    }
    Ok(())
}

/// The text of the rows. That of none takes no memory.
pub fn text<A: Allocator>(alloc: A, rows: &[Row]) -> Result<String<A>, AllocError>
    ensures text { IfOk result (λ text. string_bytes text ≡ text_of rows.now) }
    ensures memory { OnErr result (0 < length rows.now) }
{
    let mut text = String::new(alloc);
    append(&mut text, rows)?;
    Ok(text)
}
