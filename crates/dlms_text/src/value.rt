//! Values that a text writes.

ghost use Rattle.std.specs.Prelude.{◌≡◌, ◌⊎◌, ◌≤◌, ◌↔◌, ℕ, List, Ok, IfErr, IfOk, IfNone, IfSome, IsTrue};
ghost use Rattle.dlms_text.specs.Values.{AreOctets, Fails, IsWorded, IsWritten, NeedsMemory, TextNeedsMemory, WordNeedsMemory, Writes, WritesPlain, WritesSigned};
ghost use Rattle.dlms_text.specs.declared.fault.ValueFault.TheVariants.{Form, Memory};
ghost use Rattle.hex.specs.Hex.{decode_of, is_hex_digit};
ghost use Rattle.std.specs.List.{list_all};
ghost use Rattle.dlms_data.specs.Spelling.{IsSpelling};
ghost use Rattle.dlms_data.specs.View.{value_of as data_of};
ghost use Rattle.dlms_data.specs.Value.{Value};
ghost use Rattle.dlms_data.specs.declared.date_time.TheConstants.{LAST_SECOND};

use crate::fault::ValueFault;
use crate::kind::{Kind, kind_of};
use crate::texts::{cut, number, signed};
use dlms_data::{Bytes, Data, is_value, read, time_of};
use std::alloc::{AllocError, Allocator};

/// The value of an unsigned number.
fn plain<A: Allocator>(kind: Kind, digits: &str) -> Option<Data<A>>
    ensures some { IfSome result (λ v. WritesPlain kind digits.now (data_of v)) }
    ensures none { IfNone result ((v : Value) → WritesPlain kind digits.now v → ⊥) }
{
    let number = number(digits)?;
    match kind {
        Kind::Unsigned => Some(Data::Unsigned(u8::try_from(number).ok()?)),
        Kind::LongUnsigned => Some(Data::LongUnsigned(u16::try_from(number).ok()?)),
        Kind::DoubleLongUnsigned => Some(Data::DoubleLongUnsigned(u32::try_from(number).ok()?)),
        Kind::Long64Unsigned => Some(Data::Long64Unsigned(number)),
        Kind::Enum => Some(Data::Enum(u8::try_from(number).ok()?)),
        _ => None,
    }
}

/// The value of a number that may be negative.
fn with_sign<A: Allocator>(kind: Kind, text: &str) -> Option<Data<A>>
    ensures some { IfSome result (λ v. WritesSigned kind text.now (data_of v)) }
    ensures none { IfNone result ((v : Value) → WritesSigned kind text.now v → ⊥) }
{
    let number = signed(text)?;
    match kind {
        Kind::Integer => Some(Data::Integer(i8::try_from(number).ok()?)),
        Kind::Long => Some(Data::Long(i16::try_from(number).ok()?)),
        Kind::DoubleLong => Some(Data::DoubleLong(i32::try_from(number).ok()?)),
        Kind::Long64 => Some(Data::Long64(number)),
        _ => None,
    }
}

/// A boolean.
fn boolean<A: Allocator>(text: &str) -> Result<Data<A>, ValueFault>
    ensures ok { IfOk result (λ v. Writes Kind.Bool text.now (data_of v)) }
    ensures err { IfErr result (Fails (Writes Kind.Bool text.now) ⊥) }
{
    match text {
        "true" => Ok(Data::Boolean(true)),
        "false" => Ok(Data::Boolean(false)),
        _ => Err(ValueFault::Form),
    }
}

/// Whether an octet is a hexadecimal digit, in either case.
fn is_digit(octet: u8) -> bool
    ensures { result ≡ is_hex_digit octet }
{
    matches!(octet, b'0'..=b'9' | b'A'..=b'F' | b'a'..=b'f')
}

/// Whether all octets are hexadecimal digits.
fn are_digits(text: &[u8]) -> bool
    ensures { result ≡ list_all is_hex_digit text.now }
{
    text.iter().all(|octet| is_digit(*octet))
}

/// Whether a text is hexadecimal digits, two for each octet.
#[tactic(auto, using(crate::proofs::ValueLemmas::digits_tell, crate::proofs::ValueLemmas::odd_tells))]
fn are_pairs(text: &[u8]) -> bool
    ensures { IsTrue result ↔ AreOctets text.now }
{
    if text.len() % 2 != 0 {
        return false;
    }
    are_digits(text)
}

/// The octets that pairs of hexadecimal digits write.
fn pairs<A: Allocator>(alloc: A, text: &str) -> Result<Vec<u8, A>, ValueFault>
    ensures ok { IfOk result (λ bytes. decode_of text.now ≡ Ok bytes.items) }
    ensures form { IfErr result (λ fault. fault ≡ Form → (bytes : List ℕ)
        → decode_of text.now ≡ Ok bytes → ⊥) }
    ensures memory { IfErr result (λ fault. fault ≡ Memory → AreOctets text.now) }
{
    if !are_pairs(text.as_bytes()) {
        return Err(ValueFault::Form);
    }
    match hex::decode(alloc, text) {
        Ok(bytes) => Ok(bytes),
        Err(_) => Err(ValueFault::Memory),
    }
}

/// The value that is all of these bytes. `Memory` means that there is one, and it needs memory.
fn whole<A: Allocator + Copy>(alloc: A, bytes: &[u8]) -> Result<Data<A>, ValueFault>
    ensures ok { IfOk result (λ v. IsSpelling bytes.now (data_of v)) }
    ensures err { IfErr result (Fails (IsSpelling bytes.now) ((v : Value)
        × IsSpelling bytes.now v)) }
{
    if !is_value(bytes) {
        return Err(ValueFault::Form);
    }
    match read(alloc, bytes) {
        Ok((value, _)) => Ok(value),
        Err(_) => Err(ValueFault::Memory),
    }
}

/// The value whose whole encoding is written in hexadecimal digits.
fn raw<A: Allocator + Copy>(alloc: A, text: &str) -> Result<Data<A>, ValueFault>
    ensures ok { IfOk result (λ v. Writes Kind.Raw text.now (data_of v)) }
    ensures err { IfErr result (Fails (Writes Kind.Raw text.now) (AreOctets text.now)) }
{
    let bytes = pairs(alloc, text)?;
    whole(alloc, bytes.as_slice())
}

/// The octet-string whose octets are written in hexadecimal digits.
fn octets<A: Allocator + Copy>(alloc: A, text: &str) -> Result<Data<A>, ValueFault>
    ensures ok { IfOk result (λ v. Writes Kind.Hex text.now (data_of v)) }
    ensures err { IfErr result (Fails (Writes Kind.Hex text.now) (AreOctets text.now)) }
{
    match pairs(alloc, text) {
        Ok(bytes) => Ok(Data::OctetString(Bytes::from_vec(bytes))),
        Err(fault) => Err(fault),
    }
}

/// The number after the word of a kind.
fn numeral<A: Allocator>(kind: Kind, text: &str) -> Result<Data<A>, ValueFault>
    ensures ok { IfOk result (λ v. WritesPlain kind text.now (data_of v)
        ⊎ WritesSigned kind text.now (data_of v)) }
    ensures err { IfErr result (Fails (λ v. WritesPlain kind text.now v
        ⊎ WritesSigned kind text.now v) ⊥) }
{
    match plain(kind, text) {
        Some(value) => Ok(value),
        None => match with_sign(kind, text) {
            Some(value) => Ok(value),
            None => Err(ValueFault::Form),
        },
    }
}

/// The value that a text writes in this kind, as after the kind's word and a colon. The fault is `Form` if the text writes none.
pub fn value_as<A: Allocator + Copy>(
    alloc: A,
    kind: Kind,
    text: &str,
) -> Result<Data<A>, ValueFault>
    ensures ok { IfOk result (λ v. Writes kind text.now (data_of v)) }
    ensures err { IfErr result (Fails (Writes kind text.now) (NeedsMemory kind text.now)) }
{
    match kind {
        Kind::Bool => boolean(text),
        Kind::Text => Ok(Data::OctetString(Bytes::from_slice(alloc, text.as_bytes())?)),
        Kind::Visible => Ok(Data::VisibleString(Bytes::from_slice(alloc, text.as_bytes())?)),
        Kind::Utf8 => Ok(Data::Utf8String(Bytes::from_slice(alloc, text.as_bytes())?)),
        Kind::Hex => octets(alloc, text),
        Kind::Raw => raw(alloc, text),
        Kind::Unsigned => numeral(Kind::Unsigned, text),
        Kind::LongUnsigned => numeral(Kind::LongUnsigned, text),
        Kind::DoubleLongUnsigned => numeral(Kind::DoubleLongUnsigned, text),
        Kind::Long64Unsigned => numeral(Kind::Long64Unsigned, text),
        Kind::Integer => numeral(Kind::Integer, text),
        Kind::Long => numeral(Kind::Long, text),
        Kind::DoubleLong => numeral(Kind::DoubleLong, text),
        Kind::Long64 => numeral(Kind::Long64, text),
        Kind::Enum => numeral(Kind::Enum, text),
    }
}

/// The value after a word and a colon.
fn worded<A: Allocator + Copy>(alloc: A, text: &str) -> Result<Data<A>, ValueFault>
    ensures ok { IfOk result (λ v. IsWorded text.now (data_of v)) }
    ensures err { IfErr result (Fails (IsWorded text.now) (WordNeedsMemory text.now)) }
{
    let Some((word, rest)) = cut(text, ':') else {
        return Err(ValueFault::Form);
    };
    match kind_of(word) {
        Some(kind) => value_as(alloc, kind, rest),
        None => Err(ValueFault::Form),
    }
}

/// The value that a text writes, as `u32:900` or `text:name`. `now` is the current second, counted from 2000-01-01 00:00:00. The fault
/// is `Form` if the text writes no value. `Memory` comes only if the text needs memory: for `now`, for text and for octets.
pub fn value_of<A: Allocator + Copy>(alloc: A, text: &str, now: u32) -> Result<Data<A>, ValueFault>
    requires { now ≤ LAST_SECOND }
    ensures ok { IfOk result (λ v. IsWritten now text.now (data_of v)) }
    ensures err { IfErr result (Fails (IsWritten now text.now) (TextNeedsMemory text.now)) }
{
    if text == "null" {
        return Ok(Data::Null);
    }
    if text == "now" {
        return Ok(time_of(alloc, now)?);
    }
    worded(alloc, text)
}
