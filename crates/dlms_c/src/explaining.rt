//! What octets say, as text: frames, or one APDU.
ghost use Rattle.std.specs.Prelude.{◌≡◌, ◌≢◌, ◌⊎◌, ◌<◌, ◌≤◌, ℕ, List, None, Some};
ghost use Rattle.std.specs.Str.{IsUtf8};
ghost use Rattle.dlms_dissect.specs.declared.parties.Side.TheVariants.{Client, Meter};
ghost use Rattle.dlms_c.specs.Text.{Puts};
ghost use Rattle.dlms_c.specs.declared.codes.TheConstants.{ARGUMENT, DONE, MEMORY, SHORT};

use crate::codes::{ARGUMENT, DONE, MEMORY, SHORT};
use dlms_explain::{Explainer, Form, Side, write_apdu};
use std::alloc::{AllocError, Global};

/// Either end may have sent it.
const EITHER: u8 = 0;

/// The client sent it.
const FROM_CLIENT: u8 = 1;

/// The meter sent it.
const FROM_METER: u8 = 2;

/// Which end sent an APDU, or that it may be either; none for a number of no end.
fn side_of(number: u8) -> Option<Option<Side>>
    ensures either { number ≡ 0 → result ≡ Some None }
    ensures client { number ≡ 1 → result ≡ Some (Some Client) }
    ensures meter { number ≡ 2 → result ≡ Some (Some Meter) }
    ensures none { 2 < number → result ≡ None }
{
    match number {
        EITHER => Some(None),
        FROM_CLIENT => Some(Some(Side::Client)),
        FROM_METER => Some(Some(Side::Meter)),
        _ => None,
    }
}

/// The text of the frames in these octets, and of the octets between them.
fn explain_octets(alloc: Global, octets: &[u8]) -> Result<String, AllocError> {
    let mut text = String::new(alloc);
    let mut explainer = Explainer::new(alloc, Form::full());
    explainer.octets(None, octets, &mut text)?;
    explainer.end(&mut text)?;
    Ok(text)
}

/// The text of an APDU.
fn explained_apdu(alloc: Global, side: Option<Side>, apdu: &[u8]) -> Result<String, AllocError> {
    let mut text = String::new(alloc);
    write_apdu(&mut text, alloc, side, apdu)?;
    Ok(text)
}

/// Writes octets to the caller's buffer: all of them, or none if it is too short.
fn put(told: &[u8], text: &mut [u8], size: &mut usize) -> u32
    ensures puts { Puts told.now text.old result size.new text.new }
    ensures code { (result ≡ DONE) ⊎ (result ≡ SHORT) }
{
    let len = told.len();
    *size = len;
    if text.len() < len {
        return SHORT;
    }
    text[..len].copy_from_slice(told);
    DONE
}

/// Explains the frames in these octets, in the words of `dlms explain`, line by line: each frame's ends, control and checks, and
/// the APDU in it; of secrets, and of strings that may be one, only the length. A frame's sender is recognised by its addresses.
/// `size` gets the number of octets of the text; if the buffer is too short, nothing is written.
#[unsafe(no_mangle)]
pub extern "C" fn dlms_explain(
    alloc: Global,
    octets: &[u8],
    text: &mut [u8],
    size: &mut usize,
) -> u32
    ensures code { (result ≡ DONE) ⊎ (result ≡ SHORT) ⊎ (result ≡ MEMORY) }
    ensures memory { result ≡ MEMORY → (size.new ≡ 0) × (text.new ≡ text.old) }
    ensures told { result ≢ MEMORY
        → (told : List ℕ) × ∥ IsUtf8 told ∥₁ × Puts told text.old result size.new text.new }
{
    let Ok(told) = explain_octets(alloc, octets) else {
        *size = 0;
        return MEMORY;
    };
    put(told.as_bytes(), text, size)
}

/// Explains an APDU by itself, with no LLC before it, like that of a frame in `dlms_explain`: nothing is known of earlier ones.
/// `side` is the sender: 1 the client, 2 the meter, 0 either. `size` gets the number of octets of the text; if the buffer is too
/// short, nothing is written.
#[unsafe(no_mangle)]
pub extern "C" fn dlms_explain_apdu(
    alloc: Global,
    apdu: &[u8],
    side: u8,
    text: &mut [u8],
    size: &mut usize,
) -> u32
    ensures code { (result ≡ DONE) ⊎ (result ≡ SHORT) ⊎ (result ≡ MEMORY) ⊎ (result ≡ ARGUMENT) }
    ensures argument { 2 < side → (result ≡ ARGUMENT) × (size.new ≡ 0) × (text.new ≡ text.old) }
    ensures memory { result ≡ MEMORY → (size.new ≡ 0) × (text.new ≡ text.old) }
    ensures told { side ≤ 2 → result ≢ MEMORY
        → (told : List ℕ) × ∥ IsUtf8 told ∥₁ × Puts told text.old result size.new text.new }
{
    let Some(side) = side_of(side) else {
        *size = 0;
        return ARGUMENT;
    };
    let Ok(told) = explained_apdu(alloc, side, apdu) else {
        *size = 0;
        return MEMORY;
    };
    put(told.as_bytes(), text, size)
}
