//! The explanation of an APDU by itself.
ghost use Rattle.std.specs.Prelude.{◌≡◌, ◌≢◌, ◌⊎◌, ◌<◌, ◌≤◌, ℕ, List, None, Some};
ghost use Rattle.std.specs.Str.{IsUtf8};
ghost use Rattle.dlms_dissect.specs.declared.parties.Side.TheVariants.{Client, Meter};
ghost use Rattle.dlms_web.specs.Text.{Puts};
ghost use Rattle.dlms_web.specs.declared.codes.TheConstants.{ARGUMENT, DONE, MEMORY, SHORT};

use crate::codes::{ARGUMENT, MEMORY};
use crate::putting::put;
use dlms_explain::{Side, write_apdu};
use dlms_room::{Room, RoomHeap};
use std::alloc::AllocError;

/// Either end may have sent it.
const EITHER: u32 = 0;

/// The client sent it.
const FROM_CLIENT: u32 = 1;

/// The meter sent it.
const FROM_METER: u32 = 2;

/// Which end sent an APDU, or that it may be either; none for a number of no end.
fn side_of(number: u32) -> Option<Option<Side>>
    ensures either { number ≡ 0 → result ≡ Some None }
    ensures client { number ≡ 1 → result ≡ Some (Some Client) }
    ensures meter { number ≡ 2 → result ≡ Some (Some Meter) }
    ensures none { 2 < number → result ≡ None }
{
    match number {
        EITHER => Some(None),
        FROM_CLIENT => Some(Some(Side::Client)),
        FROM_METER => Some(Some(Side::Meter)),
        _ => None,
    }
}

/// The text of an APDU.
fn explained_apdu<'h>(
    heap: &'h RoomHeap,
    side: Option<Side>,
    apdu: &[u8],
) -> Result<String<&'h RoomHeap>, AllocError> {
    let mut text = String::new(heap);
    write_apdu(&mut text, heap, side, apdu)?;
    Ok(text)
}

/// Writes the text of an APDU to the page's buffer.
fn put_apdu(
    heap: &RoomHeap,
    side: Option<Side>,
    apdu: &[u8],
    text: &mut [u8],
    size: &mut usize,
) -> u32
    ensures code { (result ≡ DONE) ⊎ (result ≡ SHORT) ⊎ (result ≡ MEMORY) }
    ensures memory { result ≡ MEMORY → (size.new ≡ 0) × (text.new ≡ text.old) }
    ensures told { result ≢ MEMORY
        → (told : List ℕ) × ∥ IsUtf8 told ∥₁ × Puts told text.old result size.new text.new }
{
    let Ok(told) = explained_apdu(heap, side, apdu) else {
        *size = 0;
        return MEMORY;
    };
    put(told.as_bytes(), text, size)
}

/// Explains an APDU by itself: nothing is known of earlier ones. `side` is the sender: 1 the client, 2 the meter, 0 either. `size`
/// gets the number of octets of the text; if the buffer is too short, nothing is written.
#[unsafe(no_mangle)]
pub extern "C" fn web_explain_apdu(
    room: Room,
    side: u32,
    apdu: &[u8],
    text: &mut [u8],
    size: &mut usize,
) -> u32
    ensures code { (result ≡ DONE) ⊎ (result ≡ SHORT) ⊎ (result ≡ MEMORY) ⊎ (result ≡ ARGUMENT) }
    ensures argument { 2 < side → (result ≡ ARGUMENT) × (size.new ≡ 0) × (text.new ≡ text.old) }
    ensures memory { result ≡ MEMORY → (size.new ≡ 0) × (text.new ≡ text.old) }
    ensures told { side ≤ 2 → result ≢ MEMORY
        → (told : List ℕ) × ∥ IsUtf8 told ∥₁ × Puts told text.old result size.new text.new }
{
    let Some(side) = side_of(side) else {
        *size = 0;
        return ARGUMENT;
    };
    match RoomHeap::over(room) {
        Ok(heap) => put_apdu(&heap, side, apdu, text, size),
        Err(_) => {
            *size = 0;
            MEMORY
        }
    }
}
