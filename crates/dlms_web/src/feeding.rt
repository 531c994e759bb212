//! An explanation of a log or a capture that comes in pieces.
ghost use Rattle.std.specs.Prelude.{◌≡◌, ◌≢◌, ◌⊎◌, ◌↔◌, ℕ, List, true, false};
ghost use Rattle.std.specs.Str.{IsUtf8};
ghost use Rattle.dlms_web.specs.Stations.{AreStations};
ghost use Rattle.dlms_web.specs.Text.{Puts};
ghost use Rattle.dlms_web.specs.declared.codes.TheConstants.{ARGUMENT, DONE, EMPTY, MEMORY, SHORT};

use crate::codes::{ARGUMENT, DONE, EMPTY, MEMORY};
use crate::feed_handle::{FeedHandle, kept, none, settled, take_kept};
use crate::kept_feed::KeptFeed;
use crate::keys::{PageKeys, are_stations};
use crate::loose::Loose;
use dlms_explain::{Form, Layout};
use dlms_room::{Bump, Room, RoomHeap, Spent};
use std::alloc::AllocError;
use std::mem::replace;

/// The flag of one line a frame.
const ONE_LINE: u32 = 1;

/// The flag of octets beside a frame.
const OCTETS: u32 = 2;

/// The flag of JSON.
const JSON: u32 = 4;

/// The flag of strings that may be a secret.
const STRINGS: u32 = 8;

/// The size of the room in which the heap's own record is placed.
const PLACE: usize = 4096;

/// The form that these flags say.
fn form_of(flags: u32) -> Form {
    let layout = if flags & JSON != 0 {
        Layout::Json
    } else if flags & ONE_LINE != 0 {
        Layout::Short
    } else {
        Layout::Full
    };
    Form {
        layout,
        raw: flags & STRINGS != 0,
        hex: flags & OCTETS != 0,
    }
}

/// A heap over a room, which is never given back.
fn heap_over(room: Room) -> Result<&'static RoomHeap, AllocError> {
    let (size, room) = room.with_size();
    if size < PLACE {
        return Err(AllocError);
    }
    let (place, room) = room.split(PLACE);
    let heap = RoomHeap::over(room)?;
    let held = Box::new(Bump::over(place), heap)?;
    Ok(Box::leak(held))
}

/// An explanation that begins.
fn begun(room: Room, form: Form, keys: &[u8], front: &[u8]) -> Result<FeedHandle, AllocError> {
    let heap = heap_over(room)?;
    let keys = PageKeys::over(heap, keys)?;
    let held = Box::new(heap, KeptFeed::new(heap, form, keys, front))?;
    Ok(kept(settled(Loose::of(held))))
}

/// Begins the explanation of an input that begins with these octets, of which four are looked at. The flags: 1 one line a frame,
/// 2 a frame's octets beside it, 4 JSON, 8 strings that may be a secret too. The keys open ciphered APDUs: at most 256 stations of 41
/// octets, each a system title of 8, an encryption key of 16, an octet that is 0 if there is no authentication key, and that key of 16;
/// keys of another length are refused. The room is its memory for good, and an explanation that the handle had is forgotten.
#[unsafe(no_mangle)]
pub extern "C" fn web_open(
    room: Room,
    flags: u32,
    keys: &[u8],
    front: &[u8],
    feed: &mut FeedHandle,
) -> u32
    ensures code { (result ≡ DONE) ⊎ (result ≡ MEMORY) ⊎ (result ≡ ARGUMENT) }
    ensures argument { (result ≡ ARGUMENT) ↔ (AreStations keys.now → ⊥) }
{
    if !are_stations(keys) {
        *feed = none();
        return ARGUMENT;
    }
    match begun(room, form_of(flags), keys, front) {
        Ok(handle) => {
            *feed = handle;
            DONE
        }
        Err(_) => {
            *feed = none();
            MEMORY
        }
    }
}

/// Takes octets of the input. The text is that of `dlms explain` if each call but the last has a multiple of 4,096 octets.
#[unsafe(no_mangle)]
pub extern "C" fn web_feed(feed: &mut FeedHandle, octets: &[u8]) -> u32
    ensures { (result ≡ DONE) ⊎ (result ≡ EMPTY) }
{
    let handle = replace(feed, none());
    let Some(loose) = take_kept(handle, Spent) else {
        return EMPTY;
    };
    let mut held = loose.into_box();
    held.feed(octets);
    *feed = kept(Loose::of(held));
    DONE
}

/// The input is at its end.
#[unsafe(no_mangle)]
pub extern "C" fn web_end(feed: &mut FeedHandle) -> u32
    ensures { (result ≡ DONE) ⊎ (result ≡ EMPTY) }
{
    let handle = replace(feed, none());
    let Some(loose) = take_kept(handle, Spent) else {
        return EMPTY;
    };
    let mut held = loose.into_box();
    held.end();
    *feed = kept(Loose::of(held));
    DONE
}

/// Moves the text since the last call to the page's buffer. `size` gets the number of its octets; if the buffer is too short,
/// nothing is written, and the text stays for the next call.
#[unsafe(no_mangle)]
pub extern "C" fn web_take(feed: &mut FeedHandle, text: &mut [u8], size: &mut usize) -> u32
    ensures code { (result ≡ DONE) ⊎ (result ≡ SHORT) ⊎ (result ≡ MEMORY) ⊎ (result ≡ EMPTY) }
    ensures none { (result ≡ MEMORY) ⊎ (result ≡ EMPTY) → (size.new ≡ 0) × (text.new ≡ text.old) }
    ensures told { result ≢ MEMORY → result ≢ EMPTY
        → (told : List ℕ) × ∥ IsUtf8 told ∥₁ × Puts told text.old result size.new text.new }
{
    *size = 0;
    let handle = replace(feed, none());
    let Some(loose) = take_kept(handle, Spent) else {
        return EMPTY;
    };
    let mut held = loose.into_box();
    let code = held.take(text, size);
    *feed = kept(Loose::of(held));
    code
}
