//! Finds what a device stands for.
ghost use Rattle.std.specs.Prelude.{◌≡◌, ◌↔◌, length, replicate, true, IfOk, OnOk, IsTrue};
ghost use Rattle.dlms_pages.specs.Device.{Goes, page_at};
ghost use Rattle.dlms_pages.specs.Stops.{IsFixed};
ghost use Rattle.dlms_counters.specs.Image.{newer, of_turn, opened, recovered, slot_in};
ghost use Rattle.dlms_counters.specs.Writing.{IsBlank, Spares};

use crate::counters::Counters;
use crate::fault::OpenFault;
use crate::slot::counters_in;
use dlms_pages::{DeviceFault, PAGE_BYTES, PageRead, Pages};

/// The contents, if they belong at this place.
fn of_turn(place: u16, counters: Counters) -> Option<Counters>
    ensures { result ≡ of_turn place counters }
{
    if counters.sequence % 2 == u64::from(place) {
        Some(counters)
    } else {
        None
    }
}

/// What a page says at this place.
fn slot_in(place: u16, page: &PageRead) -> Option<Counters>
    ensures { result ≡ slot_in place page.now }
{
    match page {
        PageRead::Content(bytes) => match counters_in(bytes) {
            Some(counters) => of_turn(place, counters),
            None => None,
        },
        PageRead::Damaged => None,
    }
}

/// The contents with the higher sequence number.
fn newer(first: Option<Counters>, second: Option<Counters>) -> Option<Counters>
    ensures { result ≡ newer first second }
{
    let Some(a) = first else {
        return second;
    };
    let Some(b) = second else {
        return Some(a);
    };
    if a.sequence < b.sequence {
        Some(b)
    } else {
        Some(a)
    }
}

/// The contents, if they are of this title and key.
pub fn opened(
    own: &[u8; 8],
    fingerprint: &[u8; 16],
    found: Option<Counters>,
) -> Result<Counters, OpenFault>
    ensures { result ≡ opened own.now fingerprint.now found }
{
    let Some(counters) = found else {
        return Err(OpenFault::Damaged);
    };
    if counters.own != *own {
        return Err(OpenFault::AnotherTitle);
    }
    if counters.fingerprint != *fingerprint {
        return Err(OpenFault::AnotherKey);
    }
    Ok(counters)
}

/// Reads both pages.
fn read_both<P: Pages>(device: &mut P) -> Result<(PageRead, PageRead), DeviceFault>
    requires { length (P.view device.old).seen ≡ 2 }
    ensures goes { Goes (P.view device.old) (P.view device.new) result }
    ensures pages { (P.view device.old).honest ≡ true
        → IfOk result (λ pages. (pages.0 ≡ page_at (P.view device.old).seen 0)
        × (pages.1 ≡ page_at (P.view device.old).seen 1)) }
    ensures spares { (P.view device.old).honest ≡ true
        → Spares (P.view device.old) (P.view device.new) }
{
    let first = device.read(0)?;
    let second = device.read(1)?;
    Ok((first, second))
}

/// Syncs a device and reads both pages: afterwards a stop leaves what they contain.
pub fn settle<P: Pages>(device: &mut P) -> Result<(PageRead, PageRead), DeviceFault>
    requires { length (P.view device.old).seen ≡ 2 }
    ensures goes { Goes (P.view device.old) (P.view device.new) result }
    ensures pages { (P.view device.old).honest ≡ true
        → IfOk result (λ pages. (pages.0 ≡ page_at (P.view device.old).seen 0)
        × (pages.1 ≡ page_at (P.view device.old).seen 1)) }
    ensures fixed { (P.view device.old).honest ≡ true
        → OnOk result (IsFixed (P.view device.new) (P.view device.old).seen) }
    ensures spares { (P.view device.old).honest ≡ true
        → Spares (P.view device.old) (P.view device.new) }
{
    device.sync()?;
    read_both(device)
}

/// Whether bytes are all zeros.
fn is_zeros(bytes: &[u8; PAGE_BYTES]) -> bool
    ensures { IsTrue result ↔ (bytes.now ≡ replicate 512 0) }
{
    let zeros = [0u8; PAGE_BYTES];
    bytes.as_slice() == zeros.as_slice()
}

/// Whether a page holds nothing.
pub fn is_blank(page: &PageRead) -> bool
    ensures { IsTrue result ↔ IsBlank page.now }
{
    match page {
        PageRead::Content(bytes) => is_zeros(bytes),
        PageRead::Damaged => true,
    }
}

/// Syncs a device and finds the contents that it stands for.
pub fn find<P: Pages>(device: &mut P) -> Result<Option<Counters>, DeviceFault>
    requires { length (P.view device.old).seen ≡ 2 }
    ensures goes { Goes (P.view device.old) (P.view device.new) result }
    ensures found { (P.view device.old).honest ≡ true
        → IfOk result (λ found. found ≡ recovered (P.view device.old).seen) }
    ensures fixed { (P.view device.old).honest ≡ true
        → OnOk result (IsFixed (P.view device.new) (P.view device.old).seen) }
    ensures spares { (P.view device.old).honest ≡ true
        → Spares (P.view device.old) (P.view device.new) }
{
    let (first, second) = settle(device)?;
    Ok(newer(slot_in(0, &first), slot_in(1, &second)))
}
