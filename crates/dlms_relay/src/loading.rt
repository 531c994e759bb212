//! The pages in slots.
ghost use Rattle.std.specs.Prelude.{◌≡◌, ◌<◌, ◌≤◌, ◌+◌, ◌*◌, [], ℕ, IfOk, length};
ghost use Rattle.dlms_pages.specs.Memory.{view_of};
ghost use Rattle.dlms_pages.specs.Pick.{chosen};
ghost use Rattle.dlms_pages.specs.declared.device.PageRead.{PageRead as PageReadOf};
ghost use Rattle.dlms_pages.specs.declared.device.PageRead.TheVariants.{Content};
ghost use Rattle.dlms_pages.specs.Seal.{ReadsSlot};
ghost use Rattle.dlms_pages.specs.Stops.{IsFixed};
ghost use Rattle.dlms_relay.specs.Loaded.{IsLoaded, slot_in};

use dlms_pages::{
    MemoryPages, PAGE_BYTES, PageChoice, PageRead, Pages, Pick, SLOT_BYTES, open_slot,
};
use std::alloc::{AllocError, Allocator};

/// The content of the slot of a page.
fn page_of(octets: &[u8], index: u16) -> PageRead
    requires { 544 * index + 544 ≤ length octets.now }
    ensures { ReadsSlot index (slot_in octets.now index) result }
{
    let start = index as usize * SLOT_BYTES;
    let mut slot = [0u8; SLOT_BYTES];
    slot.copy_from_slice(&octets[start..start + SLOT_BYTES]);
    open_slot(index, &slot)
}

/// The content to write so that a stop leaves the page, and the choice at that stop.
fn written_as(page: PageRead) -> ([u8; PAGE_BYTES], PageChoice)
    ensures { (stable : PageReadOf) → chosen result.1 stable (Content result.0) ≡ page }
{
    match page {
        PageRead::Content(content) => (content, PageChoice::New),
        PageRead::Damaged => ([0; PAGE_BYTES], PageChoice::Torn),
    }
}

/// These pages as they are in these octets, as after a sync.
pub(crate) fn load_pages<A: Allocator + Copy>(
    alloc: A,
    octets: &[u8],
    count: u16,
) -> Result<MemoryPages<A>, AllocError>
    requires { 544 * count ≤ length octets.now }
    ensures image { IfOk result (λ pages. IsLoaded octets.now count pages.first) }
    ensures calls { IfOk result (λ pages. pages.calls ≡ []) }
    ensures fixed { IfOk result (λ pages. IsFixed (view_of pages) pages.first) }
{
    let mut pages = MemoryPages::new(alloc, count)?;
    let mut choices = vec![in alloc; PageChoice::Old; count as usize]?;
    for index in 0..count {
        let (content, choice) = written_as(page_of(octets, index));
        if pages.write(index, &content).is_err() {
            return Err(AllocError);
        }
        choices[index as usize] = choice;
    }
    Ok(pages.cut(Pick::Each(&choices)))
}
