//! The pages of a file's bytes, as a device that is read and never written.
ghost use Rattle.std.specs.Prelude.{◌≡◌, ◌≤◌, ◌<◌, ◌^◌, ◌+◌, ◌↔◌, true, length, min, IfOk, IsErr, IsTrue, Ok};
ghost use Rattle.dlms_pages.specs.Device.{page_at};
ghost use Rattle.dlms_survey.specs.Pages.{AreIn, IsCut, IsPageIn};
ghost use Rattle.dlms_store.specs.declared.layout.TheConstants.{PAGES};

use dlms_pages::{DeviceFault, PAGE_BYTES, PageRead, Pages, SLOT_BYTES, open_slot};
use dlms_store::PAGES;
use std::alloc::{AllocError, Allocator, Global};
use std::marker::Model;

/// What each page of a store holds. As a device it keeps the disk rules; it is never written, so at every moment a stop leaves
/// it as it is.
#[derive(Drop)]
pub struct Image<A: Allocator = Global> {
    pages: Vec<PageRead, A>,
    faults: u64,
    // How many bytes there were.
    bytes: usize,
}

impl<A: Allocator> Model for Image<A> {
    ghost use Rattle.std.specs.Prelude.{◌≡◌, length};
    ghost use Rattle.dlms_survey.specs.Image.{ImageValue};
    ghost use Rattle.dlms_store.specs.declared.layout.TheConstants.{PAGES};

    ghost Value = { ImageValue };

    ghost view = { λ i. record {
      pages = i.pages.items;
      bytes = i.bytes;
      faults = i.faults;
    } };

    ghost invariant = { λ i. length i.pages.items ≡ PAGES };
}

/// The page of a slot; a damaged page if the bytes end before the slot does.
fn page_in(bytes: &[u8], index: u16) -> PageRead
    ensures { IsPageIn index bytes.now result }
{
    let begin = usize::from(index) * SLOT_BYTES;
    match bytes.get(begin..begin + SLOT_BYTES) {
        Some(found) => {
            let mut slot = [0u8; SLOT_BYTES];
            slot.copy_from_slice(found);
            open_slot(index, &slot)
        }
        None => PageRead::Damaged,
    }
}

/// Puts each page of these bytes at its place.
fn fill(pages: &mut [PageRead], bytes: &[u8])
    requires { length pages.old < 2 ^ 16 }
    ensures count { length pages.new ≡ length pages.old }
    ensures pages { AreIn bytes.now pages.new }
{
    for index in 0..pages.len() {
        pages[index] = page_in(bytes, index as u16);
    }
}

impl<A: Allocator + Copy> Image<A> {
    ghost use Rattle.dlms_survey.specs.Image.{view_of};

    /// The pages of these bytes. Bytes after the last page are ignored.
    pub fn of_bytes(alloc: A, bytes: &[u8]) -> Result<Image<A>, AllocError>
        ensures pages { IfOk result (λ image. AreIn bytes.now image.pages) }
        ensures bytes { IfOk result (λ image. image.bytes ≡ length bytes.now) }
    {
        let mut pages = vec![in alloc; PageRead::Damaged; PAGES as usize]?;
        fill(&mut pages, bytes);
        Ok(Image {
            pages,
            faults: 0,
            bytes: bytes.len(),
        })
    }

    /// It has as many pages as a store.
    pub fn has_all_pages(&self)
        ensures { length self.now.pages ≡ PAGES }
    {
        let _pages = &self.pages;
    }

    /// The content of a page; one past the last is damaged.
    pub fn page(&self, index: u16) -> &PageRead
        ensures { result.now ≡ page_at self.now.pages index }
    {
        match self.pages.get(usize::from(index)) {
            Some(page) => page,
            None => &PageRead::Damaged,
        }
    }

    /// Whether the bytes end before the page does.
    pub fn is_cut(&self, index: u16) -> bool
        ensures { IsTrue result ↔ IsCut index self.now.bytes }
    {
        self.bytes < usize::from(index) * SLOT_BYTES + SLOT_BYTES
    }
}

impl<A: Allocator + Copy> Pages for Image<A> {
    ghost use Rattle.dlms_pages.specs.Device.{Goes, Reads, Writes, Syncs};
    ghost use Rattle.dlms_survey.specs.Image.{view_of, image_rules};

    ghost view = { λ i. view_of i };

    ghost rules = { λ i honest. image_rules i };

    fn count(&self) -> u16 {
        self.pages.len() as u16
    }

    fn faults(&self) -> u64 {
        self.faults
    }

    fn read(&mut self, index: u16) -> Result<PageRead, DeviceFault>
        requires { index < length (view_of self.old).seen }
        ensures goes { Goes (view_of self.old) (view_of self.new) result }
        ensures page { (view_of self.old).honest ≡ true
            → Reads index (view_of self.old) (view_of self.new) result }
        ensures gives { result ≡ Ok (page_at self.old.pages index) }
        ensures same { self.new ≡ self.old }
    {
        Ok(self.pages[index as usize])
    }

    /// Is refused, as a fault: these pages are never written.
    fn write(&mut self, index: u16, bytes: &[u8; PAGE_BYTES]) -> Result<(), DeviceFault>
        requires { index < length (view_of self.old).seen }
        ensures goes { Goes (view_of self.old) (view_of self.new) result }
        ensures written { (view_of self.old).honest ≡ true
            → Writes index bytes.now (view_of self.old) (view_of self.new) result }
        ensures refused { IsErr result }
        ensures pages { self.new.pages ≡ self.old.pages }
    {
        self.faults = self.faults.saturating_add(1);
        Err(DeviceFault)
    }

    fn sync(&mut self) -> Result<(), DeviceFault>
        ensures goes { Goes (view_of self.old) (view_of self.new) result }
        ensures synced { (view_of self.old).honest ≡ true
            → Syncs (view_of self.old) (view_of self.new) result }
        ensures same { self.new ≡ self.old }
    {
        Ok(())
    }
}
