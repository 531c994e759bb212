//! The checkpoint that a recovery makes: after records, after a damaged page, or in place of one of an older version.
ghost use Rattle.std.specs.Prelude.{◌≡◌, ◌<◌, ◌≤◌, ◌⊎◌, ◌++◌, ◌↔◌, [], List, length, IsTrue, Err, IfErr, OnOk};
ghost use Rattle.dlms_pages.specs.Device.{Goes, Rose, Image};
ghost use Rattle.dlms_pages.specs.Stops.{IsFixed};
ghost use Rattle.dlms_state.specs.declared.event.Event.{Event as EventOf};
ghost use Rattle.dlms_store.specs.Active.{IsFound, IsStale};
ghost use Rattle.dlms_store.specs.Image.{IsLeftFor, Quiet, Reads, Stands, StandsFor, all_of};
ghost use Rattle.dlms_store.specs.Layout.{other_of};
ghost use Rattle.dlms_store.specs.Page.{next_of};
ghost use Rattle.dlms_store.specs.Writing.{Brings, IsBlank, IsBlanked, IsCleared, IsClearOf};
ghost use Rattle.dlms_store.specs.declared.layout.TheConstants.{LAST_GENERATION, MOST_CAPTURED, PAGES};

use crate::fault::OpenFault;
use crate::layout::{JOURNAL, LAST_GENERATION};
use crate::open::Found;
use crate::page::{Edition, is_of, present};
use crate::put::put;
use crate::slot::write_slot;
use dlms_checkpoint::Version;
use dlms_journal::PageKind;
use dlms_pages::{DeviceFault, PAGE_BYTES, Pages};
use std::alloc::Allocator;

impl<A: Allocator + Copy> Found<A> {
    /// Whether `Store::open` makes a checkpoint of it, into the other slot and with the next generation.
    pub fn is_due(&self) -> bool
        ensures { IsTrue result ↔ IsStale self.now }
    {
        self.journal.pages > 0 || self.journal.torn || self.edition.version == Version::Rings
    }
}

/// Writes zeros over the journal's first page if that page has the edition that comes next.
fn blank_first_page<P: Pages>(device: &mut P, next: Edition) -> Result<(), DeviceFault>
    requires room { PAGES ≤ length (P.view device.old).seen }
    ensures goes { Goes (P.view device.old) (P.view device.new) result }
    ensures blanks { (image : Image) → IsFixed (P.view device.old) image
        → Brings (IsBlanked next image) (IsBlank next image) (P.view device.old)
        (P.view device.new) result }
{
    let page = device.read(JOURNAL)?;
    if !is_of(&page, PageKind::Journal, 0, next) {
        return Ok(());
    }
    put(device, JOURNAL, &[0; PAGE_BYTES])
}

/// Makes sure that the journal's first page does not have the next edition, which would count it. A page of version 2 never does,
/// because a checkpoint is due only if that page has this edition or is damaged.
fn clear_alien<P: Pages>(device: &mut P, edition: Edition) -> Result<(), DeviceFault>
    requires room { PAGES ≤ length (P.view device.old).seen }
    requires last { edition.generation < LAST_GENERATION }
    ensures goes { Goes (P.view device.old) (P.view device.new) result }
    ensures clears { (image : Image) → IsFixed (P.view device.old) image
        → Brings (IsCleared edition image) (IsClearOf edition image) (P.view device.old)
        (P.view device.new) result }
{
    match edition.version {
        Version::Columns => Ok(()),
        Version::Rings => blank_first_page(device, present(edition.generation + 1)),
    }
}

/// Writes what was found into the other slot as a checkpoint of the present version.
pub(crate) fn renew<P: Pages, A: Allocator + Copy>(
    device: &mut P,
    found: &Found<A>,
) -> Result<(), OpenFault>
    requires room { PAGES ≤ length (P.view device.old).seen }
    requires captured { found.now.journal.captured ≤ MOST_CAPTURED }
    requires order { found.now.journal.captured ≤ found.now.state.rows.next }
    ensures honest { (P.view device.new).honest ≡ (P.view device.old).honest }
    ensures count { length (P.view device.new).seen ≡ length (P.view device.old).seen }
    ensures later { (P.view device.old).faults ≤ (P.view device.new).faults }
    ensures device { result ≡ Err OpenFault.Device
        → Rose (P.view device.old).faults (P.view device.new).faults }
    ensures exhausted { result ≡ Err OpenFault.Exhausted
        → found.now.edition.generation ≡ LAST_GENERATION }
    ensures spares { result ≡ Err OpenFault.Exhausted → device.new ≡ device.old }
    ensures room { OnOk result (found.now.edition.generation < LAST_GENERATION) }
    ensures faults { IfErr result (λ fault. (fault ≡ OpenFault.Device)
        ⊎ (fault ≡ OpenFault.Exhausted)) }
    ensures renews { (image : Image) (base : List EventOf) (pages : List (List EventOf))
        → IsFixed (P.view device.old) image → IsFound image base pages found.now → IsStale found.now
        → Brings (StandsFor (base ++ all_of pages))
        (Reads (other_of found.now.slot) (next_of found.now.edition) (base ++ all_of pages) [])
        (P.view device.old) (P.view device.new) result }
    ensures settles { (image : Image) (base : List EventOf) (pages : List (List EventOf))
        → IsFixed (P.view device.old) image → IsFound image base pages found.now
        → Quiet found.now.edition.generation (length pages) image
        → Brings (IsLeftFor (base ++ all_of pages))
        (Stands (other_of found.now.slot) (next_of found.now.edition) (base ++ all_of pages) [])
        (P.view device.old) (P.view device.new) result }
{
    let Edition { generation, .. } = found.edition;
    if generation == LAST_GENERATION {
        return Err(OpenFault::Exhausted);
    }
    clear_alien(device, found.edition)?;
    let slot = found.slot.other();
    let checkpointed = found.state.next_number() - u128::from(found.journal.captured);
    write_slot(device, slot, generation + 1, &found.state, checkpointed)?;
    Ok(())
}
