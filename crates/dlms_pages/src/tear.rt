//! What becomes of a slot that was on its way when the power stopped, or when its call failed.
ghost use Rattle.std.specs.Prelude.{◌≡◌, ◌<◌, ◌^◌, Some, length};
ghost use Rattle.dlms_pages.specs.HeldSlots.{AreTorn};
ghost use Rattle.dlms_pages.specs.Slots.{IsMix, IsTorn};
ghost use Rattle.dlms_pages.specs.Tear.{AreWhole, tear_at};

use crate::device::PageRead;
use crate::seal::{SLOT_BYTES, open_slot};
use std::alloc::Allocator;

/// Which octets of a slot are the new ones; the others are the old ones.
#[derive(Clone, Copy, Debug, PartialEq, Eq)]
pub enum SlotTear {
    /// None.
    Old,
    /// All.
    New,
    /// So many from the first one on.
    Front(u16),
    /// All but so many from the first one on.
    Back(u16),
    /// Each second one: the octets of odd places.
    EverySecond,
}

/// The tear of each of many slots.
#[derive(Clone, Copy, Debug)]
pub enum SlotTears<'a> {
    /// The same for all of them.
    All(SlotTear),
    /// The tear at each place is for the slot with that index; slots past the list's end are left old.
    Each(&'a [SlotTear]),
}

impl SlotTear {
    // Whether the octet at this place is the new one.
    fn takes(self, place: usize) -> bool {
        match self {
            SlotTear::Old => false,
            SlotTear::New => true,
            SlotTear::Front(count) => place < count as usize,
            SlotTear::Back(count) => place >= count as usize,
            SlotTear::EverySecond => place % 2 == 1,
        }
    }
}

impl SlotTears<'_> {
    // The tear of this slot.
    fn at(&self, index: usize) -> SlotTear
        ensures { result ≡ tear_at self.now index }
    {
        match self {
            SlotTears::All(tear) => *tear,
            SlotTears::Each(tears) => tears.get(index).copied().unwrap_or(SlotTear::Old),
        }
    }
}

// The old octets, with the new ones where the tear says so.
fn mix_octets(old: &[u8; SLOT_BYTES], new: &[u8; SLOT_BYTES], tear: SlotTear) -> [u8; SLOT_BYTES]
    ensures { IsMix old.now new.now result }
{
    let mut mix = *old;
    for place in 0..SLOT_BYTES {
        if tear.takes(place) {
            mix[place] = new[place];
        }
    }
    mix
}

/// The slot that is left if a write of these octets is torn. If the mix of both were the slot of some other content, which the seal
/// makes practically impossible, it is the old slot.
pub fn torn(
    index: u16,
    old: &[u8; SLOT_BYTES],
    new: &[u8; SLOT_BYTES],
    tear: SlotTear,
) -> [u8; SLOT_BYTES]
    ensures mix { IsTorn index (Some old.now) new.now (Some result) }
    ensures old { tear ≡ SlotTear.Old → result ≡ old.now }
    ensures new { tear ≡ SlotTear.New → result ≡ new.now }
{
    let mix = match tear {
        SlotTear::Old => return *old,
        SlotTear::New => return *new,
        _ => mix_octets(old, new, tear),
    };
    if mix == *new {
        return *new;
    }
    match open_slot(index, &mix) {
        PageRead::Damaged => mix,
        PageRead::Content(_) => *old,
    }
}

/// Each of the slots becomes what is left of it.
pub fn tear_all<A: Allocator>(
    old: &[[u8; SLOT_BYTES]],
    new: &[[u8; SLOT_BYTES]],
    slots: &mut Vec<[u8; SLOT_BYTES], A>,
    tears: SlotTears<'_>,
)
    requires olds { length old.now ≡ length slots.old.items }
    requires news { length new.now ≡ length slots.old.items }
    requires small { length slots.old.items < 2 ^ 16 }
    ensures torn { AreTorn old.now new.now slots.new.items }
    ensures whole { AreWhole tears.entry new.now slots.new.items }
{
    for index in 0..slots.len() {
        slots[index] = torn(index as u16, &old[index], &new[index], tears.at(index));
    }
}
