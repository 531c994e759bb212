//! A file of slots in memory, which keeps the rules of such a file, and can lose power.
ghost use Rattle.std.specs.Prelude.{◌≡◌, ◌<◌, ℕ, true, [], ◌∷◌, None, IfOk, length, slice_index_or};
ghost use Rattle.dlms_pages.specs.SlotCalls.{Asks, came_of, passed};
ghost use Rattle.dlms_pages.specs.Slots.{Slots, Gives, Leaves, newest, standing};
ghost use Rattle.dlms_pages.specs.Tear.{tear_at};
ghost use Rattle.dlms_pages.specs.declared.asking.SlotCall.TheVariants.{Reads, Writes, Syncs};

use crate::asking::{Came, SlotCall};
use crate::past::Past;
use crate::plan::{Plan, next_of};
use crate::seal::SLOT_BYTES;
use crate::slot_file::SlotFile;
use crate::tear::{SlotTear, SlotTears, tear_all, torn};
use std::alloc::{AllocError, Allocator, Global};
use std::io;
use std::io::ErrorKind;
use std::marker::Model;
use std::snapshot::Snapshot;

/// Slots in memory. No slot stands past those that it was made with, and a call of one fails. A call can be made to fail: a read
/// that fails gives nothing; a write that fails leaves its slot torn as was asked for, and a sync that fails all that were
/// written since the last one that passed, from then on as reads give it. What a stop of the power leaves is asked for as well.
#[derive(Drop)]
pub struct MemorySlots<A: Allocator = Global> {
    // What reads give.
    slots: Vec<[u8; SLOT_BYTES], A>,
    // Each slot when it last became durable, and what was last written to it.
    kept: Vec<[u8; SLOT_BYTES], A>,
    last: Vec<[u8; SLOT_BYTES], A>,
    plan: Plan,
    tear: SlotTear,
    // The initial content and the calls since. Neither takes memory.
    first: Snapshot<Vec<[u8; SLOT_BYTES], A>>,
    past: Past<SlotCall>,
}

impl<A: Allocator> Model for MemorySlots<A> {
    ghost use Rattle.std.specs.Prelude.{Some, map, reverse, true};
    ghost use Rattle.dlms_pages.specs.Slots.{Slots};
    ghost use Rattle.dlms_pages.specs.HeldSlots.{AreHeld};

    ghost Value = { Slots };

    ghost view = { λ s. record {
      keeps = true;
      first = map Some s.first.value.items;
      calls = reverse s.past.calls;
    } };

    ghost invariant = { λ s. AreHeld (map Some s.first.value.items) (reverse s.past.calls) s.slots.items s.kept.items s.last.items };
}

impl<A: Allocator + Copy> MemorySlots<A> {
    /// So many slots of zeros, as after a sync.
    pub fn new(alloc: A, count: u16) -> Result<Self, AllocError>
        ensures keeps { IfOk result (λ file. file.keeps ≡ true) }
        ensures calls { IfOk result (λ file. file.calls ≡ []) }
        ensures count { IfOk result (λ file. length file.first ≡ count) }
    {
        let slots = vec![in alloc; [0; SLOT_BYTES]; count as usize]?;
        let kept = copy_slots(alloc, &slots)?;
        let last = copy_slots(alloc, &slots)?;
        let first = Snapshot::of(&slots);
        Ok(MemorySlots {
            slots,
            kept,
            last,
            plan: Plan::Never,
            tear: SlotTear::Old,
            first,
            past: Past::new(),
        })
    }

    /// Lets this many calls succeed, and fails every later one.
    pub fn fuse(&mut self, calls: u64)
        ensures { self.new ≡ self.old }
    {
        self.plan = Plan::From(calls);
    }

    /// Lets this many calls succeed, fails the next one, and lets all later ones succeed.
    pub fn fail_once(&mut self, calls: u64)
        ensures { self.new ≡ self.old }
    {
        self.plan = Plan::Once(calls);
    }

    /// How a call that fails leaves the slots that it was to change. A new file leaves them old.
    pub fn fail_as(&mut self, tear: SlotTear)
        ensures { self.new ≡ self.old }
    {
        self.tear = tear;
    }

    /// Stops the power. Each slot that was written and not made durable is left torn as requested; no call is set to fail.
    pub fn cut(self, tears: SlotTears<'_>) -> Self
        ensures keeps { result.keeps ≡ true }
        ensures calls { result.calls ≡ [] }
        ensures count { length result.first ≡ length self.first }
        ensures left { (k : ℕ) → k < length self.first
            → Leaves self.first self.calls k (slice_index_or result.first k None) }
        ensures new { (k : ℕ) → k < length self.first → tear_at tears.entry k ≡ SlotTear.New
            → (standing self.calls k).sure ≡ true
            → slice_index_or result.first k None ≡ newest self.first self.calls k }
    {
        let MemorySlots {
            slots,
            kept,
            last,
            plan: _,
            tear: _,
            first: _,
            past: _,
        } = self;
        let mut slots = slots;
        let mut kept = kept;
        let mut last = last;
        tear_all(&kept, &last, &mut slots, tears);
        kept.copy_from_slice(&slots);
        last.copy_from_slice(&slots);
        let first = Snapshot::of(&slots);
        MemorySlots {
            slots,
            kept,
            last,
            plan: Plan::Never,
            tear: SlotTear::Old,
            first,
            past: Past::new(),
        }
    }
}

impl<A: Allocator> MemorySlots<A> {
    // Whether this call is to fail.
    fn is_due(&mut self) -> bool
        ensures { self.new ≡ self.old }
    {
        let (due, later) = next_of(self.plan);
        self.plan = later;
        due
    }
}

// The same slots once more.
fn copy_slots<A: Allocator>(
    alloc: A,
    slots: &[[u8; SLOT_BYTES]],
) -> Result<Vec<[u8; SLOT_BYTES], A>, AllocError>
    ensures { IfOk result (λ all. all.items ≡ slots.now) }
{
    let mut all = vec![in alloc; [0; SLOT_BYTES]; slots.len()]?;
    all.copy_from_slice(slots);
    Ok(all)
}

// The error of a call that is set to fail.
fn planned_error() -> io::Error {
    io::Error::from(ErrorKind::Other)
}

impl<A: Allocator> SlotFile for MemorySlots<A> {
    ghost slots = { λ s. s };

    fn read_slot(&mut self, index: u16, slot: &mut [u8; SLOT_BYTES]) -> io::Result<bool> {
        let due = self.is_due();
        if due || self.slots.len() <= index as usize {
            let came = Came::Failed;
            self.past = self.past.and(&SlotCall::Reads { index, came });
            return Err(planned_error());
        }
        *slot = self.slots[index as usize];
        let came = Came::Slot(*slot);
        self.past = self.past.and(&SlotCall::Reads { index, came });
        Ok(true)
    }

    fn write_slot(&mut self, index: u16, slot: &[u8; SLOT_BYTES]) -> io::Result<()> {
        let due = self.is_due();
        let is_there = (index as usize) < self.slots.len();
        let passed = is_there && !due;
        if is_there {
            let place = index as usize;
            let tear = if passed { SlotTear::New } else { self.tear };
            self.slots[place] = torn(index, &self.slots[place], slot, tear);
            self.last[place] = *slot;
        }
        self.past = self.past.and(&SlotCall::Writes {
            index,
            slot: *slot,
            passed,
        });
        if passed { Ok(()) } else { Err(planned_error()) }
    }

    fn sync(&mut self) -> io::Result<()> {
        let passed = !self.is_due();
        if passed {
            self.kept.copy_from_slice(&self.slots);
            self.last.copy_from_slice(&self.slots);
        } else {
            tear_all(
                &self.kept,
                &self.last,
                &mut self.slots,
                SlotTears::All(self.tear),
            );
        }
        self.past = self.past.and(&SlotCall::Syncs { passed });
        if passed { Ok(()) } else { Err(planned_error()) }
    }
}
