//! Blocks of a room, of which the freed ones are used again.
ghost use Rattle.std.specs.Prelude.{◌≡◌, ◌<◌, ◌≤◌, ◌^◌, ◌%◌, IfSome};
ghost use Rattle.dlms_room.specs.Blocks.{block_rest};
ghost use Rattle.dlms_room.specs.Sizes.{block_size};

use crate::bump::Bump;
use crate::room::Room;
use crate::sizes::{KINDS, UNIT, kind_of, size_of_block};
use std::alloc::{AllocError, Allocator};
use std::cell::Cell;

/// The size of the block for the heads of the lists: 8 bytes for each kind.
const HEADS: usize = 4096;

/// The number of bytes of the index for each slot in it, twice what a slot takes: a block's size is rounded up.
const BYTES_OF_A_SLOT: usize = 64;

/// No slot has this number.
const NO_SLOT: usize = usize::MAX;

/// A place for a freed block, and the number of the next slot in the same list.
#[derive(Drop)]
struct Slot {
    block: Cell<Option<Room>>,
    next: Cell<usize>,
}

/// An allocator over a room: a request gets a freed block of its size, or else one from the room's front. It has no lifetime
/// parameter, so that a value that outlives a call can keep a reference to it.
pub struct RoomHeap {
    bump: Bump,
    slots: Vec<Slot, Bump>,
    /// The first slot in the list of freed blocks of each kind.
    heads: Vec<Cell<usize>, Bump>,
    /// The first slot in the list of unused ones.
    unused: Cell<usize>,
}

/// Empty lists for each kind.
fn heads_over(room: Room) -> Result<Vec<Cell<usize>, Bump>, AllocError> {
    let mut heads = Vec::with_capacity(Bump::over(room), KINDS)?;
    for _ in 0..KINDS {
        heads.push(Cell::new(NO_SLOT))?;
    }
    Ok(heads)
}

/// This number of unused slots, in one list that begins with the first.
fn slots_over(room: Room, count: usize) -> Result<Vec<Slot, Bump>, AllocError> {
    let mut slots = Vec::with_capacity(Bump::over(room), count)?;
    for next in 0..count {
        slots.push(Slot {
            block: Cell::new(None),
            next: Cell::new(next + 1),
        })?;
    }
    Ok(slots)
}

impl RoomHeap {
    /// A heap without freed blocks. A sixteenth of the room is the index of the freed blocks; a room of less than 64 KiB is too small.
    pub fn over(room: Room) -> Result<RoomHeap, AllocError> {
        let (size, room) = room.with_size();
        let index = size / 256 * UNIT;
        if index < HEADS {
            return Err(AllocError);
        }
        let (heads, room) = room.split(HEADS);
        let (slots, room) = room.split(index - HEADS);
        Ok(RoomHeap {
            bump: Bump::over(room),
            slots: slots_over(slots, (index - HEADS) / BYTES_OF_A_SLOT)?,
            heads: heads_over(heads)?,
            unused: Cell::new(0),
        })
    }

    /// A freed block of this size, if one is kept.
    fn reuse(&self, size: usize) -> Option<Room>
        ensures { IfSome result (λ block. block.size ≡ size) }
    {
        let head = self.heads.get(kind_of(size))?;
        let at = head.get();
        let slot = self.slots.get(at)?;
        head.set(slot.next.get());
        slot.next.set(self.unused.get());
        self.unused.set(at);
        let (have, block) = slot.block.replace(None)?.with_size();
        if have == size { Some(block) } else { None }
    }

    /// A block for a request, if it is one that is served and there is memory.
    fn take(&self, size: usize, align: usize) -> Option<Room>
        ensures { IfSome result (λ block. (block.size ≡ block_size size) × (size < 2 ^ 62) × (align ≤ 16)) }
    {
        if align > UNIT || size > isize::MAX as usize / 2 {
            return None;
        }
        let size = size_of_block(size);
        match self.reuse(size) {
            Some(block) => Some(block),
            None => self.bump.cut(size),
        }
    }

    /// Keeps a block for a later request. If all slots are used, the block is lost.
    fn give(&self, block: Room) {
        let (size, block) = block.with_size();
        let Some(head) = self.heads.get(kind_of(size)) else {
            return;
        };
        let at = self.unused.get();
        let Some(slot) = self.slots.get(at) else {
            return;
        };
        self.unused.set(slot.next.get());
        slot.next.set(head.get());
        slot.block.set(Some(block));
        head.set(at);
    }
}

impl Drop for RoomHeap {
    // The room is not used again. (What is left of it is named by its type: the check finds no plan for this function otherwise.)
    fn drop(self) {
        let RoomHeap {
            bump,
            slots,
            heads,
            unused: _,
        } = self;
        let rest: Option<Room> = bump.cut(0);
        drop(rest);
        drop(bump);
        drop(slots);
        drop(heads);
    }
}

unsafe impl Allocator for RoomHeap {
    ghost dealloc_token = { λ _. block_rest };

    fn allocate(&self, size: usize, align: usize) -> Result<*mut u8, AllocError> {
        match self.take(size, align) {
            Some(Room { start, size: _ }) => Ok(start),
            None => Err(AllocError),
        }
    }

    unsafe fn deallocate(&self, ptr: *mut u8, size: usize, _align: usize) {
        let size = size_of_block(size);
        self.give(Room { start: ptr, size });
    }
}
