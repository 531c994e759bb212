//! Blocks from the front of a room.
ghost use Rattle.std.specs.Prelude.{◌≡◌, ◌<◌, ◌≤◌, ◌^◌, ◌%◌, IfSome};
ghost use Rattle.dlms_room.specs.Blocks.{block_rest};
ghost use Rattle.dlms_room.specs.Sizes.{block_size};

use crate::room::Room;
use crate::sizes::{UNIT, size_of_block};
use std::alloc::{AllocError, Allocator};
use std::cell::Cell;

/// An allocator that cuts each block from the front of what is left of its room. A block that is given back is not used again.
pub struct Bump {
    left: Cell<Option<Room>>,
}

impl Bump {
    /// All of the room is left.
    pub fn over(room: Room) -> Bump {
        Bump {
            left: Cell::new(Some(room)),
        }
    }

    /// The first bytes of what is left, if there are as many.
    pub(crate) fn cut(&self, size: usize) -> Option<Room>
        requires { size % 16 ≡ 0 }
        ensures { IfSome result (λ block. block.size ≡ size) }
    {
        let (have, left) = self.left.replace(None)?.with_size();
        if have < size {
            self.left.set(Some(left));
            return None;
        }
        let (block, rest) = left.split(size);
        self.left.set(Some(rest));
        Some(block)
    }

    /// A block for a request, if it is one that is served and the room has as many bytes.
    fn take(&self, size: usize, align: usize) -> Option<Room>
        ensures { IfSome result (λ block. (block.size ≡ block_size size) × (size < 2 ^ 62) × (align ≤ 16)) }
    {
        if align > UNIT || size > isize::MAX as usize / 2 {
            return None;
        }
        self.cut(size_of_block(size))
    }
}

impl Drop for Bump {
    // What is left of the room is not used again.
    fn drop(self) {
        let Bump { left } = self;
        drop(left.into_inner());
    }
}

unsafe impl Allocator for Bump {
    ghost dealloc_token = { λ _. block_rest };

    fn allocate(&self, size: usize, align: usize) -> Result<*mut u8, AllocError> {
        match self.take(size, align) {
            Some(Room { start, size: _ }) => Ok(start),
            None => Err(AllocError),
        }
    }

    unsafe fn deallocate(&self, _ptr: *mut u8, _size: usize, _align: usize) {}
}
