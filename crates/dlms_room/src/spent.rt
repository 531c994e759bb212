//! An allocator with nothing left.
ghost use Rattle.dlms_room.specs.Blocks.{block_rest};

use std::alloc::{AllocError, Allocator};

/// An allocator that only takes blocks of a room back. It has no fields, so that who keeps a block by its address alone can name its
/// allocator.
#[derive(Clone, Copy)]
pub struct Spent;

unsafe impl Allocator for Spent {
    ghost dealloc_token = { λ _. block_rest };

    fn allocate(&self, _size: usize, _align: usize) -> Result<*mut u8, AllocError> {
        Err(AllocError)
    }

    unsafe fn deallocate(&self, _ptr: *mut u8, _size: usize, _align: usize) {}
}
