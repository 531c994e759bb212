//! The sizes of blocks.
ghost use Rattle.std.specs.Prelude.{◌≡◌, ◌<◌, ◌≤◌, ◌^◌};
ghost use Rattle.dlms_room.specs.Sizes.{block_size};

/// Every block begins at a multiple of this, and no request may be aligned to more.
pub const UNIT: usize = 16;

/// The largest block of the small sizes, which are multiples of 16.
const SMALL: usize = 1024;

/// The step of the middle sizes.
const MIDDLE_STEP: usize = 1024;

/// The largest block of the middle sizes.
const MIDDLE: usize = 65_536;

/// The step of the large sizes.
const LARGE_STEP: usize = 65_536;

/// The number of kinds of blocks that are kept apart: 65 small ones, 64 middle ones and 383 large ones; the last is for all that are
/// larger still.
pub const KINDS: usize = 512;

/// The size of the block for a request.
pub fn size_of_block(size: usize) -> usize
    requires { size < 2 ^ 62 }
    ensures { result ≡ block_size size }
{
    if size <= SMALL {
        (size + 15) / UNIT * UNIT
    } else if size <= MIDDLE {
        (size + 1023) / MIDDLE_STEP * MIDDLE_STEP
    } else {
        (size + 65_535) / LARGE_STEP * LARGE_STEP
    }
}

/// The kind of a block of this size.
pub fn kind_of(size: usize) -> usize
    ensures { result < 512 }
{
    if size <= SMALL {
        size / UNIT
    } else if size <= MIDDLE {
        64 + size / MIDDLE_STEP
    } else {
        (128 + size / LARGE_STEP).min(KINDS - 1)
    }
}
