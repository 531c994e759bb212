//! Memory that is lent for good.
ghost use Rattle.std.specs.Prelude.{◌≡◌, ◌+◌, ◌-◌, ◌%◌, ◌≤◌};
ghost use Rattle.dlms_room.specs.Blocks.{bytes_at};

use std::marker::Model;

/// A run of free bytes: a whole room, or a block of one. Whoever has it owns the bytes, so no two that exist overlap.
///
/// THE CALLER OF AN EXPORT THAT TAKES A ROOM KEEPS: it begins at a multiple of 16, its size is one too, nothing else uses its bytes
/// from then on, and it is lent once.
#[repr(C)]
#[derive(Drop)]
pub struct Room {
    pub(crate) start: *mut u8,
    pub(crate) size: usize,
    ghost whole: { size % 16 ≡ 0 },
}

impl Model for Room {
    ghost also_owns = { λ room. bytes_at room.start room.size };
}

impl Room {
    /// The number of its bytes, and the room again.
    pub fn with_size(self) -> (usize, Room)
        ensures { (result.0 ≡ self.size) × (result.1 ≡ self) }
    {
        let Room { start, size } = self;
        (size, Room { start, size })
    }

    /// Its first bytes, of this number, and the others.
    pub fn split(self, size: usize) -> (Room, Room)
        requires { (size % 16 ≡ 0) × (size ≤ self.size) }
        ensures front { result.0.size ≡ size }
        ensures rest { result.1.size + size ≡ self.size }
    {
        let Room { start, size: all } = self;
        let behind = unsafe { start.add(size) };
        (
            Room { start, size },
            Room {
                start: behind,
                size: all - size,
            },
        )
    }
}
