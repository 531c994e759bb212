//! Cutting what is sent into segments.

ghost use Rattle.std.specs.Prelude.{◌≡◌, ◌≤◌, ℕ, List, length, take, drop};
ghost use Rattle.dlms_link.specs.Kept.{is_more};

use arrayvec::ArrayVec;

/// The most bytes of a segment.
pub const MOST_BYTES: usize = 128;

/// Takes the front of at most `size` bytes off, and says whether more is left.
pub fn cut(unsent: &mut ArrayVec<u8, 1027>, size: usize) -> (ArrayVec<u8, MOST_BYTES>, bool)
    requires { size ≤ MOST_BYTES }
    ensures front { result.0.items ≡ take size unsent.old.items }
    ensures short { length result.0.items ≤ size }
    ensures more { result.1 ≡ is_more (drop size unsent.old.items) }
    ensures rest { unsent.new.items ≡ drop size unsent.old.items }
{
    let count = unsent.len().min(size);
    let mut front = ArrayVec::new();
    let _ = front.try_extend_from_slice(&unsent.as_slice()[..count]);
    let more = count < unsent.len();
    if more {
        drop_front(unsent, count);
    } else {
        unsent.clear();
    }
    (front, more)
}

/// Drops the first `count` bytes.
fn drop_front(unsent: &mut ArrayVec<u8, 1027>, count: usize)
    requires { count ≤ length unsent.old.items }
    ensures { unsent.new.items ≡ drop count unsent.old.items }
{
    let mut rest = ArrayVec::new();
    let _ = rest.try_extend_from_slice(&unsent.as_slice()[count..]);
    *unsent = rest;
}
