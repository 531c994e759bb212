//! An explanation under way as the page keeps it, or none.
ghost use Rattle.dlms_web.specs.Kept.{keeps};
ghost use Rattle.dlms_web.specs.contracts.kept_feed.KeptFeed.{the_row as kept_row};

use crate::kept_feed::KeptFeed;
use crate::loose::Loose;
use dlms_room::{RoomHeap, Spent};
use std::marker::Model;
use std::ptr::null_mut;

/// The part of it that the page sees.
pub struct Opaque;

/// An explanation under way as the page keeps it, or none.
#[repr(C)]
#[derive(Drop)]
pub struct FeedHandle {
    at: *mut Opaque,
    is_full: bool,
}

impl Model for FeedHandle {
    ghost also_owns = { λ h. keeps kept_row h.is_full h.at };
}

/// None.
pub fn none() -> FeedHandle {
    FeedHandle {
        at: null_mut(),
        is_full: false,
    }
}

/// The same, by an allocator that only takes blocks back.
pub fn settled(loose: Loose<KeptFeed, &'static RoomHeap>) -> Loose<KeptFeed, Spent> {
    let Loose { at, alloc: _ } = loose;
    Loose { at, alloc: Spent }
}

/// An explanation that is kept.
pub fn kept(loose: Loose<KeptFeed, Spent>) -> FeedHandle {
    let Loose { at, alloc: _ } = loose;
    FeedHandle {
        at: at as *mut Opaque,
        is_full: true,
    }
}

/// The explanation that is kept, if one is.
pub fn take_kept(handle: FeedHandle, alloc: Spent) -> Option<Loose<KeptFeed, Spent>> {
    let FeedHandle { at, is_full } = handle;
    if is_full {
        return Some(Loose {
            at: at as *mut KeptFeed,
            alloc,
        });
    }
    None
}
