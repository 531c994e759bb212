//! A poller as C keeps it, or none.
ghost use Rattle.std.specs.Prelude.{◌≡◌, Some, None, Option, option_map};
ghost use Rattle.dlms_c.specs.Kept.{keeps};
ghost use Rattle.dlms_c.specs.declared.kept_poller.KeptPoller.{KeptPoller as KeptPollerOf};
ghost use Rattle.dlms_c.specs.contracts.kept_poller.KeptPoller.{the_row as kept_row};

use crate::kept_poller::KeptPoller;
use crate::loose::Loose;
use std::alloc::Global;
use std::marker::Model;
use std::ptr::null_mut;

/// What C sees of it.
pub struct Opaque;

/// A poller as C keeps it, or none.
#[repr(C)]
#[derive(Drop)]
pub struct PollerHandle {
    at: *mut Opaque,
    is_full: bool,
    pub ghost value: { Option KeptPollerOf },
}

impl Model for PollerHandle {
    ghost also_owns = { λ h. keeps kept_row h.is_full h.at h.value };
}

/// None.
pub fn none() -> PollerHandle
    ensures { result.value ≡ None }
{
    PollerHandle {
        at: null_mut(),
        is_full: false,
    }
}

/// A poller that is kept.
pub fn kept(loose: Loose<KeptPoller, Global>) -> PollerHandle
    ensures { result.value ≡ Some loose.value }
{
    let Loose { at, alloc: _ } = loose;
    PollerHandle {
        at: at as *mut Opaque,
        is_full: true,
    }
}

/// The poller that is kept, if one is.
pub fn take_kept(handle: PollerHandle, alloc: Global) -> Option<Loose<KeptPoller, Global>>
    ensures { option_map (λ loose. loose.value) result ≡ handle.value }
{
    let PollerHandle { at, is_full } = handle;
    if is_full {
        return Some(Loose {
            at: at as *mut KeptPoller,
            alloc,
        });
    }
    None
}
