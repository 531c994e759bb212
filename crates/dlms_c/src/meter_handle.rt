//! A meter as C keeps it, or none.
ghost use Rattle.std.specs.Prelude.{◌≡◌, Some, None, Option, option_map};
ghost use Rattle.dlms_c.specs.Kept.{keeps};
ghost use Rattle.dlms_c.specs.declared.kept_meter.KeptMeter.{KeptMeter as KeptMeterOf};
ghost use Rattle.dlms_c.specs.contracts.kept_meter.KeptMeter.{the_row as kept_row};

use crate::kept_meter::KeptMeter;
use crate::loose::Loose;
use std::alloc::Global;
use std::marker::Model;
use std::ptr::null_mut;

/// What C sees of it.
pub struct Opaque;

/// A meter as C keeps it, or none.
#[repr(C)]
#[derive(Drop)]
pub struct MeterHandle {
    at: *mut Opaque,
    is_full: bool,
    pub ghost value: { Option KeptMeterOf },
}

impl Model for MeterHandle {
    ghost also_owns = { λ h. keeps kept_row h.is_full h.at h.value };
}

/// None.
pub fn none() -> MeterHandle
    ensures { result.value ≡ None }
{
    MeterHandle {
        at: null_mut(),
        is_full: false,
    }
}

/// A meter that is kept.
pub fn kept(loose: Loose<KeptMeter, Global>) -> MeterHandle
    ensures { result.value ≡ Some loose.value }
{
    let Loose { at, alloc: _ } = loose;
    MeterHandle {
        at: at as *mut Opaque,
        is_full: true,
    }
}

/// The meter that is kept, if one is.
pub fn take_kept(handle: MeterHandle, alloc: Global) -> Option<Loose<KeptMeter, Global>>
    ensures { option_map (λ loose. loose.value) result ≡ handle.value }
{
    let MeterHandle { at, is_full } = handle;
    if is_full {
        return Some(Loose {
            at: at as *mut KeptMeter,
            alloc,
        });
    }
    None
}
