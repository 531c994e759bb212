//! A meter, as C keeps it.
ghost use Rattle.std.specs.Prelude.{◌≡◌, ◌≢◌, ◌⊎◌, ◌<◌, ◌≤◌, None, Some, Ok, Err, MatchOption, false, length, take, true};
ghost use Rattle.dlms_state.specs.declared.event.Event.TheVariants.{Moment, Pulses};
ghost use Rattle.dlms_pages.specs.declared.seal.TheConstants.{SLOT_BYTES};
ghost use Rattle.dlms_c.specs.Meter.{Closes, FallsSilentKept, FeedsKept, HandsPage, HangsUpKept, JudgesKept, Replies, Shows, TellsPage};
ghost use Rattle.dlms_c.specs.Refusal.{closed_code};
ghost use Rattle.dlms_c.specs.Opening.{IsNewKept, IsRecovered, IsUnrecovered};
ghost use Rattle.dlms_c.specs.declared.codes.TheConstants.{DEVICE, DONE, EMPTY, FULL, LOST, MEMORY, SHORT, SIZE};
ghost use Rattle.dlms_c.specs.declared.kept_meter.KeptMeter.{KeptMeter as KeptMeterOf};

use crate::codes::{CLOSED, DONE, EMPTY, FULL, LOST, MEMORY, NOTHING, SHORT, SIZE, SYNC, WRITE};
use crate::kept_meter::KeptMeter;
use crate::loose::Loose;
use crate::meter_handle::{MeterHandle, kept, none, take_kept};
use dlms_meter::Meter;
use dlms_pages::{Call, SLOT_BYTES};
use dlms_relay::{RelayedPages, seal_slot};
use std::alloc::Global;
use std::mem::replace;

/// How many octets the slots of a meter have.
const SLOTS: usize = dlms_store::PAGES as usize * SLOT_BYTES;

/// The state of a meter.
#[repr(C)]
#[derive(Clone, Copy)]
pub struct MeterState {
    pub active_import: u32,
    pub active_export: u32,
    pub reactive_import: u32,
    pub second: u32,
    pub running: u32,
    pub rows: usize,
}

/// Puts a new meter into the handle; otherwise the handle stays empty, and the reason is returned.
fn fill_handle(alloc: Global, made: Result<KeptMeter, u32>, meter: &mut MeterHandle) -> u32
    requires { meter.old.value ≡ None }
    ensures { MatchOption meter.new.value
        ((result ≡ MEMORY) ⊎ (made ≡ Err result))
        (λ new. (result ≡ DONE) × (made ≡ Ok new)) }
{
    match made {
        Ok(kept_meter) => match Box::new(alloc, kept_meter) {
            Ok(held) => {
                *meter = kept(Loose::of(held));
                DONE
            }
            Err(_) => MEMORY,
        },
        Err(code) => code,
    }
}

/// Makes a meter in which nothing has happened, in a handle that holds none.
#[unsafe(no_mangle)]
pub extern "C" fn dlms_meter_new(alloc: Global, meter: &mut MeterHandle) -> u32
    ensures full { (old : KeptMeterOf) → meter.old.value ≡ Some old
        → (result ≡ FULL) × (meter.new.value ≡ Some old) }
    ensures new { meter.old.value ≡ None
        → MatchOption meter.new.value ((result ≡ MEMORY)
        ⊎ (result ≡ DEVICE)) (λ new. (result ≡ DONE) × IsNewKept new) }
{
    let handle = replace(meter, none());
    if let Some(loose) = take_kept(handle, alloc) {
        *meter = kept(loose);
        return FULL;
    }
    fill_handle(alloc, KeptMeter::format(alloc), meter)
}

/// Makes a meter with every event that these slots hold, in a handle that holds none.
#[unsafe(no_mangle)]
pub extern "C" fn dlms_meter_recover(alloc: Global, meter: &mut MeterHandle, slots: &[u8]) -> u32
    ensures full { (old : KeptMeterOf) → meter.old.value ≡ Some old
        → (result ≡ FULL) × (meter.new.value ≡ Some old) }
    ensures size { meter.old.value ≡ None → length slots.now < 33728
        → (result ≡ SIZE) × (meter.new.value ≡ None) }
    ensures recovers { meter.old.value ≡ None → 33728 ≤ length slots.now
        → MatchOption meter.new.value (IsUnrecovered slots.now result) (λ new. (result ≡ DONE)
        × IsRecovered slots.now new) }
{
    let handle = replace(meter, none());
    if let Some(loose) = take_kept(handle, alloc) {
        *meter = kept(loose);
        return FULL;
    }
    if slots.len() < SLOTS {
        return SIZE;
    }
    fill_handle(alloc, KeptMeter::recover(alloc, slots), meter)
}

/// Takes octets through at most one frame. Its reply is returned by `dlms_meter_reply`, after the pages.
#[unsafe(no_mangle)]
pub extern "C" fn dlms_meter_feed(
    alloc: Global,
    meter: &mut MeterHandle,
    octets: &[u8],
    taken: &mut usize,
) -> u32
    ensures empty { meter.old.value ≡ None
        → (result ≡ EMPTY) × (taken.new ≡ 0) × (meter.new.value ≡ None) }
    ensures feeds { (old : KeptMeterOf) → meter.old.value ≡ Some old
        → (new : KeptMeterOf) × (meter.new.value ≡ Some new)
        × FeedsKept old octets.now result taken.new new }
{
    *taken = 0;
    let handle = replace(meter, none());
    let Some(loose) = take_kept(handle, alloc) else {
        return EMPTY;
    };
    let mut held = loose.into_box();
    let (code, count) = held.feed(octets);
    *taken = count;
    *meter = kept(Loose::of(held));
    code
}

/// Pulses on a channel.
#[unsafe(no_mangle)]
pub extern "C" fn dlms_meter_pulses(
    alloc: Global,
    meter: &mut MeterHandle,
    channel: u8,
    count: u32,
) -> u32
    ensures empty { meter.old.value ≡ None → (result ≡ EMPTY) × (meter.new.value ≡ None) }
    ensures judges { (old : KeptMeterOf) → meter.old.value ≡ Some old
        → (new : KeptMeterOf) × (meter.new.value ≡ Some new)
        × JudgesKept old (Pulses channel count) result new }
{
    let handle = replace(meter, none());
    let Some(loose) = take_kept(handle, alloc) else {
        return EMPTY;
    };
    let mut held = loose.into_box();
    let code = held.pulses(channel, count);
    *meter = kept(Loose::of(held));
    code
}

/// The meter's own running second.
#[unsafe(no_mangle)]
pub extern "C" fn dlms_meter_moment(alloc: Global, meter: &mut MeterHandle, second: u32) -> u32
    ensures empty { meter.old.value ≡ None → (result ≡ EMPTY) × (meter.new.value ≡ None) }
    ensures judges { (old : KeptMeterOf) → meter.old.value ≡ Some old
        → (new : KeptMeterOf) × (meter.new.value ≡ Some new)
        × JudgesKept old (Moment second) result new }
{
    let handle = replace(meter, none());
    let Some(loose) = take_kept(handle, alloc) else {
        return EMPTY;
    };
    let mut held = loose.into_box();
    let code = held.moment(second);
    *meter = kept(Loose::of(held));
    code
}

/// Silence on the line: half a frame is forgotten.
#[unsafe(no_mangle)]
pub extern "C" fn dlms_meter_idle(alloc: Global, meter: &mut MeterHandle) -> u32
    ensures empty { meter.old.value ≡ None → (result ≡ EMPTY) × (meter.new.value ≡ None) }
    ensures idle { (old : KeptMeterOf) → meter.old.value ≡ Some old
        → (new : KeptMeterOf) × (meter.new.value ≡ Some new) × FallsSilentKept old result new }
{
    let handle = replace(meter, none());
    let Some(loose) = take_kept(handle, alloc) else {
        return EMPTY;
    };
    let mut held = loose.into_box();
    let code = held.idle();
    *meter = kept(Loose::of(held));
    code
}

/// A connection has ended, or one begins: every client's link, association and transfers end.
#[unsafe(no_mangle)]
pub extern "C" fn dlms_meter_hang_up(alloc: Global, meter: &mut MeterHandle) -> u32
    ensures empty { meter.old.value ≡ None → (result ≡ EMPTY) × (meter.new.value ≡ None) }
    ensures hangs_up { (old : KeptMeterOf) → meter.old.value ≡ Some old
        → (new : KeptMeterOf) × (meter.new.value ≡ Some new) × HangsUpKept old result new }
{
    let handle = replace(meter, none());
    let Some(loose) = take_kept(handle, alloc) else {
        return EMPTY;
    };
    let mut held = loose.into_box();
    let code = held.hang_up();
    *meter = kept(Loose::of(held));
    code
}

/// Puts a slot into the caller's room.
fn put_slot(whole: &[u8; SLOT_BYTES], slot: &mut [u8])
    requires { SLOT_BYTES ≤ length slot.old }
    ensures { take SLOT_BYTES slot.new ≡ whole.now }
{
    slot[..SLOT_BYTES].copy_from_slice(whole.as_slice());
}

/// Puts a write or a sync: its index and its slot.
fn put_page(is_lost: bool, call: &Option<Call>, index: &mut u16, slot: &mut [u8]) -> u32
    requires { SLOT_BYTES ≤ length slot.old }
    ensures lost { is_lost ≡ true → result ≡ LOST }
    ensures tells { is_lost ≡ false
        → TellsPage call.now result index.new (take SLOT_BYTES slot.new) }
{
    if is_lost {
        return LOST;
    }
    match call {
        Some(Call::Write { index: at, bytes }) => {
            *index = *at;
            put_slot(&seal_slot(*at, bytes), slot);
            WRITE
        }
        Some(Call::Sync) => SYNC,
        None => NOTHING,
    }
}

/// The next write or sync to carry out. With a buffer of less than 544 octets nothing is done.
#[unsafe(no_mangle)]
pub extern "C" fn dlms_meter_page(
    alloc: Global,
    meter: &mut MeterHandle,
    index: &mut u16,
    slot: &mut [u8],
) -> u32
    ensures empty { meter.old.value ≡ None → (result ≡ EMPTY) × (meter.new.value ≡ None) }
    ensures short { (old : KeptMeterOf) → meter.old.value ≡ Some old → length slot.old < SLOT_BYTES
        → (result ≡ SHORT) × (meter.new.value ≡ Some old) }
    ensures page { (old : KeptMeterOf) → meter.old.value ≡ Some old → SLOT_BYTES ≤ length slot.old
        → (new : KeptMeterOf) × (meter.new.value ≡ Some new)
        × HandsPage old result index.new (take SLOT_BYTES slot.new) new }
{
    let handle = replace(meter, none());
    let Some(loose) = take_kept(handle, alloc) else {
        return EMPTY;
    };
    if slot.len() < SLOT_BYTES {
        *meter = kept(loose);
        return SHORT;
    }
    let mut held = loose.into_box();
    let is_lost = held.is_lost;
    let call = held.next_page();
    *meter = kept(Loose::of(held));
    put_page(is_lost, &call, index, slot)
}

/// A write or a sync could not be done: from now on the meter does nothing, until it is freed and recovered.
#[unsafe(no_mangle)]
pub extern "C" fn dlms_meter_page_failed(alloc: Global, meter: &mut MeterHandle) -> u32
    ensures empty { meter.old.value ≡ None → (result ≡ EMPTY) × (meter.new.value ≡ None) }
    ensures lost { (old : KeptMeterOf) → meter.old.value ≡ Some old
        → (result ≡ DONE) × (meter.new.value ≡ Some (record old { is_lost = true })) }
{
    let handle = replace(meter, none());
    let Some(loose) = take_kept(handle, alloc) else {
        return EMPTY;
    };
    let mut held = loose.into_box();
    held.lose();
    *meter = kept(Loose::of(held));
    DONE
}

/// The reply to the frame that was fed last, once, after all pages. If the buffer is too short nothing is done except that `size`
/// gets the required size.
#[unsafe(no_mangle)]
pub extern "C" fn dlms_meter_reply(
    alloc: Global,
    meter: &mut MeterHandle,
    frame: &mut [u8],
    size: &mut usize,
) -> u32
    ensures empty { meter.old.value ≡ None
        → (result ≡ EMPTY) × (size.new ≡ 0) × (meter.new.value ≡ None) }
    ensures reply { (old : KeptMeterOf) → meter.old.value ≡ Some old
        → (new : KeptMeterOf) × (meter.new.value ≡ Some new)
        × Replies old (length frame.old) result (take size.new frame.new) size.new new }
{
    *size = 0;
    let handle = replace(meter, none());
    let Some(loose) = take_kept(handle, alloc) else {
        return EMPTY;
    };
    let mut held = loose.into_box();
    let (code, count) = held.give(frame);
    *size = count;
    *meter = kept(Loose::of(held));
    code
}

/// The state of a meter, if there is one.
fn state_on(meter: &Option<Meter<RelayedPages<Global>, Global>>, state: &mut MeterState) -> u32
    ensures code { result ≡ closed_code meter.now }
    ensures left { result ≢ DONE → state.new ≡ state.old }
    ensures shows { result ≡ DONE → Shows meter.now state.new }
{
    match meter {
        Some(running) => {
            let now = running.state();
            let [active_import, active_export, reactive_import] = now.registers();
            *state = MeterState {
                active_import,
                active_export,
                reactive_import,
                second: now.clock(),
                running: now.last(),
                rows: now.rows().len(),
            };
            DONE
        }
        None => CLOSED,
    }
}

/// The state of the meter.
#[unsafe(no_mangle)]
pub extern "C" fn dlms_meter_state(
    alloc: Global,
    meter: &mut MeterHandle,
    state: &mut MeterState,
) -> u32
    ensures empty { meter.old.value ≡ None → (result ≡ EMPTY) × (meter.new.value ≡ None) }
    ensures kept { (old : KeptMeterOf) → meter.old.value ≡ Some old
        → (result ≡ closed_code old.meter) × (meter.new.value ≡ Some old) }
    ensures left { result ≢ DONE → state.new ≡ state.old }
    ensures state { (old : KeptMeterOf) → meter.old.value ≡ Some old → result ≡ DONE
        → Shows old.meter state.new }
{
    let handle = replace(meter, none());
    let Some(loose) = take_kept(handle, alloc) else {
        return EMPTY;
    };
    let held = loose.into_box();
    let code = state_on(&held.meter, state);
    *meter = kept(Loose::of(held));
    code
}

/// Settles what is pending: what that writes and syncs is still to be taken. Where the device has failed, what was pending is in doubt.
#[unsafe(no_mangle)]
pub extern "C" fn dlms_meter_close(alloc: Global, meter: &mut MeterHandle) -> u32
    ensures empty { meter.old.value ≡ None → (result ≡ EMPTY) × (meter.new.value ≡ None) }
    ensures closes { (old : KeptMeterOf) → meter.old.value ≡ Some old
        → (new : KeptMeterOf) × (meter.new.value ≡ Some new) × Closes old result new }
{
    let handle = replace(meter, none());
    let Some(loose) = take_kept(handle, alloc) else {
        return EMPTY;
    };
    let mut held = loose.into_box();
    let code = held.close();
    *meter = kept(Loose::of(held));
    code
}

/// Drops a meter, and everything that it had not settled.
#[unsafe(no_mangle)]
pub extern "C" fn dlms_meter_free(alloc: Global, meter: &mut MeterHandle)
    ensures { meter.new.value ≡ None }
{
    let handle = replace(meter, none());
    if let Some(loose) = take_kept(handle, alloc) {
        let _held = loose.into_box();
    }
}
