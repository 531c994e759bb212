//! A poll of a meter, as C keeps it.
ghost use Rattle.dlms_headend.specs.Asking.{AreSeconds};
ghost use Rattle.std.specs.Prelude.{◌≡◌, ◌≤◌, None, Some, ◌<◌, IfNone, IfSome, MatchOption, Option, length, take};
ghost use Rattle.dlms_data.specs.declared.date_time.TheConstants.{LAST_SECOND};
ghost use Rattle.dlms_frame.specs.declared.frame.TheConstants.{MOST_TEXT};
ghost use Rattle.dlms_frame.specs.Frame.{FrameSpelling, Parts};
ghost use Rattle.dlms_headend.specs.PollerValue.{plan_of as value_of};
ghost use Rattle.dlms_headend.specs.Polling.{Begins};
ghost use Rattle.dlms_headend.specs.declared.row.Row.{Row as RowOf};
ghost use Rattle.dlms_c.specs.Poll.{CanPoll, IsItem, IsNewPoller, IsPlanOf, IsRow, TakesFrame, Tells, TellsAgain, TellsFrame, TimesOutOnce, fault_code, fault_number};
ghost use Rattle.dlms_c.specs.declared.codes.TheConstants.{ARGUMENT, DONE, EMPTY, FULL, MEMORY, NOTHING, SHORT};
ghost use Rattle.dlms_c.specs.declared.kept_poller.KeptPoller.{KeptPoller as KeptPollerOf};

use crate::codes::{
    ARGUMENT, COLUMNS, DENIED, DONE, EMPTY, FULL, LINE, MEMORY, NOTHING, PROTOCOL, RESULT, SEND,
    SHORT,
};
use crate::kept_poller::KeptPoller;
use crate::loose::Loose;
use crate::poller_handle::{PollerHandle, kept, none, take_kept};
use arrayvec::ArrayVec;
use dlms_data::LAST_SECOND;
use dlms_frame::{Client, MOST_TEXT, SentFrame};
use dlms_headend::{Columns, Plan, PollFault, PollStep, Row};
use std::alloc::Global;
use std::mem::replace;

/// The plan of a poll.
#[repr(C)]
#[derive(Clone, Copy)]
pub struct PollPlan {
    /// The client's address.
    pub client: u8,
    /// Whether rows from a second on are asked for; else all.
    pub has_after: bool,
    /// The first second that is asked for, counted from 2000-01-01 00:00:00.
    pub after: u32,
    /// Whether the columns are asked for.
    pub asks_columns: bool,
}

/// A row that was polled.
#[repr(C)]
#[derive(Clone, Copy)]
pub struct PolledRow {
    pub second: u32,
    pub active_import: u32,
    pub active_export: u32,
    pub reactive_import: u32,
}

/// The plan of a poll, or none if no poll may have these arguments.
fn plan_of(plan: &PollPlan, secret: &[u8]) -> Option<Plan>
    ensures none { IfNone result (CanPoll plan.now secret.now → ⊥) }
    ensures some { IfSome result (λ made. CanPoll plan.now secret.now) }
    ensures plan { IfSome result (λ made. IsPlanOf plan.now secret.now (value_of made)) }
    ensures seconds { IfSome result (λ made. AreSeconds made.after made.until) }
{
    let client = Client::of_sap(plan.client)?;
    let mut octets = ArrayVec::new();
    if octets.try_extend_from_slice(secret).is_err() {
        return None;
    }
    if plan.has_after && plan.after > LAST_SECOND {
        return None;
    }
    Some(Plan {
        client,
        secret: octets,
        after: plan.has_after.then_some(plan.after),
        until: None,
        columns: if plan.asks_columns {
            Columns::Asked
        } else {
            Columns::Trusted
        },
    })
}

/// The code of a fault, and the number that it carries.
fn told(fault: PollFault) -> (u32, u8)
    ensures { (result.0 ≡ fault_code fault) × (result.1 ≡ fault_number fault) }
{
    match fault {
        PollFault::Refused(number) => (DENIED, number),
        PollFault::Result(number) => (RESULT, number),
        PollFault::Line => (LINE, 0),
        PollFault::Protocol => (PROTOCOL, 0),
        PollFault::Columns => (COLUMNS, 0),
        PollFault::Memory => (MEMORY, 0),
    }
}

/// Puts a frame into the caller's room.
fn put(sent: &SentFrame, frame: &mut [u8], size: &mut usize)
    requires { MOST_TEXT ≤ length frame.old }
    ensures text { FrameSpelling (take size.new frame.new) sent.now }
    ensures within { size.new ≤ length frame.new }
{
    let text = sent.put();
    let end = text.len();
    frame[..end].copy_from_slice(text.as_slice());
    *size = end;
}

/// Puts the frame that is to be sent, if there is one.
fn put_due(sent: &Option<SentFrame>, frame: &mut [u8], size: &mut usize) -> u32
    requires { MOST_TEXT ≤ length frame.old }
    ensures { TellsFrame sent.now result (take size.new frame.new) }
{
    match sent {
        Some(due) => {
            put(due, frame, size);
            SEND
        }
        None => {
            *size = 0;
            NOTHING
        }
    }
}

/// Puts what the poll made of a frame.
fn put_step(
    step: &Option<Result<PollStep, PollFault>>,
    frame: &mut [u8],
    size: &mut usize,
    number: &mut u8,
) -> u32
    requires { MOST_TEXT ≤ length frame.old }
    ensures { Tells step.now result (take size.new frame.new) number.new }
{
    *size = 0;
    *number = 0;
    match step {
        None | Some(Ok(PollStep::Nothing)) => NOTHING,
        Some(Ok(PollStep::Send(due))) => {
            put(due, frame, size);
            SEND
        }
        Some(Ok(PollStep::Done)) => DONE,
        Some(Err(fault)) => {
            let (code, carried) = told(*fault);
            *number = carried;
            code
        }
    }
}

/// Puts what comes of a time-out.
fn put_again(
    again: &Option<Result<SentFrame, PollFault>>,
    frame: &mut [u8],
    size: &mut usize,
    number: &mut u8,
) -> u32
    requires { MOST_TEXT ≤ length frame.old }
    ensures { TellsAgain again.now result (take size.new frame.new) number.new }
{
    *size = 0;
    *number = 0;
    match again {
        None => NOTHING,
        Some(Ok(due)) => {
            put(due, frame, size);
            SEND
        }
        Some(Err(fault)) => {
            let (code, carried) = told(*fault);
            *number = carried;
            code
        }
    }
}

/// Puts the row of this index.
fn put_row(rows: &[Row], index: usize, row: &mut PolledRow) -> u32
    ensures none { length rows.now ≤ index → (result ≡ NOTHING) × (row.new ≡ row.old) }
    ensures row { index < length rows.now
        → (polled : RowOf) × (result ≡ DONE) × IsItem rows.now index polled × IsRow row.new polled }
{
    let Some(polled) = rows.get(index) else {
        return NOTHING;
    };
    let [active_import, active_export, reactive_import] = polled.registers;
    *row = PolledRow {
        second: polled.clock,
        active_import,
        active_export,
        reactive_import,
    };
    DONE
}

/// Makes a poller, in a handle that holds none.
#[unsafe(no_mangle)]
pub extern "C" fn dlms_poller_new(
    alloc: Global,
    poller: &mut PollerHandle,
    plan: &PollPlan,
    secret: &[u8],
) -> u32
    ensures full { (old : KeptPollerOf) → poller.old.value ≡ Some old
        → (result ≡ FULL) × (poller.new.value ≡ Some old) }
    ensures argument { poller.old.value ≡ None → (CanPoll plan.now secret.now → ⊥)
        → (result ≡ ARGUMENT) × (poller.new.value ≡ None) }
    ensures new { poller.old.value ≡ None → CanPoll plan.now secret.now
        → MatchOption poller.new.value (result ≡ MEMORY) (λ new. (result ≡ DONE)
        × IsNewPoller plan.now secret.now new) }
{
    let handle = replace(poller, none());
    if let Some(loose) = take_kept(handle, alloc) {
        *poller = kept(loose);
        return FULL;
    }
    let Some(plan) = plan_of(plan, secret) else {
        return ARGUMENT;
    };
    match Box::new(alloc, KeptPoller::new(alloc, plan)) {
        Ok(held) => {
            *poller = kept(Loose::of(held));
            DONE
        }
        Err(_) => MEMORY,
    }
}

/// The first frame of the poll, once; none from then on. With a buffer of less than 160 octets nothing is done.
#[unsafe(no_mangle)]
pub extern "C" fn dlms_poller_next(
    alloc: Global,
    poller: &mut PollerHandle,
    frame: &mut [u8],
    size: &mut usize,
) -> u32
    ensures empty { poller.old.value ≡ None
        → (result ≡ EMPTY) × (size.new ≡ 0) × (poller.new.value ≡ None) }
    ensures short { (old : KeptPollerOf) → poller.old.value ≡ Some old
        → length frame.old < MOST_TEXT
        → (result ≡ SHORT) × (size.new ≡ 0) × (poller.new.value ≡ Some old) }
    ensures next { (old : KeptPollerOf) → poller.old.value ≡ Some old → MOST_TEXT ≤ length frame.old
        → (new : KeptPollerOf) × (due : Option Parts) × (poller.new.value ≡ Some new)
        × Begins old.poller due new.poller × TellsFrame due result (take size.new frame.new) }
{
    *size = 0;
    let handle = replace(poller, none());
    let Some(loose) = take_kept(handle, alloc) else {
        return EMPTY;
    };
    if frame.len() < MOST_TEXT {
        *poller = kept(loose);
        return SHORT;
    }
    let mut held = loose.into_box();
    let due = held.poller.next();
    *poller = kept(Loose::of(held));
    put_due(&due, frame, size)
}

/// Takes octets of the meter through at most one frame, and returns the outcome: nothing, a frame to send, that the poll is done,
/// or why it failed. With a buffer of less than 160 octets nothing is done.
#[unsafe(no_mangle)]
pub extern "C" fn dlms_poller_on(
    alloc: Global,
    poller: &mut PollerHandle,
    octets: &[u8],
    taken: &mut usize,
    frame: &mut [u8],
    size: &mut usize,
    number: &mut u8,
) -> u32
    ensures empty { poller.old.value ≡ None
        → (result ≡ EMPTY) × (taken.new ≡ 0) × (size.new ≡ 0) × (number.new ≡ 0)
        × (poller.new.value ≡ None) }
    ensures short { (old : KeptPollerOf) → poller.old.value ≡ Some old
        → length frame.old < MOST_TEXT
        → (result ≡ SHORT) × (taken.new ≡ 0) × (size.new ≡ 0) × (number.new ≡ 0)
        × (poller.new.value ≡ Some old) }
    ensures on { (old : KeptPollerOf) → poller.old.value ≡ Some old → MOST_TEXT ≤ length frame.old
        → (new : KeptPollerOf) × (poller.new.value ≡ Some new)
        × TakesFrame old octets.now taken.new result (take size.new frame.new) number.new new }
{
    *taken = 0;
    *size = 0;
    *number = 0;
    let handle = replace(poller, none());
    let Some(loose) = take_kept(handle, alloc) else {
        return EMPTY;
    };
    if frame.len() < MOST_TEXT {
        *poller = kept(loose);
        return SHORT;
    }
    let mut held = loose.into_box();
    let (count, step) = held.on(octets);
    *poller = kept(Loose::of(held));
    *taken = count;
    put_step(&step, frame, size, number)
}

/// A timeout of the frame that is out, which goes again; the fourth in a row is a fault. Nothing if no frame is out.
#[unsafe(no_mangle)]
pub extern "C" fn dlms_poller_timeout(
    alloc: Global,
    poller: &mut PollerHandle,
    frame: &mut [u8],
    size: &mut usize,
    number: &mut u8,
) -> u32
    ensures empty { poller.old.value ≡ None
        → (result ≡ EMPTY) × (size.new ≡ 0) × (number.new ≡ 0) × (poller.new.value ≡ None) }
    ensures short { (old : KeptPollerOf) → poller.old.value ≡ Some old
        → length frame.old < MOST_TEXT
        → (result ≡ SHORT) × (size.new ≡ 0) × (number.new ≡ 0) × (poller.new.value ≡ Some old) }
    ensures timeout { (old : KeptPollerOf) → poller.old.value ≡ Some old
        → MOST_TEXT ≤ length frame.old
        → (new : KeptPollerOf) × (poller.new.value ≡ Some new)
        × TimesOutOnce old result (take size.new frame.new) number.new new }
{
    *size = 0;
    *number = 0;
    let handle = replace(poller, none());
    let Some(loose) = take_kept(handle, alloc) else {
        return EMPTY;
    };
    if frame.len() < MOST_TEXT {
        *poller = kept(loose);
        return SHORT;
    }
    let mut held = loose.into_box();
    let again = held.again();
    *poller = kept(Loose::of(held));
    put_again(&again, frame, size, number)
}

/// How many rows were polled; none before they are there.
#[unsafe(no_mangle)]
pub extern "C" fn dlms_poller_rows(
    alloc: Global,
    poller: &mut PollerHandle,
    count: &mut usize,
) -> u32
    ensures empty { poller.old.value ≡ None
        → (result ≡ EMPTY) × (count.new ≡ 0) × (poller.new.value ≡ None) }
    ensures rows { (old : KeptPollerOf) → poller.old.value ≡ Some old
        → (result ≡ DONE) × (count.new ≡ length old.poller.talk.rows)
        × (poller.new.value ≡ Some old) }
{
    *count = 0;
    let handle = replace(poller, none());
    let Some(loose) = take_kept(handle, alloc) else {
        return EMPTY;
    };
    let held = loose.into_box();
    *count = held.poller.rows().len();
    *poller = kept(Loose::of(held));
    DONE
}

/// The row with this index, counted from 0; nothing after the last one.
#[unsafe(no_mangle)]
pub extern "C" fn dlms_poller_row(
    alloc: Global,
    poller: &mut PollerHandle,
    index: usize,
    row: &mut PolledRow,
) -> u32
    ensures empty { poller.old.value ≡ None → (result ≡ EMPTY) × (poller.new.value ≡ None) }
    ensures kept { (old : KeptPollerOf) → poller.old.value ≡ Some old
        → poller.new.value ≡ Some old }
    ensures none { (old : KeptPollerOf) → poller.old.value ≡ Some old
        → length old.poller.talk.rows ≤ index → (result ≡ NOTHING) × (row.new ≡ row.old) }
    ensures row { (old : KeptPollerOf) → poller.old.value ≡ Some old
        → index < length old.poller.talk.rows
        → (polled : RowOf) × (result ≡ DONE) × IsItem old.poller.talk.rows index polled
        × IsRow row.new polled }
{
    let handle = replace(poller, none());
    let Some(loose) = take_kept(handle, alloc) else {
        return EMPTY;
    };
    let held = loose.into_box();
    let code = put_row(held.poller.rows(), index, row);
    *poller = kept(Loose::of(held));
    code
}

/// Lets a poller go.
#[unsafe(no_mangle)]
pub extern "C" fn dlms_poller_free(alloc: Global, poller: &mut PollerHandle)
    ensures { poller.new.value ≡ None }
{
    let handle = replace(poller, none());
    if let Some(loose) = take_kept(handle, alloc) {
        let _held = loose.into_box();
    }
}
