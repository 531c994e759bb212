//! The frame counters of the client and of its meters, between associations.

ghost use Rattle.std.specs.Prelude.{◌≡◌};
ghost use Rattle.dlms_guards.specs.Counters.{Heeds, Keeps, Skips, is_fresh};

use crate::fault::GuardFault;
use dlms_counters::{CounterFault, CounterFile};
use dlms_pages::Pages;

/// How many octets a system title has.
const TITLE: usize = 8;

/// Whether an association with the meter of this title may be heeded that accepted a message with this counter first: the counter is
/// above every one that earlier associations accepted. One that accepted no message may be, too.
pub fn is_fresh<P: Pages>(
    stored: &CounterFile<P>,
    title: Option<[u8; TITLE]>,
    counter: Option<u32>,
) -> bool
    ensures { result ≡ is_fresh stored.now.counters.peers title counter }
{
    match (title, counter) {
        (Some(title), Some(counter)) => match stored.accepted(&title) {
            Some(last) => last < counter,
            None => true,
        },
        _ => true,
    }
}

/// Keeps the counter of the last message that an association accepted from the meter of this title, if it accepted one.
pub fn keep<P: Pages>(
    stored: &mut CounterFile<P>,
    title: Option<[u8; TITLE]>,
    counter: Option<u32>,
) -> Result<(), CounterFault>
    ensures { Keeps title counter stored.old stored.new result }
{
    match (title, counter) {
        (Some(title), Some(counter)) => stored.accept(&title, counter),
        _ => Ok(()),
    }
}

/// Raises the end of the reservation past the counter that the meter accepted last from the client. No counter is above 2^32 - 1: after
/// that one the key has to be replaced (`Exhausted`).
pub fn skip<P: Pages>(stored: &mut CounterFile<P>, last: u32) -> Result<(), CounterFault>
    ensures { Skips last stored.old stored.new result }
{
    let Some(first) = last.checked_add(1) else {
        return Err(CounterFault::Exhausted);
    };
    match first.checked_sub(stored.reserved()) {
        None | Some(0) => Ok(()),
        Some(step) => match stored.reserve(step) {
            Ok(_) => Ok(()),
            Err(fault) => Err(fault),
        },
    }
}

/// Keeps the counter of the last message that an association accepted from the meter of this title. If the first one, with the counter
/// `oldest`, was not newer than those of earlier associations, that is the fault `Stale`, and nothing is kept.
pub fn heed<P: Pages>(
    stored: &mut CounterFile<P>,
    title: Option<[u8; TITLE]>,
    oldest: Option<u32>,
    latest: Option<u32>,
) -> Result<(), GuardFault>
    ensures { Heeds title oldest latest stored.old stored.new result }
{
    if !is_fresh(stored, title, oldest) {
        return Err(GuardFault::Stale);
    }
    match keep(stored, title, latest) {
        Ok(()) => Ok(()),
        Err(fault) => Err(GuardFault::Stored(fault)),
    }
}
