//! What each call makes of the contents.
ghost use Rattle.std.specs.Prelude.{◌≡◌, ◌<◌, ◌+◌, ◌-◌, ◌^◌};
ghost use Rattle.dlms_counters.specs.Change.{accepting, reserving};
ghost use Rattle.dlms_counters.specs.Table.{is_full, is_known};

use crate::counters::{Counters, MOST_PEERS, Peer};
use crate::fault::CounterFault;
use crate::slot::peers_of;
use crate::table::{copy_of, last_of, with_counter};
use arrayvec::ArrayVec;

/// Whether a counter is not above the last accepted one.
fn is_known(last: Option<u32>, counter: u32) -> bool
    ensures { result ≡ is_known last counter }
{
    match last {
        None => false,
        Some(last) => counter <= last,
    }
}

/// Whether there is no room for a peer.
fn is_full(last: Option<u32>, full: bool) -> bool
    ensures { result ≡ is_full last full }
{
    match last {
        None => full,
        Some(_) => false,
    }
}

/// The contents that follow, with this reservation and these peers.
fn next_of(counters: &Counters, reserved: u32, peers: ArrayVec<Peer, MOST_PEERS>) -> Counters
    requires { counters.now.sequence < 2 ^ 64 - 1 }
    ensures { result ≡ record counters.now {
      sequence = counters.now.sequence + 1;
      reserved = reserved;
      peers = peers.items;
    } }
{
    Counters {
        sequence: counters.sequence + 1,
        own: counters.own,
        fingerprint: counters.fingerprint,
        reserved,
        peers,
    }
}

/// The contents after a reservation.
pub fn reserving(stopped: bool, step: u32, counters: &Counters) -> Result<Counters, CounterFault>
    ensures { result ≡ reserving stopped step counters.now }
{
    if stopped {
        return Err(CounterFault::Stopped);
    }
    if counters.sequence == u64::MAX {
        return Err(CounterFault::Exhausted);
    }
    let peers = copy_of(peers_of(counters));
    let reserved = counters.reserved.saturating_add(step);
    Ok(next_of(counters, reserved, peers))
}

/// The contents after an accepted counter; none if nothing changes.
pub fn accepting(
    stopped: bool,
    title: &[u8; 8],
    counter: u32,
    counters: &Counters,
) -> Result<Option<Counters>, CounterFault>
    ensures { result ≡ accepting stopped title.now counter counters.now }
{
    if stopped {
        return Err(CounterFault::Stopped);
    }
    let peers = peers_of(counters);
    let last = last_of(peers, title);
    if is_known(last, counter) {
        return Ok(None);
    }
    if is_full(last, peers.len() >= MOST_PEERS) {
        return Err(CounterFault::Full);
    }
    if counters.sequence == u64::MAX {
        return Err(CounterFault::Exhausted);
    }
    let changed = with_counter(peers, title, counter);
    Ok(Some(next_of(counters, counters.reserved, changed)))
}
