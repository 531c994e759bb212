//! The last accepted counters of the peers.
ghost use Rattle.std.specs.Prelude.{◌≡◌, ◌≤◌, ◌++◌, ◌∷◌, [], length, nat_le, true, false, None};
ghost use Rattle.std.specs.Str.{bytes_eq};
ghost use Rattle.dlms_counters.specs.Table.{is_full, last_of, with_counter};
ghost use Rattle.dlms_counters.specs.declared.counters.TheConstants.{MOST_PEERS};

use crate::counters::{MOST_PEERS, Peer};
use arrayvec::ArrayVec;

/// The last accepted counter of a peer.
pub fn last_of(peers: &[Peer], title: &[u8; 8]) -> Option<u32>
    ensures { result ≡ last_of peers.now title.now }
{
    for peer in peers {
        if is_of(peer, title) {
            return Some(peer.counter);
        }
    }
    None
}

/// Whether this is the peer with this title.
fn is_of(peer: &Peer, title: &[u8; 8]) -> bool
    ensures { result ≡ bytes_eq peer.now.title title.now }
{
    peer.title == *title
}

/// Replaces the counter of a peer. Returns whether it is there.
fn replace(peers: &mut [Peer], title: &[u8; 8], counter: u32) -> bool
    ensures there { result ≡ true → peers.new ≡ with_counter title.now counter peers.old }
    ensures same { result ≡ false → peers.new ≡ peers.old }
    ensures none { result ≡ false → last_of peers.old title.now ≡ None }
    ensures absent { result ≡ false → with_counter title.now counter peers.old
        ≡ peers.old ++ record { title = title.now; counter = counter } ∷ [] }
{
    for index in 0..peers.len() {
        let is_there = is_of(&peers[index], title);
        if is_there {
            peers[index].counter = counter;
            return true;
        }
    }
    false
}

/// A copy of the peers.
pub fn copy_of(peers: &[Peer]) -> ArrayVec<Peer, MOST_PEERS>
    requires { length peers.now ≤ MOST_PEERS }
    ensures { result.items ≡ peers.now }
{
    let mut copy = ArrayVec::new();
    let _fits = copy.try_extend_from_slice(peers);
    copy
}

/// The peers, with this counter of the one with this title, which is there or has room.
pub fn with_counter(peers: &[Peer], title: &[u8; 8], counter: u32) -> ArrayVec<Peer, MOST_PEERS>
    requires few { length peers.now ≤ MOST_PEERS }
    requires room { is_full (last_of peers.now title.now)
        (nat_le MOST_PEERS (length peers.now)) ≡ false }
    ensures { result.items ≡ with_counter title.now counter peers.now }
{
    let mut next = copy_of(peers);
    let is_there = replace(next.as_mut_slice(), title, counter);
    if !is_there {
        next.push(Peer {
            title: *title,
            counter,
        });
    }
    next
}
