//! What a slot contains.

use arrayvec::ArrayVec;
use std::marker::Model;

/// The most peers that a file has room for.
pub const MOST_PEERS: usize = 39;

/// The last accepted counter of a peer.
#[derive(Clone, Copy, Debug, PartialEq, Eq)]
pub struct Peer {
    /// The peer's system title.
    pub title: [u8; 8],
    /// The frame counter of the last message that was accepted from it.
    pub counter: u32,
}

impl Default for Peer {
    fn default() -> Peer {
        Peer {
            title: [0; 8],
            counter: 0,
        }
    }
}

/// The contents of a slot.
#[derive(Drop)]
pub struct Counters {
    /// One more than in the slot that was written before.
    pub sequence: u64,
    /// The own system title.
    pub own: [u8; 8],
    /// What identifies the key.
    pub fingerprint: [u8; 16],
    /// The end of the reservation: every own counter below it may have been used.
    pub reserved: u32,
    /// The peers of which a message was accepted.
    pub peers: ArrayVec<Peer, MOST_PEERS>,
}

impl Model for Counters {
    ghost use Rattle.dlms_counters.specs.Slot.{CounterState};

    ghost Value = { CounterState };

    ghost view = { λ c. record {
      sequence = c.sequence;
      own = c.own;
      fingerprint = c.fingerprint;
      reserved = c.reserved;
      peers = c.peers.items;
    } };
}

impl Counters {
    ghost use Rattle.std.specs.Prelude.{◌≡◌};
    ghost use Rattle.dlms_counters.specs.Slot.{first_of};

    /// The first contents of a file: no message was accepted.
    pub fn new(own: [u8; 8], fingerprint: [u8; 16], reserved: u32) -> Counters
        ensures { result ≡ first_of own fingerprint reserved }
    {
        Counters {
            sequence: 1,
            own,
            fingerprint,
            reserved,
            peers: ArrayVec::new(),
        }
    }
}
