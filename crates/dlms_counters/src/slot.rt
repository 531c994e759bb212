//! The bytes of a slot.
ghost use Rattle.std.specs.Prelude.{◌≡◌, ◌≤◌, ◌<◌, ◌+◌, ◌*◌, ◌-◌, ◌++◌, ℕ, List, ◌^◌, drop, length, replicate, take, true, Some};
ghost use Rattle.byteorder.specs.Endian.{big_bytes, big_number};
ghost use Rattle.dlms_counters.specs.Slot.{counters_in, fields_in, head_of, is_slot, peer_at, peers_in};
ghost use Rattle.dlms_counters.specs.declared.counters.TheConstants.{MOST_PEERS};

use crate::counters::{Counters, MOST_PEERS, Peer};
use arrayvec::ArrayVec;
use byteorder::{BigEndian, ByteOrder};
use dlms_pages::PAGE_BYTES;

/// The number of the format, which begins a slot. A page of zeros has another.
pub const FORMAT: u16 = 0x4301;

/// The bytes in front of the peers.
pub const HEAD_BYTES: usize = 40;

/// The bytes of a peer: its title and its counter.
pub const PEER_BYTES: usize = 12;

/// The most bytes of the peers.
const ENTRY_BYTES: usize = PEER_BYTES * MOST_PEERS;

/// The first 8 bytes.
fn title_at(bytes: &[u8]) -> [u8; 8]
    requires { 8 ≤ length bytes.now }
    ensures { result ≡ take 8 bytes.now }
{
    let mut title = [0u8; 8];
    title.copy_from_slice(&bytes[..8]);
    title
}

/// The first 16 bytes.
fn fingerprint_at(bytes: &[u8]) -> [u8; 16]
    requires { 16 ≤ length bytes.now }
    ensures { result ≡ take 16 bytes.now }
{
    let mut fingerprint = [0u8; 16];
    fingerprint.copy_from_slice(&bytes[..16]);
    fingerprint
}

/// The peer in the first 12 bytes.
fn peer_at(bytes: &[u8]) -> Peer
    requires { 12 ≤ length bytes.now }
    ensures { result ≡ peer_at bytes.now }
{
    Peer {
        title: title_at(bytes),
        counter: BigEndian::read_u32(&bytes[8..]),
    }
}

/// The first peers of a list of them.
fn peers_in(count: usize, bytes: &[u8]) -> ArrayVec<Peer, MOST_PEERS>
    requires few { count ≤ MOST_PEERS }
    requires room { 12 * count ≤ length bytes.now }
    ensures { result.items ≡ peers_in count bytes.now }
{
    let mut peers = ArrayVec::new();
    for index in 0..count {
        peers.push(peer_at(&bytes[PEER_BYTES * index..]));
    }
    peers
}

/// Whether a page is a slot of this format, with a possible number of peers.
fn is_slot(page: &[u8; PAGE_BYTES]) -> bool
    ensures { result ≡ is_slot page.now }
{
    BigEndian::read_u16(&page[..]) == FORMAT
        && usize::from(BigEndian::read_u16(&page[2..])) <= MOST_PEERS
}

/// The rest of a page from a place on.
fn rest_from(page: &[u8], at: usize) -> &[u8]
    requires { at ≤ length page.now }
    ensures rest { result.now ≡ drop at page.now }
    ensures length { length result.now + at ≡ length page.now }
{
    &page[at..]
}

/// The number of peers in a slot.
fn count_in(page: &[u8]) -> usize
    requires length { length page.now ≡ 512 }
    requires slot { is_slot page.now ≡ true }
    ensures value { result ≡ big_number 2 (drop 2 page.now) }
    ensures few { result ≤ MOST_PEERS }
{
    usize::from(BigEndian::read_u16(&page[2..]))
}

/// The contents of a slot's fields.
fn fields_in(page: &[u8]) -> Counters
    requires length { length page.now ≡ 512 }
    requires slot { is_slot page.now ≡ true }
    ensures { result ≡ fields_in page.now }
{
    let numbered = rest_from(page, 4);
    let titled = rest_from(page, 12);
    let keyed = rest_from(page, 20);
    let ended = rest_from(page, 36);
    let listed = rest_from(page, HEAD_BYTES);
    let count = count_in(page);
    Counters {
        sequence: BigEndian::read_u64(numbered),
        own: title_at(titled),
        fingerprint: fingerprint_at(keyed),
        reserved: BigEndian::read_u32(ended),
        peers: peers_in(count, listed),
    }
}

/// The contents of a page, if it is a slot.
pub fn counters_in(page: &[u8; PAGE_BYTES]) -> Option<Counters>
    ensures { result ≡ counters_in page.now }
{
    if is_slot(page) {
        Some(fields_in(page.as_slice()))
    } else {
        None
    }
}

/// The bytes in front of the peers.
fn head_of(counters: &Counters) -> ArrayVec<u8, PAGE_BYTES>
    ensures bytes { result.items ≡ head_of counters.now }
    ensures length { length result.items ≡ 40 }
    ensures own { length counters.now.own ≡ 8 }
    ensures fingerprint { length counters.now.fingerprint ≡ 16 }
    ensures sequence { counters.now.sequence < 2 ^ 64 }
    ensures reserved { counters.now.reserved < 2 ^ 32 }
{
    let mut head = ArrayVec::new();
    let count = counters.peers.len() as u16;
    let _fits = head.try_extend_from_slice(&FORMAT.to_be_bytes());
    let _fits = head.try_extend_from_slice(&count.to_be_bytes());
    let _fits = head.try_extend_from_slice(&counters.sequence.to_be_bytes());
    let _fits = head.try_extend_from_slice(&counters.own);
    let _fits = head.try_extend_from_slice(&counters.fingerprint);
    let _fits = head.try_extend_from_slice(&counters.reserved.to_be_bytes());
    head
}

/// The bytes of a peer.
fn entry_of(peer: &Peer) -> [u8; PEER_BYTES]
    ensures bytes { result ≡ peer.now.title ++ big_bytes 4 peer.now.counter }
    ensures title { length peer.now.title ≡ 8 }
    ensures counter { peer.now.counter < 2 ^ 32 }
{
    let [t0, t1, t2, t3, t4, t5, t6, t7] = peer.title;
    let [c0, c1, c2, c3] = peer.counter.to_be_bytes();
    [t0, t1, t2, t3, t4, t5, t6, t7, c0, c1, c2, c3]
}

/// Appends the bytes of a peer.
fn push_peer(bytes: &mut ArrayVec<u8, ENTRY_BYTES>, peer: &Peer)
    requires { length bytes.old.items + 12 ≤ 468 }
    ensures bytes { bytes.new.items
        ≡ bytes.old.items ++ (peer.now.title ++ big_bytes 4 peer.now.counter) }
    ensures length { length bytes.new.items ≡ length bytes.old.items + 12 }
    ensures title { length peer.now.title ≡ 8 }
    ensures counter { peer.now.counter < 2 ^ 32 }
{
    let entry = entry_of(peer);
    let _fits = bytes.try_extend_from_slice(&entry);
}

/// The bytes of peers, one after another.
fn entries_of(peers: &[Peer]) -> ArrayVec<u8, ENTRY_BYTES>
    requires { length peers.now ≤ MOST_PEERS }
    ensures length { length result.items ≡ 12 * length peers.now }
    ensures peers { (rest : List ℕ)
        → peers_in (length peers.now) (result.items ++ rest) ≡ peers.now }
{
    let mut bytes = ArrayVec::new();
    for peer in peers {
        push_peer(&mut bytes, peer);
    }
    bytes
}

/// The peers.
pub fn peers_of(counters: &Counters) -> &[Peer]
    ensures peers { result.now ≡ counters.now.peers }
    ensures few { length result.now ≤ MOST_PEERS }
{
    counters.peers.as_slice()
}

/// The bytes, followed by zeros.
fn pad(bytes: &[u8]) -> [u8; PAGE_BYTES]
    requires { length bytes.now ≤ 512 }
    ensures { result ≡ bytes.now ++ replicate (512 - length bytes.now) 0 }
{
    let mut page = [0; PAGE_BYTES];
    let (front, _zeros) = page.split_at_mut(bytes.len());
    front.copy_from_slice(bytes);
    page
}

/// A head and the bytes of peers, followed by zeros.
fn join(head: ArrayVec<u8, PAGE_BYTES>, entries: &[u8]) -> [u8; PAGE_BYTES]
    requires { length head.items + length entries.now ≤ 512 }
    ensures { result ≡ (head.items ++ entries.now)
        ++ replicate (512 - length (head.items ++ entries.now)) 0 }
{
    let mut bytes = head;
    let _fits = bytes.try_extend_from_slice(entries);
    pad(bytes.as_slice())
}

/// The slot with these contents.
pub fn slot_of(counters: &Counters) -> [u8; PAGE_BYTES]
    ensures { counters_in result ≡ Some counters.now }
{
    let head = head_of(counters);
    let peers = peers_of(counters);
    let entries = entries_of(peers);
    join(head, entries.as_slice())
}
