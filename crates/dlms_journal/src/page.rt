//! Pages: their head and payload.
ghost use Rattle.std.specs.Prelude.{◌≡◌, ◌≤◌, ◌+◌, ◌-◌, ◌++◌, ◌∷◌, [], List, ℕ, length, drop, take, replicate, IfSome, option_map, slice_index};
ghost use Rattle.byteorder.specs.Endian.{big_bytes, big_number};
ghost use Rattle.dlms_journal.specs.Page.{IsPage, head_of, kind_named, number_of, payload_at};
ghost use Rattle.dlms_journal.specs.declared.page.TheConstants.{MOST_PAYLOAD, VERSION};

use crate::kind::PageKind;
use byteorder::{BigEndian, ByteOrder};

/// The bytes of a page.
pub const PAGE_BYTES: usize = 512;

/// The bytes of a page's head.
const HEAD_BYTES: usize = 16;

/// The most bytes of payload.
pub const MOST_PAYLOAD: usize = 496;

/// The version of the layout that is written.
pub const VERSION: u8 = 2;

/// The head of a page.
fn head_bytes(kind: PageKind, index: u16, generation: u64, payload: u16) -> [u8; HEAD_BYTES]
    ensures { result ≡ number_of kind ∷ VERSION
        ∷ (big_bytes 2 index ++ (big_bytes 8 generation ++ (big_bytes 2 payload ++ 0 ∷ 0 ∷ []))) }
{
    let [i0, i1] = index.to_be_bytes();
    let [g0, g1, g2, g3, g4, g5, g6, g7] = generation.to_be_bytes();
    let [p0, p1] = payload.to_be_bytes();
    [
        kind.number(),
        VERSION,
        i0,
        i1,
        g0,
        g1,
        g2,
        g3,
        g4,
        g5,
        g6,
        g7,
        p0,
        p1,
        0,
        0,
    ]
}

/// A head and a payload, followed by zeros.
fn join_page(head: &[u8; HEAD_BYTES], payload: &[u8]) -> [u8; PAGE_BYTES]
    requires { length payload.now ≤ MOST_PAYLOAD }
    ensures { result ≡ head.now ++ (payload.now
        ++ replicate (MOST_PAYLOAD - length payload.now) 0) }
{
    let mut page = [0; PAGE_BYTES];
    let (front, behind) = page.split_at_mut(HEAD_BYTES);
    front.copy_from_slice(head);
    let (room, _zeros) = behind.split_at_mut(payload.len());
    room.copy_from_slice(payload);
    page
}

/// A page of the present version: kind, version, index, generation and the payload's length, two zeros, the payload, and
/// zeros to its end.
pub fn page_of(kind: PageKind, index: u16, generation: u64, payload: &[u8]) -> [u8; PAGE_BYTES]
    requires { length payload.now ≤ MOST_PAYLOAD }
    ensures { IsPage result kind index generation payload.now }
{
    let head = head_bytes(kind, index, generation, payload.len() as u16);
    join_page(&head, payload)
}

/// The kind of a page; none if its number is unknown.
pub fn kind_of(page: &[u8; PAGE_BYTES]) -> Option<PageKind>
    ensures { result ≡ kind_named (head_of page.now).kind }
{
    PageKind::of_number(page[0])
}

/// The version of the layout by which a page was written.
pub fn version_of(page: &[u8; PAGE_BYTES]) -> u8
    ensures { result ≡ (head_of page.now).version }
{
    page[1]
}

/// A page's place within its kind and slot, counted from 0; a gate's is its slot.
pub fn index_of(page: &[u8; PAGE_BYTES]) -> u16
    ensures { result ≡ (head_of page.now).index }
{
    BigEndian::read_u16(&page[2..])
}

/// The generation of the checkpoint that a page belongs to.
pub fn generation_of(page: &[u8; PAGE_BYTES]) -> u64
    ensures { result ≡ (head_of page.now).generation }
{
    BigEndian::read_u64(&page[4..])
}

/// A page's payload; none if its length exceeds a page.
pub fn payload_of(page: &[u8; PAGE_BYTES]) -> Option<&[u8]>
    ensures { option_map (λ payload. payload.now) result ≡ payload_at page.now }
{
    let count = usize::from(BigEndian::read_u16(&page[12..]));
    if count > MOST_PAYLOAD {
        return None;
    }
    Some(&page[HEAD_BYTES..HEAD_BYTES + count])
}
