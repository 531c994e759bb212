//! A state as the bytes of a checkpoint: the content of its bodies, and the ring pages that they name.
ghost use Rattle.std.specs.Prelude.{◌≡◌, ◌≤◌, ◌<◌, ◌*◌, ◌+◌, ◌++◌, ◌^◌, All, length, take, nat_eq, if◌then◌else◌};
ghost use Rattle.arrayvec.specs.ArrayVec.{array_vec_len};
ghost use Rattle.dlms_profile.specs.Rows.{none_before};
ghost use Rattle.dlms_state.specs.StateValue.{state_of_parts};
ghost use Rattle.dlms_checkpoint.specs.Checkpoint.{AreBytes, HoldsRows, IsNamed, checkpoint_bytes, place_of, places_of, row_width};
ghost use Rattle.dlms_state.specs.Columns.{IsRowOf};

use crate::fields::{HEAD_BYTES, MOST_ROW_BYTES, append, append_row, head_of};
use arrayvec::ArrayVec;
use dlms_profile::Rows;
use dlms_state::{Parts, SecretOf, State};
use std::alloc::Allocator;
use std::marker::Model;

/// The most bytes of a body: those of a page's payload.
pub const MOST_BODY: usize = 496;

/// How many rows a ring page holds.
pub const RING_ROWS: usize = 30;

/// The most bytes of a ring page's rows: with four columns.
pub const RING_BYTES: usize = RING_ROWS * MOST_ROW_BYTES;

/// The most bytes in bodies: the head, and the rows of a ring page that is not filled.
pub(crate) const MOST_BYTES: usize = HEAD_BYTES + MOST_ROW_BYTES * (RING_ROWS - 1);

/// One above the greatest number of a row.
pub(crate) const NUMBERS_END: u128 = 18_446_744_073_709_551_616;

/// The bytes of a state's bodies, which are read body by body. They are in a fixed buffer of 788 bytes and take no memory.
#[derive(Drop)]
pub struct Checkpoint {
    bytes: ArrayVec<u8, MOST_BYTES>,
}

impl Model for Checkpoint {
    ghost use Rattle.std.specs.Prelude.{List, ℕ};

    ghost Value = { List ℕ };

    ghost view = { λ c. c.bytes.items };
}

impl Checkpoint {
    ghost use Rattle.dlms_checkpoint.specs.Bodies.{body_at, body_count};

    /// How many bodies there are, 1 or 2: none of them is empty.
    pub fn body_count(&self) -> u16
        ensures { result ≡ body_count self.now }
    {
        self.bytes.len().div_ceil(MOST_BODY) as u16
    }

    /// The body at this place, counted from 0; empty past the last.
    pub fn body(&self, index: u16) -> &[u8]
        ensures bytes { result.now ≡ body_at index self.now }
        ensures fits { length result.now ≤ MOST_BODY }
    {
        let first = (MOST_BODY * usize::from(index)).min(self.bytes.len());
        let rest = &self.bytes.as_slice()[first..];
        &rest[..rest.len().min(MOST_BODY)]
    }
}

/// The bytes of a state's bodies, in the present layout.
#[tactic(auto, unfolding(crate::specs::Checkpoint::checkpoint_bytes))]
pub fn checkpoint_of<A: Allocator + Copy>(state: &State<A>) -> Checkpoint
    ensures bytes { result ≡ checkpoint_bytes state.now }
    ensures spelled { AreBytes state.now result }
{
    let mut bytes = ArrayVec::new();
    let rows = state.rows();
    let next = rows.next_number();
    let unfilled = next % RING_ROWS as u128;
    let head = head_of(
        &parts_of(state),
        first_written(rows.first_number()),
        next_written(next),
    );
    append(&mut bytes, head.as_slice());
    append_places(
        &mut bytes,
        state.columns(),
        rows,
        next - unfilled,
        unfilled as usize,
    );
    Checkpoint { bytes }
}

/// The rows of a ring page that the state's checkpoint names, 30 places of four bytes a column: the caller must have seen that all of them were
/// captured and that the last one is still kept.
pub fn ring_page_of<A: Allocator + Copy>(state: &State<A>, page: u64) -> ArrayVec<u8, RING_BYTES>
    requires { IsNamed state.now.rows page }
    ensures places { result.items ≡ places_of state.now.columns state.now.rows
        (RING_ROWS * page) RING_ROWS }
    ensures holds { HoldsRows state.now.columns state.now.rows
        (RING_ROWS * page) RING_ROWS result.items }
{
    let mut places = ArrayVec::new();
    let rows = state.rows();
    let _order = rows.next_number();
    let from = RING_ROWS as u128 * u128::from(page);
    append_places(&mut places, state.columns(), rows, from, RING_ROWS);
    places
}

/// The number of the first row as it is written.
pub(crate) fn first_written(first: u128) -> u64
    requires { first ≤ 2 ^ 64 }
    ensures { result ≡ if nat_eq first (2 ^ 64) then 1 else first }
{
    if first == NUMBERS_END {
        1
    } else {
        first as u64
    }
}

/// The number after the last row as it is written.
pub(crate) fn next_written(next: u128) -> u64
    requires { next ≤ 2 ^ 64 }
    ensures { result ≡ if nat_eq next (2 ^ 64) then 0 else next }
{
    if next == NUMBERS_END { 0 } else { next as u64 }
}

/// Appends the place of a captured row: its bytes, or zeros if it is no longer kept.
fn append_place<const N: usize, A: Allocator + Copy>(
    bytes: &mut ArrayVec<u8, N>,
    columns: &[u8],
    rows: &Rows<A>,
    number: u128,
)
    requires few { length columns.now ≤ 4 }
    requires rows { All (IsRowOf columns.now) rows.now.items }
    requires room { array_vec_len bytes.old + row_width columns.now ≤ N }
    requires captured { number < rows.now.next }
    ensures items { bytes.new.items ≡ bytes.old.items ++ place_of columns.now rows.now number }
    ensures len { array_vec_len bytes.new ≡ array_vec_len bytes.old + row_width columns.now }
{
    let first = rows.first_number();
    let _order = rows.next_number();
    if number < first {
        append(bytes, &[0; MOST_ROW_BYTES][..4 * columns.len()]);
    } else if let Some(row) = rows.get((number - first) as usize) {
        append_row(bytes, row);
    }
}

/// Appends so many places from that of this number on.
fn append_places<const N: usize, A: Allocator + Copy>(
    bytes: &mut ArrayVec<u8, N>,
    columns: &[u8],
    rows: &Rows<A>,
    from: u128,
    count: usize,
)
    requires few { length columns.now ≤ 4 }
    requires rows { All (IsRowOf columns.now) rows.now.items }
    requires room { array_vec_len bytes.old + row_width columns.now * count ≤ N }
    requires captured { from + count ≤ rows.now.next }
    ensures items { bytes.new.items ≡ bytes.old.items ++ places_of columns.now rows.now from count }
    ensures len { array_vec_len bytes.new ≡ array_vec_len bytes.old + row_width columns.now * count }
{
    let _last = rows.next_number();
    for index in 0..count {
        append_place(bytes, columns, rows, from + index as u128);
    }
}

/// A copy of a state without its rows.
fn parts_of<A: Allocator + Copy>(state: &State<A>) -> Parts
    ensures { state_of_parts result state.now.rows.next ≡ record state.now { rows = none_before state.now.rows.next } }
{
    let mut text = ArrayVec::new();
    append(&mut text, state.text());
    let mut secret = ArrayVec::new();
    append(&mut secret, state.secret(SecretOf::Management));
    let mut columns = ArrayVec::new();
    append(&mut columns, state.columns());
    let mut reader_secret = ArrayVec::new();
    append(&mut reader_secret, state.secret(SecretOf::Reader));
    Parts {
        registers: state.registers(),
        last: state.last(),
        offset: state.offset(),
        period: state.period(),
        text,
        secret,
        reader_secret,
        columns,
    }
}
