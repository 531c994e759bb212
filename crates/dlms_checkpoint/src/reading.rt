//! Bodies taken one after another, the ring pages that they name, and the state that they spell.
ghost use Rattle.std.specs.Prelude.{◌≡◌, ◌≢◌, ◌≤◌, ◌<◌, ◌^◌, ◌*◌, ◌%◌, ◌+◌, ◌-◌, ◌++◌, ◌↔◌, [], length, take, drop, List, ℕ, None, Some, IsOk, IsErr, IsTrue, IfOk, OnOk, OnErr, IfErr, IfSome, MatchOption, MatchResult, All};
ghost use Rattle.std.specs.Int.{cast_signed, w64};
ghost use Rattle.byteorder.specs.Endian.{big_from};
ghost use Rattle.dlms_profile.specs.Rows.{IsRow, none_before};
ghost use Rattle.dlms_state.specs.StateValue.{StateValue, FitsTypes, state_of_parts, HasEvents};
ghost use Rattle.dlms_state.specs.Columns.{first_columns};
ghost use Rattle.dlms_checkpoint.specs.Bodies.{secret_count, text_count, column_count, reader_secret_count, columns_said, first_field, next_field, first_said, next_said, counts_fit, whole_length, awaited, first_fault};
ghost use Rattle.dlms_checkpoint.specs.Layouts.{IsCheckpointOf, as_present, head_length, missing};
ghost use Rattle.dlms_checkpoint.specs.Reading.{HasHead, ArePlaces, IsFilledBy, IsRefilled, first_page, open_page, page_length, parts_at, registers_at, with_page};
ghost use Rattle.dlms_checkpoint.specs.declared.version.Version.TheVariants.{Columns};

use crate::fields::{HEAD_BYTES, append, head_of};
use crate::row_reading::{are_rows, restore_page, restore_rows, word_at};
use crate::version::{Version, present_of};
use crate::writing::{MOST_BODY, MOST_BYTES, NUMBERS_END, RING_ROWS, first_written, next_written};
use arrayvec::ArrayVec;
use byteorder::{BigEndian, ByteOrder};
use dlms_profile::CAPACITY;
use dlms_state::{Parts, State};
use std::alloc::{AllocError, Allocator};
use std::marker::Model;

/// Why a body is not the next one.
#[derive(Clone, Copy, Debug, PartialEq, Eq)]
pub enum BodyFault {
    /// It has another length than the counts of the first body ask for.
    Length,
    /// The first body counts more bytes of a secret or of the text, more columns or more rows than a state may have.
    Counts,
}

/// Why the rows of a ring page are not those that the bodies name.
#[derive(Clone, Copy, Debug, PartialEq, Eq)]
pub enum RingFault {
    /// They have another length than 30 rows of the columns that the bodies say.
    Length,
    /// A row that is kept has a clock past its range.
    Clock,
}

/// The bodies of a checkpoint taken so far, in order, as they are on the medium. They are in a fixed buffer of 788 bytes.
#[derive(Drop)]
pub struct Restoring {
    version: Version,
    bytes: ArrayVec<u8, MOST_BYTES>,
}

impl Model for Restoring {
    ghost use Rattle.dlms_checkpoint.specs.Layouts.{as_present};
    ghost use Rattle.dlms_checkpoint.specs.Reading.{HasHead, Taken};

    ghost Value = { Taken };

    ghost view = { λ r. record { version = r.version; bytes = r.bytes.items } };

    ghost invariant = { λ r. HasHead (as_present r.version r.bytes.items) };
}

/// All bodies of a checkpoint in the present layout, if they are the bytes of a state. They are in a fixed buffer of 788 bytes.
#[derive(Drop)]
pub struct Joined {
    bytes: ArrayVec<u8, MOST_BYTES>,
}

impl Model for Joined {
    ghost use Rattle.std.specs.Prelude.{List, ℕ};
    ghost use Rattle.dlms_checkpoint.specs.Reading.{IsWhole};

    ghost Value = { List ℕ };

    ghost view = { λ j. j.bytes.items };

    ghost invariant = { λ j. IsWhole j.bytes.items };
}

/// All bodies of a checkpoint, and the state that they spell, with the rows of the ring pages taken so far, in the order of rows.
#[derive(Drop)]
pub struct Refilling<A: Allocator> {
    bytes: ArrayVec<u8, MOST_BYTES>,
    page: u64,
    state: Option<State<A>>,
}

impl<A: Allocator> Model for Refilling<A> {
    ghost use Rattle.std.specs.Prelude.{List, ℕ};
    ghost use Rattle.dlms_checkpoint.specs.Reading.{Refilled, IsRefilled};

    ghost Value = { Refilled };

    ghost view = { λ r. record { bytes = r.bytes.items; page = r.page; state = r.state } };

    ghost invariant = { λ r. (ring : List ℕ) × IsRefilled (record { bytes = r.bytes.items; page = r.page; state = r.state }) ring };
}

impl Joined {
    /// Whether the bodies say the columns of a new meter: the clock and the three registers.
    pub fn has_first_columns(&self) -> bool
        ensures { IsTrue result ↔ (columns_said self.now ≡ first_columns) }
    {
        are_first_columns(self.bytes.as_slice())
    }

    /// The first ring page that the bodies name, by its number among all ring pages ever filled; none if they name none.
    pub fn first_page(&self) -> Option<u64>
        ensures { MatchOption result (open_page self.now ≤ first_page self.now)
            (λ page. (page ≡ first_page self.now) × (page < open_page self.now)) }
    {
        page_among(self.bytes.as_slice(), first_page_of(self.bytes.as_slice()))
    }

    /// The state that the bodies spell, without the rows of the ring pages that they name. This is the only call that allocates. If
    /// the allocation fails, ring pages are judged all the same, and `finish` reports it.
    pub fn refilling<A: Allocator + Copy>(self, alloc: A) -> Refilling<A>
        ensures bodies { result.bytes ≡ self }
        ensures begun { IsRefilled result [] }
    {
        let bytes = self.bytes.as_slice();
        let page = first_page_of(bytes);
        let state = State::restore(alloc, parts_of(bytes), first_of(bytes)).ok();
        Refilling {
            bytes: self.bytes,
            page,
            state,
        }
    }
}

/// The number after the last row, as a first body says it.
fn next_of(bytes: &[u8]) -> u128
    requires { HEAD_BYTES ≤ length bytes.now }
    ensures value { result ≡ next_said bytes.now }
    ensures last { result ≤ 2 ^ 64 }
{
    let next = long_at(bytes, 316);
    if next == 0 && long_at(bytes, 308) > 0 {
        NUMBERS_END
    } else {
        u128::from(next)
    }
}

/// The number of the first row, as a first body says it.
fn first_of(bytes: &[u8]) -> u128
    requires { HEAD_BYTES ≤ length bytes.now }
    ensures value { result ≡ first_said bytes.now }
    ensures last { result ≤ 2 ^ 64 }
{
    let first = long_at(bytes, 308);
    if first == 1 && next_of(bytes) == NUMBERS_END {
        NUMBERS_END
    } else {
        u128::from(first)
    }
}

/// Whether a first body's counts are those that a state may have.
fn have_room(bytes: &[u8]) -> bool
    requires { HEAD_BYTES ≤ length bytes.now }
    ensures { result ≡ counts_fit bytes.now }
{
    let first = first_of(bytes);
    let next = next_of(bytes);
    bytes[28] <= 16
        && bytes[45] <= 240
        && bytes[286] <= 4
        && bytes[291] <= 16
        && first <= next
        && next <= first + CAPACITY as u128
}

/// How long all bodies are, as the first one says.
fn whole_of(bytes: &[u8]) -> usize
    requires long { HEAD_BYTES ≤ length bytes.now }
    requires columns { column_count bytes.now ≤ 4 }
    ensures value { result ≡ whole_length bytes.now }
    ensures within { result ≤ MOST_BYTES }
{
    HEAD_BYTES + 4 * usize::from(bytes[286]) * (next_of(bytes) % RING_ROWS as u128) as usize
}

/// The columns, as a first body says them.
fn columns_of(bytes: &[u8]) -> &[u8]
    requires long { HEAD_BYTES ≤ length bytes.now }
    requires columns { column_count bytes.now ≤ 4 }
    ensures { result.now ≡ columns_said bytes.now }
{
    &bytes[287..287 + usize::from(bytes[286])]
}

/// Why bytes are no first body of this version.
fn fault_of(version: Version, body: &[u8]) -> Option<BodyFault>
    ensures { result ≡ first_fault version body.now }
{
    let head = version.head_length();
    if body.len() < head {
        return Some(BodyFault::Length);
    }
    let said = present_of(version, &body[..head]);
    if !have_room(said.as_slice()) {
        return Some(BodyFault::Counts);
    }
    let whole = whole_of(said.as_slice()) - version.missing();
    if body.len() == whole.min(MOST_BODY) {
        None
    } else {
        Some(BodyFault::Length)
    }
}

impl Restoring {
    /// Takes the first body of a version. Of several faults the first of these is reported: fewer bytes than a head has, counts
    /// past their limits, a length other than the counts require.
    pub fn begin(version: Version, body: &[u8]) -> Result<Restoring, BodyFault>
        ensures { MatchResult result (λ taken. (first_fault version body.now ≡ None)
            × (taken ≡ record {
              version = version;
              bytes = body.now;
            })) (λ fault. first_fault version body.now ≡ Some fault) }
    {
        if let Some(fault) = fault_of(version, body) {
            return Err(fault);
        }
        let mut bytes = ArrayVec::new();
        append(&mut bytes, body);
        Ok(Restoring { version, bytes })
    }

    /// How long the next body is; 0 where every body was taken.
    pub fn awaited(&self) -> usize
        ensures { result ≡ awaited (as_present self.now.version self.now.bytes) }
    {
        let present = present_of(self.version, self.bytes.as_slice());
        let whole = whole_of(present.as_slice());
        (whole - present.len()).min(MOST_BODY)
    }

    /// Takes the next body, which has exactly the awaited length. Another one changes nothing.
    pub fn more(&mut self, body: &[u8]) -> Result<(), BodyFault>
        ensures when { IsOk result ↔ (length body.now ≡ awaited
            (as_present self.old.version self.old.bytes)) }
        ensures ok { OnOk result (self.new ≡ record {
          version = self.old.version;
          bytes = self.old.bytes ++ body.now;
        }) }
        ensures length { IfErr result (λ fault. fault ≡ BodyFault.Length) }
        ensures err { OnErr result (self.new ≡ self.old) }
    {
        if body.len() != self.awaited() {
            return Err(BodyFault::Length);
        }
        append(&mut self.bytes, body);
        Ok(())
    }

    /// All bodies, if they are the bytes of a state whatever rows the named ring pages hold; otherwise none.
    pub fn joined(self) -> Option<Joined>
        requires { awaited (as_present self.version self.bytes) ≡ 0 }
        ensures bytes { IfSome result (λ joined. joined ≡ as_present self.version self.bytes) }
        ensures spelled { MatchOption result ((s : StateValue)
            → IsCheckpointOf self.version s self.bytes
            → ⊥) (λ _. (s : StateValue) × IsCheckpointOf self.version s self.bytes) }
    {
        let bytes = present_of(self.version, self.bytes.as_slice());
        if !are_spelled(bytes.as_slice()) {
            return None;
        }
        Some(Joined { bytes })
    }
}

/// Whether all bodies, in the present layout, are the bytes of a state.
fn are_spelled(bytes: &[u8]) -> bool
    requires head { HasHead bytes.now }
    requires all { length bytes.now ≡ whole_length bytes.now }
    ensures yes { IsTrue result → (s : StateValue) × IsCheckpointOf Columns s bytes.now }
    ensures no { (s : StateValue) → IsCheckpointOf Columns s bytes.now → IsTrue result }
{
    let (head, rows) = bytes.split_at(HEAD_BYTES);
    let first = first_of(head);
    let next = next_of(head);
    let parts = parts_of(head);
    parts_fit(&parts);
    bytes_fit(rows);
    let again = head_of(&parts, first_written(first), next_written(next));
    if !are_same(again.as_slice(), head) {
        return false;
    }
    if !parts.are_within_limits() {
        return false;
    }
    are_rows(
        rows,
        columns_of(head),
        first,
        next - next % RING_ROWS as u128,
    )
}

/// Whether bodies say the columns of a new meter.
fn are_first_columns(bytes: &[u8]) -> bool
    requires long { HEAD_BYTES ≤ length bytes.now }
    requires columns { column_count bytes.now ≤ 4 }
    ensures { IsTrue result ↔ (columns_said bytes.now ≡ first_columns) }
{
    are_same(columns_of(bytes), &[0, 1, 2, 3])
}

/// The page of the first row.
fn first_page_of(bytes: &[u8]) -> u64
    requires { HEAD_BYTES ≤ length bytes.now }
    ensures { result ≡ first_page bytes.now }
{
    (first_of(bytes) / RING_ROWS as u128) as u64
}

/// A page, if it comes before the one that is not filled.
fn page_among(bytes: &[u8], page: u64) -> Option<u64>
    requires { HEAD_BYTES ≤ length bytes.now }
    ensures { MatchOption result (open_page bytes.now ≤ page) (λ named. (named ≡ page)
        × (named < open_page bytes.now)) }
{
    if u128::from(page) < next_of(bytes) / RING_ROWS as u128 {
        Some(page)
    } else {
        None
    }
}

impl<A: Allocator + Copy> Refilling<A> {
    /// Whether the bodies say the columns of a new meter: the clock and the three registers.
    pub fn has_first_columns(&self) -> bool
        ensures { IsTrue result ↔ (columns_said self.now.bytes ≡ first_columns) }
    {
        are_first_columns(self.bytes.as_slice())
    }

    /// The ring page that is taken next, by its number among all ring pages ever filled; nothing where every one was taken.
    pub fn awaited_page(&self) -> Option<u64>
        ensures { MatchOption result (open_page self.now.bytes ≤ self.now.page)
            (λ page. (page ≡ self.now.page) × (page < open_page self.now.bytes)) }
    {
        page_among(self.bytes.as_slice(), self.page)
    }

    /// Takes the rows of the awaited ring page. Rows that cannot be that page's change nothing: those of another length, or with a
    /// clock out of range in a kept row (the length is reported first). If no column is the clock, only the length is checked.
    pub fn take(&mut self, places: &[u8]) -> Result<(), RingFault>
        requires { self.old.page < open_page self.old.bytes }
        ensures when { IsOk result ↔ ArePlaces (columns_said self.old.bytes)
            (first_said self.old.bytes) self.old.page places.now }
        ensures ok { OnOk result (self.new ≡ with_page self.old places.now) }
        ensures rows { OnOk result ((ring : List ℕ) → IsRefilled self.old ring
            → IsRefilled self.new (ring ++ places.now)) }
        ensures length { (result ≡ Err RingFault.Length)
            ↔ (length places.now ≢ page_length (columns_said self.old.bytes)) }
        ensures err { OnErr result (self.new ≡ self.old) }
    {
        let bytes = self.bytes.as_slice();
        let columns = columns_of(bytes);
        if places.len() != 4 * columns.len() * RING_ROWS {
            return Err(RingFault::Length);
        }
        let first = first_of(bytes);
        let from = u128::from(self.page) * RING_ROWS as u128;
        if !are_rows(places, columns, first, from) {
            return Err(RingFault::Clock);
        }
        bytes_fit(places);
        let skipped = first.saturating_sub(from) as usize;
        restore_page(&mut self.state, places, skipped);
        self.page += 1;
        Ok(())
    }

    /// The state that the bodies and all the ring pages spell. None if its memory could not be allocated.
    pub fn finish(self) -> Result<State<A>, AllocError>
        requires { open_page self.bytes ≤ self.page }
        ensures state { (ring : List ℕ) → IsRefilled self ring
            → IfOk result (λ state. IsFilledBy state (record { bytes = self.bytes; ring = ring })) }
        ensures events { IfOk result HasEvents }
        ensures memory { IsErr result ↔ (self.state ≡ None) }
        ensures some { (ring : List ℕ) → IsRefilled self ring
            → (s : StateValue) × IsFilledBy s (record { bytes = self.bytes; ring = ring }) }
    {
        let bytes = self.bytes;
        let (head, places) = bytes.as_slice().split_at(HEAD_BYTES);
        bytes_fit(places);
        let Some(mut state) = self.state else {
            return Err(AllocError);
        };
        let first = first_of(head);
        let next = next_of(head);
        let unfilled = next % RING_ROWS as u128;
        let skipped = first.saturating_sub(next - unfilled);
        restore_rows(
            &mut state,
            places,
            skipped as usize,
            (unfilled - skipped) as usize,
        );
        Ok(state)
    }
}

/// A copy of bytes for which there is room.
fn held<const ROOM: usize>(bytes: &[u8]) -> ArrayVec<u8, ROOM>
    requires { length bytes.now ≤ ROOM }
    ensures { result.items ≡ bytes.now }
{
    let mut held = ArrayVec::new();
    append(&mut held, bytes);
    held
}

/// Whether two stretches of bytes are the same.
fn are_same(left: &[u8], right: &[u8]) -> bool
    ensures { IsTrue result ↔ (left.now ≡ right.now) }
{
    left == right
}

/// Says what the type of three words says, for a proof.
fn words_fit(words: [u32; 3])
    ensures count { length words ≡ 3 }
    ensures fit { All (λ word. word < 2 ^ 32) words }
{
    let _words = words;
}

/// Says what the type of bytes says, for a proof.
fn bytes_fit(bytes: &[u8])
    ensures { All (λ byte. byte < 2 ^ 8) bytes.now }
{
    let _bytes = bytes;
}

/// Says what the type of parts says, for a proof.
fn parts_fit(parts: &Parts)
    ensures { (next : ℕ) → FitsTypes (state_of_parts parts.now next) }
{
    words_fit(parts.registers);
    let _last = parts.last;
    bytes_fit(parts.text.as_slice());
    bytes_fit(parts.secret.as_slice());
    bytes_fit(parts.reader_secret.as_slice());
    bytes_fit(parts.columns.as_slice());
}

/// The number of eight bytes from this place on.
fn long_at(bytes: &[u8], place: usize) -> u64
    requires { place + 8 ≤ length bytes.now }
    ensures { result ≡ big_from place 8 bytes.now }
{
    BigEndian::read_u64(&bytes[place..])
}

/// The same in two's complement.
fn signed_at(bytes: &[u8], place: usize) -> i64
    requires { place + 8 ≤ length bytes.now }
    ensures { result ≡ cast_signed w64 (big_from place 8 bytes.now) }
{
    long_at(bytes, place).cast_signed()
}

/// The three registers from this place on.
#[tactic(auto, unfolding(crate::specs::Reading::registers_at))]
fn registers_at(bytes: &[u8], place: usize) -> [u32; 3]
    requires { place + 12 ≤ length bytes.now }
    ensures { result ≡ registers_at place bytes.now }
{
    [
        word_at(bytes, place),
        word_at(bytes, place + 4),
        word_at(bytes, place + 8),
    ]
}

/// The state of a head, without its rows.
#[tactic(auto, unfolding(crate::specs::Reading::parts_at))]
fn parts_of(head: &[u8]) -> Parts
    requires long { HEAD_BYTES ≤ length head.now }
    requires secret { secret_count head.now ≤ 16 }
    requires text { text_count head.now ≤ 240 }
    requires columns { column_count head.now ≤ 4 }
    requires reader_secret { reader_secret_count head.now ≤ 16 }
    ensures { (next : ℕ) → state_of_parts result next ≡ parts_at head.now next }
{
    let secret = usize::from(head[28]);
    let text = usize::from(head[45]);
    let reader_secret = usize::from(head[291]);
    Parts {
        registers: registers_at(head, 16),
        last: word_at(head, 0),
        offset: signed_at(head, 4),
        period: word_at(head, 12),
        text: held(&head[46..46 + text]),
        secret: held(&head[29..29 + secret]),
        reader_secret: held(&head[292..292 + reader_secret]),
        columns: held(columns_of(head)),
    }
}
