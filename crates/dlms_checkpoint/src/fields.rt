//! The parts of a head and of a row, written.
ghost use Rattle.std.specs.Prelude.{◌≡◌, ◌≤◌, ◌<◌, ◌+◌, ◌*◌, ◌++◌, ◌-◌, ◌^◌, ℕ, length, replicate};
ghost use Rattle.arrayvec.specs.ArrayVec.{array_vec_len};
ghost use Rattle.dlms_state.specs.StateValue.{state_of_parts};
ghost use Rattle.dlms_checkpoint.specs.Checkpoint.{field, registers_bytes, row_bytes, head_bytes};

use arrayvec::ArrayVec;
use dlms_profile::Row;
use dlms_state::Parts;

/// The bytes before the rows.
pub(crate) const HEAD_BYTES: usize = 324;

/// The places of the columns and of the reader's secret in a head.
pub(crate) const SETTINGS_PLACE: usize = 286;

/// The bytes of the columns and the reader's secret.
pub(crate) const SETTINGS_BYTES: usize = 22;

/// The most bytes of a row: four values, of four bytes each.
pub const MOST_ROW_BYTES: usize = 16;

/// Appends bytes for which there is room.
pub(crate) fn append<const N: usize>(bytes: &mut ArrayVec<u8, N>, more: &[u8])
    requires { array_vec_len bytes.old + length more.now ≤ N }
    ensures items { bytes.new.items ≡ bytes.old.items ++ more.now }
    ensures len { array_vec_len bytes.new ≡ array_vec_len bytes.old + length more.now }
{
    let _fits = bytes.try_extend_from_slice(more);
}

/// Appends three registers.
#[tactic(auto, unfolding(crate::specs::Checkpoint::registers_bytes))]
fn append_registers<const N: usize>(bytes: &mut ArrayVec<u8, N>, registers: [u32; 3])
    requires { array_vec_len bytes.old + 12 ≤ N }
    ensures items { bytes.new.items ≡ bytes.old.items ++ registers_bytes registers }
    ensures len { array_vec_len bytes.new ≡ array_vec_len bytes.old + 12 }
{
    append(bytes, &registers[0].to_be_bytes());
    append(bytes, &registers[1].to_be_bytes());
    append(bytes, &registers[2].to_be_bytes());
}

/// Appends a row.
#[tactic(auto, unfolding(crate::specs::Checkpoint::row_bytes))]
pub(crate) fn append_row<const N: usize>(bytes: &mut ArrayVec<u8, N>, row: &Row)
    requires { array_vec_len bytes.old + 4 * length row.now.values.items ≤ N }
    ensures items { bytes.new.items ≡ bytes.old.items ++ row_bytes row.now }
    ensures len { array_vec_len bytes.new ≡ array_vec_len bytes.old + 4 * length row.now.values.items }
{
    for value in row.values.as_slice() {
        append(bytes, &value.to_be_bytes());
    }
}

/// These bytes, padded with zeros to `ROOM`.
fn padded<const ROOM: usize>(bytes: &[u8]) -> [u8; ROOM]
    requires { length bytes.now ≤ ROOM }
    ensures { result ≡ bytes.now ++ replicate (ROOM - length bytes.now) 0 }
{
    let mut room = [0; ROOM];
    let (front, _zeros) = room.split_at_mut(bytes.len());
    front.copy_from_slice(bytes);
    room
}

/// Appends the count of the bytes and the bytes, padded to `ROOM`.
#[tactic(auto, unfolding(crate::specs::Checkpoint::field))]
fn append_field<const N: usize, const ROOM: usize>(
    bytes: &mut ArrayVec<u8, N>,
    held: &ArrayVec<u8, ROOM>,
)
    requires room { array_vec_len bytes.old + 1 + ROOM ≤ N }
    requires small { ROOM < 2 ^ 8 }
    ensures items { bytes.new.items ≡ bytes.old.items ++ field ROOM held.now.items }
    ensures len { array_vec_len bytes.new ≡ array_vec_len bytes.old + 1 + ROOM }
{
    append(bytes, &[held.len() as u8]);
    append(bytes, &padded::<ROOM>(held.as_slice()));
}

/// The bytes before the rows, with the numbers as they are written.
#[tactic(auto, unfolding(crate::specs::Checkpoint::head_bytes))]
pub(crate) fn head_of(parts: &Parts, first: u64, next: u64) -> ArrayVec<u8, HEAD_BYTES>
    ensures items { (n : ℕ) → result.items ≡ head_bytes (state_of_parts parts.now n) first next }
    ensures len { array_vec_len result ≡ HEAD_BYTES }
{
    let mut head = ArrayVec::new();
    append(&mut head, &parts.last.to_be_bytes());
    append(&mut head, &parts.offset.to_be_bytes());
    append(&mut head, &parts.period.to_be_bytes());
    append_registers(&mut head, parts.registers);
    append_field(&mut head, &parts.secret);
    append_field(&mut head, &parts.text);
    append_field(&mut head, &parts.columns);
    append_field(&mut head, &parts.reader_secret);
    append(&mut head, &first.to_be_bytes());
    append(&mut head, &next.to_be_bytes());
    head
}
