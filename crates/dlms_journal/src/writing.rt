//! The bytes of a record.
ghost use Rattle.std.specs.Prelude.{◌≡◌, ◌≤◌, ◌<◌, ◌+◌, ◌++◌, ◌∷◌, length};
ghost use Rattle.std.specs.Int.{cast_unsigned, w16};
ghost use Rattle.byteorder.specs.Endian.{big_bytes};
ghost use Rattle.dlms_journal.specs.Record.{owner_number, record_of};
ghost use Rattle.dlms_journal.specs.declared.page.TheConstants.{MOST_PAYLOAD};

use crate::page::MOST_PAYLOAD;
use arrayvec::ArrayVec;
use dlms_state::{Event, SecretOf};

/// The bytes of a record: at most those of a page's payload.
pub type Record = ArrayVec<u8, MOST_PAYLOAD>;

/// Appends bytes to records.
fn put(records: &mut Record, bytes: &[u8])
    requires { length records.old.items + length bytes.now ≤ MOST_PAYLOAD }
    ensures { records.new.items ≡ records.old.items ++ bytes.now }
{
    let _fits = records.try_extend_from_slice(bytes);
}

/// Puts a kind and a number of four bytes.
fn put_number(records: &mut Record, kind: u8, number: u32)
    requires { length records.old.items + 5 ≤ MOST_PAYLOAD }
    ensures { records.new.items ≡ records.old.items ++ kind ∷ big_bytes 4 number }
{
    let [a, b, c, d] = number.to_be_bytes();
    put(records, &[kind, a, b, c, d]);
}

/// Puts the record of pulses.
fn put_pulses(records: &mut Record, channel: u8, count: u32)
    requires { length records.old.items + 6 ≤ MOST_PAYLOAD }
    ensures { records.new.items ≡ records.old.items ++ 1 ∷ channel ∷ big_bytes 4 count }
{
    let [a, b, c, d] = count.to_be_bytes();
    put(records, &[1, channel, a, b, c, d]);
}

/// Puts the record of a shift.
fn put_shift(records: &mut Record, by: i16)
    requires { length records.old.items + 3 ≤ MOST_PAYLOAD }
    ensures { records.new.items ≡ records.old.items ++ 4 ∷ big_bytes 2 (cast_unsigned w16 by) }
{
    let [a, b] = by.to_be_bytes();
    put(records, &[4, a, b]);
}

/// Appends a record of bytes after their count.
fn put_counted(records: &mut Record, kind: u8, bytes: &[u8])
    requires count { length bytes.now < 256 }
    requires room { length records.old.items + (2 + length bytes.now) ≤ MOST_PAYLOAD }
    ensures { records.new.items ≡ records.old.items ++ kind ∷ length bytes.now ∷ bytes.now }
{
    put(records, &[kind, bytes.len() as u8]);
    put(records, bytes);
}

/// The number that says whose secret a record carries.
fn owner_number(of: SecretOf) -> u8
    ensures { result ≡ owner_number of }
{
    match of {
        SecretOf::Management => 1,
        SecretOf::Reader => 2,
    }
}

/// Puts the record of a client's secret.
fn put_secret(records: &mut Record, of: SecretOf, secret: &[u8])
    requires count { length secret.now < 256 }
    requires room { length records.old.items + (3 + length secret.now) ≤ MOST_PAYLOAD }
    ensures { records.new.items ≡ records.old.items ++ 8 ∷ owner_number of ∷ length secret.now
        ∷ secret.now }
{
    put(records, &[8, owner_number(of), secret.len() as u8]);
    put(records, secret);
}

/// How many bytes the record of an event has: at most 242.
pub fn record_length(event: &Event) -> usize
    ensures exact { result ≡ length (record_of event.now) }
    ensures most { result ≤ 242 }
{
    match event {
        Event::Pulses(..) => 6,
        Event::Moment(_) | Event::SetTime(_) | Event::SetPeriod(_) => 5,
        Event::Shift(_) => 3,
        Event::AdjustMinute | Event::ResetProfile | Event::Capture => 1,
        Event::SetText(bytes) => 2 + bytes.len(),
        Event::SetSecret(_, bytes) => 3 + bytes.len(),
        Event::ResetRegister(_) => 2,
        Event::SetColumns(ids) => 2 + ids.len(),
    }
}

/// Appends the record of an event, in the layout of `docs/WIRE.md`.
pub fn append_record(records: &mut Record, event: &Event)
    requires { length records.old.items + length (record_of event.now) ≤ MOST_PAYLOAD }
    ensures { records.new.items ≡ records.old.items ++ record_of event.now }
{
    match event {
        Event::Pulses(channel, count) => put_pulses(records, *channel, *count),
        Event::Moment(second) => put_number(records, 2, *second),
        Event::SetTime(second) => put_number(records, 3, *second),
        Event::Shift(by) => put_shift(records, *by),
        Event::AdjustMinute => put(records, &[5]),
        Event::SetPeriod(seconds) => put_number(records, 6, *seconds),
        Event::SetText(bytes) => put_counted(records, 7, bytes.as_slice()),
        Event::SetSecret(of, bytes) => put_secret(records, *of, bytes.as_slice()),
        Event::ResetRegister(channel) => put(records, &[9, *channel]),
        Event::ResetProfile => put(records, &[10]),
        Event::Capture => put(records, &[11]),
        Event::SetColumns(ids) => put_counted(records, 12, ids.as_slice()),
    }
}

/// The bytes of an event's record, at most 242.
pub fn record_of(event: &Event) -> Record
    ensures { result.items ≡ record_of event.now }
{
    let mut record = ArrayVec::new();
    let _most = record_length(event);
    append_record(&mut record, event);
    record
}
