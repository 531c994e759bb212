//! Reads the event at the front of bytes.
ghost use Rattle.std.specs.Prelude.{◌≡◌, ◌≤◌, ◌∷◌, ◌++◌, ◌<◌, ◌^◌, length, All, IfSome, option_map};
ghost use Rattle.std.specs.Int.{cast_signed, w16};
ghost use Rattle.dlms_state.specs.declared.event.Event.TheVariants as EventOf;
ghost use Rattle.dlms_state.specs.Types.{FitsType};
ghost use Rattle.dlms_journal.specs.Record.{record_of};
ghost use Rattle.dlms_journal.specs.Reading.{on_some, as_event, taken_at, number_at, counted_at, pulses_at, secret_at, register_at, event_at};

use arrayvec::ArrayVec;
use byteorder::{BigEndian, ByteOrder};
use dlms_state::{Event, SecretOf};

/// The first `n` bytes, and those after them.
#[tactic(auto, unfolding(crate::specs::Reading::taken_at))]
fn take_front(bytes: &[u8], n: usize) -> Option<(&[u8], &[u8])>
    ensures exact { option_map (λ x. (x.0.now, x.1.now)) result ≡ taken_at n bytes.now }
    ensures length { IfSome result (λ x. length x.0.now ≡ n) }
{
    if bytes.len() < n {
        return None;
    }
    Some(bytes.split_at(n))
}

/// A number of two bytes.
#[tactic(auto, unfolding(crate::specs::Reading::number_at))]
fn two(bytes: &[u8]) -> Option<(u16, &[u8])>
    ensures { option_map (λ x. (x.0, x.1.now)) result ≡ number_at 2 bytes.now }
{
    let (front, rest) = take_front(bytes, 2)?;
    Some((BigEndian::read_u16(front), rest))
}

/// A number of four bytes.
#[tactic(auto, unfolding(crate::specs::Reading::number_at))]
fn four(bytes: &[u8]) -> Option<(u32, &[u8])>
    ensures { option_map (λ x. (x.0, x.1.now)) result ≡ number_at 4 bytes.now }
{
    let (front, rest) = take_front(bytes, 4)?;
    Some((BigEndian::read_u32(front), rest))
}

/// A count of at most `MOST`, and that many bytes.
#[tactic(auto, unfolding(crate::specs::Reading::counted_at))]
fn take_counted<const MOST: usize>(bytes: &[u8]) -> Option<(ArrayVec<u8, MOST>, &[u8])>
    ensures { option_map (λ x. (x.0.items, x.1.now)) result ≡ counted_at MOST bytes.now }
{
    match bytes {
        [] => None,
        [count, rest @ ..] => {
            let count = usize::from(*count);
            if count > MOST {
                return None;
            }
            let (front, rest) = take_front(rest, count)?;
            let mut counted = ArrayVec::new();
            let _fits = counted.try_extend_from_slice(front);
            Some((counted, rest))
        }
    }
}

/// Pulses: a channel and a count.
#[tactic(auto, unfolding(crate::specs::Reading::pulses_at))]
fn pulses(bytes: &[u8]) -> Option<(Event, &[u8])>
    ensures { option_map (λ x. (x.0, x.1.now)) result ≡ pulses_at bytes.now }
{
    match bytes {
        [] => None,
        [channel, rest @ ..] => {
            let (count, rest) = four(rest)?;
            Some((Event::Pulses(*channel, count), rest))
        }
    }
}

/// A client's secret.
#[tactic(auto, unfolding(crate::specs::Reading::secret_at))]
fn secret(bytes: &[u8]) -> Option<(Event, &[u8])>
    ensures { option_map (λ x. (x.0, x.1.now)) result ≡ secret_at bytes.now }
{
    match bytes {
        [1, rest @ ..] => {
            let (secret, rest) = take_counted(rest)?;
            Some((Event::SetSecret(SecretOf::Management, secret), rest))
        }
        [2, rest @ ..] => {
            let (secret, rest) = take_counted(rest)?;
            Some((Event::SetSecret(SecretOf::Reader, secret), rest))
        }
        _ => None,
    }
}

/// A register to be reset.
#[tactic(auto, unfolding(crate::specs::Reading::register_at))]
fn register(bytes: &[u8]) -> Option<(Event, &[u8])>
    ensures { option_map (λ x. (x.0, x.1.now)) result ≡ register_at bytes.now }
{
    let (channel, rest) = bytes.split_first()?;
    Some((Event::ResetRegister(*channel), rest))
}

/// A moment of the meter's own running second.
fn moment(bytes: &[u8]) -> Option<(Event, &[u8])>
    ensures { option_map (λ x. (x.0, x.1.now)) result ≡ on_some (number_at 4 bytes.now)
        (as_event EventOf.Moment) }
{
    let (second, rest) = four(bytes)?;
    Some((Event::Moment(second), rest))
}

/// A time that was set.
fn time(bytes: &[u8]) -> Option<(Event, &[u8])>
    ensures { option_map (λ x. (x.0, x.1.now)) result ≡ on_some (number_at 4 bytes.now)
        (as_event EventOf.SetTime) }
{
    let (second, rest) = four(bytes)?;
    Some((Event::SetTime(second), rest))
}

/// A shift of the clock.
fn shift(bytes: &[u8]) -> Option<(Event, &[u8])>
    ensures { option_map (λ x. (x.0, x.1.now)) result ≡ on_some (number_at 2 bytes.now)
        (as_event (λ n. EventOf.Shift (cast_signed w16 n))) }
{
    let (by, rest) = two(bytes)?;
    Some((Event::Shift(by.cast_signed()), rest))
}

/// A capture period that was set.
fn period(bytes: &[u8]) -> Option<(Event, &[u8])>
    ensures { option_map (λ x. (x.0, x.1.now)) result ≡ on_some (number_at 4 bytes.now)
        (as_event EventOf.SetPeriod) }
{
    let (seconds, rest) = four(bytes)?;
    Some((Event::SetPeriod(seconds), rest))
}

/// A text that was set.
fn text(bytes: &[u8]) -> Option<(Event, &[u8])>
    ensures { option_map (λ x. (x.0, x.1.now)) result ≡ on_some (counted_at 240 bytes.now)
        (as_event (λ bytes. EventOf.SetText (record { items = bytes }))) }
{
    let (text, rest) = take_counted(bytes)?;
    Some((Event::SetText(text), rest))
}

/// Columns that were set.
fn columns(bytes: &[u8]) -> Option<(Event, &[u8])>
    ensures { option_map (λ x. (x.0, x.1.now)) result ≡ on_some (counted_at 4 bytes.now)
        (as_event (λ ids. EventOf.SetColumns (record { items = ids }))) }
{
    let (ids, rest) = take_counted(bytes)?;
    Some((Event::SetColumns(ids), rest))
}

/// The content of a record of this kind.
#[tactic(auto, unfolding(crate::specs::Reading::event_at))]
fn held(kind: u8, rest: &[u8]) -> Option<(Event, &[u8])>
    ensures { option_map (λ x. (x.0, x.1.now)) result ≡ event_at (kind ∷ rest.now) }
{
    match kind {
        1 => pulses(rest),
        2 => moment(rest),
        3 => time(rest),
        4 => shift(rest),
        5 => Some((Event::AdjustMinute, rest)),
        6 => period(rest),
        7 => text(rest),
        8 => secret(rest),
        9 => register(rest),
        10 => Some((Event::ResetProfile, rest)),
        11 => Some((Event::Capture, rest)),
        12 => columns(rest),
        _ => None,
    }
}

/// The content of the first record, and the bytes after it.
#[tactic(auto, unfolding(crate::specs::Reading::event_at))]
fn first(bytes: &[u8]) -> Option<(Event, &[u8])>
    ensures exact { option_map (λ x. (x.0, x.1.now)) result ≡ event_at bytes.now }
    ensures fits { IfSome result (λ x. FitsType x.0) }
{
    let (kind, rest) = bytes.split_first()?;
    let (event, rest) = held(*kind, rest)?;
    event.fits();
    Some((event, rest))
}

/// The event at the front, and the bytes after it.
pub(crate) fn event_at(bytes: &[u8]) -> Option<(Event, &[u8])>
    ensures exact { option_map (λ x. (x.0, x.1.now)) result ≡ event_at bytes.now }
    ensures fits { IfSome result (λ x. FitsType x.0) }
    ensures found { IfSome result (λ x. bytes.now ≡ record_of x.0 ++ x.1.now) }
    ensures shorter { IfSome result (λ x. length x.1.now < length bytes.now) }
{
    are_octets(bytes);
    first(bytes)
}

/// Says what the type of bytes says, for a proof.
fn are_octets(bytes: &[u8])
    ensures { All (λ byte. byte < 2 ^ 8) bytes.now }
{
    let _bytes = bytes;
}
