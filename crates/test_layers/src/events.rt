//! Events, as the rows write them: a word and the event's content.

use crate::answers::put_with_number;
use crate::fault::RowFault;
use crate::words::Words;
use arrayvec::ArrayVec;
use dlms_state::{Event, Refused, SecretOf};

/// Bytes in place; not understood if there are more than fit.
pub fn in_place<const MOST: usize>(bytes: &[u8]) -> Result<ArrayVec<u8, MOST>, RowFault> {
    let mut held = ArrayVec::new();
    match held.try_extend_from_slice(bytes) {
        Ok(()) => Ok(held),
        Err(_) => Err(RowFault::Form),
    }
}

/// A shift, in seconds.
fn shift_of(words: &mut Words<'_>) -> Result<Event, RowFault> {
    let by = words.signed()?;
    if -32_768 <= by && by <= 32_767 {
        Ok(Event::Shift(by as i16))
    } else {
        Err(RowFault::Form)
    }
}

/// A client's new secret.
fn secret_of(of: SecretOf, words: &mut Words<'_>) -> Result<Event, RowFault> {
    Ok(Event::SetSecret(of, in_place(&words.bytes()?)?))
}

/// The events that hold bytes, or nothing.
fn other_event(call: &str, words: &mut Words<'_>) -> Result<Event, RowFault> {
    match call {
        "set-text" => Ok(Event::SetText(in_place(&words.bytes()?)?)),
        "set-secret" => secret_of(SecretOf::Management, words),
        "set-reader-secret" => secret_of(SecretOf::Reader, words),
        "set-columns" => Ok(Event::SetColumns(in_place(&words.bytes()?)?)),
        "adjust" => Ok(Event::AdjustMinute),
        "reset-profile" => Ok(Event::ResetProfile),
        "capture" => Ok(Event::Capture),
        _ => Err(RowFault::Form),
    }
}

/// The event that a word and those after it name.
pub fn event_of(call: &str, words: &mut Words<'_>) -> Result<Event, RowFault> {
    match call {
        "pulses" => {
            let channel = words.byte()?;
            Ok(Event::Pulses(channel, words.number()?))
        }
        "moment" => Ok(Event::Moment(words.number()?)),
        "set-time" => Ok(Event::SetTime(words.number()?)),
        "shift" => shift_of(words),
        "set-period" => Ok(Event::SetPeriod(words.number()?)),
        "reset-register" => Ok(Event::ResetRegister(words.byte()?)),
        _ => other_event(call, words),
    }
}

/// Why an event is refused: the number, and the last moment if it goes back.
pub fn put_refused(answer: &mut String, refused: Refused) -> Result<(), RowFault> {
    put_with_number(answer, "refused ", u64::from(refused.number()))?;
    if let Refused::MomentBack(last) = refused {
        put_with_number(answer, " ", u64::from(last))?;
    }
    Ok(())
}
