//! Rows of `dlms_carrier`, `dlms_secured` and `dlms_wrapper`.

ghost use Rattle.std.specs.Prelude.{◌≤◌, length};

use crate::answers::{put_number, put_number_and, put_shown, put_text};
use crate::bench::Bench;
use crate::fault::RowFault;
use crate::hexadecimal::put_hex;
use crate::security::{AUTHENTICATION, KEY, TITLE, form_of};
use crate::words::Words;
use dlms_carrier::{AnyCarrier, Carrier, Event, Route};
use dlms_frame::Address;
use dlms_secured::{Guard, Secured, Terms};
use dlms_security::{Form, Policy, StoredState};
use dlms_wrapper::{MOST_APDU, Message, MessageReader};

/// A client's carrier.
#[derive(Drop)]
pub struct CarrierBench {
    carrier: Option<Secured<AnyCarrier>>,
}

/// A guard with the title and the keys of the Green Book, whose counters are those from 0x01234567 on.
fn guard_with(form: Form, challenge: &[u8], dedicated: Option<[u8; 16]>) -> Guard
    requires least { 8 ≤ length challenge.now }
    requires most { length challenge.now ≤ 64 }
{
    let terms = Terms {
        title: TITLE,
        encryption_key: KEY,
        authentication_key: AUTHENTICATION,
        policy: Policy::AuthenticatedEncrypted,
        form,
    };
    let stored = StoredState {
        reserved: 0x0123_4567,
        peer: None,
        accepted: None,
    };
    let mut guard = Guard::new(&terms, stored, challenge, dedicated);
    guard.extend_reservation(0x0123_4600);
    guard
}

/// A guard of these words: form, challenge and, if there is one, the dedicated key.
fn guard_of(words: &mut Words<'_>) -> Result<Guard, RowFault> {
    let form = form_of(words.word()?)?;
    let challenge = words.bytes()?;
    let dedicated = if words.is_empty() {
        None
    } else {
        Some(words.octets::<16>()?)
    };
    if challenge.len() < 8 || 64 < challenge.len() {
        return Err(RowFault::Form);
    }
    Ok(guard_with(form, &challenge, dedicated))
}

/// Feeds all octets, and returns the last event.
fn feed_all(carrier: &mut Secured<AnyCarrier>, octets: &[u8]) -> Event {
    let mut rest = octets;
    let mut event = Event::Nothing;
    for _call in 0..4 {
        if !rest.is_empty() {
            let fed = carrier.feed(rest);
            rest = &rest[fed.count..];
            event = fed.event;
        }
    }
    event
}

/// Gives the APDU of a word.
fn give(carrier: &mut Secured<AnyCarrier>, words: &mut Words<'_>) -> Result<Event, RowFault> {
    let apdu = words.bytes()?;
    if carrier.is_idle() && apdu.len() <= MOST_APDU {
        Ok(carrier.give(&apdu))
    } else {
        Err(RowFault::Form)
    }
}

/// The event of a call that may be made now; `none` elsewhere.
fn event_of(
    carrier: &mut Secured<AnyCarrier>,
    call: &str,
    words: &mut Words<'_>,
) -> Result<Event, RowFault> {
    match call {
        "begin" if carrier.is_down() => Ok(carrier.begin()),
        "give" => give(carrier, words),
        "feed" => Ok(feed_all(carrier, &words.bytes()?)),
        "wait" if carrier.is_waiting() => Ok(carrier.wait()),
        "end" if carrier.is_idle() => Ok(carrier.end()),
        _ => Err(RowFault::Missing),
    }
}

/// The state of a connection.
fn state_of(carrier: &Secured<AnyCarrier>) -> &'static str {
    if carrier.is_down() {
        " down "
    } else if carrier.is_waiting() {
        " waiting "
    } else if carrier.is_idle() {
        " idle "
    } else {
        " over "
    }
}

/// The event, the state of the connection and the octets to write; the APDU that came; or why the association is over.
fn put_call(
    carrier: &mut Secured<AnyCarrier>,
    call: &str,
    words: &mut Words<'_>,
    answer: &mut String,
) -> Result<(), RowFault> {
    match call {
        "apdu" => put_hex(answer, carrier.apdu()),
        "fault" => put_shown(answer, &carrier.fault()),
        _ => {
            let event = event_of(carrier, call, words)?;
            put_shown(answer, &event)?;
            answer.push_str(state_of(carrier))?;
            put_hex(answer, carrier.out())
        }
    }
}

/// A message: its ports and its APDU.
fn put_message(answer: &mut String, message: &Message<'_>) -> Result<(), RowFault> {
    put_number_and(answer, u64::from(message.source), ' ')?;
    put_number_and(answer, u64::from(message.dest), ' ')?;
    put_hex(answer, message.apdu)?;
    Ok(answer.push(' ')?)
}

/// The message of a datagram, and its encoding; or the refusal.
fn put_datagram(words: &mut Words<'_>, answer: &mut String) -> Result<(), RowFault> {
    let limit = words.number()? as usize;
    if MOST_APDU < limit {
        return Err(RowFault::Form);
    }
    let octets = words.bytes()?;
    match Message::from_datagram(&octets, limit) {
        Ok(message) => {
            put_message(answer, &message)?;
            put_hex(answer, message.encode().as_slice())
        }
        Err(fault) => put_text(answer, &fault),
    }
}

/// Reads a piece in five calls, puts the messages that were completed, and returns how many octets were read.
fn read_piece(
    reader: &mut MessageReader,
    piece: &[u8],
    answer: &mut String,
) -> Result<usize, RowFault> {
    let mut rest = piece;
    for _call in 0..5 {
        let count = reader.feed(rest);
        rest = &rest[count..];
        if let Some(message) = reader.message() {
            put_message(answer, &message)?;
        }
    }
    Ok(piece.len().saturating_sub(rest.len()))
}

/// The messages in a stream that arrives in pieces of one size, how many octets of the last piece were read, and why the stream is
/// refused.
fn put_stream(words: &mut Words<'_>, answer: &mut String) -> Result<(), RowFault> {
    let limit = words.number()? as usize;
    let size = words.number()? as usize;
    if MOST_APDU < limit || size == 0 {
        return Err(RowFault::Form);
    }
    let mut reader = MessageReader::new(limit);
    let mut count = 0;
    for piece in words.bytes()?.chunks(size) {
        count = read_piece(&mut reader, piece, answer)?;
    }
    put_number_and(answer, count as u64, ' ')?;
    put_shown(answer, &reader.fault())
}

impl CarrierBench {
    pub fn new() -> Self {
        CarrierBench { carrier: None }
    }

    /// A carrier of this route, without a connection.
    fn start(
        &mut self,
        route: Route,
        guard: Option<Guard>,
        answer: &mut String,
    ) -> Result<(), RowFault> {
        if !route.is_lawful() {
            return Err(RowFault::Form);
        }
        let carrier = AnyCarrier::new(*answer.allocator(), route)?;
        self.carrier = Some(Secured::new(carrier, guard));
        Ok(())
    }
}

impl Bench for CarrierBench {
    fn step(&mut self, words: &mut Words<'_>, answer: &mut String) -> Result<(), RowFault> {
        let call = words.word()?;
        match call {
            "tcp" => self.start(Route::Tcp(16, 1), None, answer),
            "hdlc" => self.start(Route::Hdlc(16, Address::One(1), None), None, answer),
            "secured" => {
                let guard = guard_of(words)?;
                self.start(Route::Tcp(16, 1), Some(guard), answer)
            }
            "datagram" => put_datagram(words, answer),
            "stream" => put_stream(words, answer),
            _ => match &mut self.carrier {
                Some(carrier) => put_call(carrier, call, words, answer),
                None => Err(RowFault::Missing),
            },
        }
    }
}
