//! The carrier over TCP.

ghost use Rattle.std.specs.Prelude.{◌≡◌, ◌↔◌, IsTrue};
ghost use Rattle.dlms_carrier.specs.Tcp.{IsBetween, is_notification};

use crate::carrier::Carrier;
use crate::event::{Event, Fed};
use crate::phase::Phase;
use arrayvec::ArrayVec;
use dlms_wrapper::{MOST_APDU, MOST_MESSAGE, Message, MessageReader};
use std::marker::Model;

/// Carries APDUs as messages of the TCP wrapper (IEC 62056-47). The caller opens and closes the TCP connection itself: it calls
/// `begin` once it is open, and closes it after each event `Down`, `TimedOut` or `Refused`.
///
/// One timeout ends the connection, since an answer that arrives later could be taken for the answer to the next request. A message
/// between other ports is ignored, and so are a notification and a message that arrives while no answer is awaited. A header that the
/// wrapper refuses ends the connection. Octets that arrive after the end are dropped.
#[derive(Drop)]
pub struct TcpCarrier {
    own: u16,
    server: u16,
    phase: Phase,
    reader: MessageReader,
    text: ArrayVec<u8, MOST_MESSAGE>,
}

impl Model for TcpCarrier {
    ghost use Rattle.dlms_carrier.specs.Tcp.{TcpValue, value_of, IsInOrder};

    ghost Value = { TcpValue };

    ghost view = { value_of };

    ghost invariant = { IsInOrder };
}

impl TcpCarrier {
    ghost use Rattle.std.specs.Prelude.{◌≡◌};
    ghost use Rattle.dlms_carrier.specs.Tcp.{fresh};

    /// A carrier from the client's wrapper port (wPort) to the meter's, without a connection.
    #[tactic(auto, using(crate::proofs::TcpLemmas::none_is_refused))]
    pub fn new(own: u16, server: u16) -> Self
        ensures { result ≡ fresh own server }
    {
        TcpCarrier {
            own,
            server,
            phase: Phase::Down,
            reader: MessageReader::new(MOST_APDU),
            text: ArrayVec::new(),
        }
    }
}

/// The tag of a data notification, and of an event notification (Green Book 9).
const DATA_NOTIFICATION: u8 = 15;

const EVENT_NOTIFICATION: u8 = 194;

/// Whether an APDU is a notification, which a meter sends unasked.
fn is_notification(apdu: &[u8]) -> bool
    ensures { result ≡ is_notification apdu.now }
{
    match apdu {
        [tag, ..] => *tag == DATA_NOTIFICATION || *tag == EVENT_NOTIFICATION,
        [] => false,
    }
}

/// Whether the last call of the reader completed a message from one port to the other that is no notification.
fn is_between(source: u16, dest: u16, reader: &MessageReader) -> bool
    ensures { IsTrue result ↔ IsBetween source dest reader.now.message }
{
    match reader.message() {
        Some(message) => {
            message.source == source && message.dest == dest && !is_notification(message.apdu)
        }
        None => false,
    }
}

impl Carrier for TcpCarrier {
    ghost use Rattle.std.specs.Prelude.{◌≡◌};
    ghost use Rattle.dlms_carrier.specs.declared.phase.Phase.TheVariants.{Down, Idle, Waiting};
    ghost use Rattle.dlms_carrier.specs.Tcp.{Steps, last_apdu};
    ghost use Rattle.std.proofs.Common.{ap};

    ghost steps = { Steps };

    ghost out_of = { λ c. c.text };

    ghost apdu_of = { last_apdu };

    ghost is_down = { λ c. c.phase ≡ Down };

    ghost is_idle = { λ c. c.phase ≡ Idle };

    ghost is_waiting = { λ c. c.phase ≡ Waiting };

    ghost awaited = { λ old new octets count h. h.comes.0.0 };

    ghost settled = { λ old new octets count h. ap (λ c. c.phase) h.comes.2 };

    fn is_down(&self) -> bool {
        self.phase == Phase::Down
    }

    fn is_idle(&self) -> bool {
        self.phase == Phase::Idle
    }

    fn is_waiting(&self) -> bool {
        self.phase == Phase::Waiting
    }

    #[tactic(auto, using(crate::proofs::TcpLemmas::none_is_refused))]
    fn begin(&mut self) -> Event {
        self.phase = Phase::Idle;
        self.reader = MessageReader::new(MOST_APDU);
        self.text.clear();
        Event::Up
    }

    fn give(&mut self, apdu: &[u8]) -> Event {
        self.text = Message::new(self.own, self.server, apdu).encode();
        self.phase = Phase::Waiting;
        Event::Nothing
    }

    fn feed(&mut self, octets: &[u8]) -> Fed {
        self.text.clear();
        if self.phase == Phase::Down {
            return Fed {
                count: octets.len(),
                event: Event::Nothing,
            };
        }
        let count = self.reader.feed(octets);
        let event = match self.reader.fault() {
            Some(fault) => {
                self.phase = Phase::Down;
                Event::Refused(fault)
            }
            None
                if self.phase == Phase::Waiting
                    && is_between(self.server, self.own, &self.reader) => {
                self.phase = Phase::Idle;
                Event::Apdu
            }
            None => Event::Nothing,
        };
        Fed { count, event }
    }

    fn wait(&mut self) -> Event {
        self.phase = Phase::Down;
        self.text.clear();
        Event::TimedOut
    }

    fn end(&mut self) -> Event {
        self.phase = Phase::Down;
        self.text.clear();
        Event::Down
    }

    fn out(&self) -> &[u8] {
        self.text.as_slice()
    }

    fn apdu(&self) -> &[u8] {
        match self.reader.message() {
            Some(message) => message.apdu,
            None => &[],
        }
    }
}
