//! The carrier over an HDLC link.

ghost use Rattle.std.specs.Prelude.{◌≡◌, [], IsSome};
ghost use Rattle.dlms_link.specs.Client.{IsIdle};
ghost use Rattle.dlms_link.specs.declared.out.ClientOut.TheVariants.{Apdu, Up};
ghost use Rattle.dlms_carrier.specs.Hdlc.{Handles, Reports};

use crate::carrier::Carrier;
use crate::event::{Event, Fed};
use crate::kept::KeptDeframer;
use arrayvec::ArrayVec;
use dlms_frame::{Address, MOST_TEXT};
use dlms_link::{ClientLink, ClientOut};
use std::alloc::{AllocError, Allocator, Global};
use std::marker::Model;

/// Carries APDUs over an HDLC link with window 1 (IEC 62056-46). The caller opens and closes the line itself.
///
/// A frame that goes out is sent again after each timeout; the fourth in a row ends the link. A frame that arrives while none is out
/// is ignored. Octets that were read together with a frame that changed something, and after it, are dropped: they arrived before
/// the next frame went out.
#[derive(Drop)]
pub struct HdlcCarrier<A: Allocator = Global> {
    deframer: KeptDeframer<A>,
    link: ClientLink,
    text: ArrayVec<u8, MOST_TEXT>,
}

impl<A: Allocator> Model for HdlcCarrier<A> {
    ghost use Rattle.dlms_carrier.specs.Hdlc.{HdlcValue, value_of};

    ghost Value = { HdlcValue };

    ghost view = { value_of };
}

impl<A: Allocator> HdlcCarrier<A> {
    ghost use Rattle.std.specs.Prelude.{◌<◌, IfOk, IfSome};
    ghost use Rattle.dlms_frame.specs.Frame.{IsAddress};
    ghost use Rattle.dlms_link.specs.Parameters.{IsProposable};
    ghost use Rattle.dlms_carrier.specs.Hdlc.{IsFresh};

    /// A carrier from the client with this service access point to the meter at this address, without a connection. If a proposal
    /// is given, 128 to 2,030 octets, the link proposes that the meter sends up to so much information in a frame, and sends itself
    /// what the meter agrees to (`ClientLink::proposing`). Without one neither end proposes anything but 128.
    pub fn new(
        alloc: A,
        own: u8,
        server: Address,
        proposal: Option<u16>,
    ) -> Result<Self, AllocError>
        requires own { own < 128 }
        requires server { IsAddress server }
        requires proposal { IfSome proposal IsProposable }
        ensures { IfOk result (IsFresh own server proposal) }
    {
        let deframer = KeptDeframer::new(alloc)?;
        Ok(HdlcCarrier {
            deframer,
            link: ClientLink::proposing(own, server, proposal),
            text: ArrayVec::new(),
        })
    }
}

/// The link's output for the frame that the deframer found, if it found one.
fn handle<A: Allocator>(link: &mut ClientLink, deframer: &KeptDeframer<A>) -> ClientOut
    ensures handles { Handles deframer.now.frame link.old result link.new }
    ensures answers { result ≡ Apdu → IsSome link.old.waits × IsIdle link.new }
    ensures up { result ≡ Up → IsIdle link.new }
{
    match deframer.frame() {
        Some(frame) if link.is_waiting() => link.on(&frame),
        _ => ClientOut::Nothing,
    }
}

/// The event of an output. Its frame, if it has one, is put into the text, which is empty.
fn report(text: &mut ArrayVec<u8, MOST_TEXT>, output: ClientOut) -> Event
    requires { text.old.items ≡ [] }
    ensures { Reports output result text.new.items }
{
    match output {
        ClientOut::Nothing => Event::Nothing,
        ClientOut::Up => Event::Up,
        ClientOut::Send(frame) => {
            *text = frame.put();
            Event::Nothing
        }
        ClientOut::Apdu => Event::Apdu,
        ClientOut::Down => Event::Down,
    }
}

impl<A: Allocator> Carrier for HdlcCarrier<A> {
    ghost use Rattle.std.specs.Prelude.{IsSome, refl};
    ghost use Rattle.dlms_link.specs.Client.{IsDown, IsIdle};
    ghost use Rattle.dlms_carrier.specs.Hdlc.{Steps};

    ghost steps = { Steps };

    ghost out_of = { λ c. c.text };

    ghost apdu_of = { λ c. c.link.apdu };

    ghost is_down = { λ c. IsDown c.link };

    ghost is_idle = { λ c. IsIdle c.link };

    ghost is_waiting = { λ c. IsSome c.link.waits };

    ghost awaited = { λ old new octets count h. (h.answers refl).0 };

    ghost settled = { λ old new octets count h. (h.answers refl).1 };

    fn is_down(&self) -> bool {
        self.link.is_down()
    }

    fn is_idle(&self) -> bool {
        self.link.is_idle()
    }

    fn is_waiting(&self) -> bool {
        self.link.is_waiting()
    }

    fn begin(&mut self) -> Event {
        self.deframer.idle();
        self.text = self.link.connect().put();
        Event::Nothing
    }

    fn give(&mut self, apdu: &[u8]) -> Event {
        self.text = self.link.send(apdu).put();
        Event::Nothing
    }

    fn feed(&mut self, octets: &[u8]) -> Fed {
        self.text.clear();
        let count = self.deframer.feed(octets);
        let output = handle(&mut self.link, &self.deframer);
        match output {
            ClientOut::Nothing => Fed {
                count,
                event: Event::Nothing,
            },
            output => {
                self.deframer.idle();
                Fed {
                    count: octets.len(),
                    event: report(&mut self.text, output),
                }
            }
        }
    }

    fn wait(&mut self) -> Event {
        self.deframer.idle();
        self.text.clear();
        match self.link.timeout() {
            Ok(frame) => {
                self.text = frame.put();
                Event::Nothing
            }
            Err(_) => Event::TimedOut,
        }
    }

    fn end(&mut self) -> Event {
        self.text = self.link.disconnect().put();
        Event::Nothing
    }

    fn out(&self) -> &[u8] {
        self.text.as_slice()
    }

    fn apdu(&self) -> &[u8] {
        self.link.apdu()
    }
}
