//! The client's end of the link: one frame is out, and then it waits.

ghost use Rattle.std.specs.Prelude.{◌≡◌, ◌≢◌, ◌≤◌, ◌<◌, ℕ, ◌↔◌, IsTrue, IsOk, IsSome, Some, IfOk, IfSome, OnOk, OnErr, List, length, take, drop, MatchResult};
ghost use Rattle.dlms_link.specs.Client.{IsDown, IsIdle, StandsAfter, IsSentBy, fresh_between, fresh_proposing, fresh_client, to_server, client_connect, client_disconnect, client_send, client_step, client_timeout, client_segment, after_client_segment, client_ready, snrm_of, disc_of, closed, connected, out, way_of, is_answer, same_address, takes, by_way, on_counted};
ghost use Rattle.dlms_frame.specs.Frame.{IsAddress};
ghost use Rattle.dlms_link.specs.Parameters.{IsProposable};
ghost use Rattle.dlms_link.specs.declared.out.ClientOut.TheVariants.{Up};
ghost use Rattle.dlms_link.specs.declared.phase.Phase.TheVariants.{Connecting};

use crate::client_row::ClientRow;
use crate::control::{Control, DISC, SNRM, before, information_octet, next, read, ready_octet};
use crate::kept::{Assembly, DESTINATION, FROM_CLIENT, FROM_METER, MOST_APDU, Progress, QUALITY};
use crate::out::ClientOut;
use crate::parameters::{agreed_size, proposal};
use crate::phase::Phase;
use crate::segments::{MOST_BYTES, cut};
use arrayvec::ArrayVec;
use dlms_frame::{Address, Client, Frame, SentFrame};
use std::marker::Model;

/// Nobody answers.
#[derive(Clone, Copy, Debug, PartialEq, Eq)]
pub struct LineFault;

/// The client's end of the link.
#[derive(Drop)]
pub struct ClientLink {
    own: u8,
    server: Address,
    phase: Phase,
    send_next: u8,
    receive_next: u8,
    waits: Option<SentFrame>,
    repeats: u8,
    kept: Assembly,
    apdu: ArrayVec<u8, MOST_APDU>,
    unsent: ArrayVec<u8, 1027>,
    proposal: Option<u16>,
    size: u8,
}

impl Model for ClientLink {
    ghost use Rattle.dlms_link.specs.Client.{ClientRecord};

    ghost Value = { ClientRecord };

    ghost use Rattle.dlms_link.specs.ClientView.{record_of, IsInRange};

    ghost view = { record_of };

    ghost invariant = { IsInRange };
}

/// Whether two addresses are the same.
fn same_address(first: Address, second: Address) -> bool
    ensures { result ≡ same_address first second }
{
    match (first, second) {
        (Address::One(a), Address::One(b)) => a == b,
        (Address::Two(a, b), Address::Two(c, d)) => a == c && b == d,
        (Address::Four(a, b), Address::Four(c, d)) => a == c && b == d,
        _ => false,
    }
}

impl ClientLink {
    /// A closed link of this project's client to this project's meter.
    pub fn new(client: Client) -> Self
        ensures { result ≡ fresh_client client }
    {
        ClientLink::between(client.sap(), Address::One(1))
    }

    /// A closed link from the client with this service access point to the meter at this address. It proposes nothing, does not look
    /// at the UA's information, and sends at most 128 octets of information in a frame.
    pub fn between(own: u8, server: Address) -> Self
        requires own { own < 128 }
        requires server { IsAddress server }
        ensures { result ≡ fresh_between own server }
    {
        ClientLink::proposing(own, server, None)
    }

    /// A closed link from the client with this service access point to the meter at this address. If a proposal is given, 128 to 2,030,
    /// its SNRM proposes that number as the most octets of information in a frame of the meter, and 128 for its own (IEC 62056-46,
    /// 6.4.4.4.3.2). Then the link sends at most 128 octets in a frame, and fewer if the UA says that the meter receives fewer.
    /// Information of a UA that cannot be read, or names less than 32, leaves 128.
    pub fn proposing(own: u8, server: Address, proposal: Option<u16>) -> Self
        requires own { own < 128 }
        requires server { IsAddress server }
        requires proposal { IfSome proposal IsProposable }
        ensures { result ≡ fresh_proposing own server proposal }
    {
        ClientLink {
            own,
            server,
            phase: Phase::Closed,
            send_next: 0,
            receive_next: 0,
            waits: None,
            repeats: 0,
            kept: Assembly::new(),
            apdu: ArrayVec::new(),
            unsent: ArrayVec::new(),
            proposal,
            size: MOST_BYTES as u8,
        }
    }

    /// A frame to the meter.
    fn frame(&self, control: u8, segmented: bool, bytes: &[u8]) -> SentFrame
        requires { length bytes.now ≤ MOST_BYTES }
        ensures { result ≡ to_server self.now.own self.now.server control segmented bytes.now }
    {
        SentFrame::new(
            segmented,
            self.server,
            Address::One(self.own),
            control,
            bytes,
        )
    }

    /// The last APDU that was handed up.
    pub fn apdu(&self) -> &[u8]
        ensures value { result.now ≡ self.now.apdu }
        ensures short { length result.now ≤ MOST_APDU }
    {
        self.apdu.as_slice()
    }

    /// Whether the link is down, and nothing is awaited: `connect` may be called.
    pub fn is_down(&self) -> bool
        ensures { IsTrue result ↔ IsDown self.now }
    {
        self.phase == Phase::Closed && self.waits.is_none()
    }

    /// Whether the link is up, and nothing is awaited: `send` and `disconnect` may be called.
    pub fn is_idle(&self) -> bool
        ensures { IsTrue result ↔ IsIdle self.now }
    {
        self.phase == Phase::Open && self.waits.is_none()
    }

    /// Whether a frame is out and its answer is awaited: `timeout` may be called.
    pub fn is_waiting(&self) -> bool
        ensures { IsTrue result ↔ IsSome self.now.waits }
    {
        self.waits.is_some()
    }

    /// Asks for a connection.
    pub fn connect(&mut self) -> SentFrame
        requires { IsDown self.old }
        ensures frame { result ≡ snrm_of self.old }
        ensures after { self.new ≡ client_connect self.old }
    {
        let information = proposal(self.proposal);
        let frame = self.frame(SNRM, false, information.as_slice());
        self.phase = Phase::Connecting;
        self.goes_out(&frame);
        frame
    }

    /// Asks for the connection's end.
    pub fn disconnect(&mut self) -> SentFrame
        requires { IsIdle self.old }
        ensures frame { result ≡ disc_of self.old }
        ensures after { self.new ≡ client_disconnect self.old }
    {
        let frame = self.frame(DISC, false, &[]);
        self.phase = Phase::Closing;
        self.goes_out(&frame);
        frame
    }

    /// Sends an APDU: its first segment.
    pub fn send(&mut self, apdu: &[u8]) -> SentFrame
        requires idle { IsIdle self.old }
        requires short { length apdu.now ≤ MOST_APDU }
        ensures frame { result ≡ (client_send self.old apdu.now).1 }
        ensures after { self.new ≡ (client_send self.old apdu.now).0 }
    {
        let mut unsent = ArrayVec::new();
        let _ = unsent.try_extend_from_slice(&[DESTINATION, FROM_CLIENT, QUALITY]);
        let _ = unsent.try_extend_from_slice(apdu);
        self.unsent = unsent;
        self.kept = Assembly::new();
        self.segment()
    }

    /// A time-out of the frame that is out: it goes again, and the fourth in a row ends the link.
    pub fn timeout(&mut self) -> Result<SentFrame, LineFault>
        requires { IsSome self.old.waits }
        ensures frame { MatchResult result (λ f. (client_timeout self.old).1 ≡ Some f)
            (λ _. (client_timeout self.old).1 ≡ None) }
        ensures after { self.new ≡ (client_timeout self.old).0 }
        ensures counts { IsOk result ↔ (self.old.repeats < 3) }
        ensures again { IfOk result (λ f. self.old.waits ≡ Some f) }
        ensures sent { IfOk result (IsSentBy self.old.own self.old.server) }
        ensures waiting { OnOk result (self.new.waits ≡ self.old.waits) }
        ensures phase { OnOk result (self.new.phase ≡ self.old.phase) }
        ensures down { OnErr result (IsDown self.new) }
    {
        if self.repeats < 3 {
            if let Some(frame) = &self.waits {
                let again = frame.copy();
                self.repeats += 1;
                return Ok(again);
            }
        }
        self.close();
        Err(LineFault)
    }

    /// How the link handles a frame.
    pub fn on(&mut self, frame: &Frame<'_>) -> ClientOut
        ensures out { result ≡ (client_step self.old frame.now).1 }
        ensures after { self.new ≡ (client_step self.old frame.now).0 }
        ensures stands { StandsAfter self.old result self.new }
        ensures comes_up { result ≡ Up → self.old.phase ≡ Connecting }
        ensures addresses { (self.new.own ≡ self.old.own) × (self.new.server ≡ self.old.server) }
        ensures proposal { self.new.proposal ≡ self.old.proposal }
    {
        if !self.is_answer(frame) {
            return ClientOut::Nothing;
        }
        let control = read(frame.control);
        match (control, self.phase) {
            (Control::Ua, Phase::Connecting) => {
                self.close();
                self.phase = Phase::Open;
                self.size = agreed_size(self.proposal, frame.info);
                ClientOut::Up
            }
            (Control::Ua, Phase::Closing) => {
                self.close();
                ClientOut::Down
            }
            (Control::Dm, _) => {
                self.close();
                ClientOut::Down
            }
            (Control::Information(_, _) | Control::Ready(_), Phase::Open) => {
                self.by_way(frame, self.way(control))
            }
            _ => ClientOut::Nothing,
        }
    }

    /// Whether a frame is from the meter to this client.
    #[tactic(auto, unfolding(crate::specs::Client::is_answer))]
    fn is_answer(&self, frame: &Frame<'_>) -> bool
        ensures { result ≡ is_answer self.now frame.now }
    {
        same_address(frame.dest, Address::One(self.own)) && same_address(frame.src, self.server)
    }

    /// How an open link handles an I or an RR.
    #[tactic(auto, unfolding(crate::specs::Client::way_of))]
    fn way(&self, control: Control) -> ClientRow
        ensures { result ≡ way_of self.now control }
    {
        match control {
            Control::Information(send, receive) => {
                if send == self.receive_next && receive == self.send_next {
                    ClientRow::Takes
                } else if send == before(self.receive_next) {
                    ClientRow::TakenBefore
                } else {
                    ClientRow::Leaves
                }
            }
            Control::Ready(receive) => {
                if receive == self.send_next && !self.unsent.is_empty() {
                    ClientRow::LetsNext
                } else {
                    ClientRow::Leaves
                }
            }
            _ => ClientRow::Leaves,
        }
    }

    fn by_way(&mut self, frame: &Frame<'_>, way: ClientRow) -> ClientOut
        ensures out { result ≡ (by_way self.old frame.now way).1 }
        ensures stays { result ≢ Up }
        ensures after { self.new ≡ (by_way self.old frame.now way).0 }
    {
        match way {
            ClientRow::Takes => {
                self.kept.take(FROM_METER, frame.info);
                self.takes(frame.segmented)
            }
            ClientRow::TakenBefore => ClientOut::Send(self.ready()),
            ClientRow::LetsNext => ClientOut::Send(self.segment()),
            ClientRow::Leaves => ClientOut::Nothing,
        }
    }

    /// A segment of an answer was kept.
    fn takes(&mut self, segmented: bool) -> ClientOut
        ensures out { result ≡ (takes self.old segmented self.old.kept).1 }
        ensures stays { result ≢ Up }
        ensures after { self.new ≡ (takes self.old segmented self.old.kept).0 }
    {
        match self.kept.progress() {
            Progress::Good => {
                self.receive_next = next(self.receive_next);
                self.unsent.clear();
                if segmented {
                    ClientOut::Send(self.ready())
                } else {
                    self.apdu = self.kept.apdu();
                    self.kept = Assembly::new();
                    self.waits = None;
                    self.repeats = 0;
                    ClientOut::Apdu
                }
            }
            _ => {
                self.close();
                ClientOut::Down
            }
        }
    }

    /// The next segment of the APDU that is being sent.
    fn segment(&mut self) -> SentFrame
        ensures frame { result ≡ client_segment self.old }
        ensures after { self.new ≡ after_client_segment self.old }
    {
        let (front, more) = cut(&mut self.unsent, self.size as usize);
        let frame = self.frame(
            information_octet(self.send_next, self.receive_next),
            more,
            front.as_slice(),
        );
        self.send_next = next(self.send_next);
        self.goes_out(&frame);
        frame
    }

    /// An RR with the number that is expected.
    fn ready(&mut self) -> SentFrame
        ensures frame { result ≡ client_ready self.old }
        ensures after { self.new ≡ out self.old (client_ready self.old) }
    {
        let frame = self.frame(ready_octet(self.receive_next), false, &[]);
        self.goes_out(&frame);
        frame
    }

    /// The frame is out.
    fn goes_out(&mut self, frame: &SentFrame)
        requires { IsSentBy self.old.own self.old.server frame.now }
        ensures { self.new ≡ out self.old frame.now }
    {
        self.waits = Some(frame.copy());
        self.repeats = 0;
    }

    /// No link.
    fn close(&mut self)
        ensures { self.new ≡ closed self.old }
    {
        self.phase = Phase::Closed;
        self.send_next = 0;
        self.receive_next = 0;
        self.waits = None;
        self.repeats = 0;
        self.kept = Assembly::new();
        self.unsent.clear();
    }
}
