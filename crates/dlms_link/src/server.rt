//! The meter's end of a client's link.

ghost use Rattle.std.specs.Prelude.{◌≡◌, ◌≤◌, ◌<◌, ℕ, ◌↔◌, IsTrue, is_some, IsSome, IfSome, List, length, true, take, drop, nat_le};
ghost use Rattle.dlms_frame.specs.Frame.{IsAddress};
ghost use Rattle.dlms_link.specs.Parameters.{size_of};
ghost use Rattle.dlms_link.specs.Server.{again, fresh_server, is_meter, is_client, to_client, row_of, row_of_snrm, row_while_up, row_while_down, by_row, ready_frame, server_on, server_send, awaits, HasSize, segment_of, after_segment, was_information};

use crate::control::{Control, DM, UA, before, information_octet, next, read, ready_octet};
use crate::kept::{Assembly, DESTINATION, FROM_CLIENT, FROM_METER, MOST_APDU, QUALITY};
use crate::last_answer::Answer;
use crate::out::LinkOut;
use crate::parameters::{parameters, size_of};
use crate::segments::{MOST_BYTES, cut};
use crate::server_row::ServerRow;
use arrayvec::ArrayVec;
use dlms_frame::{Address, Client, Frame, SentFrame};
use std::marker::Model;

/// The meter's end of a client's link.
#[derive(Drop)]
pub struct ServerLink {
    client: Client,
    up: bool,
    send_next: u8,
    receive_next: u8,
    last: Answer,
    took_information: bool,
    kept: Assembly,
    apdu: ArrayVec<u8, MOST_APDU>,
    unsent: ArrayVec<u8, 1027>,
    size: u8,
    waits: Option<Address>,
}

impl Model for ServerLink {
    ghost use Rattle.dlms_link.specs.Server.{ServerRecord};

    ghost Value = { ServerRecord };

    ghost use Rattle.dlms_link.specs.ServerView.{record_of, IsInRange};

    ghost view = { record_of };

    ghost invariant = { IsInRange };
}

/// Whether an address is the meter's.
fn is_meter(address: Address) -> bool
    ensures { result ≡ is_meter address }
{
    match address {
        Address::One(upper) => upper == 1,
        Address::Two(upper, lower) => upper == 1 && lower == 17,
        Address::Four(upper, lower) => upper == 1 && lower == 17,
    }
}

/// Whether an address is this client's.
fn is_client(client: Client, address: Address) -> bool
    ensures { result ≡ is_client client address }
{
    match address {
        Address::One(sap) => sap == client.sap(),
        Address::Two(_, _) => false,
        Address::Four(_, _) => false,
    }
}

/// A frame to the client, from the address that it spoke to.
fn to_client(client: Client, from: Address, control: u8, segmented: bool, bytes: &[u8]) -> SentFrame
    requires from { IsAddress from }
    requires short { length bytes.now ≤ MOST_BYTES }
    ensures { result ≡ to_client client from control segmented bytes.now }
{
    SentFrame::new(segmented, Address::One(client.sap()), from, control, bytes)
}

/// The same answer, as the output.
fn again(last: &Answer) -> LinkOut
    ensures { result ≡ again last.now }
{
    match last {
        Answer::NoAnswer => LinkOut::Nothing,
        Answer::WasReady(frame) => LinkOut::Reply(frame.copy()),
        Answer::WasInformation(frame) => LinkOut::Reply(frame.copy()),
    }
}

/// Whether the last answer was an I.
fn was_information(last: &Answer) -> bool
    ensures { result ≡ was_information last.now }
{
    match last {
        Answer::NoAnswer => false,
        Answer::WasReady(_) => false,
        Answer::WasInformation(_) => true,
    }
}

impl ServerLink {
    /// The meter's end for this client, down.
    pub fn new(client: Client) -> Self
        ensures { result ≡ fresh_server client }
    {
        ServerLink {
            client,
            up: false,
            send_next: 0,
            receive_next: 0,
            last: Answer::NoAnswer,
            took_information: false,
            kept: Assembly::new(),
            apdu: ArrayVec::new(),
            unsent: ArrayVec::new(),
            size: MOST_BYTES as u8,
            waits: None,
        }
    }

    /// The last APDU that was handed up.
    pub fn apdu(&self) -> &[u8]
        ensures value { result.now ≡ self.now.apdu }
        ensures short { length result.now ≤ MOST_APDU }
    {
        self.apdu.as_slice()
    }

    /// The row of the table that a frame fits.
    #[tactic(auto, unfolding(crate::specs::Server::row_of))]
    fn row(&self, frame: &Frame<'_>) -> ServerRow
        ensures row { result ≡ row_of self.now frame.now }
        ensures size { HasSize result }
    {
        if !(is_meter(frame.dest) && is_client(self.client, frame.src)) {
            return ServerRow::Ignores;
        }
        let control = read(frame.control);
        if self.up {
            self.row_while_up(frame.segmented, frame.info, control)
        } else {
            row_while_down(frame.info, control)
        }
    }

    /// The row of a frame that comes while the link is up.
    fn row_while_up(&self, segmented: bool, info: &[u8], control: Control) -> ServerRow
        ensures row { result ≡ row_while_up self.now segmented info.now control }
        ensures size { HasSize result }
    {
        match control {
            Control::Snrm => row_of_snrm(info),
            Control::Disc => ServerRow::Disconnects,
            Control::Information(send, receive) => {
                if send == self.receive_next && receive == self.send_next {
                    if segmented {
                        ServerRow::Keeps
                    } else {
                        ServerRow::HandsUp
                    }
                } else if send == before(self.receive_next) && self.took_information {
                    ServerRow::Repeats
                } else {
                    ServerRow::Ignores
                }
            }
            Control::Ready(receive) => {
                if receive == self.send_next {
                    if self.unsent.is_empty() {
                        ServerRow::SaysReady
                    } else {
                        ServerRow::SendsNext
                    }
                } else if receive == before(self.send_next) && was_information(&self.last) {
                    ServerRow::Repeats
                } else {
                    ServerRow::Ignores
                }
            }
            Control::NotReady | Control::Ua | Control::Dm | Control::Other => ServerRow::Ignores,
        }
    }

    /// The next segment of the answer.
    fn segment(&mut self, from: Address) -> SentFrame
        requires { IsAddress from }
        ensures frame { result ≡ segment_of self.old from }
        ensures after { self.new ≡ after_segment self.old from }
    {
        let (front, more) = cut(&mut self.unsent, self.size as usize);
        let frame = to_client(
            self.client,
            from,
            information_octet(self.send_next, self.receive_next),
            more,
            front.as_slice(),
        );
        self.send_next = next(self.send_next);
        self.last = Answer::WasInformation(frame.copy());
        frame
    }

    /// Whether an APDU waits for its answer: then `send` may be called, and `on` may not before it was.
    pub fn is_waiting(&self) -> bool
        ensures { IsTrue result ↔ IsSome self.now.waits }
    {
        self.waits.is_some()
    }

    /// The answer to the APDU that was handed up: its first segment.
    pub fn send(&mut self, answer: &[u8]) -> SentFrame
        requires waits { IsSome self.old.waits }
        requires short { length answer.now ≤ MOST_APDU }
        ensures frame { result ≡ (server_send self.old answer.now).1 }
        ensures after { self.new ≡ (server_send self.old answer.now).0 }
        ensures idle { self.new.waits ≡ None }
        ensures client { self.new.client ≡ self.old.client }
    {
        let from = self.waits.unwrap_or(Address::One(1));
        let mut unsent = ArrayVec::new();
        let _ = unsent.try_extend_from_slice(&[DESTINATION, FROM_METER, QUALITY]);
        let _ = unsent.try_extend_from_slice(answer);
        self.unsent = unsent;
        self.waits = None;
        self.segment(from)
    }

    /// How the link handles a frame.
    pub fn on(&mut self, frame: &Frame<'_>) -> LinkOut
        requires { self.old.waits ≡ None }
        ensures out { result ≡ (server_on self.old frame.now).1 }
        ensures after { self.new ≡ (server_on self.old frame.now).0 }
        ensures waits { is_some self.new.waits ≡ awaits result }
        ensures client { self.new.client ≡ self.old.client }
    {
        match self.row(frame) {
            ServerRow::Connects(size) => self.connects(frame, size),
            ServerRow::Refuses => self.refuses(frame),
            ServerRow::Disconnects => self.disconnects(frame),
            ServerRow::Keeps => self.keeps(frame),
            ServerRow::HandsUp => self.hands_up(frame),
            ServerRow::Repeats => again(&self.last),
            ServerRow::SendsNext => self.sends_next(frame),
            ServerRow::SaysReady => self.says_ready(frame),
            ServerRow::Ignores => LinkOut::Nothing,
        }
    }

    /// The link comes up.
    fn connects(&mut self, frame: &Frame<'_>, size: u8) -> LinkOut
        requires least { 32 ≤ size }
        requires most { size ≤ MOST_BYTES }
        requires idle { self.old.waits ≡ None }
        ensures out { result ≡ (by_row self.old frame.now (ServerRow.Connects size)).1 }
        ensures after { self.new ≡ (by_row self.old frame.now (ServerRow.Connects size)).0 }
    {
        let client = self.client;
        *self = ServerLink::connected(client, size);
        LinkOut::Up(to_client(client, frame.dest, UA, false, &parameters(size)))
    }

    /// The link is down, or comes down for an SNRM that can't be met.
    fn refuses(&mut self, frame: &Frame<'_>) -> LinkOut
        ensures out { result ≡ (by_row self.old frame.now ServerRow.Refuses).1 }
        ensures after { self.new ≡ (by_row self.old frame.now ServerRow.Refuses).0 }
    {
        self.up = false;
        LinkOut::Down(to_client(self.client, frame.dest, DM, false, &[]))
    }

    /// The link comes down, as the client wants it.
    fn disconnects(&mut self, frame: &Frame<'_>) -> LinkOut
        ensures out { result ≡ (by_row self.old frame.now ServerRow.Disconnects).1 }
        ensures after { self.new ≡ (by_row self.old frame.now ServerRow.Disconnects).0 }
    {
        self.up = false;
        LinkOut::Down(to_client(self.client, frame.dest, UA, false, &[]))
    }

    /// A segment is kept.
    fn keeps(&mut self, frame: &Frame<'_>) -> LinkOut
        ensures out { result ≡ (by_row self.old frame.now ServerRow.Keeps).1 }
        ensures after { self.new ≡ (by_row self.old frame.now ServerRow.Keeps).0 }
    {
        self.receive_next = next(self.receive_next);
        self.took_information = true;
        self.kept.take(FROM_CLIENT, frame.info);
        LinkOut::Reply(self.ready(frame.dest))
    }

    /// The APDU is whole, and is handed up.
    fn hands_up(&mut self, frame: &Frame<'_>) -> LinkOut
        ensures out { result ≡ (by_row self.old frame.now ServerRow.HandsUp).1 }
        ensures after { self.new ≡ (by_row self.old frame.now ServerRow.HandsUp).0 }
    {
        self.receive_next = next(self.receive_next);
        self.took_information = true;
        self.kept.take(FROM_CLIENT, frame.info);
        let told = self.kept.told();
        self.kept.give(&mut self.apdu);
        self.unsent.clear();
        self.waits = Some(frame.dest);
        told
    }

    /// The next segment of the answer goes out.
    fn sends_next(&mut self, frame: &Frame<'_>) -> LinkOut
        ensures out { result ≡ (by_row self.old frame.now ServerRow.SendsNext).1 }
        ensures after { self.new ≡ (by_row self.old frame.now ServerRow.SendsNext).0 }
    {
        self.took_information = false;
        LinkOut::Reply(self.segment(frame.dest))
    }

    /// No segment is left: an RR goes out.
    fn says_ready(&mut self, frame: &Frame<'_>) -> LinkOut
        ensures out { result ≡ (by_row self.old frame.now ServerRow.SaysReady).1 }
        ensures after { self.new ≡ (by_row self.old frame.now ServerRow.SaysReady).0 }
    {
        self.took_information = false;
        LinkOut::Reply(self.ready(frame.dest))
    }

    /// An RR, as the last answer.
    fn ready(&mut self, from: Address) -> SentFrame
        requires { IsAddress from }
        ensures frame { result ≡ ready_frame self.old from }
        ensures after { self.new ≡ record self.old {
          last = Answer.WasReady
              (ready_frame self.old from);
        } }
    {
        let frame = to_client(
            self.client,
            from,
            ready_octet(self.receive_next),
            false,
            &[],
        );
        self.last = Answer::WasReady(frame.copy());
        frame
    }

    /// A link that has just come up.
    fn connected(client: Client, size: u8) -> Self
        requires least { 32 ≤ size }
        requires most { size ≤ MOST_BYTES }
        ensures { result ≡ record (fresh_server client) { up = true; size = size } }
    {
        ServerLink {
            up: true,
            size,
            ..ServerLink::new(client)
        }
    }
}

/// The row of an SNRM.
fn row_of_snrm(info: &[u8]) -> ServerRow
    ensures row { result ≡ row_of_snrm (size_of info.now) }
    ensures size { HasSize result }
{
    match size_of(info) {
        Some(size) => ServerRow::Connects(size),
        None => ServerRow::Refuses,
    }
}

/// The row of a frame that comes while the link is down.
fn row_while_down(info: &[u8], control: Control) -> ServerRow
    ensures row { result ≡ row_while_down info.now control }
    ensures size { HasSize result }
{
    match control {
        Control::Snrm => row_of_snrm(info),
        Control::Disc | Control::Information(_, _) | Control::Ready(_) | Control::NotReady => {
            ServerRow::Refuses
        }
        Control::Ua | Control::Dm | Control::Other => ServerRow::Ignores,
    }
}
