//! The talks of the clients with the meters.

ghost use Rattle.std.specs.Prelude.{◌≡◌, [], None, Some, remove, slice_index_or, IfOk, IsErr, MatchOption, OnErr, OnOk};
ghost use Rattle.dlms_dissect.specs.Segments.{JoinsFrame, behind_llc};
ghost use Rattle.dlms_dissect.specs.Talks.{JoinsOctets, JoinsOfClient, are_same, asks_anew, awaited, forgotten, is_apdu, is_certain, is_repeated, may_be, new_talk, opened_talk, place_of, talk_behind, taken_next, taken_of, taken_of_client, uncertain, with_last, with_talk};
ghost use Rattle.dlms_dissect.specs.Heeding.{heeded, is_heeded};

use crate::control::{Control, has_poll, read};
use crate::parties::{Parties, Side};
use crate::segments::{Came, Segments, behind_llc};
use crate::services::Services;
use std::alloc::{AllocError, Allocator};

/// How many talks are followed at once.
const MOST_TALKS: usize = 8;

/// The numbers of an information frame, and whether its poll bit is set: without it the meter takes no frame.
#[derive(Clone, Copy)]
pub struct Numbers {
    pub send: u8,
    pub receive: u8,
    pub poll: bool,
}

/// Whether a frame without numbers is heeded: with the poll bit, or from the meter the final bit, which are one bit; SNRM and DISC
/// from the client, UA and DM from the meter.
fn is_heeded(side: Option<Side>, octet: u8) -> bool
    ensures { result ≡ is_heeded side octet }
{
    let other = match read(octet) {
        Control::Snrm | Control::Disc => Side::Meter,
        _ => Side::Client,
    };
    has_poll(octet) && side != Some(other)
}

/// A talk of a client with a meter.
#[derive(Drop)]
pub struct Talk<A: Allocator> {
    pub parties: Parties,
    pub client: Segments<A>,
    pub meter: Segments<A>,
    pub services: Services<A>,
}

impl<A: Allocator + Copy> Talk<A> {
    /// Before the first frame.
    fn new(alloc: A, parties: Parties, raw: bool) -> Self
        ensures { result ≡ new_talk parties raw }
    {
        Talk {
            parties,
            client: Segments::new(alloc),
            meter: Segments::new(alloc),
            services: Services::new(alloc, raw),
        }
    }

    /// Frames are missing: it is not known any more what was asked for, and nothing in blocks goes on.
    fn lose(&mut self, alloc: A)
        ensures { self.new ≡ uncertain self.old }
    {
        let raw = self.services.is_raw();
        self.services = Services::new(alloc, raw);
    }

    /// The link goes down, or this is requested: nothing in progress continues.
    pub fn forget(&mut self, alloc: A)
        ensures { self.new ≡ forgotten self.old }
    {
        *self = Talk::new(alloc, self.parties, self.services.is_raw());
    }

    /// The link is up: each end begins with the number 0, and nothing goes on.
    pub fn open(&mut self, alloc: A)
        ensures { self.new ≡ opened_talk self.old }
    {
        self.client.open();
        self.meter.open();
        self.lose(alloc);
    }

    /// The meter awaits this number of the client next: it answers only what it took.
    pub fn expect(&mut self, alloc: A, receive: u8)
        ensures { self.new ≡ awaited self.old receive }
    {
        if !self.client.is_known(receive) {
            self.client.expect(receive);
            self.meter.drop_unsent();
            self.lose(alloc);
        }
    }

    /// Does what a frame that holds no APDU does in a talk: the link goes down, comes up, or the meter says what it awaits.
    pub fn heed(&mut self, alloc: A, side: Option<Side>, octet: u8)
        ensures { self.new ≡ heeded self.old side octet }
    {
        match read(octet) {
            Control::Snrm | Control::Disc | Control::Dm => {
                if is_heeded(side, octet) {
                    self.forget(alloc);
                }
            }
            Control::Ua => {
                if is_heeded(side, octet) {
                    self.open(alloc);
                }
            }
            Control::Ready { receive } | Control::NotReady { receive } => {
                if side == Some(Side::Meter) {
                    self.expect(alloc, receive);
                }
            }
            _ => {}
        }
    }

    /// Whether a frame of the client is its last one again, with the same APDU.
    fn is_repeated(&self, number: u8, info: &[u8]) -> bool
        ensures { result ≡ is_repeated self.now.client number info.now }
    {
        if !self.client.is_again(number) {
            return false;
        }
        match behind_llc(Some(Side::Client), info) {
            Some(octets) => octets == self.client.apdu(),
            None => false,
        }
    }

    /// Whether a frame of the client has the number of its last one and begins another APDU: it awaits no older answer any more.
    fn asks_anew(&self, number: u8, info: &[u8]) -> bool
        ensures { result ≡ asks_anew self.now.client number info.now }
    {
        self.client.is_again(number)
            && behind_llc(Some(Side::Client), info).is_some()
            && !self.is_repeated(number, info)
    }

    /// Whether no frame is missing before this one.
    fn is_certain(&self, side: Option<Side>, numbers: Numbers, info: &[u8]) -> bool
        ensures { result ≡ is_certain self.now side numbers info.now }
    {
        let Numbers { send, receive, .. } = numbers;
        match side {
            Some(Side::Client) => {
                (self.client.is_known(send) && self.meter.is_known(receive))
                    || self.is_repeated(send, info)
            }
            Some(Side::Meter) => {
                self.client.is_known(receive)
                    && (self.meter.is_known(send) || self.meter.is_again(send))
            }
            None => false,
        }
    }

    /// Takes the information frame of the client that is next.
    fn take_next(
        &mut self,
        numbers: Numbers,
        follows: bool,
        info: &[u8],
    ) -> Result<Came, AllocError>
        ensures came { IfOk result
            (λ came. came ≡ (taken_next self.old numbers follows info.now).0) }
        ensures after { IfOk result
            (λ came. self.new ≡ (taken_next self.old numbers follows info.now).1) }
        ensures memory { IsErr result
            → JoinsFrame self.old.client (Some Side.Client) numbers.send info.now }
    {
        self.meter.expect(numbers.receive);
        if !follows {
            self.meter.drop_unsent();
            self.services.pass();
        }
        self.client
            .take(Some(Side::Client), numbers.send, follows, info)
    }

    /// Takes an information frame of the client. Those are taken that the meter takes.
    fn take_from_client(
        &mut self,
        numbers: Numbers,
        follows: bool,
        info: &[u8],
    ) -> Result<Came, AllocError>
        ensures came { IfOk result
            (λ came. came ≡ (taken_of_client self.old numbers follows info.now).0) }
        ensures after { IfOk result
            (λ came. self.new ≡ (taken_of_client self.old numbers follows info.now).1) }
        ensures memory { IsErr result → JoinsOfClient self.old numbers info.now }
    {
        let side = Some(Side::Client);
        if !numbers.poll {
            return Ok(Came::NoPoll);
        }
        if !self.client.is_next(numbers.send) || !self.meter.is_next(numbers.receive) {
            return Ok(self.client.pass_frame(side, numbers.send, follows, info));
        }
        self.take_next(numbers, follows, info)
    }

    /// Takes an information frame of this side.
    fn take_from(
        &mut self,
        alloc: A,
        side: Option<Side>,
        numbers: Numbers,
        follows: bool,
        info: &[u8],
    ) -> Result<Came, AllocError>
        ensures came { IfOk result
            (λ came. came ≡ (taken_of self.old side numbers follows info.now).0) }
        ensures after { IfOk result
            (λ came. self.new ≡ (taken_of self.old side numbers follows info.now).1) }
        ensures memory { IsErr result → JoinsOctets self.old side numbers info.now }
    {
        match side {
            Some(Side::Meter) => {
                self.expect(alloc, numbers.receive);
                self.meter.take(side, numbers.send, follows, info)
            }
            Some(Side::Client) => {
                if self.asks_anew(numbers.send, info) {
                    self.meter.drop_unsent();
                }
                self.take_from_client(numbers, follows, info)
            }
            None => self.client.take(side, numbers.send, follows, info),
        }
    }

    /// Takes an information frame of this side; `follows` states that another segment of its APDU comes. If frames are missing
    /// before it, the requested object is forgotten. Memory is needed only if octets are joined; if it is refused, the state
    /// afterwards is unspecified.
    pub fn take(
        &mut self,
        alloc: A,
        side: Option<Side>,
        numbers: Numbers,
        follows: bool,
        info: &[u8],
    ) -> Result<Came, AllocError>
        ensures came { IfOk result
            (λ came. came ≡ (talk_behind self.old side numbers follows info.now).0) }
        ensures after { IfOk result
            (λ came. self.new ≡ (talk_behind self.old side numbers follows info.now).1) }
        ensures memory { IsErr result → JoinsOctets self.old side numbers info.now }
    {
        if !self.is_certain(side, numbers, info) {
            self.lose(alloc);
        }
        self.take_from(alloc, side, numbers, follows, info)
    }
}

/// Appends an item. If there are too many, the first one is dropped.
fn put_last<T: Drop, A: Allocator>(items: &mut Vec<T, A>, item: T) -> Result<(), AllocError>
    ensures items { OnOk result (items.new.items ≡ with_last items.old.items item) }
    ensures err { OnErr result (items.new.items ≡ items.old.items) }
{
    items.push(item)?;
    if items.len() > MOST_TALKS {
        let _oldest = items.remove(0);
    }
    Ok(())
}

/// The talks, each of another pair of ends.
#[derive(Drop)]
pub struct Talks<A: Allocator> {
    talks: Vec<Talk<A>, A>,
    raw: bool,
}

impl<A: Allocator + Copy> Talks<A> {
    /// None yet; with `raw`, strings that may be a secret are shown as they are.
    pub fn new(alloc: A, raw: bool) -> Self
        ensures talks { result.talks.items ≡ [] }
        ensures raw { result.raw ≡ raw }
    {
        Talks {
            talks: Vec::new(alloc),
            raw,
        }
    }

    /// Every talk begins anew.
    pub fn reset(&mut self)
        ensures talks { self.new.talks.items ≡ [] }
        ensures raw { self.new.raw ≡ self.old.raw }
    {
        self.talks.clear();
    }

    /// Where the talk of these ends stands.
    fn find(&self, parties: Parties) -> Option<usize>
        ensures { result ≡ place_of self.now.talks.items parties }
    {
        self.talks
            .iter()
            .position(|talk| talk.parties.are_same(parties))
    }

    /// Takes the talk of these ends out, or begins one. It is to be put back.
    pub fn take(&mut self, alloc: A, parties: Parties) -> Talk<A>
        ensures talk { MatchOption (place_of self.old.talks.items parties)
            (result ≡ new_talk parties self.old.raw)
            (λ at. result ≡ slice_index_or self.old.talks.items at result) }
        ensures others { MatchOption (place_of self.old.talks.items parties)
            (self.new.talks.items ≡ self.old.talks.items)
            (λ at. self.new.talks.items ≡ remove self.old.talks.items at) }
        ensures raw { self.new.raw ≡ self.old.raw }
    {
        match self.find(parties) {
            Some(at) => self.talks.remove(at),
            None => Talk::new(alloc, parties, self.raw),
        }
    }

    /// Puts a talk back. Where there are too many, the one that was longest silent is let go. Where memory is refused, the talk
    /// is let go, and the others stay as they were.
    pub fn put(&mut self, talk: Talk<A>) -> Result<(), AllocError>
        ensures talks { OnOk result (self.new.talks.items ≡ with_talk self.old.talks.items talk) }
        ensures err { OnErr result (self.new.talks.items ≡ self.old.talks.items) }
        ensures raw { self.new.raw ≡ self.old.raw }
    {
        put_last(&mut self.talks, talk)
    }
}
