//! The blocks of long values, joined.

ghost use Rattle.std.specs.Prelude.{◌≡◌, ◌<◌, length, true, IfOk, OnErr};
ghost use Rattle.dlms_blocks.specs.Joining.{is_next};
ghost use Rattle.dlms_blocks.specs.Coming.{first_answer, first_after, more_answer, more_after};
ghost use Rattle.dlms_dissect.specs.Asked.{of_invoke, of_service};
ghost use Rattle.dlms_dissect.specs.Joining.{got_answer, got_after, read_of, begun, dropped, put_answer, none};
ghost use Rattle.dlms_dissect.specs.Secrets.{secrecy_of, told_as};
ghost use Rattle.dlms_dissect.specs.Whole.{IsToldOfWhole, WantsMemory};

use crate::named::{Asked, of_invoke, of_service};
use crate::secrecy::{secrecy_of, told_as};
use crate::whole::{Whole, whole_of};
use dlms_blocks::{GetIn, LONG_SET_ABORTED, PutIn, PutStep, UNKNOWN_BLOCK};
use std::alloc::{AllocError, Allocator};
use std::marker::Model;

/// The most octets of a value that is read in blocks.
pub const MOST_VALUE: usize = 65_536;

/// The position of a block among those before it.
#[derive(Clone, Copy)]
pub enum Joined {
    /// The next one; others are to follow.
    More,
    /// The last one, and all of them came: the value is there.
    Whole,
    /// Another one than the next.
    NotNext,
    /// The value is longer than what is joined here.
    TooLong,
}

/// The transfers of both directions, each with its object, from its first block on.
#[derive(Drop)]
pub struct Transfers<A: Allocator> {
    got: GetIn<A>,
    got_of: Option<Asked>,
    put: PutIn,
    put_of: Option<Asked>,
}

impl<A: Allocator> Model for Transfers<A> {
    ghost use Rattle.dlms_dissect.specs.Transfers.{TwoTransfers};

    ghost Value = { TwoTransfers };

    ghost view = { λ t. record { got = t.got; got_of = t.got_of; put = t.put; put_of = t.put_of } };
}

/// The position of a block by its step.
fn joined_of(step: Result<PutStep, u8>) -> Joined
    ensures { result ≡ put_answer step }
{
    match step {
        Ok(PutStep::More) => Joined::More,
        Ok(PutStep::Whole) => Joined::Whole,
        Err(LONG_SET_ABORTED) => Joined::TooLong,
        Err(_) => Joined::NotNext,
    }
}

impl<A: Allocator + Copy> Transfers<A> {
    /// No block came. No memory is taken here.
    pub fn new(alloc: A) -> Self
        ensures { result ≡ none }
    {
        Transfers {
            got: GetIn::new(alloc),
            got_of: None,
            put: PutIn::new(),
            put_of: None,
        }
    }

    /// Another value is asked for: none is read in blocks any more.
    pub fn drop_got(&mut self, alloc: A)
        ensures { self.new ≡ dropped self.old }
    {
        self.got = GetIn::new(alloc);
        self.got_of = None;
    }

    /// A block of a value that is read, in an APDU with this invoke-id-and-priority. The block with number 1 begins a value, of the
    /// requested object, if that is known. If memory is refused, the blocks before this one stay.
    pub fn get(
        &mut self,
        alloc: A,
        asked: Option<Asked>,
        invoke: u8,
        last: bool,
        number: u32,
        raw: &[u8],
    ) -> Result<Joined, AllocError>
        ensures answer { IfOk result (λ joined. joined ≡ got_answer
            (begun self.old.got number) last number raw.now) }
        ensures after { IfOk result (λ joined. self.new ≡ record self.old {
          got = got_after
              (begun self.old.got number) last number raw.now;
          got_of = read_of self.old asked invoke number;
        }) }
        ensures err { OnErr result (self.new ≡ record self.old {
          got = begun self.old.got number;
          got_of = read_of self.old asked invoke number;
        }) }
        ensures memory { OnErr result ((is_next (begun self.old.got number) number ≡ true)
            × (0 < length raw.now)) }
    {
        if number == 1 {
            self.got = GetIn::new(alloc);
            self.got_of = asked;
        }
        self.got_of = of_invoke(self.got_of, invoke);
        if raw.len() > MOST_VALUE || self.got.bytes().len() > MOST_VALUE - raw.len() {
            return Ok(Joined::TooLong);
        }
        match self.got.more(last, number, raw) {
            Ok(true) => Ok(Joined::Whole),
            Ok(false) => Ok(Joined::More),
            Err(UNKNOWN_BLOCK) => Ok(Joined::NotNext),
            Err(_) => Err(AllocError),
        }
    }

    /// The first block of a value to set or of a parameter, and its object.
    pub fn put_first(&mut self, asked: Option<Asked>, last: bool, number: u32, raw: &[u8]) -> Joined
        ensures answer { result ≡ put_answer (first_answer last number raw.now) }
        ensures after { self.new ≡ record self.old {
          put = first_after last number raw.now;
          put_of = asked;
        } }
    {
        self.put_of = asked;
        joined_of(self.put.first(last, number, raw))
    }

    /// A further block of a value to set, or of a method's parameter, in an APDU of this invoke-id-and-priority.
    pub fn put_more(
        &mut self,
        invoke: u8,
        method: bool,
        last: bool,
        number: u32,
        raw: &[u8],
    ) -> Joined
        ensures answer { result ≡ put_answer
            (more_answer self.old.put.taken self.old.put.joined last number raw.now) }
        ensures after { self.new ≡ record self.old {
          put = more_after self.old.put.taken self.old.put last number raw.now;
          put_of = of_service self.old.put_of invoke method;
        } }
    {
        self.put_of = of_service(self.put_of, invoke, method);
        joined_of(self.put.more(last, number, raw))
    }

    /// The object of the value that is read in blocks, if an APDU with this invoke-id-and-priority continues it.
    pub fn got_of(&self, invoke: u8) -> Option<Asked>
        ensures { result ≡ of_invoke self.now.got_of invoke }
    {
        of_invoke(self.got_of, invoke)
    }

    /// The object of the value to set or of the parameter, if a block in an APDU with this invoke-id-and-priority continues it.
    pub fn put_of(&self, invoke: u8, method: bool) -> Option<Asked>
        ensures { result ≡ of_service self.now.put_of invoke method }
    {
        of_service(self.put_of, invoke, method)
    }

    /// How many octets were joined of a value that is read.
    pub fn got_len(&self) -> usize
        ensures { result ≡ length self.now.got.joined }
    {
        self.got.bytes().len()
    }

    /// How many octets were joined of a value to set or of a parameter.
    pub fn put_len(&self) -> usize
        ensures { result ≡ length self.now.put.joined }
    {
        self.put.bytes().len()
    }

    /// The reported content of a value that was read, after its last block; with `raw`, strings that may be a secret are shown as
    /// they are.
    pub fn got_whole(&self, alloc: A, raw: bool) -> Result<Whole<A>, AllocError>
        ensures told { IfOk result (IsToldOfWhole
            (told_as raw (secrecy_of self.now.got_of)) self.now.got.joined) }
        ensures memory { OnErr result
            (WantsMemory (told_as raw (secrecy_of self.now.got_of)) self.now.got.joined) }
    {
        whole_of(
            alloc,
            told_as(raw, secrecy_of(self.got_of)),
            self.got.bytes(),
        )
    }

    /// The same of a value to set or of a parameter.
    pub fn put_whole(&self, alloc: A, raw: bool) -> Result<Whole<A>, AllocError>
        ensures told { IfOk result (IsToldOfWhole
            (told_as raw (secrecy_of self.now.put_of)) self.now.put.joined) }
        ensures memory { OnErr result
            (WantsMemory (told_as raw (secrecy_of self.now.put_of)) self.now.put.joined) }
    {
        whole_of(
            alloc,
            told_as(raw, secrecy_of(self.put_of)),
            self.put.bytes(),
        )
    }
}
