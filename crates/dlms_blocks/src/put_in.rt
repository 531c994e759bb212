//! A value to set that comes to the meter in blocks.
ghost use Rattle.std.specs.Prelude.{◌≡◌, length, MatchResult, Ok, Err};
ghost use Rattle.dlms_blocks.specs.Coming.{nothing, step_of, first_answer, first_after, more_answer, more_after};

use crate::block::{LONG_SET_ABORTED, NO_LONG_SET, PutStep, UNKNOWN_BLOCK};
use arrayvec::ArrayVec;
use std::marker::Model;

/// The most bytes of a value.
const MOST_BYTES: usize = 1024;

/// A value to set or a parameter that comes in blocks, of at most 1,024 bytes in all.
#[derive(Drop)]
pub struct PutIn {
    joined: ArrayVec<u8, MOST_BYTES>,
    taken: Option<u32>,
}

impl Model for PutIn {
    ghost use Rattle.dlms_blocks.specs.Coming.{Coming};

    ghost Value = { Coming };

    ghost view = { λ p. record { joined = p.joined.items; taken = p.taken } };
}

fn step_of(last: bool) -> PutStep
    ensures { result ≡ step_of last }
{
    if last { PutStep::Whole } else { PutStep::More }
}

impl PutIn {
    /// No transfer.
    pub fn new() -> Self
        ensures { result ≡ nothing }
    {
        PutIn {
            joined: ArrayVec::new(),
            taken: None,
        }
    }

    /// An equal one.
    pub fn copy(&self) -> PutIn
        ensures { result ≡ self.now }
    {
        let mut joined = ArrayVec::new();
        let _fits = joined.try_extend_from_slice(self.joined.as_slice());
        PutIn {
            joined,
            taken: self.taken,
        }
    }

    /// What was joined: of a whole value or an open transfer its bytes, otherwise none.
    pub fn bytes(&self) -> &[u8]
        ensures { result.now ≡ self.now.joined }
    {
        self.joined.as_slice()
    }

    /// A first block, which drops an open transfer. Its number is 1, or it is answered 19; more than 1,024 bytes are
    /// answered 17.
    pub fn first(&mut self, last: bool, number: u32, bytes: &[u8]) -> Result<PutStep, u8>
        ensures answer { MatchResult result (λ step. first_answer last number bytes.now ≡ Ok step)
            (λ code. first_answer last number bytes.now ≡ Err code) }
        ensures after { self.new ≡ first_after last number bytes.now }
    {
        self.end();
        if number != 1 {
            return Err(UNKNOWN_BLOCK);
        }
        if self.joined.try_extend_from_slice(bytes).is_err() {
            return Err(LONG_SET_ABORTED);
        }
        self.taken = if last { None } else { Some(1) };
        Ok(step_of(last))
    }

    /// A further block. Without an open transfer it is answered 18 and changes nothing; another number than the next is
    /// 19, more than 1,024 bytes in all are 17, and both end the transfer. After number 2^32 - 1 each number is another.
    pub fn more(&mut self, last: bool, number: u32, bytes: &[u8]) -> Result<PutStep, u8>
        ensures answer { MatchResult result
            (λ step. more_answer self.old.taken self.old.joined last number bytes.now ≡ Ok step)
            (λ code. more_answer self.old.taken self.old.joined last number bytes.now ≡ Err code) }
        ensures after { self.new ≡ more_after self.old.taken self.old last number bytes.now }
    {
        let Some(before) = self.taken else {
            return Err(NO_LONG_SET);
        };
        if number == 0 || number - 1 != before {
            self.end();
            return Err(UNKNOWN_BLOCK);
        }
        if self.joined.try_extend_from_slice(bytes).is_err() {
            self.end();
            return Err(LONG_SET_ABORTED);
        }
        self.taken = if last { None } else { Some(number) };
        Ok(step_of(last))
    }

    /// Ends the transfer.
    fn end(&mut self)
        ensures { self.new ≡ nothing }
    {
        self.joined.clear();
        self.taken = None;
    }
}
