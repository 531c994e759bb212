//! Rows of `dlms_blocks`.

use crate::answers::{put_number_and, put_shown, put_with_number};
use crate::bench::{Bench, Room};
use crate::fault::RowFault;
use crate::hexadecimal::put_hex;
use crate::words::{Words, put_truth, truth_of};
use dlms_blocks::{Block, GetIn, GetOut, PutIn, PutOut, PutStep};
use linked_list_allocator::LocalHeap;

/// The most bytes of a value that goes in blocks.
const MOST: usize = 65_536;

/// Values that go and come in blocks.
#[derive(Drop)]
pub struct BlocksBench<'h> {
    heap: &'h LocalHeap,
    get_out: Option<GetOut>,
    get_in: Option<GetIn<&'h LocalHeap>>,
    put_out: Option<PutOut>,
    put_in: PutIn,
}

/// A block's number, whether it is the last, and its bytes; or a result.
fn put_block(answer: &mut String, block: &Result<Block, u8>) -> Result<(), RowFault> {
    match block {
        Ok(block) => {
            put_number_and(answer, u64::from(block.number), ' ')?;
            put_truth(answer, block.last)?;
            answer.push(' ')?;
            put_hex(answer, block.bytes.as_slice())
        }
        Err(result) => put_with_number(answer, "result ", u64::from(*result)),
    }
}

/// How a block changes a value to set.
fn put_step(answer: &mut String, step: Result<PutStep, u8>) -> Result<(), RowFault> {
    match step {
        Ok(step) => put_shown(answer, &step),
        Err(result) => put_with_number(answer, "result ", u64::from(result)),
    }
}

/// How a block of a GET changes it.
fn put_joined(answer: &mut String, joined: Result<bool, u8>) -> Result<(), RowFault> {
    match joined {
        Ok(true) => Ok(answer.push_str("Whole")?),
        Ok(false) => Ok(answer.push_str("More")?),
        Err(result) => put_with_number(answer, "result ", u64::from(result)),
    }
}

/// A value that goes out in blocks, if it may.
fn get_out_of(words: &mut Words<'_>) -> Result<GetOut, RowFault> {
    let bytes = words.bytes()?;
    let size = words.number()?;
    if bytes.is_empty() || bytes.len() > MOST || size < 64 || size > 1024 {
        return Err(RowFault::Form);
    }
    Ok(GetOut::start(bytes, size as u16))
}

/// A value to set that goes out in blocks, if it may.
fn put_out_of(words: &mut Words<'_>) -> Result<PutOut, RowFault> {
    let bytes = words.bytes()?;
    let size = words.number()?;
    if bytes.is_empty() || bytes.len() > MOST || size < 64 || size > 1024 {
        return Err(RowFault::Form);
    }
    Ok(PutOut::start(bytes, size as u16))
}

/// The lengths of all blocks.
fn put_lengths(
    out: &mut GetOut,
    client: &mut GetIn<&LocalHeap>,
    answer: &mut String,
) -> Result<(), RowFault> {
    'blocks: for number in 0..2000u32 {
        let Ok(block) = out.next(number) else {
            break 'blocks;
        };
        put_number_and(answer, block.bytes.len() as u64, ',')?;
        let joined = client.more(block.last, block.number, block.bytes.as_slice());
        if joined.is_err() {
            break 'blocks;
        }
    }
    Ok(())
}

impl<'h> BlocksBench<'h> {
    pub fn new(room: Room<'h>) -> Self {
        BlocksBench {
            heap: room.heap,
            get_out: None,
            get_in: None,
            put_out: None,
            put_in: PutIn::new(),
        }
    }

    /// Takes all blocks of the value that goes out, and joins them.
    fn all(&mut self, answer: &mut String) -> Result<(), RowFault> {
        match (&mut self.get_out, &mut self.get_in) {
            (Some(out), Some(client)) => put_lengths(out, client, answer),
            _ => Err(RowFault::Missing),
        }
    }

    /// A block of a value that goes out.
    fn get(&mut self, number: u32, answer: &mut String) -> Result<(), RowFault> {
        match &mut self.get_out {
            Some(out) => put_block(answer, &out.next(number)),
            None => Err(RowFault::Missing),
        }
    }

    /// The same, and nothing changes.
    fn peek(&self, number: u32, answer: &mut String) -> Result<(), RowFault> {
        match &self.get_out {
            Some(out) => put_block(answer, &out.peek(number)),
            None => Err(RowFault::Missing),
        }
    }

    /// A block of a value to set.
    fn put(&mut self, number: u32, answer: &mut String) -> Result<(), RowFault> {
        match &mut self.put_out {
            Some(out) => put_block(answer, &out.next(number)),
            None => Err(RowFault::Missing),
        }
    }

    /// The same, and nothing changes.
    fn peek_put(&self, number: u32, answer: &mut String) -> Result<(), RowFault> {
        match &self.put_out {
            Some(out) => put_block(answer, &out.peek(number)),
            None => Err(RowFault::Missing),
        }
    }

    /// A block of a GET comes.
    fn join(&mut self, words: &mut Words<'_>, answer: &mut String) -> Result<(), RowFault> {
        let number = words.number()?;
        let last = truth_of(words.word()?)?;
        let bytes = words.bytes()?;
        match &mut self.get_in {
            Some(client) => put_joined(answer, client.more(last, number, &bytes)),
            None => Err(RowFault::Missing),
        }
    }

    /// What was joined.
    fn joined(&self, answer: &mut String) -> Result<(), RowFault> {
        match &self.get_in {
            Some(client) => put_hex(answer, client.bytes()),
            None => Err(RowFault::Missing),
        }
    }

    /// A further block of a value to set comes, also for one that is a copy.
    fn more(
        &mut self,
        words: &mut Words<'_>,
        on_copy: bool,
        answer: &mut String,
    ) -> Result<(), RowFault> {
        let number = words.number()?;
        let last = truth_of(words.word()?)?;
        let bytes = words.bytes()?;
        if on_copy {
            let mut copy = self.put_in.copy();
            put_step(answer, copy.more(last, number, &bytes))
        } else {
            put_step(answer, self.put_in.more(last, number, &bytes))
        }
    }

    /// A first block of a value to set comes.
    fn first(&mut self, words: &mut Words<'_>, answer: &mut String) -> Result<(), RowFault> {
        let number = words.number()?;
        let last = truth_of(words.word()?)?;
        put_step(answer, self.put_in.first(last, number, &words.bytes()?))
    }

    /// The calls that begin a transfer.
    fn begin(&mut self, call: &str, words: &mut Words<'_>) -> Result<(), RowFault> {
        match call {
            "get-out" => self.get_out = Some(get_out_of(words)?),
            "get-in" => self.get_in = Some(GetIn::new(self.heap)),
            "put-out" => self.put_out = Some(put_out_of(words)?),
            "put-in" => self.put_in = PutIn::new(),
            _ => return Err(RowFault::Form),
        }
        Ok(())
    }

    /// The calls of a value to set.
    fn other_step(
        &mut self,
        call: &str,
        words: &mut Words<'_>,
        answer: &mut String,
    ) -> Result<(), RowFault> {
        match call {
            "put-next" => self.put(words.number()?, answer),
            "put-peek" => self.peek_put(words.number()?, answer),
            "first" => self.first(words, answer),
            "more" => self.more(words, false, answer),
            "more-of-copy" => self.more(words, true, answer),
            "put-bytes" => put_hex(answer, self.put_in.bytes()),
            _ => self.begin(call, words),
        }
    }
}

impl Bench for BlocksBench<'_> {
    fn step(&mut self, words: &mut Words<'_>, answer: &mut String) -> Result<(), RowFault> {
        let call = words.word()?;
        match call {
            "all" => self.all(answer),
            "next" => self.get(words.number()?, answer),
            "peek" => self.peek(words.number()?, answer),
            "join" => self.join(words, answer),
            "joined" => self.joined(answer),
            _ => self.other_step(call, words, answer),
        }
    }
}
