//! The answers to a GET.

ghost use Rattle.std.specs.Prelude.{◌≡◌, ◌==◌, if◌then◌else◌, ℕ, List, Ok, drop};
ghost use Rattle.dlms_apdu.specs.Forms.{get_data, get_block};
ghost use Rattle.dlms_apdu.specs.Reading.{response_at};
ghost use Rattle.dlms_blocks.specs.Joining.{Joining};
ghost use Rattle.dlms_data.specs.Memory.{NeedsMemory};
ghost use Rattle.dlms_data.specs.Value.{Value};
ghost use Rattle.dlms_data.specs.View.{value_of};
ghost use Rattle.dlms_headend.specs.declared.poll_fault.PollFault.TheVariants.{Result as BadResult, Protocol};
ghost use Rattle.dlms_headend.specs.Heard.{HasTaken, HearsBy, Hears, LastHeard, FailsOrWants, BringsReadings};

use crate::answer::EXCEPTION;
use crate::buffer::{read_rows, rows};
use crate::form::is_profile;
use crate::get_answer::GetAnswer;
use crate::poll_fault::PollFault;
use dlms_apdu::{ApduFault, Response, read_response};
use dlms_blocks::{GetIn, UNKNOWN_BLOCK};
use dlms_data::Data;
use std::alloc::Allocator;

/// The value in an answer to GET.
fn data<A: Allocator>(alloc: A, taken: u32, value: &Data<A>) -> Result<GetAnswer<A>, PollFault>
    ensures hears { (old new : Joining) (invoke : ℕ)
        → HearsBy taken old (Ok (get_data invoke (value_of value.now))) result new }
    ensures readings { BringsReadings result }
{
    if taken != 0 {
        return Err(PollFault::Protocol);
    }
    match rows(alloc, value) {
        Ok(rows) => Ok(GetAnswer::Rows(rows)),
        Err(fault) => Err(fault),
    }
}

/// The last block was joined.
fn last_block<A: Allocator + Copy>(alloc: A, bytes: &[u8]) -> Result<GetAnswer<A>, PollFault>
    ensures hears { LastHeard bytes.now result }
    ensures readings { BringsReadings result }
{
    match read_rows(alloc, bytes) {
        Ok(rows) => Ok(GetAnswer::Rows(rows)),
        Err(fault) => Err(fault),
    }
}

/// A block.
fn block<A: Allocator + Copy>(
    alloc: A,
    blocks: &mut GetIn<A>,
    last: bool,
    number: u32,
    raw: &[u8],
) -> Result<GetAnswer<A>, PollFault>
    ensures hears { (taken invoke : ℕ) → HasTaken blocks.old taken
        → HearsBy taken blocks.old (Ok (get_block invoke last number raw.now)) result blocks.new }
    ensures readings { BringsReadings result }
{
    match blocks.more(last, number, raw) {
        Ok(true) => last_block(alloc, blocks.bytes()),
        Ok(false) => Ok(GetAnswer::More(number)),
        Err(UNKNOWN_BLOCK) => Err(PollFault::Protocol),
        Err(_) => Err(PollFault::Memory),
    }
}

/// A result in place of the value: where blocks have come, the result of a block is awaited.
fn result_of(taken: u32, code: u8) -> PollFault
    ensures { result ≡ (if taken == 0 then BadResult code else Protocol) }
{
    if taken == 0 {
        PollFault::Result(code)
    } else {
        PollFault::Protocol
    }
}

/// The bytes after the first four.
pub fn behind_head(apdu: &[u8]) -> &[u8]
    ensures { result.now ≡ drop 4 apdu.now }
{
    if apdu.len() < 4 {
        return &[];
    }
    &apdu[4..]
}

/// There was no memory for data. If blocks have come, none is awaited; and if it is no array of rows, more memory would not help.
fn wanting(taken: u32, apdu: &[u8]) -> PollFault
    ensures { (joined : List ℕ) (invoke : ℕ) (v : Value)
        → response_at apdu.now ≡ Ok (get_data invoke v) → NeedsMemory v
        → FailsOrWants taken joined (Ok (get_data invoke v)) result }
{
    if taken != 0 {
        return PollFault::Protocol;
    }
    if is_profile(behind_head(apdu)) {
        PollFault::Memory
    } else {
        PollFault::Protocol
    }
}

/// The answer to a GET, after this many blocks.
pub fn heard<A: Allocator + Copy>(
    alloc: A,
    taken: u32,
    blocks: &mut GetIn<A>,
    apdu: &[u8],
) -> Result<GetAnswer<A>, PollFault>
    ensures hears { Hears taken blocks.old apdu.now result blocks.new }
    ensures readings { BringsReadings result }
{
    match read_response(alloc, apdu) {
        Ok(Response::GetData { value, .. }) => data(alloc, taken, &value),
        Ok(Response::GetResult { result, .. }) => Err(result_of(taken, result)),
        Ok(
            Response::GetBlock {
                last,
                number,
                raw,
                ..
            },
        ) => block(alloc, blocks, last, number, raw),
        Ok(Response::GetBlockResult { result, .. }) => Err(PollFault::Result(result)),
        Ok(Response::Exception { .. }) => Err(PollFault::Result(EXCEPTION)),
        Ok(_) => Err(PollFault::Protocol),
        Err(ApduFault::Memory) => Err(wanting(taken, apdu)),
        Err(_) => Err(PollFault::Protocol),
    }
}
