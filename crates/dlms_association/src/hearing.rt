//! The meaning of an APDU as an answer to a request.

ghost use Rattle.std.specs.Prelude.{◌≡◌, option_map, None, Ok};
ghost use Rattle.dlms_apdu.specs.Reading.{response_at};
ghost use Rattle.dlms_apdu.specs.View.{response_of};
ghost use Rattle.dlms_association.specs.Hearing.{Joins, GetHears, Hears, data_at, set_heard, action_heard, returned_at, ActionHears};

use crate::answer::Answer;
use crate::fault::Fault;
use crate::opening::denial;
use crate::stage::Asked;
use dlms_apdu::{ApduFault, Response, read_response};
use dlms_blocks::{GetIn, UNKNOWN_BLOCK};
use dlms_values::is_value;
use std::alloc::Allocator;

/// The meaning of an APDU as an answer to a request.
#[derive(Clone, Copy)]
pub enum Heard {
    /// The block with this number has come, or was accepted, and others are to come or to go.
    More(u32),
    /// The request has this answer.
    Told(Answer),
}

/// The octets of a value that answers a GET in one piece.
fn data(apdu: &[u8]) -> Option<&[u8]>
    ensures { option_map (λ x. x.now) result ≡ data_at apdu.now }
{
    match apdu {
        [0xc4, 0x01, _, 0x00, bytes @ ..] => Some(bytes),
        _ => None,
    }
}

/// A block of a value that has this answer once it is whole. A value in one piece is a first block, and the last.
fn block<A: Allocator>(
    blocks: &mut GetIn<A>,
    last: bool,
    number: u32,
    bytes: &[u8],
    whole: Answer,
) -> Result<Heard, Fault>
    ensures { Joins blocks.old last number bytes.now whole result blocks.new }
{
    match blocks.more(last, number, bytes) {
        Ok(false) => Ok(Heard::More(number)),
        Ok(true) => {
            if is_value(blocks.bytes()) {
                Ok(Heard::Told(whole))
            } else {
                Err(Fault::Unread(ApduFault::Data))
            }
        }
        Err(UNKNOWN_BLOCK) => Err(Fault::Block),
        Err(_) => Err(Fault::Memory),
    }
}

/// The meaning of a response without a value in one piece as an answer to a GET.
fn get_by<A: Allocator, B: Allocator>(
    blocks: &mut GetIn<A>,
    response: &Response<'_, B>,
) -> Result<Heard, Fault>
    ensures { GetHears None blocks.old (Ok (response_of response.now)) result blocks.new }
{
    match response {
        Response::GetBlock {
            last,
            number,
            raw,
            ..
        } => block(blocks, *last, *number, raw, Answer::Value),
        Response::GetResult { result, .. } | Response::GetBlockResult { result, .. } => {
            Ok(Heard::Told(Answer::Result(*result)))
        }
        _ => Err(Fault::Form),
    }
}

/// The answer to a GET that has no value in one piece.
fn get_without<A: Allocator + Copy>(
    alloc: A,
    blocks: &mut GetIn<A>,
    apdu: &[u8],
) -> Result<Heard, Fault>
    ensures { GetHears None blocks.old (response_at apdu.now) result blocks.new }
{
    match read_response(alloc, apdu) {
        Ok(response) => {
            let heard = get_by(blocks, &response);
            drop(response);
            heard
        }
        Err(ApduFault::Memory) => Err(Fault::Form),
        Err(fault) => Err(Fault::Unread(fault)),
    }
}

/// The answer to a GET. A value in one piece may be of any type of Data: it is kept as its octets.
fn get<A: Allocator + Copy>(alloc: A, blocks: &mut GetIn<A>, apdu: &[u8]) -> Result<Heard, Fault>
    ensures { GetHears (data_at apdu.now) blocks.old (response_at apdu.now) result blocks.new }
{
    match data(apdu) {
        Some(bytes) => block(blocks, true, 1, bytes, Answer::Value),
        None => get_without(alloc, blocks, apdu),
    }
}

/// The meaning of a response as an answer to a SET, or to a block of one.
fn set_by<A: Allocator>(response: &Response<'_, A>) -> Result<Heard, Fault>
    ensures { result ≡ set_heard (Ok (response_of response.now)) }
{
    match response {
        Response::SetResult { result, .. } | Response::SetLast { result, .. } => {
            Ok(Heard::Told(Answer::Result(*result)))
        }
        Response::SetBlock { number, .. } => Ok(Heard::More(*number)),
        _ => Err(Fault::Form),
    }
}

/// The answer to a SET, or to a block of one.
fn set<A: Allocator + Copy>(alloc: A, apdu: &[u8]) -> Result<Heard, Fault>
    ensures { result ≡ set_heard (response_at apdu.now) }
{
    match read_response(alloc, apdu) {
        Ok(response) => {
            let heard = set_by(&response);
            drop(response);
            heard
        }
        Err(ApduFault::Memory) => Err(Fault::Form),
        Err(fault) => Err(Fault::Unread(fault)),
    }
}

/// The result of an ACTION that returns a value beside it, and the bytes of that value.
fn returned(apdu: &[u8]) -> Option<(u8, &[u8])>
    ensures { option_map (λ x. (x.0, x.1.now)) result ≡ returned_at apdu.now }
{
    match apdu {
        [0xc7, 0x01, _, result, 0x01, 0x00, bytes @ ..] => Some((*result, bytes)),
        _ => None,
    }
}

/// The meaning of a response as an answer to an ACTION, or to a block of one.
fn action_by<A: Allocator>(response: &Response<'_, A>) -> Result<Heard, Fault>
    ensures { result ≡ action_heard (Ok (response_of response.now)) }
{
    match response {
        Response::ActionResult { result, .. } => Ok(Heard::Told(Answer::Result(*result))),
        Response::ActionBlock { number, .. } => Ok(Heard::More(*number)),
        _ => Err(Fault::Form),
    }
}

/// The answer to an ACTION that returns nothing beside its result, or to a block of one.
fn action_result<A: Allocator + Copy>(alloc: A, apdu: &[u8]) -> Result<Heard, Fault>
    ensures { result ≡ action_heard (response_at apdu.now) }
{
    match read_response(alloc, apdu) {
        Ok(response) => {
            let heard = action_by(&response);
            drop(response);
            heard
        }
        Err(ApduFault::Memory) => Err(Fault::Form),
        Err(fault) => Err(Fault::Unread(fault)),
    }
}

/// The answer to an ACTION, or to a block of one.
fn action<A: Allocator + Copy>(alloc: A, blocks: &mut GetIn<A>, apdu: &[u8]) -> Result<Heard, Fault>
    ensures { ActionHears (returned_at apdu.now) blocks.old
        (response_at apdu.now) result blocks.new }
{
    match returned(apdu) {
        Some((result, bytes)) => block(blocks, true, 1, bytes, Answer::Result(result)),
        None => action_result(alloc, apdu),
    }
}

/// The answer to the request. An exception or a service error answers any request.
pub fn hear<A: Allocator + Copy>(
    alloc: A,
    asked: Asked,
    blocks: &mut GetIn<A>,
    apdu: &[u8],
) -> Result<Heard, Fault>
    ensures { Hears asked blocks.old apdu.now result blocks.new }
{
    if let Some(denial) = denial(apdu) {
        return Ok(Heard::Told(Answer::Denied(denial)));
    }
    match asked {
        Asked::Get => get(alloc, blocks, apdu),
        Asked::Set => set(alloc, apdu),
        Asked::Action => action(alloc, blocks, apdu),
    }
}
