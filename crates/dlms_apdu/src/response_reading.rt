//! Responses, read from bytes.

ghost use Rattle.std.specs.Prelude.{◌≡◌, IfOk, MatchResult};
ghost use Rattle.dlms_apdu.specs.Forms.{ResponseForm};
ghost use Rattle.dlms_apdu.specs.Reading.{Tells, Answers, HoldsData, get_data_at, get_result_at, get_answer_at, get_raw_at, get_block_result_at, get_block_answer_at, set_result_at, set_block_taken_at, set_last_at, action_result_at, action_block_taken_at, exception_at, get_response_at, set_response_at, action_response_at, response_at};
ghost use Rattle.dlms_apdu.specs.Spelling.{SpellsResponse};
ghost use Rattle.dlms_apdu.specs.View.{response_of};
ghost use Rattle.dlms_apdu.specs.declared.fault.ApduFault.TheVariants.{Memory};

use crate::fault::{ApduFault, Refusal};
use crate::parts::{after_value, byte, ended, flag, four, raw, value};
use crate::response::Response;
use std::alloc::Allocator;

/// A value.
#[tactic(auto, using(crate::proofs::Forms::told), unfolding(crate::specs::Reading::get_data_at, crate::specs::Reading::and_then))]
fn get_data<A: Allocator + Copy>(
    alloc: A,
    invoke: u8,
    bytes: &[u8],
) -> Result<Response<'_, A>, ApduFault>
    ensures { Answers response_of HoldsData result (get_data_at invoke bytes.now) }
{
    ended(after_value(bytes)?)?;
    Ok(Response::GetData {
        invoke,
        value: value(alloc, bytes)?,
    })
}

/// A result in place of a value.
#[tactic(auto, unfolding(crate::specs::Reading::get_result_at, crate::specs::Reading::and_then))]
fn get_result<A: Allocator>(invoke: u8, bytes: &[u8]) -> Result<Response<'_, A>, Refusal>
    ensures { Tells response_of result (get_result_at invoke bytes.now) }
{
    let (result, rest) = byte(bytes)?;
    ended(rest)?;
    Ok(Response::GetResult { invoke, result })
}

/// The answer to a GET, after the form's byte.
#[tactic(auto, using(crate::proofs::Forms::told), unfolding(crate::specs::Reading::get_answer_at, crate::specs::Reading::and_then))]
fn get_answer<A: Allocator + Copy>(alloc: A, bytes: &[u8]) -> Result<Response<'_, A>, ApduFault>
    ensures { Answers response_of HoldsData result (get_answer_at bytes.now) }
{
    let (invoke, rest) = byte(bytes)?;
    match rest {
        [] => Err(ApduFault::Short),
        [0, rest @ ..] => get_data(alloc, invoke, rest),
        [1, rest @ ..] => Ok(get_result(invoke, rest)?),
        _ => Err(ApduFault::Choice),
    }
}

/// A block.
#[tactic(auto, unfolding(crate::specs::Reading::get_raw_at, crate::specs::Reading::and_then))]
fn get_raw<A: Allocator>(
    invoke: u8,
    last: bool,
    number: u32,
    bytes: &[u8],
) -> Result<Response<'_, A>, Refusal>
    ensures { Tells response_of result (get_raw_at invoke last number bytes.now) }
{
    let (raw, rest) = raw(bytes)?;
    ended(rest)?;
    Ok(Response::GetBlock {
        invoke,
        last,
        number,
        raw,
    })
}

/// A result in place of a block.
#[tactic(auto, unfolding(crate::specs::Reading::get_block_result_at, crate::specs::Reading::and_then))]
fn get_block_result<A: Allocator>(
    invoke: u8,
    number: u32,
    bytes: &[u8],
) -> Result<Response<'_, A>, Refusal>
    ensures { Tells response_of result (get_block_result_at invoke number bytes.now) }
{
    let (result, rest) = byte(bytes)?;
    ended(rest)?;
    Ok(Response::GetBlockResult {
        invoke,
        number,
        result,
    })
}

/// The answer to a GET in blocks, after the form's byte.
#[tactic(auto, unfolding(crate::specs::Reading::get_block_answer_at, crate::specs::Reading::and_then))]
fn get_block_answer<A: Allocator>(bytes: &[u8]) -> Result<Response<'_, A>, Refusal>
    ensures { Tells response_of result (get_block_answer_at bytes.now) }
{
    let (invoke, rest) = byte(bytes)?;
    let (last, rest) = flag(rest)?;
    let (number, rest) = four(rest)?;
    match rest {
        [] => Err(Refusal::Short),
        [0, rest @ ..] => get_raw(invoke, last, number, rest),
        [1, rest @ ..] if last => get_block_result(invoke, number, rest),
        _ => Err(Refusal::Choice),
    }
}

/// The answer to a SET, after the form's byte.
#[tactic(auto, unfolding(crate::specs::Reading::set_result_at, crate::specs::Reading::and_then))]
fn set_result<A: Allocator>(bytes: &[u8]) -> Result<Response<'_, A>, Refusal>
    ensures { Tells response_of result (set_result_at bytes.now) }
{
    let (invoke, rest) = byte(bytes)?;
    let (result, rest) = byte(rest)?;
    ended(rest)?;
    Ok(Response::SetResult { invoke, result })
}

/// The answer to a block of a SET, after the form's byte.
#[tactic(auto, unfolding(crate::specs::Reading::set_block_taken_at, crate::specs::Reading::and_then))]
fn set_block_taken<A: Allocator>(bytes: &[u8]) -> Result<Response<'_, A>, Refusal>
    ensures { Tells response_of result (set_block_taken_at bytes.now) }
{
    let (invoke, rest) = byte(bytes)?;
    let (number, rest) = four(rest)?;
    ended(rest)?;
    Ok(Response::SetBlock { invoke, number })
}

/// The answer to the last block of a SET, after the form's byte.
#[tactic(auto, unfolding(crate::specs::Reading::set_last_at, crate::specs::Reading::and_then))]
fn set_last<A: Allocator>(bytes: &[u8]) -> Result<Response<'_, A>, Refusal>
    ensures { Tells response_of result (set_last_at bytes.now) }
{
    let (invoke, rest) = byte(bytes)?;
    let (result, rest) = byte(rest)?;
    let (number, rest) = four(rest)?;
    ended(rest)?;
    Ok(Response::SetLast {
        invoke,
        result,
        number,
    })
}

/// The answer to an ACTION, after the form's byte.
#[tactic(auto, unfolding(crate::specs::Reading::action_result_at, crate::specs::Reading::and_then))]
fn action_result<A: Allocator>(bytes: &[u8]) -> Result<Response<'_, A>, Refusal>
    ensures { Tells response_of result (action_result_at bytes.now) }
{
    let (invoke, rest) = byte(bytes)?;
    let (result, rest) = byte(rest)?;
    match rest {
        [] => Err(Refusal::Short),
        [0, rest @ ..] => {
            ended(rest)?;
            Ok(Response::ActionResult { invoke, result })
        }
        _ => Err(Refusal::Choice),
    }
}

/// The answer to a block of an ACTION, after the form's byte.
#[tactic(auto, unfolding(crate::specs::Reading::action_block_taken_at, crate::specs::Reading::and_then))]
fn action_block_taken<A: Allocator>(bytes: &[u8]) -> Result<Response<'_, A>, Refusal>
    ensures { Tells response_of result (action_block_taken_at bytes.now) }
{
    let (invoke, rest) = byte(bytes)?;
    let (number, rest) = four(rest)?;
    ended(rest)?;
    Ok(Response::ActionBlock { invoke, number })
}

/// An exception, after the service's byte.
#[tactic(auto, unfolding(crate::specs::Reading::exception_at, crate::specs::Reading::and_then))]
fn exception<A: Allocator>(bytes: &[u8]) -> Result<Response<'_, A>, Refusal>
    ensures { Tells response_of result (exception_at bytes.now) }
{
    let (state, rest) = byte(bytes)?;
    let (service, rest) = byte(rest)?;
    ended(rest)?;
    Ok(Response::Exception { state, service })
}

/// An answer to a GET, after the service's byte.
#[tactic(auto, using(crate::proofs::Forms::told), unfolding(crate::specs::Reading::get_response_at))]
fn get_response<A: Allocator + Copy>(alloc: A, bytes: &[u8]) -> Result<Response<'_, A>, ApduFault>
    ensures { Answers response_of HoldsData result (get_response_at bytes.now) }
{
    match bytes {
        [] => Err(ApduFault::Short),
        [1, rest @ ..] => get_answer(alloc, rest),
        [2, rest @ ..] => Ok(get_block_answer(rest)?),
        _ => Err(ApduFault::Choice),
    }
}

/// An answer to a SET, after the service's byte.
#[tactic(auto, unfolding(crate::specs::Reading::set_response_at, crate::specs::Reading::and_then))]
fn set_response<A: Allocator>(bytes: &[u8]) -> Result<Response<'_, A>, Refusal>
    ensures { Tells response_of result (set_response_at bytes.now) }
{
    match bytes {
        [] => Err(Refusal::Short),
        [1, rest @ ..] => set_result(rest),
        [2, rest @ ..] => set_block_taken(rest),
        [3, rest @ ..] => set_last(rest),
        _ => Err(Refusal::Choice),
    }
}

/// An answer to an ACTION, after the service's byte.
#[tactic(auto, unfolding(crate::specs::Reading::action_response_at, crate::specs::Reading::and_then))]
fn action_response<A: Allocator>(bytes: &[u8]) -> Result<Response<'_, A>, Refusal>
    ensures { Tells response_of result (action_response_at bytes.now) }
{
    match bytes {
        [] => Err(Refusal::Short),
        [1, rest @ ..] => action_result(rest),
        [4, rest @ ..] => action_block_taken(rest),
        _ => Err(Refusal::Choice),
    }
}

/// A response.
#[tactic(auto, using(crate::proofs::Forms::told), unfolding(crate::specs::Reading::response_at))]
fn response<A: Allocator + Copy>(alloc: A, bytes: &[u8]) -> Result<Response<'_, A>, ApduFault>
    ensures { Answers response_of HoldsData result (response_at bytes.now) }
{
    match bytes {
        [] => Err(ApduFault::Short),
        [0xc4, rest @ ..] => get_response(alloc, rest),
        [0xc5, rest @ ..] => Ok(set_response(rest)?),
        [0xc7, rest @ ..] => Ok(action_response(rest)?),
        [0xd8, rest @ ..] => Ok(exception(rest)?),
        _ => Err(ApduFault::Choice),
    }
}

/// Reads a response, which takes up all of the bytes. The first fault from left to right is reported. A block's bytes stay where
/// they are; memory is allocated for a value alone, and only if the bytes are a response.
pub fn read_response<A: Allocator + Copy>(
    alloc: A,
    bytes: &[u8],
) -> Result<Response<'_, A>, ApduFault>
    // The bytes are a spelling of the result.
    ensures found { IfOk result (λ r. SpellsResponse bytes.now (response_of r)) }
    // A response that the bytes spell is returned, unless it contains a value that needs memory and memory runs out.
    ensures only { (r : ResponseForm) → SpellsResponse bytes.now r
        → MatchResult result (λ x. response_of x ≡ r) (λ e. (e ≡ Memory) × HoldsData r) }
    // Which fault it is.
    ensures exact { Answers response_of HoldsData result (response_at bytes.now) }
{
    response(alloc, bytes)
}
