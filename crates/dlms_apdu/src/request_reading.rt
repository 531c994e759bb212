//! Requests, read from bytes.

ghost use Rattle.std.specs.Prelude.{◌≡◌, IfOk, MatchResult};
ghost use Rattle.dlms_apdu.specs.Forms.{RequestForm};
ghost use Rattle.dlms_apdu.specs.Reading.{Tells, Answers, HoldsValue, get_normal_at, get_next_at, set_normal_at, set_first_at, set_block_at, action_normal_at, action_first_at, action_block_at, get_at, set_at, action_at, request_at};
ghost use Rattle.dlms_apdu.specs.Spelling.{SpellsRequest};
ghost use Rattle.dlms_apdu.specs.View.{request_of};
ghost use Rattle.dlms_apdu.specs.declared.fault.ApduFault.TheVariants.{Memory};

use crate::fault::{ApduFault, Refusal};
use crate::parts::{
    Block, after_parameter, after_selector, after_value, byte, descriptor, ended, four, parameter,
    read_block, selector, value,
};
use crate::request::Request;
use std::alloc::Allocator;

/// GET of an attribute, after the form's byte.
#[tactic(auto, using(crate::proofs::Forms::told), unfolding(crate::specs::Reading::get_normal_at, crate::specs::Reading::and_then))]
fn get_normal<A: Allocator + Copy>(alloc: A, bytes: &[u8]) -> Result<Request<'_, A>, ApduFault>
    ensures { Answers request_of HoldsValue result (get_normal_at bytes.now) }
{
    let (invoke, rest) = byte(bytes)?;
    let (descriptor, rest) = descriptor(rest)?;
    ended(after_selector(rest)?)?;
    Ok(Request::GetNormal {
        invoke,
        descriptor,
        selector: selector(alloc, rest)?,
    })
}

/// GET of a further block, after the form's byte.
#[tactic(auto, using(crate::proofs::Forms::told), unfolding(crate::specs::Reading::get_next_at, crate::specs::Reading::and_then))]
fn get_next<A: Allocator>(bytes: &[u8]) -> Result<Request<'_, A>, Refusal>
    ensures { Tells request_of result (get_next_at bytes.now) }
{
    let (invoke, rest) = byte(bytes)?;
    let (number, rest) = four(rest)?;
    ended(rest)?;
    Ok(Request::GetNext { invoke, number })
}

/// SET of an attribute, after the form's byte.
#[tactic(auto, using(crate::proofs::Forms::told), unfolding(crate::specs::Reading::set_normal_at, crate::specs::Reading::and_then))]
fn set_normal<A: Allocator + Copy>(alloc: A, bytes: &[u8]) -> Result<Request<'_, A>, ApduFault>
    ensures { Answers request_of HoldsValue result (set_normal_at bytes.now) }
{
    let (invoke, rest) = byte(bytes)?;
    let (descriptor, rest) = descriptor(rest)?;
    let behind = after_selector(rest)?;
    ended(after_value(behind)?)?;
    Ok(Request::SetNormal {
        invoke,
        descriptor,
        selector: selector(alloc, rest)?,
        value: value(alloc, behind)?,
    })
}

/// SET of an attribute, the first block, after the form's byte.
#[tactic(auto, using(crate::proofs::Forms::told), unfolding(crate::specs::Reading::set_first_at, crate::specs::Reading::and_then))]
fn set_first<A: Allocator + Copy>(alloc: A, bytes: &[u8]) -> Result<Request<'_, A>, ApduFault>
    ensures { Answers request_of HoldsValue result (set_first_at bytes.now) }
{
    let (invoke, rest) = byte(bytes)?;
    let (descriptor, rest) = descriptor(rest)?;
    let (block, behind) = read_block(after_selector(rest)?)?;
    ended(behind)?;
    let Block { last, number, raw } = block;
    Ok(Request::SetFirst {
        invoke,
        descriptor,
        selector: selector(alloc, rest)?,
        last,
        number,
        raw,
    })
}

/// SET of an attribute, a further block, after the form's byte.
#[tactic(auto, using(crate::proofs::Forms::told), unfolding(crate::specs::Reading::set_block_at, crate::specs::Reading::and_then))]
fn set_block<A: Allocator>(bytes: &[u8]) -> Result<Request<'_, A>, Refusal>
    ensures { Tells request_of result (set_block_at bytes.now) }
{
    let (invoke, rest) = byte(bytes)?;
    let (block, behind) = read_block(rest)?;
    ended(behind)?;
    let Block { last, number, raw } = block;
    Ok(Request::SetBlock {
        invoke,
        last,
        number,
        raw,
    })
}

/// ACTION, after the form's byte.
#[tactic(auto, using(crate::proofs::Forms::told), unfolding(crate::specs::Reading::action_normal_at, crate::specs::Reading::and_then))]
fn action_normal<A: Allocator + Copy>(alloc: A, bytes: &[u8]) -> Result<Request<'_, A>, ApduFault>
    ensures { Answers request_of HoldsValue result (action_normal_at bytes.now) }
{
    let (invoke, rest) = byte(bytes)?;
    let (descriptor, rest) = descriptor(rest)?;
    ended(after_parameter(rest)?)?;
    Ok(Request::ActionNormal {
        invoke,
        descriptor,
        parameter: parameter(alloc, rest)?,
    })
}

/// ACTION, the first block, after the form's byte.
#[tactic(auto, using(crate::proofs::Forms::told), unfolding(crate::specs::Reading::action_first_at, crate::specs::Reading::and_then))]
fn action_first<A: Allocator>(bytes: &[u8]) -> Result<Request<'_, A>, Refusal>
    ensures { Tells request_of result (action_first_at bytes.now) }
{
    let (invoke, rest) = byte(bytes)?;
    let (descriptor, rest) = descriptor(rest)?;
    let (block, behind) = read_block(rest)?;
    ended(behind)?;
    let Block { last, number, raw } = block;
    Ok(Request::ActionFirst {
        invoke,
        descriptor,
        last,
        number,
        raw,
    })
}

/// ACTION, a further block, after the form's byte.
#[tactic(auto, using(crate::proofs::Forms::told), unfolding(crate::specs::Reading::action_block_at, crate::specs::Reading::and_then))]
fn action_block<A: Allocator>(bytes: &[u8]) -> Result<Request<'_, A>, Refusal>
    ensures { Tells request_of result (action_block_at bytes.now) }
{
    let (invoke, rest) = byte(bytes)?;
    let (block, behind) = read_block(rest)?;
    ended(behind)?;
    let Block { last, number, raw } = block;
    Ok(Request::ActionBlock {
        invoke,
        last,
        number,
        raw,
    })
}

/// A GET, after the service's byte.
#[tactic(auto, using(crate::proofs::Forms::told), unfolding(crate::specs::Reading::get_at))]
fn get<A: Allocator + Copy>(alloc: A, bytes: &[u8]) -> Result<Request<'_, A>, ApduFault>
    ensures { Answers request_of HoldsValue result (get_at bytes.now) }
{
    match bytes {
        [] => Err(ApduFault::Short),
        [1, rest @ ..] => get_normal(alloc, rest),
        [2, rest @ ..] => Ok(get_next(rest)?),
        _ => Err(ApduFault::Choice),
    }
}

/// A SET, after the service's byte.
#[tactic(auto, using(crate::proofs::Forms::told), unfolding(crate::specs::Reading::set_at))]
fn set<A: Allocator + Copy>(alloc: A, bytes: &[u8]) -> Result<Request<'_, A>, ApduFault>
    ensures { Answers request_of HoldsValue result (set_at bytes.now) }
{
    match bytes {
        [] => Err(ApduFault::Short),
        [1, rest @ ..] => set_normal(alloc, rest),
        [2, rest @ ..] => set_first(alloc, rest),
        [3, rest @ ..] => Ok(set_block(rest)?),
        _ => Err(ApduFault::Choice),
    }
}

/// An ACTION, after the service's byte.
#[tactic(auto, using(crate::proofs::Forms::told), unfolding(crate::specs::Reading::action_at))]
fn action<A: Allocator + Copy>(alloc: A, bytes: &[u8]) -> Result<Request<'_, A>, ApduFault>
    ensures { Answers request_of HoldsValue result (action_at bytes.now) }
{
    match bytes {
        [] => Err(ApduFault::Short),
        [1, rest @ ..] => action_normal(alloc, rest),
        [4, rest @ ..] => Ok(action_first(rest)?),
        [6, rest @ ..] => Ok(action_block(rest)?),
        _ => Err(ApduFault::Choice),
    }
}

/// A request.
#[tactic(auto, using(crate::proofs::Forms::told), unfolding(crate::specs::Reading::request_at))]
fn request<A: Allocator + Copy>(alloc: A, bytes: &[u8]) -> Result<Request<'_, A>, ApduFault>
    ensures { Answers request_of HoldsValue result (request_at bytes.now) }
{
    match bytes {
        [] => Err(ApduFault::Short),
        [0xc0, rest @ ..] => get(alloc, rest),
        [0xc1, rest @ ..] => set(alloc, rest),
        [0xc3, rest @ ..] => action(alloc, rest),
        _ => Err(ApduFault::Choice),
    }
}

/// Reads a request, which takes up all of the bytes. The first fault from left to right is reported. A block's bytes stay where
/// they are; memory is allocated for values alone, and only if the bytes are a request, so a GET without a selector takes none.
pub fn read_request<A: Allocator + Copy>(
    alloc: A,
    bytes: &[u8],
) -> Result<Request<'_, A>, ApduFault>
    // The bytes are a spelling of the result.
    ensures found { IfOk result (λ r. SpellsRequest bytes.now (request_of r)) }
    // A request that the bytes spell is returned, unless it contains a value that needs memory and memory runs out.
    ensures only { (r : RequestForm) → SpellsRequest bytes.now r
        → MatchResult result (λ x. request_of x ≡ r) (λ e. (e ≡ Memory) × HoldsValue r) }
    // Which fault it is.
    ensures exact { Answers request_of HoldsValue result (request_at bytes.now) }
{
    request(alloc, bytes)
}
