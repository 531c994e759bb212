//! Responses, written as bytes.

ghost use Rattle.std.specs.Prelude.{◌≡◌, ◌≤◌, length, IfOk, IfSome, IfNone, OnOk, OnSome};
ghost use Rattle.dlms_apdu.specs.Forms.{get_block};
ghost use Rattle.dlms_apdu.specs.Spelling.{SpellsResponse};
ghost use Rattle.dlms_apdu.specs.View.{response_of};
ghost use Rattle.dlms_apdu.specs.Writing.{response_bytes, RawFits, ResponseFits, ResponseInRange, IsShort};

use crate::response::Response;
use arrayvec::ArrayVec;
use dlms_data::{append, append_counted};
use std::alloc::{AllocError, Allocator};

/// At most ten bytes.
fn bytes_of(bytes: &[u8]) -> ArrayVec<u8, 10>
    requires { length bytes.now ≤ 10 }
    ensures { result.items ≡ bytes.now }
{
    let mut text = ArrayVec::new();
    let _ = text.try_extend_from_slice(bytes);
    text
}

/// The spelling of a response that holds neither a value nor raw bytes.
fn short<B: Allocator>(response: &Response<'_, B>) -> Option<ArrayVec<u8, 10>>
    ensures canonical { IfSome result
        (λ text. text.items ≡ response_bytes (response_of response.now)) }
    ensures in_range { OnSome result (ResponseInRange (response_of response.now)) }
    ensures none { IfNone result (IsShort (response_of response.now) → ⊥) }
{
    match response {
        Response::GetData { .. } | Response::GetBlock { .. } => None,
        Response::GetResult { invoke, result } => {
            Some(bytes_of(&[0xc4, 1, *invoke, 1, *result]))
        }
        Response::GetBlockResult {
            invoke,
            number,
            result,
        } => {
            let [a, b, c, d] = number.to_be_bytes();
            Some(bytes_of(&[0xc4, 2, *invoke, 1, a, b, c, d, 1, *result]))
        }
        Response::SetResult { invoke, result } => Some(bytes_of(&[0xc5, 1, *invoke, *result])),
        Response::SetBlock { invoke, number } => {
            let [a, b, c, d] = number.to_be_bytes();
            Some(bytes_of(&[0xc5, 2, *invoke, a, b, c, d]))
        }
        Response::SetLast {
            invoke,
            result,
            number,
        } => {
            let [a, b, c, d] = number.to_be_bytes();
            Some(bytes_of(&[0xc5, 3, *invoke, *result, a, b, c, d]))
        }
        Response::ActionResult { invoke, result } => {
            Some(bytes_of(&[0xc7, 1, *invoke, *result, 0]))
        }
        Response::ActionBlock { invoke, number } => {
            let [a, b, c, d] = number.to_be_bytes();
            Some(bytes_of(&[0xc7, 4, *invoke, a, b, c, d]))
        }
        Response::Exception { state, service } => Some(bytes_of(&[0xd8, *state, *service])),
    }
}

/// A block's spelling.
fn block_text<A: Allocator>(
    alloc: A,
    invoke: u8,
    last: bool,
    number: u32,
    raw: &[u8],
) -> Result<Vec<u8, A>, AllocError>
    requires { RawFits raw.now }
    ensures canonical { IfOk result
        (λ out. out.items ≡ response_bytes (get_block invoke last number raw.now)) }
    ensures in_range { OnOk result (ResponseInRange (get_block invoke last number raw.now)) }
{
    let mut out = Vec::from_slice(alloc, &[0xc4, 2, invoke, u8::from(last)])?;
    out.extend_from_slice(&number.to_be_bytes())?;
    out.push(0)?;
    append_counted(out, raw)
}

/// A response's spelling.
fn text<A: Allocator, B: Allocator>(
    alloc: A,
    response: &Response<'_, B>,
) -> Result<Vec<u8, A>, AllocError>
    requires { ResponseFits (response_of response.now) }
    ensures canonical { IfOk result (λ out. out.items ≡ response_bytes (response_of response.now)) }
    ensures in_range { OnOk result (ResponseInRange (response_of response.now)) }
{
    if let Some(text) = short(response) {
        return Vec::from_slice(alloc, text.as_slice());
    }
    match response {
        Response::GetData { invoke, value } => {
            let out = Vec::from_slice(alloc, &[0xc4, 1, *invoke, 0])?;
            append(out, value)
        }
        Response::GetBlock {
            invoke,
            last,
            number,
            raw,
        } => block_text(alloc, *invoke, *last, *number, raw),
        _ => unreachable!(),
    }
}

/// The canonical spelling of a response, which `read_response` reads again.
pub fn write_response<A: Allocator, B: Allocator>(
    alloc: A,
    response: &Response<'_, B>,
) -> Result<Vec<u8, A>, AllocError>
    requires { ResponseFits (response_of response.now) }
    ensures canonical { IfOk result (λ out. out.items ≡ response_bytes (response_of response.now)) }
    ensures spelled { IfOk result (λ out. SpellsResponse out.items (response_of response.now)) }
{
    text(alloc, response)
}

/// The canonical spelling of a response that holds neither a value nor a block's bytes. It takes no memory, so that a
/// want of memory can be answered.
pub fn write_short<B: Allocator>(response: &Response<'_, B>) -> ArrayVec<u8, 10>
    requires { IsShort (response_of response.now) }
    ensures canonical { result.items ≡ response_bytes (response_of response.now) }
    ensures spelled { SpellsResponse result.items (response_of response.now) }
{
    match short(response) {
        Some(text) => text,
        None => unreachable!(),
    }
}
