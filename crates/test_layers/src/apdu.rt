//! Rows of `dlms_apdu`.

use crate::answers::{put_shown, put_with_number};
use crate::bench::{Bench, Room};
use crate::fault::RowFault;
use crate::hexadecimal::put_hex;
use crate::words::Words;
use dlms_apdu::{
    ApduFault, Request, Response, read_request, read_response, write_request, write_response,
    write_short,
};
use linked_list_allocator::LocalHeap;

/// The calls of the codec of requests and responses.
#[derive(Drop)]
pub struct ApduBench<'h> {
    room: Room<'h>,
}

fn put_fault(answer: &mut String, fault: ApduFault) -> Result<(), RowFault> {
    put_with_number(answer, "fault ", u64::from(fault.number()))
}

/// How what is read is shown.
#[derive(Clone, Copy)]
enum Way<'h> {
    /// As it is written with memory from this heap.
    Written(&'h LocalHeap),
    /// Field by field.
    Shown,
}

/// A request as it is shown.
fn put_request<'h>(
    way: Way<'h>,
    request: &Request<'_, &'h LocalHeap>,
    answer: &mut String,
) -> Result<(), RowFault> {
    match way {
        Way::Shown => put_shown(answer, request),
        Way::Written(_) if !request.fits() => Ok(answer.push_str("unfit")?),
        Way::Written(heap) => match write_request(heap, request) {
            Ok(bytes) => put_hex(answer, &bytes),
            Err(_) => Ok(answer.push_str("memory")?),
        },
    }
}

/// A response as it is shown.
fn put_response<'h>(
    way: Way<'h>,
    response: &Response<'_, &'h LocalHeap>,
    answer: &mut String,
) -> Result<(), RowFault> {
    match way {
        Way::Shown => put_shown(answer, response),
        Way::Written(_) if !response.fits() => Ok(answer.push_str("unfit")?),
        Way::Written(heap) => match write_response(heap, response) {
            Ok(bytes) => put_hex(answer, &bytes),
            Err(_) => Ok(answer.push_str("memory")?),
        },
    }
}

/// The result of reading a request with memory from a heap.
fn put_read_request<'h>(
    heap: &'h LocalHeap,
    bytes: &[u8],
    way: Way<'h>,
    answer: &mut String,
) -> Result<(), RowFault> {
    match read_request(heap, bytes) {
        Ok(request) => put_request(way, &request, answer),
        Err(fault) => put_fault(answer, fault),
    }
}

/// The result of reading a response with memory from a heap.
fn put_read_response<'h>(
    heap: &'h LocalHeap,
    bytes: &[u8],
    way: Way<'h>,
    answer: &mut String,
) -> Result<(), RowFault> {
    match read_response(heap, bytes) {
        Ok(response) => put_response(way, &response, answer),
        Err(fault) => put_fault(answer, fault),
    }
}

/// A response that takes no memory.
fn put_short(response: &Response<'_>, answer: &mut String) -> Result<(), RowFault> {
    match response {
        Response::GetData { .. } | Response::GetBlock { .. } => Err(RowFault::Form),
        _ => put_hex(answer, write_short(response).as_slice()),
    }
}

/// The responses that take no memory: a word and the numbers.
fn short_of(words: &mut Words<'_>) -> Result<Response<'static>, RowFault> {
    match words.word()? {
        "get-result" => Ok(Response::GetResult {
            invoke: words.byte()?,
            result: words.byte()?,
        }),
        "get-block-result" => Ok(Response::GetBlockResult {
            invoke: words.byte()?,
            number: words.number()?,
            result: words.byte()?,
        }),
        "exception" => Ok(Response::Exception {
            state: words.byte()?,
            service: words.byte()?,
        }),
        _ => Err(RowFault::Form),
    }
}

impl<'h> ApduBench<'h> {
    pub fn new(room: Room<'h>) -> Self {
        ApduBench { room }
    }
}

/// The calls on bytes.
fn put_call(room: Room<'_>, call: &str, bytes: &[u8], answer: &mut String) -> Result<(), RowFault> {
    let Room { ample, heap } = room;
    match call {
        "request" => put_read_request(heap, bytes, Way::Written(ample), answer),
        "response" => put_read_response(heap, bytes, Way::Written(ample), answer),
        "write-request" => put_read_request(ample, bytes, Way::Written(heap), answer),
        "write-response" => put_read_response(ample, bytes, Way::Written(heap), answer),
        "show-request" => put_read_request(heap, bytes, Way::Shown, answer),
        "show-response" => put_read_response(heap, bytes, Way::Shown, answer),
        _ => Err(RowFault::Form),
    }
}

impl Bench for ApduBench<'_> {
    fn step(&mut self, words: &mut Words<'_>, answer: &mut String) -> Result<(), RowFault> {
        match words.word()? {
            "short" => put_short(&short_of(words)?, answer),
            call => put_call(self.room, call, &words.bytes()?, answer),
        }
    }
}
