//! Responses of a meter.

use dlms_data::Data;
use std::alloc::{Allocator, Global};

/// An answer of the services GET, SET and ACTION, or an exception (the xDLMS APDUs of IEC 62056-5-3). `invoke` is the request's
/// invoke-id-and-priority byte, `result` is 0 for success or the cause of a refusal, `number` is the number of a block; `raw` are a
/// block's bytes, which stay where they were read.
#[derive(Debug, Drop)]
pub enum Response<'a, A: Allocator = Global> {
    /// `c4 01`, invoke, `00`, value.
    GetData {
        invoke: u8,
        value: Data<A>,
    },
    /// `c4 01`, invoke, `01`, result.
    GetResult {
        invoke: u8,
        result: u8,
    },
    /// `c4 02`, invoke, last (a byte), number (4), `00`, a length and the raw bytes.
    GetBlock {
        invoke: u8,
        last: bool,
        number: u32,
        raw: &'a [u8],
    },
    /// `c4 02`, invoke, `01`, number, `01`, result: no block, the transfer ends with a result.
    GetBlockResult {
        invoke: u8,
        number: u32,
        result: u8,
    },
    /// `c5 01`, invoke, result.
    SetResult {
        invoke: u8,
        result: u8,
    },
    /// `c5 02`, invoke, number: a block of a value to set has come, and it was not the last one.
    SetBlock {
        invoke: u8,
        number: u32,
    },
    /// `c5 03`, invoke, result, number: the last block has come, or the transfer ends before it.
    SetLast {
        invoke: u8,
        result: u8,
        number: u32,
    },
    /// `c7 01`, invoke, result, `00` (nothing is returned beside the result).
    ActionResult {
        invoke: u8,
        result: u8,
    },
    /// `c7 04`, invoke, number: a block of a method's parameter has come, and it was not the last one.
    ActionBlock {
        invoke: u8,
        number: u32,
    },
    /// `d8`, state, service: the request was not served, with the state error and the service error.
    Exception {
        state: u8,
        service: u8,
    },
}
