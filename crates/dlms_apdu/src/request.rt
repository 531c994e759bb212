//! Requests of a client.

use dlms_data::{Data, Descriptor, Selector};
use std::alloc::{Allocator, Global};

/// A request of the services GET, SET and ACTION (the xDLMS APDUs of IEC 62056-5-3). `invoke` is the
/// invoke-id-and-priority byte, `number` the number of a block and `last` whether it is the last one; `raw` are
/// a block's bytes, which stay where they were read.
#[derive(Debug, Drop)]
pub enum Request<'a, A: Allocator = Global> {
    /// `c0 01`, invoke, descriptor, selector (`00`, or `01`, its number and its value).
    GetNormal {
        invoke: u8,
        descriptor: Descriptor,
        selector: Option<Selector<A>>,
    },
    /// `c0 02`, invoke, number (4 bytes): asks for the block after the one with this number.
    GetNext {
        invoke: u8,
        number: u32,
    },
    /// `c1 01`, invoke, descriptor, selector, value.
    SetNormal {
        invoke: u8,
        descriptor: Descriptor,
        selector: Option<Selector<A>>,
        value: Data<A>,
    },
    /// `c1 02`, invoke, descriptor, selector, last (a byte), number (4), a length and the raw bytes: the first block
    /// of a value to set.
    SetFirst {
        invoke: u8,
        descriptor: Descriptor,
        selector: Option<Selector<A>>,
        last: bool,
        number: u32,
        raw: &'a [u8],
    },
    /// `c1 03`, invoke, last, number, raw: a further block of a value to set.
    SetBlock {
        invoke: u8,
        last: bool,
        number: u32,
        raw: &'a [u8],
    },
    /// `c3 01`, invoke, descriptor, parameter (`00`, or `01` and a value).
    ActionNormal {
        invoke: u8,
        descriptor: Descriptor,
        parameter: Option<Data<A>>,
    },
    /// `c3 04`, invoke, descriptor, last, number, raw: the first block of a method's parameter.
    ActionFirst {
        invoke: u8,
        descriptor: Descriptor,
        last: bool,
        number: u32,
        raw: &'a [u8],
    },
    /// `c3 06`, invoke, last, number, raw: a further block of a method's parameter.
    ActionBlock {
        invoke: u8,
        last: bool,
        number: u32,
        raw: &'a [u8],
    },
}
