//! Memory that is refused: on heaps of rising sizes, and while a transfer is open.

use crate::client::{associated_by, exchange};
use crate::stops::MemoryMeter;
use crate::stops::acts::SIZE;
use dlms_frame::Client;
use dlms_meter::Meter;
use dlms_pages::MemoryPages;
use dlms_store::PAGES;
use linked_list_allocator::LocalHeap;
use std::alloc::{AllocError, Allocator, Global};

/// GET of a register.
pub const GET_REGISTER: [u8; 13] = [0xc0, 0x01, 0xc1, 0, 3, 1, 0, 1, 8, 0, 255, 2, 0];

/// GET of the object list, which is longer than a client here takes in one piece.
pub const GET_LIST: [u8; 13] = [0xc0, 0x01, 0xc1, 0, 15, 0, 0, 40, 0, 0, 255, 2, 0];

/// GET of the block after the first.
const GET_SECOND: [u8; 7] = [0xc0, 0x02, 0xc1, 0, 0, 0, 1];

/// The first heap has room for a meter's lines and rows, and for little more.
pub const LEAST: usize = 51_720;

/// How many heaps there are.
const HEAPS: usize = 128;

/// The outcome of a GET.
#[derive(Clone, Copy)]
enum Ended {
    Given,
    Refused,
    Otherwise,
}

/// Data or a first block, or a temporary failure.
fn ended_by(answer: &[u8]) -> Ended {
    match answer {
        [0xc4, 0x01, 0xc1, 0x01, 0x02] => Ended::Refused,
        [_, _, _, 0, ..] => Ended::Given,
        _ => Ended::Otherwise,
    }
}

/// GET of an attribute, on a link of its own.
fn get<A: Allocator + Copy>(meter: &mut MemoryMeter<A>, request: &[u8]) -> Ended {
    let Some(mut link) = associated_by(meter, Client::Public, SIZE) else {
        return Ended::Otherwise;
    };
    match exchange(meter, &mut link, request) {
        Some(answer) => ended_by(answer.as_slice()),
        None => Ended::Otherwise,
    }
}

/// Whether each growth of a GET is refused in turn, up to the heaps that have room for all: it is refused on some and given
/// on others, nothing else is answered, and all memory is given back.
pub fn is_refused_in_turn(alloc: Global, request: &[u8], step: usize) -> Result<bool, AllocError> {
    let (mut given, mut refused) = (false, false);
    for more in 0..HEAPS {
        let heap = LocalHeap::new(alloc, step.saturating_mul(more).saturating_add(LEAST))?;
        if let Ok(mut meter) = Meter::format(&heap, MemoryPages::new(alloc, PAGES)?) {
            match get(&mut meter, request) {
                Ended::Given => given = true,
                Ended::Refused => refused = true,
                Ended::Otherwise => return Ok(false),
            }
        }
        if heap.used() != 0 {
            return Ok(false);
        }
    }
    Ok(given && refused)
}

/// Takes what is left of a heap.
fn filled<A: Allocator + Copy>(alloc: Global, heap: A) -> Result<Vec<Vec<u8, A>>, AllocError> {
    let mut held = Vec::new(alloc);
    for size in [65_536usize, 16_384, 4096, 1024, 256, 64, 16] {
        for _ in 0..8u8 {
            if let Ok(piece) = Vec::<u8, A>::with_capacity(heap, size) {
                held.push(piece)?;
            }
        }
    }
    Ok(held)
}

/// Whether an answer is a block with this number.
fn is_block(answer: &[u8], number: u8) -> bool {
    match answer {
        [0xc4, 0x02, _, _, 0, 0, 0, last, ..] => *last == number,
        _ => false,
    }
}

/// Whether the second block is returned after one that found no memory.
fn is_given_behind<A: Allocator + Copy>(
    alloc: Global,
    heap: A,
    meter: &mut MemoryMeter<A>,
) -> Result<bool, AllocError> {
    let Some(mut link) = associated_by(meter, Client::Public, SIZE) else {
        return Ok(false);
    };
    let first = exchange(meter, &mut link, &GET_LIST);
    let held = filled(alloc, heap)?;
    let refused = exchange(meter, &mut link, &GET_SECOND);
    drop(held);
    let second = exchange(meter, &mut link, &GET_SECOND);
    match (first, refused, second) {
        (Some(first), Some(refused), Some(second)) => Ok(
            is_block(first.as_slice(), 1)
                && refused.as_slice() == [0xd8, 0x01, 0x03].as_slice()
                && is_block(second.as_slice(), 2),
        ),
        _ => Ok(false),
    }
}

/// Whether a further block that finds no memory leaves its transfer: the same block is given afterwards.
pub fn is_transfer_left(alloc: Global) -> Result<bool, AllocError> {
    let heap = LocalHeap::new(alloc, 131_072)?;
    match Meter::format(&heap, MemoryPages::new(alloc, PAGES)?) {
        Ok(mut meter) => is_given_behind(alloc, &heap, &mut meter),
        Err(_) => Ok(false),
    }
}
