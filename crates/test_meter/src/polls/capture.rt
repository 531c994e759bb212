//! A capture that is asked for over a line that loses the answer: the client's link repeats the frame, and the meter captures once.

use crate::client::{associated, reply_to};
use crate::polls::poll::MemoryMeter;
use dlms_frame::{Client, SentFrame};
use dlms_link::{ClientLink, ClientOut};
use dlms_meter::Meter;
use dlms_pages::MemoryPages;
use dlms_store::PAGES;
use std::alloc::Global;
use std::io;

/// ACTION.request, capture of the load profile (class 7, method 2), with the integer 0 (IEC 62056-5-3).
const CAPTURE: [u8; 15] = [0xc3, 0x01, 0xc1, 0, 7, 1, 0, 99, 1, 0, 255, 2, 1, 0x0f, 0];

/// ACTION.response: success, and no data.
const SUCCESS: [u8; 5] = [0xc7, 0x01, 0xc1, 0, 0];

/// Lets the line lose this many answers to the frame, and returns the answer to the next repetition.
fn answered(
    meter: &mut MemoryMeter,
    link: &mut ClientLink,
    frame: SentFrame,
    losses: u8,
) -> Option<SentFrame> {
    let mut reply = reply_to(meter, &frame)?;
    for _ in 0..losses {
        if !link.is_waiting() {
            return None;
        }
        let Ok(again) = link.timeout() else {
            return None;
        };
        reply = reply_to(meter, &again)?;
    }
    Some(reply)
}

/// How many rows a new meter holds after a capture whose answer was lost this many times; none if it did not answer with success.
fn rows_after(alloc: Global, losses: u8) -> Option<usize> {
    let Ok(pages) = MemoryPages::new(alloc, PAGES) else {
        return None;
    };
    let Ok(mut meter) = Meter::format(alloc, pages) else {
        return None;
    };
    let mut link = associated(&mut meter, Client::Management)?;
    if !link.is_idle() {
        return None;
    }
    let frame = link.send(&CAPTURE);
    let reply = answered(&mut meter, &mut link, frame, losses)?;
    match link.on(&reply.lent()) {
        ClientOut::Apdu if link.apdu() == SUCCESS.as_slice() => Some(
            meter.state().rows().iter().count(),
        ),
        _ => None,
    }
}

/// Prints how many rows there are after each number of losses that a link repeats a frame for. Returns whether it is always one.
pub fn run<R: Print>(rt: &R, alloc: Global) -> io::Result<bool> {
    let mut is_one = true;
    for losses in 0..4u8 {
        let rows = rows_after(alloc, losses);
        is_one &= rows == Some(1);
        match rows {
            Some(rows) => println!(rt;
                "a capture whose answer is lost {losses} times: rows {rows}"
            )?,
            None => println!(rt; "a capture whose answer is lost {losses} times: no success")?,
        }
    }
    Ok(is_one)
}
