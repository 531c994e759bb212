//! What this project is as a library, in a few lines: asks for the energy that was imported, and reads the answer.
#![tactic(auto)]

use anyhow::{Result, anyhow};
use arrayvec::ArrayVec;
use dlms_apdu::{Request, Response, read_response, write_request};
use dlms_data::{Data, Descriptor};
use dlms_frame::{Address, Deframer, SentFrame};
use std::alloc::{AllocError, Global};

/// The value (attribute 2) of the register (class 3) of energy imported.
const ENERGY: Descriptor = Descriptor {
    class: 3,
    name: [1, 0, 1, 8, 0, 255],
    id: 2,
};

/// The request of it.
fn request(alloc: Global) -> Result<Vec<u8>, AllocError> {
    let request: Request<'_, Global> = Request::GetNormal {
        invoke: 0xc1,
        descriptor: ENERGY,
        selector: None,
    };
    let apdu = write_request(alloc, &request);
    drop(request);
    apdu
}

/// The information of a frame that asks for it, after the three bytes of the LLC.
fn information(apdu: &[u8]) -> Option<ArrayVec<u8, 64>> {
    let mut information = ArrayVec::new();
    information.try_extend_from_slice(&[0xe6, 0xe6, 0x00]).ok()?;
    information.try_extend_from_slice(apdu).ok()?;
    Some(information)
}

/// A frame that asks for it: to the meter's address 1, from the public client's 16.
fn question(alloc: Global) -> Result<SentFrame> {
    let apdu = request(alloc)?;
    let information = information(apdu.as_slice());
    drop(apdu);
    let Some(information) = information else {
        return Err(anyhow!("the request is too long"));
    };
    Ok(SentFrame::new(
        false,
        Address::One(1),
        Address::One(16),
        0x32,
        information.as_slice(),
    ))
}

/// The number in an answer.
fn number(response: &Response<'_, Global>) -> Option<u32> {
    match response {
        Response::GetData {
            value: Data::DoubleLongUnsigned(number),
            ..
        } => Some(*number),
        _ => None,
    }
}

/// The number in a frame that answers it, after the three bytes of the LLC.
fn answer(alloc: Global, bytes: &[u8]) -> Option<u32> {
    let mut deframer = Deframer::new();
    let _taken = deframer.feed(bytes);
    let frame = deframer.frame()?;
    let apdu = frame.info.get(3..)?;
    match read_response(alloc, apdu) {
        Ok(response) => {
            let number = number(&response);
            drop(response);
            number
        }
        Err(_) => None,
    }
}

fn main(rt: HostRuntime) -> Result<()> {
    let asked = question(rt.alloc())?;
    println!(rt; "{} bytes are sent", asked.put().len())?;
    let line =
        b"\x7e\xa0\x15\x21\x03\x52\x5d\x8a\xe6\xe7\x00\xc4\x01\xc1\x00\x06\x00\x00\x00\x2a\x25\x96\x7e";
    match answer(rt.alloc(), line.as_slice()) {
        Some(count) => println!(rt; "{count} Wh")?,
        None => println!(rt; "no answer")?,
    }
    Ok(())
}
