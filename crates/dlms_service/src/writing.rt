//! Answers as they are written.

ghost use Rattle.std.specs.Prelude.{◌≡◌, ◌≤◌, ◌++◌, ◌∷◌, [], length, Ok, Err, OnErr, OnOk, Result};
ghost use Rattle.dlms_apdu.specs.Forms.{get_data, exception};
ghost use Rattle.dlms_apdu.specs.View.{response_of};
ghost use Rattle.dlms_apdu.specs.Writing.{IsShort, response_bytes};
ghost use Rattle.dlms_blocks.specs.BlockView.{view_of};
ghost use Rattle.dlms_data.specs.Value.{Value};
ghost use Rattle.dlms_data.specs.Writing.{canonical};
ghost use Rattle.dlms_service.specs.Shown.{block_form};
ghost use Rattle.dlms_service.specs.declared.writing.TheConstants.{MOST_BYTES};

use arrayvec::ArrayVec;
use dlms_apdu::{Response, write_response, write_short};
use dlms_blocks::Block;
use std::alloc::{AllocError, Allocator};

/// The most bytes of an answer.
const MOST_BYTES: usize = 1024;

/// An APDU that answers another.
pub type Answer = ArrayVec<u8, MOST_BYTES>;

/// The answer is these bytes, whatever it was.
pub fn write_answer(answer: &mut Answer, bytes: &[u8])
    requires { length bytes.now ≤ MOST_BYTES }
    ensures { answer.new.items ≡ bytes.now }
{
    answer.clear();
    let _fits = answer.try_extend_from_slice(bytes);
}

/// An answer that holds neither a value nor a block's bytes.
pub fn short(answer: &mut Answer, response: &Response<'_>)
    requires { IsShort (response_of response.now) }
    ensures { answer.new.items ≡ response_bytes (response_of response.now) }
{
    write_answer(answer, write_short(response).as_slice());
}

/// The value of an attribute, whose encoding this is.
pub fn whole(answer: &mut Answer, invoke: u8, encoding: &[u8])
    requires { length encoding.now ≤ 1020 }
    ensures { (v : Value) → encoding.now ≡ canonical v
        → answer.new.items ≡ response_bytes (get_data invoke v) }
{
    write_answer(answer, &[0xc4, 0x01, invoke, 0x00]);
    let _fits = answer.try_extend_from_slice(encoding);
}

/// A block of a value. Without memory for it nothing is written.
pub fn block<A: Allocator + Copy>(
    alloc: A,
    answer: &mut Answer,
    invoke: u8,
    block: &Block,
) -> Result<(), AllocError>
    ensures block { OnOk result (answer.new.items ≡ response_bytes
        (block_form invoke block.now.number (Ok (view_of block.now)))) }
    ensures none { OnErr result (answer.new ≡ answer.old) }
{
    let response: Response<'_, A> = Response::GetBlock {
        invoke,
        last: block.last,
        number: block.number,
        raw: block.bytes.as_slice(),
    };
    match write_response(alloc, &response) {
        Ok(bytes) => {
            write_answer(answer, bytes.as_slice());
            Ok(())
        }
        Err(fault) => Err(fault),
    }
}

/// No service is possible without an association.
pub fn not_associated(answer: &mut Answer)
    ensures { answer.new.items ≡ response_bytes (exception 1 1) }
{
    exception(answer, 1, 1);
}

/// The service is not one that both ends have.
pub fn not_supported(answer: &mut Answer)
    ensures { answer.new.items ≡ response_bytes (exception 1 2) }
{
    exception(answer, 1, 2);
}

/// The service can't be done: it is too long, or there is no memory for it.
pub fn not_possible(answer: &mut Answer)
    ensures { answer.new.items ≡ response_bytes (exception 1 3) }
{
    exception(answer, 1, 3);
}

/// No service can be read here.
pub fn unknown_service(answer: &mut Answer)
    ensures { answer.new.items ≡ response_bytes (exception 2 2) }
{
    exception(answer, 2, 2);
}

/// An exception with its state error and its service error.
fn exception(answer: &mut Answer, state: u8, service: u8)
    ensures { answer.new.items ≡ response_bytes (exception state service) }
{
    short(answer, &Response::Exception { state, service });
}
