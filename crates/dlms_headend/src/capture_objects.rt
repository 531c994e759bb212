//! The answers to a GET of the columns.

ghost use Rattle.std.specs.Prelude.{◌≡◌, MatchResult};
ghost use Rattle.dlms_data.specs.Spelling.{IsSpelling};
ghost use Rattle.dlms_data.specs.Value.{Value};
ghost use Rattle.dlms_headend.specs.Columns.{columns, TellsColumns, MissesColumns};
ghost use Rattle.dlms_headend.specs.declared.poll_fault.PollFault.TheVariants.{Columns as OtherColumns};

use crate::answer::EXCEPTION;
use crate::columns_form::are_columns;
use crate::poll_fault::PollFault;
use crate::read_get_answer::behind_head;
use dlms_apdu::{ApduFault, Response, read_response};
use std::alloc::Allocator;

/// The value, by its bytes.
fn judge_columns(bytes: &[u8]) -> Result<(), PollFault>
    ensures { (v : Value) → IsSpelling bytes.now v
        → MatchResult result (λ _. v ≡ columns) (λ fault. (fault ≡ OtherColumns)
        × (v ≡ columns → ⊥)) }
{
    if are_columns(bytes) {
        Ok(())
    } else {
        Err(PollFault::Columns)
    }
}

/// The answer to the GET of the columns. Its bytes determine its value, so out of memory is never reported.
pub fn told<A: Allocator + Copy>(alloc: A, apdu: &[u8]) -> Result<(), PollFault>
    ensures { MatchResult result (λ _. TellsColumns apdu.now) (MissesColumns apdu.now) }
{
    match read_response(alloc, apdu) {
        Ok(Response::GetData { .. }) => judge_columns(behind_head(apdu)),
        Ok(Response::GetResult { result, .. }) => Err(PollFault::Result(result)),
        Ok(Response::GetBlockResult { result, .. }) => Err(PollFault::Result(result)),
        Ok(Response::Exception { .. }) => Err(PollFault::Result(EXCEPTION)),
        Ok(_) => Err(PollFault::Protocol),
        Err(ApduFault::Memory) => judge_columns(behind_head(apdu)),
        Err(_) => Err(PollFault::Protocol),
    }
}
