//! The answers to blocks.

ghost use Rattle.std.specs.Prelude.{◌≡◌};
ghost use Rattle.dlms_apdu.specs.Writing.{response_bytes};
ghost use Rattle.dlms_apdu.specs.Forms.{get_block_result};
ghost use Rattle.dlms_service.specs.Blocks.{taken_form, ended_form, code_for, open_for};

use crate::target::{Service, Target, is_same};
use crate::writing::{Answer, short};
use dlms_apdu::Response;
use dlms_blocks::NO_LONG_SET;

/// The result of ACTION that ends for any cause but the next (long-action-aborted).
pub const LONG_ACTION_ABORTED: u8 = 15;

/// The result of a further block if no long action is in progress (no-long-action-in-progress).
pub const NO_LONG_ACTION: u8 = 16;

/// No block, but the result that ends the transfer.
pub fn no_block(answer: &mut Answer, invoke: u8, number: u32, code: u8)
    ensures { answer.new.items ≡ response_bytes (get_block_result invoke number code) }
{
    short(
        answer,
        &Response::GetBlockResult {
            invoke,
            number,
            result: code,
        },
    );
}

/// A block was taken, and further ones are to come.
pub fn put_block_taken(answer: &mut Answer, service: Service, invoke: u8, number: u32)
    ensures { answer.new.items ≡ response_bytes (taken_form service invoke number) }
{
    match service {
        Service::Set => short(answer, &Response::SetBlock { invoke, number }),
        Service::Action => short(answer, &Response::ActionBlock { invoke, number }),
    }
}

/// The transfer ended with a result.
pub fn put_last_result(answer: &mut Answer, service: Service, invoke: u8, number: u32, code: u8)
    ensures { answer.new.items ≡ response_bytes (ended_form service invoke number code) }
{
    match service {
        Service::Set => short(
            answer,
            &Response::SetLast {
                invoke,
                result: code,
                number,
            },
        ),
        Service::Action => short(
            answer,
            &Response::ActionResult {
                invoke,
                result: code,
            },
        ),
    }
}

/// Why a transfer ends before its last block, in the numbers of its service.
pub fn code_for(service: Service, code: u8) -> u8
    ensures { result ≡ code_for service code }
{
    match service {
        Service::Set => code,
        Service::Action if code == NO_LONG_SET => NO_LONG_ACTION,
        Service::Action => LONG_ACTION_ABORTED,
    }
}

/// The open transfer of a service.
pub fn open_for(service: Service, target: Option<Target>) -> Option<Target>
    ensures { result ≡ open_for service target }
{
    match target {
        Some(target) if is_same(service, target.service) => Some(target),
        _ => None,
    }
}
