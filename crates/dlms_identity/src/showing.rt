//! The texts that a meter's objects show, each read in an association of its own.

ghost use Rattle.std.specs.Prelude.{◌≡◌, ◌↔◌, IsTrue, Some};
ghost use Rattle.dlms_client.specs.Plan.{IsPlan, plan_of};
ghost use Rattle.dlms_identity.specs.Showing.{IsRead, Shows, ShowsAllBut, Tells, value_at};

use crate::text::text_in;
use arrayvec::ArrayVec;
use dlms_call::{CallFault, ClientEnd, begin, end, get};
use dlms_client::{Answer, Plan};
use dlms_data::{Bytes, Descriptor};
use dlms_ends::End;
use std::alloc::Global;

/// The most octets of a value's encoding. The rest of a longer one is not requested, and it is the fault `TooLarge`.
pub const MOST: usize = 1_024;

/// The class Data, and its attribute value (IEC 62056-6-2, Data, class 1).
const DATA: u16 = 1;

const VALUE: u8 = 2;

/// The text that an object of class Data has to show as its value.
#[derive(Clone, Copy, Debug)]
pub struct Expected<'a> {
    /// The object's logical name.
    pub name: [u8; 6],
    pub text: &'a str,
}

/// The value of the object of class Data with this name.
fn value_at(name: [u8; 6]) -> Descriptor
    ensures { result ≡ value_at name }
{
    Descriptor {
        class: DATA,
        name,
        id: VALUE,
    }
}

/// Asks for the value of an object, over an open association, and takes it as text.
#[inline(never)]
fn ask_text<S: End>(
    alloc: Global,
    line: &mut S,
    head: &mut ClientEnd<Global>,
    name: [u8; 6],
) -> Result<Option<Bytes<Global>>, CallFault>
    ensures { IsRead (S.past line.old) (S.past line.new) name head.old result head.new }
{
    match get(line, head, value_at(name), MOST) {
        Ok(Answer::Value) => match text_in(alloc, head.value()) {
            Ok(text) => Ok(text),
            Err(_) => Err(CallFault::Memory),
        },
        Ok(Answer::Result(_)) => Ok(None),
        Ok(Answer::Denied(_)) => Ok(None),
        Err(fault) => Err(fault),
    }
}

/// The text that the object of class Data with this name shows: an association is opened by this plan, the object's value is asked for,
/// and the link's end is asked for, whatever came. None if the meter does not give the value, or the value is no string.
#[inline(never)]
pub fn shown_text<S: End>(
    alloc: Global,
    line: &mut S,
    plan: Plan,
    name: [u8; 6],
) -> Result<Option<Bytes<Global>>, CallFault>
    requires { IsPlan (plan_of plan) }
    ensures { Tells (S.past line.old) (S.past line.new) (plan_of plan) name result }
{
    let mut head = match begin(alloc, line, plan, None) {
        Ok(head) => head,
        Err(fault) => return Err(fault),
    };
    let text = ask_text(alloc, line, &mut head, name);
    let _ended = end(line, &mut head);
    drop(head);
    text
}

/// Whether the text that came is this one.
fn is_text(told: Option<Bytes<Global>>, text: &str) -> bool
    ensures { IsTrue result ↔ told ≡ Some text.now }
{
    match told {
        Some(octets) => {
            let is_same = octets.as_slice() == text.as_bytes();
            drop(octets);
            is_same
        }
        None => false,
    }
}

/// Whether an object shows the text that it has to show.
pub fn shows<S: End>(
    alloc: Global,
    line: &mut S,
    plan: Plan,
    expected: &Expected<'_>,
) -> Result<bool, CallFault>
    requires { IsPlan (plan_of plan) }
    ensures { Shows (S.past line.old) (S.past line.new) (plan_of plan) expected.now result }
{
    match shown_text(alloc, line, plan, expected.name) {
        Ok(told) => Ok(is_text(told, expected.text)),
        Err(fault) => Err(fault),
    }
}

/// The same plan once more.
fn again(plan: &Plan) -> Plan
    ensures { plan_of result ≡ plan_of plan.now }
{
    let secret = match &plan.secret {
        Some(secret) => {
            let mut copy = ArrayVec::new();
            let _fits = copy.try_extend_from_slice(secret.as_slice());
            Some(copy)
        }
        None => None,
    };
    Plan {
        route: plan.route,
        secret,
        size: plan.size,
    }
}

/// The first of these objects that does not show its text. After it none is asked.
pub fn first_other<'a, S: End>(
    alloc: Global,
    line: &mut S,
    plan: &Plan,
    expected: &[Expected<'a>],
) -> Result<Option<Expected<'a>>, CallFault>
    requires { IsPlan (plan_of plan.now) }
    ensures { ShowsAllBut (S.past line.old) (S.past line.new)
        (plan_of plan.now) expected.now result }
{
    for one in expected {
        match shows(alloc, line, again(plan), one) {
            Ok(true) => {}
            Ok(false) => return Ok(Some(*one)),
            Err(fault) => return Err(fault),
        }
    }
    Ok(None)
}
