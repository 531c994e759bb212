//! One association over a line: requests, and their outcomes.

ghost use Rattle.std.specs.Prelude.{◌≡◌, ◌↔◌, IfErr, IfOk, IsTrue, None, Ok, Some, option_map};
ghost use Rattle.dlms_apdu.specs.Forms.{action_normal, get_normal, set_normal};
ghost use Rattle.dlms_apdu.specs.View.{selection_of};
ghost use Rattle.dlms_apdu.specs.Writing.{ParameterFits};
ghost use Rattle.dlms_client.specs.Plan.{IsPlan, plan_of};
ghost use Rattle.dlms_association.specs.declared.requests.TheConstants.{INVOKE};
ghost use Rattle.dlms_association.specs.declared.stage.Asked.TheVariants.{Action, Get, Set};
ghost use Rattle.dlms_call.specs.Asking.{EndsTalk, FailsToOpen, GoesOut, IsFree, Opens, Requests, answer_in, opening_result, release_result};
ghost use Rattle.dlms_data.specs.View.{value_of};
ghost use Rattle.dlms_data.specs.Writing.{Fits};

use crate::client_end::ClientEnd;
use crate::fault::CallFault;
use crate::watch::{Unwatched, Watch};
use dlms_client::{Answer, Fault, Outcome, Plan};
use dlms_data::{Data, Descriptor, Selector, fits};
use dlms_ends::End;
use dlms_secured::Guard;
use std::alloc::{Allocator, Global};

/// The octets of a value are not limited.
const NO_BOUND: usize = usize::MAX;

/// The outcome of a requested association.
fn opening_result(told: Result<Outcome, CallFault>) -> Result<(), CallFault>
    ensures { result ≡ opening_result told }
{
    match told {
        Ok(Outcome::Associated) => Ok(()),
        Ok(Outcome::Nothing | Outcome::Answered(_) | Outcome::Down) => Err(CallFault::Talk(
            Fault::Form,
        )),
        Err(fault) => Err(fault),
    }
}

/// The outcome of a request.
fn answer_in(told: Result<Outcome, CallFault>) -> Result<Answer, CallFault>
    ensures { result ≡ answer_in told }
{
    match told {
        Ok(Outcome::Answered(answer)) => Ok(answer),
        Ok(Outcome::Nothing | Outcome::Associated | Outcome::Down) => Err(CallFault::Talk(
            Fault::Form,
        )),
        Err(fault) => Err(fault),
    }
}

/// The outcome of the requested end of the connection.
fn release_result(told: Result<Outcome, CallFault>) -> Result<(), CallFault>
    ensures { result ≡ release_result told }
{
    match told {
        Ok(Outcome::Down) => Ok(()),
        Ok(Outcome::Nothing | Outcome::Associated | Outcome::Answered(_)) => Err(CallFault::Talk(
            Fault::Form,
        )),
        Err(fault) => Err(fault),
    }
}

/// The client's request for an association is sent, and its outcome is awaited.
fn open<S: End, A: Allocator + Copy>(line: &mut S, head: &mut ClientEnd<A>) -> Result<(), CallFault>
    ensures { GoesOut NO_BOUND opening_result (S.past line.old)
        (S.past line.new) head.old result head.new }
{
    match head.send(line) {
        Ok(()) => {
            let told = head.settle(line, NO_BOUND, &mut Unwatched);
            opening_result(told)
        }
        Err(fault) => Err(fault),
    }
}

/// A request is sent, and its answer is awaited.
fn request_answer<S: End, A: Allocator + Copy, V: Watch>(
    line: &mut S,
    head: &mut ClientEnd<A>,
    most: usize,
    watch: &mut V,
) -> Result<Answer, CallFault>
    ensures { GoesOut most answer_in (S.past line.old) (S.past line.new) head.old result head.new }
{
    match head.send(line) {
        Ok(()) => {
            let told = head.settle(line, most, watch);
            answer_in(told)
        }
        Err(fault) => Err(fault),
    }
}

/// Opens an association by this plan over a line: one that this guard protects, or without a guard one in clear. The guard's challenge
/// is unused, and three or more of its counters are left. If the security layer refuses a message, its cause is the fault `Insecure`.
#[inline(never)]
pub fn begin<S: End, A: Allocator + Copy>(
    alloc: A,
    line: &mut S,
    plan: Plan,
    guard: Option<Box<Guard, A>>,
) -> Result<ClientEnd<A>, CallFault>
    requires { IsPlan (plan_of plan) }
    ensures opens { IfOk result (Opens (S.past line.old) (S.past line.new) (plan_of plan)
        (option_map (λ kept. kept.value) guard) (Ok tt)) }
    ensures fails { IfErr result (FailsToOpen (S.past line.old) (S.past line.new) (plan_of plan)
        (option_map (λ kept. kept.value) guard)) }
{
    let mut head = match ClientEnd::new(alloc, plan, guard) {
        Ok(head) => head,
        Err(fault) => return Err(fault),
    };
    head.begin();
    match open(line, &mut head) {
        Ok(()) => Ok(head),
        Err(fault) => Err(fault),
    }
}

/// Whether a parameter has a spelling.
fn parameter_fits<A: Allocator>(parameter: &Option<Data<A>>) -> bool
    ensures { IsTrue result ↔ ParameterFits (option_map value_of parameter.now) }
{
    match parameter {
        Some(value) => fits(value),
        None => true,
    }
}

/// Requests an attribute whose encoding has at most `most` octets. Without an open association, or while a request is out, nothing
/// is sent, and it is `Form`. Once more octets have come it is `TooLarge`, and no further block is requested: the request stays
/// out, so the association cannot be used any more.
pub fn get<S: End, A: Allocator + Copy>(
    line: &mut S,
    head: &mut ClientEnd<A>,
    attribute: Descriptor,
    most: usize,
) -> Result<Answer, CallFault>
    ensures { Requests most (IsFree head.old) Get (get_normal INVOKE attribute None)
        (S.past line.old) (S.past line.new) head.old result head.new }
{
    get_watched(line, head, attribute, most, &mut Unwatched)
}

/// The same, and shows after each read of the line what has come of the value.
pub fn get_watched<S: End, A: Allocator + Copy, V: Watch>(
    line: &mut S,
    head: &mut ClientEnd<A>,
    attribute: Descriptor,
    most: usize,
    watch: &mut V,
) -> Result<Answer, CallFault>
    ensures { Requests most (IsFree head.old) Get (get_normal INVOKE attribute None)
        (S.past line.old) (S.past line.new) head.old result head.new }
{
    if !head.is_free() {
        return Err(CallFault::Talk(Fault::Form));
    }
    match head.get(attribute) {
        Ok(()) => request_answer(line, head, most, watch),
        Err(fault) => Err(CallFault::from(fault)),
    }
}

/// Requests a part of an attribute (Blue Book, selective access), as `get` requests all of it. A selector that has no spelling is not
/// sent, and it is `Form` too.
pub fn get_part<S: End, A: Allocator + Copy>(
    line: &mut S,
    head: &mut ClientEnd<A>,
    attribute: Descriptor,
    selector: Selector<A>,
    most: usize,
) -> Result<Answer, CallFault>
    ensures { Requests most (IsFree head.old × Fits (value_of selector.value)) Get
        (get_normal INVOKE attribute (Some (selection_of selector))) (S.past line.old)
        (S.past line.new) head.old result head.new }
{
    get_part_watched(line, head, attribute, selector, most, &mut Unwatched)
}

/// The same, and shows after each read of the line what has come of the value.
pub fn get_part_watched<S: End, A: Allocator + Copy, V: Watch>(
    line: &mut S,
    head: &mut ClientEnd<A>,
    attribute: Descriptor,
    selector: Selector<A>,
    most: usize,
    watch: &mut V,
) -> Result<Answer, CallFault>
    ensures { Requests most (IsFree head.old × Fits (value_of selector.value)) Get
        (get_normal INVOKE attribute (Some (selection_of selector))) (S.past line.old)
        (S.past line.new) head.old result head.new }
{
    if !head.is_free() {
        drop(selector);
        return Err(CallFault::Talk(Fault::Form));
    }
    if !fits(&selector.value) {
        drop(selector);
        return Err(CallFault::Talk(Fault::Form));
    }
    match head.get_part(attribute, selector) {
        Ok(()) => request_answer(line, head, most, watch),
        Err(fault) => Err(CallFault::from(fault)),
    }
}

/// Sets an attribute, as `get` requests one. A value that has no spelling is not sent, and it is `Form` too.
pub fn set<S: End, A: Allocator + Copy>(
    line: &mut S,
    head: &mut ClientEnd<A>,
    attribute: Descriptor,
    value: Data<A>,
) -> Result<Answer, CallFault>
    ensures { Requests NO_BOUND (IsFree head.old × Fits (value_of value)) Set
        (set_normal INVOKE attribute None (value_of value)) (S.past line.old) (S.past line.new)
        head.old result head.new }
{
    if !head.is_free() {
        drop(value);
        return Err(CallFault::Talk(Fault::Form));
    }
    if !fits(&value) {
        drop(value);
        return Err(CallFault::Talk(Fault::Form));
    }
    match head.set(attribute, value) {
        Ok(()) => request_answer(line, head, NO_BOUND, &mut Unwatched),
        Err(fault) => Err(CallFault::from(fault)),
    }
}

/// Calls a method, with a parameter or without one, as `set` sets an attribute.
pub fn act<S: End, A: Allocator + Copy>(
    line: &mut S,
    head: &mut ClientEnd<A>,
    method: Descriptor,
    parameter: Option<Data<A>>,
) -> Result<Answer, CallFault>
    ensures { Requests NO_BOUND (IsFree head.old × ParameterFits (option_map value_of parameter))
        Action (action_normal INVOKE method (option_map value_of parameter)) (S.past line.old)
        (S.past line.new) head.old result head.new }
{
    if !head.is_free() {
        drop(parameter);
        return Err(CallFault::Talk(Fault::Form));
    }
    if !parameter_fits(&parameter) {
        drop(parameter);
        return Err(CallFault::Talk(Fault::Form));
    }
    match head.act(method, parameter) {
        Ok(()) => request_answer(line, head, NO_BOUND, &mut Unwatched),
        Err(fault) => Err(CallFault::from(fault)),
    }
}

/// Ends the connection, and with it the association. The caller then closes the line.
#[inline(never)]
pub fn end<S: End, A: Allocator + Copy>(
    line: &mut S,
    head: &mut ClientEnd<A>,
) -> Result<(), CallFault>
    ensures { EndsTalk (IsFree head.old) (S.past line.old)
        (S.past line.new) head.old result head.new }
{
    if !head.is_free() {
        return Err(CallFault::Talk(Fault::Form));
    }
    match head.disconnect() {
        Outcome::Down => Ok(()),
        _ => match head.send(line) {
            Ok(()) => {
                let told = head.settle(line, NO_BOUND, &mut Unwatched);
                release_result(told)
            }
            Err(fault) => Err(fault),
        },
    }
}
