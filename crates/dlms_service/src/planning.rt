//! Which event a SET or an ACTION leads to, and its acceptance.

ghost use Rattle.std.specs.Prelude.{◌≡◌, ◌++◌, Ok, Err, IfOk, OnErr, List, Some, None, option_map, Option, Result};
ghost use Rattle.dlms_data.specs.Value.{Value};
ghost use Rattle.dlms_data.specs.View.{value_of};
ghost use Rattle.dlms_data.specs.Spelling.{IsSpelling};
ghost use Rattle.dlms_state.specs.declared.event.Event.{Event};
ghost use Rattle.dlms_state.specs.StateValue.{IsStateOf};
ghost use Rattle.dlms_classes.specs.Plan.{IsPlan};
ghost use Rattle.dlms_service.specs.Planned.{IsValue, set_asked, call_asked, IsPlanFor, IsTyped, reaches, Passes, accepted, result_of};
ghost use Rattle.dlms_service.specs.Session.{listed};

use crate::target::{Service, Target};
use dlms_classes::{AccessResult, plan_action, plan_set};
use dlms_data::{Data, DataFault, Descriptor, is_value, read};
use dlms_frame::Client;
use dlms_state::{Event, State};
use std::alloc::{AllocError, Allocator};

/// The result in an answer of success.
const SUCCESS: u8 = 0;

/// The value that the bytes spell, if they spell one and nothing follows it. Out of memory is reported only if they do.
pub fn value_in<A: Allocator + Copy>(alloc: A, bytes: &[u8]) -> Result<Option<Data<A>>, AllocError>
    ensures found { IfOk result (λ value. IsValue bytes.now (option_map value_of value)) }
    ensures lacks { OnErr result ((v : Value) × IsSpelling bytes.now v) }
{
    if !is_value(bytes) {
        return Ok(None);
    }
    match read(alloc, bytes) {
        Ok((value, _)) => Ok(Some(value)),
        Err(_) => Err(AllocError),
    }
}

/// The event for a SET of a value. A selector is refused if the attribute could otherwise be set, and so is an invalid value: a
/// null represents either, because nothing is set to null.
pub fn set_event<A: Allocator + Copy>(
    client: Client,
    descriptor: Descriptor,
    selected: bool,
    value: Option<&Data<A>>,
) -> Result<Event, AccessResult>
    ensures { IsPlan (set_asked client descriptor selected
        (option_map (λ v. value_of v.now) value.entry)) result }
{
    match value {
        Some(value) if !selected => plan_set(client, descriptor, value),
        Some(_) => Err(unset(client, descriptor, true)),
        None => Err(unset(client, descriptor, selected)),
    }
}

/// Why nothing is set: first the causes before the value, then the selector or the type. A null represents the value, because
/// nothing is set to null.
#[tactic(auto, using(crate::proofs::Plans::unset))]
fn unset(client: Client, descriptor: Descriptor, selected: bool) -> AccessResult
    ensures { set_asked client descriptor selected None ≡ Err result }
{
    let nothing: Data = Data::Null;
    let planned = plan_set(client, descriptor, &nothing);
    drop(nothing);
    match planned {
        Ok(_) => AccessResult::TypeUnmatched,
        Err(AccessResult::TypeUnmatched) if selected => AccessResult::ScopeOfAccessViolated,
        Err(refusal) => refusal,
    }
}

/// The event that ACTION with a parameter in blocks asks for.
pub fn call_event<A: Allocator + Copy>(
    client: Client,
    descriptor: Descriptor,
    parameter: Option<&Data<A>>,
) -> Result<Event, AccessResult>
    ensures { result ≡ call_asked client descriptor
        (option_map (λ v. value_of v.now) parameter.entry) }
{
    match parameter {
        Some(value) => plan_action(client, descriptor, Some(value)),
        None => Err(call_refusal(client, descriptor)),
    }
}

/// Why nothing is called if the bytes were no value.
#[tactic(auto, using(crate::proofs::Plans::call_unmatched))]
fn call_refusal(client: Client, descriptor: Descriptor) -> AccessResult
    ensures { call_asked client descriptor None ≡ Err result }
{
    let nothing: Option<&Data> = None;
    match plan_action(client, descriptor, nothing) {
        Ok(_) => AccessResult::TypeUnmatched,
        Err(refusal) => refusal,
    }
}

/// The event that a whole value asks for.
pub fn plan<A: Allocator + Copy>(
    client: Client,
    target: Target,
    value: Option<&Data<A>>,
) -> Result<Event, AccessResult>
    ensures { IsPlanFor target.service client target
        (option_map (λ v. value_of v.now) value.entry) result }
{
    match target.service {
        Service::Set => set_event(client, target.descriptor, target.selected, value),
        Service::Action => call_event(client, target.descriptor, value),
    }
}

/// Whether nothing refuses a target before its value is looked at.
#[tactic(auto, using(crate::proofs::Plans::reached))]
pub fn reaches(client: Client, target: Target) -> bool
    ensures { result ≡ reaches client target }
{
    let nothing: Option<&Data> = None;
    matches!(
        plan(client, target, nothing),
        Err(AccessResult::TypeUnmatched)
    )
}

/// The outcome of a plan: the result (0, or why it is refused) and the event to be accepted.
pub fn decide<A: Allocator + Copy>(
    state: &State<A>,
    plan: Result<Event, AccessResult>,
) -> (u8, Option<Event>)
    ensures typed { IsTyped plan }
    ensures passes { Passes state.now result.1 }
    ensures event { (E : List Event) → IsStateOf E state.now → listed result.1 ≡ accepted E plan }
    ensures result { (E : List Event) → IsStateOf E state.now → result.0 ≡ result_of E plan }
{
    match plan {
        Ok(event) => match state.check(&event) {
            Ok(()) => (SUCCESS, Some(event)),
            Err(_) => (AccessResult::OtherReason.number(), None),
        },
        Err(refusal) => (refusal.number(), None),
    }
}
