//! What GET shows, whole or in blocks.

ghost use Rattle.std.specs.Prelude.{◌≡◌, ◌≤◌, List, Some, option_map, length, IfErr, IfOk};
ghost use Rattle.dlms_apdu.specs.View.{selection_of};
ghost use Rattle.dlms_apdu.specs.Forms.{get_result};
ghost use Rattle.dlms_apdu.specs.Writing.{response_bytes};
ghost use Rattle.dlms_state.specs.StateValue.{state_of, IsStateOf};
ghost use Rattle.dlms_state.specs.declared.event.Event.{Event};
ghost use Rattle.dlms_classes.specs.Access.{number_of};
ghost use Rattle.dlms_classes.specs.Answer.{most_bytes, wanted};
ghost use Rattle.dlms_classes.specs.Choice as classes;
ghost use Rattle.dlms_classes.specs.Encoded.{Encodes, IsRefused};
ghost use Rattle.dlms_service.specs.Shown.{asked, no_selection};

use crate::association::Association;
use crate::writing::{Answer, short};
use dlms_acse::Conformance;
use dlms_apdu::Response;
use dlms_classes::{AccessResult, get_encoded};
use dlms_data::{Data, Descriptor, Selector};
use dlms_frame::Client;
use dlms_state::State;
use std::alloc::Allocator;

/// The answer that a GET is refused.
pub fn put_refusal(answer: &mut Answer, invoke: u8, refusal: AccessResult)
    ensures { answer.new.items ≡ response_bytes (get_result invoke (number_of refusal)) }
{
    short(
        answer,
        &Response::GetResult {
            invoke,
            result: refusal.number(),
        },
    );
}

/// The encoding of the value that a client asks for. Without selective access a selector is seen as one that no attribute takes.
pub fn shown<A: Allocator + Copy>(
    alloc: A,
    state: &State<A>,
    client: Client,
    association: Association,
    descriptor: Descriptor,
    selector: Option<&Selector<A>>,
) -> Result<Vec<u8, A>, AccessResult>
    ensures encoding { (E : List Event) → IsStateOf E state.now
        → IfOk result (λ out. Encodes (state_of E) client descriptor
        (asked client association descriptor
        (option_map (λ s. selection_of s.now) selector.entry)) out.items) }
    ensures refusal { (E : List Event) → IsStateOf E state.now
        → IfErr result (IsRefused (state_of E) client descriptor
        (asked client association descriptor
        (option_map (λ s. selection_of s.now) selector.entry))) }
    ensures short { IfOk result (λ out. length out.items ≤ most_bytes) }
{
    if association.has(Conformance::SELECTIVE_ACCESS) || selector.is_none() {
        seen(alloc, state, client, descriptor, selector)
    } else {
        selector_refusal(alloc, state, client, descriptor)
    }
}

/// The encoding, with a selector that is seen.
fn seen<A: Allocator + Copy>(
    alloc: A,
    state: &State<A>,
    client: Client,
    descriptor: Descriptor,
    selector: Option<&Selector<A>>,
) -> Result<Vec<u8, A>, AccessResult>
    ensures encoding { (E : List Event) → IsStateOf E state.now
        → IfOk result (λ out. Encodes (state_of E) client descriptor
        (wanted client descriptor (option_map
        (λ s. classes.selection_of s.now) selector.entry)) out.items) }
    ensures refusal { (E : List Event) → IsStateOf E state.now
        → IfErr result (IsRefused (state_of E) client descriptor
        (wanted client descriptor (option_map (λ s. classes.selection_of s.now) selector.entry))) }
    ensures short { IfOk result (λ out. length out.items ≤ most_bytes) }
{
    get_encoded(alloc, state, client, descriptor, selector)
}

/// The refusal of a selector that no attribute takes, or what comes before it.
fn selector_refusal<A: Allocator + Copy>(
    alloc: A,
    state: &State<A>,
    client: Client,
    descriptor: Descriptor,
) -> Result<Vec<u8, A>, AccessResult>
    ensures encoding { (E : List Event) → IsStateOf E state.now
        → IfOk result (λ out. Encodes (state_of E) client descriptor
        (wanted client descriptor (Some no_selection)) out.items) }
    ensures refusal { (E : List Event) → IsStateOf E state.now
        → IfErr result (IsRefused (state_of E) client descriptor
        (wanted client descriptor (Some no_selection))) }
    ensures short { IfOk result (λ out. length out.items ≤ most_bytes) }
{
    let unknown = Selector {
        number: 0,
        value: Data::Null,
    };
    get_encoded(alloc, state, client, descriptor, Some(&unknown))
}
