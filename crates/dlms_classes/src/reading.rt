//! What GET answers.

ghost use Rattle.std.specs.Prelude.{◌≡◌, List, IfOk, option_map};
ghost use Rattle.dlms_data.specs.View.{value_of};
ghost use Rattle.dlms_state.specs.declared.event.Event.{Event};
ghost use Rattle.dlms_state.specs.StateValue.{IsStateOf};
ghost use Rattle.dlms_classes.specs.Answer.{IsAnswer, IsSendable, AnswersAfter, wanted};
ghost use Rattle.dlms_classes.specs.Choice.{selection_of};

use crate::access::AccessResult;
use crate::choosing::chosen;
use crate::lookup::readable;
use crate::showing::value;
use dlms_data::{Data, Descriptor, Selector};
use dlms_frame::Client;
use dlms_state::State;
use std::alloc::Allocator;

/// The answer of a state.
fn answer<A: Allocator + Copy>(
    alloc: A,
    state: &State<A>,
    client: Client,
    descriptor: Descriptor,
    selector: Option<&Selector<A>>,
) -> Result<Data<A>, AccessResult>
    ensures { IsAnswer state.now client descriptor
        (wanted client descriptor (option_map (λ s. selection_of s.now) selector.entry)) result }
{
    let attribute = readable(client, descriptor)?;
    let choice = chosen(state.columns(), attribute.content, selector)?;
    Ok(value(alloc, state, client, descriptor, choice, attribute.content)?)
}

/// The value of an attribute as this client may read it, or why it is refused: the first cause that applies, in the order name,
/// class, attribute, right, selector, types of its parameters, their values. A refusal takes no memory, and out of memory is
/// answered only instead of a value that takes some: not for a number, an enumeration or a boolean.
///
/// Only the load profile's buffer takes a selector: 1 by range, a structure of the clock's column, from and to (octet strings of
/// twelve or date-times) and an empty array; 2 by entry, a structure of first and last entry (double-long-unsigned) and first and
/// last column (long-unsigned), counted from 1, where 0 as the last means the end. No attribute takes another selector
/// (`ScopeOfAccessViolated`). All types are checked before any value (`TypeUnmatched`). Refused for another reason (`OtherReason`)
/// are, by range: another column than the clock's time, named columns, octets that name no second, and each range if the clock is
/// not one of the state's columns; by entry: a first entry or first column of 0, a first column past the last of the state's
/// columns, and a last column below the first. The selector is borrowed, `Option<&Selector>`, because a request holds it and
/// nothing keeps it.
///
/// A value that is answered has a spelling, of at most the 29,764 bytes of the full buffer.
pub fn get<A: Allocator + Copy>(
    alloc: A,
    state: &State<A>,
    client: Client,
    descriptor: Descriptor,
    selector: Option<&Selector<A>>,
) -> Result<Data<A>, AccessResult>
    ensures answer { (E : List Event) → IsStateOf E state.now
        → AnswersAfter E client descriptor
        (option_map (λ s. selection_of s.now) selector.entry) result }
    ensures sendable { IfOk result (λ v. IsSendable (value_of v)) }
{
    state.has_events();
    answer(alloc, state, client, descriptor, selector)
}
