//! The numbers of rows that an event captures.
ghost use Rattle.std.specs.Prelude.{◌≡◌, ◌≤◌, ◌+◌, ◌↔◌, ◌++◌, ◌∷◌, [], List, None, IsTrue};
ghost use Rattle.dlms_state.specs.declared.event.Event.{Event as EventOf};
ghost use Rattle.dlms_state.specs.Refusal.{refusal};
ghost use Rattle.dlms_state.specs.StateValue.{HasNumberFor, IsStateOf, captures_a_row};

use dlms_state::{Event, State};
use std::alloc::Allocator;

/// One above the greatest number of a row.
pub(crate) const NUMBERS_END: u128 = 18_446_744_073_709_551_616;

/// Whether an event that passes captures a row.
fn has_row<A: Allocator + Copy>(state: &State<A>, event: &Event) -> bool
    requires { refusal state.now.last state.now.offset event.now ≡ None }
    ensures { result ≡ captures_a_row state.now event.now }
{
    state.has_events();
    match state.outlook().after(event) {
        Ok(outlook) => outlook.rows() > 0,
        Err(_) => false,
    }
}

/// Whether the row that an event captures, if it does, gets a number of 64 bits.
pub(crate) fn has_number_for<A: Allocator + Copy>(state: &State<A>, event: &Event) -> bool
    requires { refusal state.now.last state.now.offset event.now ≡ None }
    ensures { IsTrue result ↔ HasNumberFor state.now event.now }
{
    state.next_number() < NUMBERS_END || !has_row(state, event)
}

/// Applies an event that passes and whose row has a number. Returns how many rows it captured: one or none.
pub(crate) fn apply_counted<A: Allocator + Copy>(state: &mut State<A>, event: Event) -> u16
    requires passes { refusal state.old.last state.old.offset event ≡ None }
    requires number { HasNumberFor state.old event }
    ensures state { (E : List EventOf) → IsStateOf E state.old
        → IsStateOf (E ++ event ∷ []) state.new }
    ensures rows { state.old.rows.next + result ≡ state.new.rows.next }
    ensures few { result ≤ 1 }
{
    state.has_events();
    let before = state.next_number();
    state.apply(event);
    (state.next_number() - before) as u16
}
