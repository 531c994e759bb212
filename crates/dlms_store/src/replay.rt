//! Records of the journal, judged and taken.
ghost use Rattle.std.specs.Prelude.{◌≡◌, ◌<◌, ◌≤◌, ◌+◌, ◌^◌, ◌↔◌, ◌++◌, ◌∷◌, [], List, ℕ, length, IsTrue, IsFalse};
ghost use Rattle.dlms_state.specs.declared.event.Event.{Event as EventOf};
ghost use Rattle.dlms_state.specs.Refusal.{IsLegal, MayFollow};
ghost use Rattle.dlms_journal.specs.Record.{Holds};
ghost use Rattle.dlms_store.specs.Image.{HasRing, Records};
ghost use Rattle.dlms_state.specs.StateValue.{HasEvents, HasNumberFor, IsStateOf};
ghost use Rattle.dlms_state.specs.Events.{captures};
ghost use Rattle.dlms_store.specs.declared.layout.TheConstants.{MOST_CAPTURED};

use crate::layout::MOST_CAPTURED;
use crate::numbers::{NUMBERS_END, has_number_for};
use crate::page::{Edition, payload_in};
use dlms_journal::{PageKind, records_of};
use dlms_pages::PageRead;
use dlms_state::{Event, State};
use std::alloc::Allocator;

/// Whether the ring has space for this many further rows, given the number of rows captured before the checkpoint.
fn has_ring<A: Allocator + Copy>(state: &State<A>, rows: u32, checkpointed: u128) -> bool
    ensures { IsTrue result ↔ ((state.now.rows.next + rows ≤ checkpointed + MOST_CAPTURED)
        × (state.now.rows.next + rows ≤ 2 ^ 64)) }
{
    let next = state.next_number() + u128::from(rows);
    next <= NUMBERS_END && next.saturating_sub(checkpointed) <= u128::from(MOST_CAPTURED)
}

/// Whether the bytes are whole records, at least one, each of which is legal after those before it, and the ring takes their rows.
fn are_legal<A: Allocator + Copy>(state: &State<A>, bytes: &[u8], checkpointed: u128) -> bool
    requires { checkpointed ≤ state.now.rows.next }
    ensures yes { IsTrue result → (E : List EventOf) → IsStateOf E state.now
        → (F : List EventOf) × Holds bytes.now F × (0 < length F) × IsLegal (E ++ F)
        × HasRing checkpointed (E ++ F) }
    ensures none { IsFalse result → (E F : List EventOf) → IsStateOf E state.now → Holds bytes.now F
        → 0 < length F → IsLegal (E ++ F) → HasRing checkpointed (E ++ F) → ⊥ }
{
    if bytes.is_empty() {
        return false;
    }
    let Some(events) = records_of(bytes) else {
        return false;
    };
    let mut outlook = state.outlook();
    for event in events {
        match outlook.after(&event) {
            Ok(next) => outlook = next,
            Err(_) => return false,
        }
    }
    has_ring(state, outlook.rows(), checkpointed)
}

/// Applies an event that may come next, if the row that it captures (if any) gets a number of 64 bits.
fn take<A: Allocator + Copy>(state: &mut State<A>, event: Event)
    ensures events { HasEvents state.old → HasEvents state.new }
    ensures more { (E : List EventOf) → IsStateOf E state.old → MayFollow E event
        → HasNumberFor state.old event → IsStateOf (E ++ event ∷ []) state.new }
{
    if state.check(&event).is_ok() && has_number_for(state, &event) {
        state.apply(event);
    }
}

/// Takes the events of records that are legal, and whose rows get numbers of 64 bits.
fn take_all<A: Allocator + Copy>(state: &mut State<A>, bytes: &[u8])
    ensures events { HasEvents state.old → HasEvents state.new }
    ensures all { (E F : List EventOf) → IsStateOf E state.old → Holds bytes.now F
        → IsLegal (E ++ F) → length (captures (E ++ F)) ≤ 2 ^ 64 → IsStateOf (E ++ F) state.new }
{
    let Some(events) = records_of(bytes) else {
        return;
    };
    for event in events {
        take(state, event);
    }
}

/// Applies the records of the journal page with this index and edition, after a checkpoint before which this many rows were
/// captured. A page that does not fit changes nothing.
pub(crate) fn replay<A: Allocator + Copy>(
    state: &mut State<A>,
    page: &PageRead,
    index: u16,
    edition: Edition,
    checkpointed: u128,
) -> bool
    requires { checkpointed ≤ state.old.rows.next }
    ensures captured { IsTrue result
        → (state.old.rows.next ≤ state.new.rows.next)
        × (state.new.rows.next ≤ checkpointed + MOST_CAPTURED) }
    ensures events { HasEvents state.old → HasEvents state.new }
    ensures taken { IsTrue result → (E : List EventOf) → IsStateOf E state.old
        → (F : List EventOf) × Records edition index F page.now × HasRing checkpointed (E ++ F)
        × IsStateOf (E ++ F) state.new }
    ensures none { IsFalse result → (E F : List EventOf) → IsStateOf E state.old
        → Records edition index F page.now → IsLegal (E ++ F) → HasRing checkpointed (E ++ F) → ⊥ }
    ensures kept { IsFalse result → state.new ≡ state.old }
{
    let Some(bytes) = payload_in(page, PageKind::Journal, index, edition) else {
        return false;
    };
    if !are_legal(state, bytes, checkpointed) {
        return false;
    }
    state.has_events();
    take_all(state, bytes);
    true
}
