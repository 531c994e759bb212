//! What GET answers, as it is sent.

ghost use Rattle.std.specs.Prelude.{◌≤◌, [], List, IfErr, IfOk, length, option_map};
ghost use Rattle.dlms_data.specs.Value.{Value};
ghost use Rattle.dlms_state.specs.declared.event.Event.{Event};
ghost use Rattle.dlms_state.specs.StateValue.{HasEvents, IsStateOf};
ghost use Rattle.dlms_classes.specs.Answer.{IsSendable, most_bytes, wanted};
ghost use Rattle.dlms_classes.specs.Choice.{Picks, IsProper, selection_of};
ghost use Rattle.dlms_classes.specs.Encoded.{Encodes, EncodesAfter, IsPut, IsRefused, IsRefusedAfter};
ghost use Rattle.dlms_classes.specs.Shown.{Part, Shows, shown, whole};

use crate::access::AccessResult;
use crate::choosing::{Choice, chosen};
use crate::lookup::readable;
use crate::putting_list::{encoded_columns, encoded_list};
use crate::putting_rows::encoded_buffer;
use crate::showing::value;
use crate::table::Content;
use dlms_data::{Descriptor, Selector, write};
use dlms_frame::Client;
use dlms_state::State;
use std::alloc::{AllocError, Allocator};

/// The encoding of an attribute that has no parts.
fn encoded_value<A: Allocator + Copy>(
    alloc: A,
    state: &State<A>,
    client: Client,
    descriptor: Descriptor,
    content: Content,
) -> Result<Vec<u8, A>, AllocError>
    requires sendable { (v : Value) → Shows (shown state.now client descriptor whole content) v
        → IsSendable v }
    ensures { IfOk result (λ out. IsPut
        (Shows (shown state.now client descriptor whole content)) [] out.items) }
{
    let value = value(alloc, state, client, descriptor, Choice::Whole, content)?;
    write(alloc, &value)
}

/// The encoding of an attribute's value for a client; for the buffer, of the selected part.
fn encoded<A: Allocator + Copy>(
    alloc: A,
    state: &State<A>,
    client: Client,
    descriptor: Descriptor,
    choice: Choice,
    content: Content,
) -> Result<Vec<u8, A>, AllocError>
    requires proper { IsProper state.now.columns choice }
    requires columns { length state.now.columns ≤ 4 }
    requires sendable { (v : Value) → Shows (shown state.now client descriptor whole content) v
        → IsSendable v }
    ensures { (p : Part) → Picks state.now.columns p choice
        → IfOk result (λ out. IsPut (Shows
        (shown state.now client descriptor p content)) [] out.items) }
{
    match content {
        Content::Buffer => encoded_buffer(alloc, state.columns(), state.rows(), choice),
        Content::ObjectList => encoded_list(alloc, client),
        Content::CaptureObjects => encoded_columns(alloc, state.columns()),
        _ => encoded_value(alloc, state, client, descriptor, content),
    }
}

/// The answer of a state.
fn answer<A: Allocator + Copy>(
    alloc: A,
    state: &State<A>,
    client: Client,
    descriptor: Descriptor,
    selector: Option<&Selector<A>>,
) -> Result<Vec<u8, A>, AccessResult>
    requires { HasEvents state.now }
    ensures encoding { IfOk result
        (λ out. Encodes state.now client descriptor
        (wanted client descriptor (option_map
        (λ s. selection_of s.now) selector.entry)) out.items) }
    ensures refusal { IfErr result
        (λ r. IsRefused state.now client descriptor
        (wanted client descriptor (option_map (λ s. selection_of s.now) selector.entry)) r) }
{
    let attribute = readable(client, descriptor)?;
    let choice = chosen(state.columns(), attribute.content, selector)?;
    Ok(encoded(alloc, state, client, descriptor, choice, attribute.content)?)
}

/// The encoding of the value that `get` answers, which goes into a response as it is; or why it is refused, in `get`'s words and
/// order. The buffer, the object list and the columns are written as they are read, without a value in between: the memory
/// that is asked for is that of the encoding, at once and in its exact size.
///
/// Out of memory is answered only instead of a value, but also for a number, because each encoding takes some. An encoding has at
/// most the 29,764 bytes of the full buffer's.
pub fn get_encoded<A: Allocator + Copy>(
    alloc: A,
    state: &State<A>,
    client: Client,
    descriptor: Descriptor,
    selector: Option<&Selector<A>>,
) -> Result<Vec<u8, A>, AccessResult>
    ensures encoding { (E : List Event) → IsStateOf E state.now
        → IfOk result (λ out. EncodesAfter E client descriptor
        (option_map (λ s. selection_of s.now) selector.entry) out.items) }
    ensures refusal { (E : List Event) → IsStateOf E state.now
        → IfErr result (λ r. IsRefusedAfter E client descriptor
        (option_map (λ s. selection_of s.now) selector.entry) r) }
    ensures short { IfOk result (λ out. length out.items ≤ most_bytes) }
{
    state.has_events();
    answer(alloc, state, client, descriptor, selector)
}
