//! Rows of `dlms_classes`.

use crate::answers::{put_shown, put_with_number};
use crate::bench::{Bench, Room};
use crate::fault::RowFault;
use crate::hexadecimal::put_hex;
use crate::state::StateBench;
use crate::words::{NUMBERS_END, Words, client_of};
use dlms_classes::{AccessResult, get, get_encoded, plan_action, plan_set};
use dlms_data::{Data, Descriptor, Selector, fits, read, write};
use dlms_frame::Client;
use dlms_state::{Event, State};
use linked_list_allocator::LocalHeap;

/// The services of a meter's objects on a state.
#[derive(Drop)]
pub struct ClassesBench<'h> {
    room: Room<'h>,
    state: StateBench<'h>,
}

/// Who asks, and of what.
#[derive(Clone, Copy)]
struct Asked {
    client: Client,
    descriptor: Descriptor,
}

fn put_result(answer: &mut String, refusal: AccessResult) -> Result<(), RowFault> {
    put_with_number(answer, "result ", u64::from(refusal.number()))
}

/// Client, class, name in hexadecimal digits, number of the attribute or method.
fn asked_of(words: &mut Words<'_>) -> Result<Asked, RowFault> {
    let client = client_of(words.word()?)?;
    let class = words.short()?;
    let name = words.octets()?;
    let id = words.byte()?;
    Ok(Asked {
        client,
        descriptor: Descriptor { class, name, id },
    })
}

/// The value that bytes are.
fn value_of<'h>(heap: &'h LocalHeap, bytes: &[u8]) -> Result<Data<&'h LocalHeap>, RowFault> {
    match read(heap, bytes) {
        Ok((value, _)) => Ok(value),
        Err(_) => Err(RowFault::Form),
    }
}

/// A value as bytes.
fn put_value<'h>(
    heap: &'h LocalHeap,
    value: &Data<&'h LocalHeap>,
    answer: &mut String,
) -> Result<(), RowFault> {
    if !fits(value) {
        return Ok(answer.push_str("unfit")?);
    }
    put_hex(answer, write(heap, value)?.as_slice())
}

/// How a value that GET gives is taken.
#[derive(Clone, Copy)]
enum Taken {
    /// As a value, which is then written.
    Value,
    /// As it is sent.
    Encoded,
}

/// What GET sends, with memory from the heap.
fn put_sent<'h>(
    heap: &'h LocalHeap,
    state: &State<&'h LocalHeap>,
    asked: Asked,
    selector: Option<&Selector<&'h LocalHeap>>,
    answer: &mut String,
) -> Result<(), RowFault> {
    match get_encoded(heap, state, asked.client, asked.descriptor, selector) {
        Ok(encoding) => put_hex(answer, encoding.as_slice()),
        Err(result) => put_result(answer, result),
    }
}

/// What GET gives, with memory from the heap.
fn put_got<'h>(
    room: Room<'h>,
    state: &State<&'h LocalHeap>,
    taken: Taken,
    asked: Asked,
    selector: Option<&Selector<&'h LocalHeap>>,
    answer: &mut String,
) -> Result<(), RowFault> {
    if let Taken::Encoded = taken {
        return put_sent(room.heap, state, asked, selector, answer);
    }
    match get(room.heap, state, asked.client, asked.descriptor, selector) {
        Ok(value) => put_value(room.ample, &value, answer),
        Err(result) => put_result(answer, result),
    }
}

/// GET of an attribute, followed by a selector's number and value.
fn put_get<'h>(
    room: Room<'h>,
    state: &State<&'h LocalHeap>,
    taken: Taken,
    words: &mut Words<'_>,
    answer: &mut String,
) -> Result<(), RowFault> {
    let asked = asked_of(words)?;
    if words.is_empty() {
        return put_got(room, state, taken, asked, None, answer);
    }
    let selector = Selector {
        number: words.byte()?,
        value: value_of(room.ample, &words.bytes()?)?,
    };
    put_got(room, state, taken, asked, Some(&selector), answer)
}

/// The event that SET of a value plans, or ACTION of a method with a parameter or without one.
fn planned(
    heap: &LocalHeap,
    is_set: bool,
    words: &mut Words<'_>,
) -> Result<Result<Event, AccessResult>, RowFault> {
    let Asked { client, descriptor } = asked_of(words)?;
    if words.is_empty() {
        let without: Option<&Data<&LocalHeap>> = None;
        return Ok(plan_action(client, descriptor, without));
    }
    let value = value_of(heap, &words.bytes()?)?;
    Ok(if is_set {
        plan_set(client, descriptor, &value)
    } else {
        plan_action(client, descriptor, Some(&value))
    })
}

/// Has the state take a planned event.
fn put_taken(
    state: &mut State<&LocalHeap>,
    event: Event,
    answer: &mut String,
) -> Result<(), RowFault> {
    match state.check(&event) {
        Ok(()) if state.next_number() < NUMBERS_END => {
            state.apply(event);
            Ok(answer.push_str("result 0")?)
        }
        Ok(()) => Err(RowFault::Form),
        Err(_) => put_result(answer, AccessResult::OtherReason),
    }
}

impl<'h> ClassesBench<'h> {
    pub fn new(room: Room<'h>) -> Self {
        ClassesBench {
            room,
            state: StateBench::new(room.ample),
        }
    }

    /// A planned event: that it is planned, the event itself, or what becomes of it.
    fn put_event(&mut self, call: &str, event: Event, answer: &mut String) -> Result<(), RowFault> {
        match call {
            "plan-set" => Ok(answer.push_str("result 0")?),
            "action" => put_shown(answer, &event),
            _ => put_taken(self.state.state_mut()?, event, answer),
        }
    }

    /// SET or ACTION.
    fn plan(
        &mut self,
        call: &str,
        words: &mut Words<'_>,
        answer: &mut String,
    ) -> Result<(), RowFault> {
        let is_set = call == "set" || call == "plan-set";
        match planned(self.room.ample, is_set, words)? {
            Ok(event) => self.put_event(call, event, answer),
            Err(result) => put_result(answer, result),
        }
    }
}

impl Bench for ClassesBench<'_> {
    fn step(&mut self, words: &mut Words<'_>, answer: &mut String) -> Result<(), RowFault> {
        let room = self.room;
        let call = words.word()?;
        match call {
            "get" => put_get(room, self.state.state()?, Taken::Value, words, answer),
            "sent" => put_get(room, self.state.state()?, Taken::Encoded, words, answer),
            "set" | "plan-set" | "action" | "act" => self.plan(call, words, answer),
            _ => self.state.call(call, words, answer),
        }
    }
}
