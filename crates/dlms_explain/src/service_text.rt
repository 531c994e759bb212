//! The lines of GET, SET and ACTION, and of exceptions. No octet of a secret comes here, nor of a string that may be one.

use crate::data_text::{write_inline, write_levels, write_objects, write_veiled, write_words};
use crate::names_text::write_name;
use crate::typed_text::write_secret;
use crate::units::ScalerUnit;
use crate::words::{
    Text, begin, end, line, name_and_number, named_line, number, number_line, signed_number,
};
use dlms_data::{Data, Selector};
use dlms_dissect::{Content, Fault, Joined, Named, Said, Whole};
use dlms_names::{access_result, action_result, class_of, service_error, state_error, unit_name};
use std::alloc::Allocator;

/// An invoke-id-and-priority, up to the end of its line.
fn write_invoke<A: Allocator>(text: &mut Text<A>, invoke: u8) {
    text.push(", invoke-id ");
    number(text, u64::from(invoke % 16));
    text.either(invoke / 64 % 2 == 1, ", confirmed", ", unconfirmed");
    text.either(invoke / 128 == 1, ", priority high", ", priority normal");
    end(text);
}

/// The line of a form with its invoke-id-and-priority.
pub fn write_form<A: Allocator>(text: &mut Text<A>, form: &str, invoke: Option<u8>) {
    begin(text, 1);
    text.push(form);
    match invoke {
        Some(invoke) => write_invoke(text, invoke),
        None => end(text),
    }
}

/// The name of a class.
fn class_name(number: u16) -> Option<&'static str> {
    Some(class_of(number)?.name)
}

/// The name of an attribute or a method, if its class is known and has it.
fn member_name(named_one: Named) -> Option<&'static str> {
    let class = class_of(named_one.descriptor.class)?;
    if named_one.method {
        class.method(named_one.descriptor.id)
    } else {
        class.attribute(named_one.descriptor.id)
    }
}

/// An attribute or a method by its name and its number, and its class.
fn write_member<A: Allocator>(text: &mut Text<A>, named_one: Named) {
    let Named { descriptor, method } = named_one;
    let kind = if method { "method" } else { "attribute" };
    name_and_number(text, member_name(named_one), kind, u64::from(descriptor.id));
    text.push(", class ");
    let class = u64::from(descriptor.class);
    name_and_number(text, class_name(descriptor.class), "number", class);
}

/// The line of a service's object, as `1.0.1.8.0.255 active energy import, value`, with its numbers.
pub fn write_named<A: Allocator>(text: &mut Text<A>, label: &str, named_one: Option<Named>) {
    let Some(named_one) = named_one else {
        return;
    };
    begin(text, 2);
    text.push(label);
    write_name(text, named_one.descriptor.name);
    text.push(", ");
    write_member(text, named_one);
    end(text);
}

/// A line of a part of a selector.
fn write_part<A: Allocator>(text: &mut Text<A>, label: &str, value: &Data<A>) {
    begin(text, 3);
    text.push(label);
    write_inline(text, value);
    end(text);
}

/// The lines of a selection by range: the restricting object, from, to, the selected columns.
fn write_range<A: Allocator>(text: &mut Text<A>, value: &Data<A>) {
    line(text, 2, "selective access by range (1)");
    if let Data::Structure(items) = value
        && let [object, from, to, columns] = items.as_slice()
    {
        line(text, 3, "restricting object");
        write_words(text, 4, object);
        write_part(text, "from ", from);
        write_part(text, "to ", to);
        write_part(text, "selected values: ", columns);
        return;
    }
    write_words(text, 3, value);
}

/// The lines of a selection by entry: from and to an entry, from and to a column.
fn write_entries<A: Allocator>(text: &mut Text<A>, value: &Data<A>) {
    line(text, 2, "selective access by entry (2)");
    if let Data::Structure(items) = value
        && let [from, to, first, last] = items.as_slice()
    {
        write_part(text, "from entry ", from);
        write_part(text, "to entry ", to);
        write_part(text, "from selected value ", first);
        write_part(text, "to selected value ", last);
        return;
    }
    write_words(text, 3, value);
}

/// The lines of a selector, if there is one.
fn write_selector<A: Allocator>(text: &mut Text<A>, selector: Option<&Selector<A>>) {
    let Some(selector) = selector else {
        return;
    };
    match selector.number {
        1 => write_range(text, &selector.value),
        2 => write_entries(text, &selector.value),
        other => {
            let label = "selective access by selector ";
            number_line(text, 2, label, u64::from(other), "");
            write_words(text, 3, &selector.value);
        }
    }
    write_objects(text, 2, &selector.value);
}

/// The line of a block: its number, whether it is the last one, how many octets it has.
pub fn write_block<A: Allocator>(text: &mut Text<A>, last: bool, block: u32, len: usize) {
    begin(text, 2);
    text.push("block ");
    number(text, u64::from(block));
    text.either(last, ", the last one, ", ", ");
    number(text, len as u64);
    text.push(" octets");
    end(text);
}

/// A line of a number's name.
pub fn write_result<A: Allocator>(text: &mut Text<A>, label: &str, name: Option<&str>, code: u8) {
    named_line(text, 2, label, name, "number", u64::from(code));
}

/// The line of the number of a block that was taken, or is asked for.
pub fn write_number<A: Allocator>(text: &mut Text<A>, label: &str, block: u32) {
    number_line(text, 2, label, u64::from(block), "");
}

/// The line of a Data-Access-Result.
pub fn write_access<A: Allocator>(text: &mut Text<A>, code: u8) {
    write_result(text, "data-access-result ", access_result(code), code);
}

/// The lines of a value in blocks that ends with a result.
fn write_end<A: Allocator>(text: &mut Text<A>, label: &str, block: u32, code: u8) {
    write_number(text, label, block);
    write_access(text, code);
}

/// The lines of an exception.
pub fn write_exception<A: Allocator>(text: &mut Text<A>, state: u8, service: u8) {
    write_result(text, "state-error ", state_error(state), state);
    write_result(text, "service-error ", service_error(service), service);
}

/// The lines of a request's or a response's content besides its form and its object.
fn write_content<A: Allocator>(text: &mut Text<A>, content: &Content<'_, A>) {
    match content {
        Content::Nothing => {}
        Content::Value(value) => write_levels(text, 2, value),
        Content::Unknown(veiled) => write_veiled(text, 2, veiled),
        Content::Secret => write_secret(text, 2),
        Content::Block { last, number, len } => write_block(text, *last, *number, *len),
        Content::Next(number) => write_number(text, "next after block ", *number),
        Content::Taken(number) => write_number(text, "taken: block ", *number),
        Content::Access(code) => write_access(text, *code),
        Content::AccessOfBlock {
            number,
            result: code,
        } => write_end(text, "block ", *number, *code),
        Content::AccessBehind {
            number,
            result: code,
        } => { write_end(text, "after block ", *number, *code) }
        Content::Action(code) => {
            write_result(text, "action-result ", action_result(*code), *code);
        }
        Content::Exception { state, service } => write_exception(text, *state, *service),
    }
}

/// Whether this attribute is a scaler and a unit.
pub fn is_scaler_unit(named_one: Option<Named>) -> bool {
    match named_one {
        Some(named_one) => !named_one.method && member_name(named_one) == Some("scaler_unit"),
        None => false,
    }
}

/// The scaler and the unit that a value consists of, if it does.
pub fn scaler_unit_in<A: Allocator>(value: &Data<A>) -> Option<ScalerUnit> {
    if let Data::Structure(items) = value
        && let [Data::Integer(scaler), Data::Enum(unit)] = items.as_slice()
    {
        return Some(ScalerUnit {
            scaler: *scaler,
            unit: *unit,
        });
    }
    None
}

/// The line of a scaler and a unit, if the value is one.
fn write_scaler_unit<A: Allocator>(text: &mut Text<A>, named_one: Option<Named>, value: &Data<A>) {
    if let Some(ScalerUnit { scaler, unit }) = scaler_unit_in(value)
        && is_scaler_unit(named_one)
    {
        begin(text, 3);
        text.push("times 10^");
        signed_number(text, i64::from(scaler));
        text.push(", unit ");
        name_and_number(text, unit_name(unit), "number", u64::from(unit));
        end(text);
    }
}

/// The lines of a request or a response, except for the value of its blocks; `label` comes before its object.
pub fn write_said<A: Allocator>(text: &mut Text<A>, label: &str, said: &Said<'_, A>) {
    write_form(text, said.form, said.invoke);
    write_named(text, label, said.named);
    write_selector(text, said.selector);
    write_content(text, &said.content);
    match &said.content {
        Content::Value(value) => write_scaler_unit(text, said.named, value),
        _ => {}
    }
}

/// Why something is not read, and at which octet that stands.
fn write_place<A: Allocator>(text: &mut Text<A>, fault: Fault) {
    text.push(fault.words);
    text.push(", at octet ");
    number(text, fault.octet as u64);
    end(text);
}

/// The line of an APDU that is not readable.
pub fn write_fault<A: Allocator>(text: &mut Text<A>, name: Option<&str>, fault: Fault) {
    begin(text, 1);
    match name {
        Some(name) => {
            text.push(name);
            text.push(", not readable: ");
        }
        None => text.push("not readable: "),
    }
    write_place(text, fault);
}

/// The line of octets that are no value.
fn write_no_value<A: Allocator>(text: &mut Text<A>, fault: Fault) {
    begin(text, 3);
    text.push("no value: ");
    write_place(text, fault);
}

/// The lines of a value that is joined from all its blocks, with this many octets.
pub fn write_whole<A: Allocator>(text: &mut Text<A>, len: usize, whole: &Whole<A>) {
    number_line(text, 2, "all blocks joined, ", len as u64, " octets");
    match whole {
        Whole::Secret => write_secret(text, 3),
        Whole::Value(value) => write_levels(text, 3, value),
        Whole::Unknown(covered) => write_veiled(text, 3, &covered.report()),
        Whole::Unreadable(fault) => write_no_value(text, *fault),
    }
}

/// The words for a block that is not joined; nothing for another one.
pub fn write_joined<A: Allocator>(text: &mut Text<A>, joined: Joined) {
    match joined {
        Joined::More | Joined::Whole => {}
        Joined::NotNext => line(text, 2, "not the next block: not joined"),
        Joined::TooLong => line(text, 2, "too long to be joined"),
    }
}
