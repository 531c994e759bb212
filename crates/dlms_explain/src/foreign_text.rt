//! The lines of APDUs of other forms than the meter's. No octet of a secret, of a block or of ciphered content gets here.

use crate::data_text::write_string_time;
use crate::node_text::{behind_length, write_shown};
use crate::service_text::{
    write_access, write_block, write_exception, write_form, write_named, write_number, write_result,
};
use crate::words::{Text, begin, end, line, number, number_line, octet, octets_line};
use dlms_dissect::{Field, Foreign, Item, Named, Secrecy, Step, name_at};
use dlms_names::action_result;
use std::alloc::Allocator;

/// The number of octets of which the first is the highest.
fn number_of(bytes: &[u8]) -> u64 {
    match bytes {
        [a] => u64::from(*a),
        [a, b] => u64::from(u16::from_be_bytes([*a, *b])),
        [a, b, c, d] => u64::from(u32::from_be_bytes([*a, *b, *c, *d])),
        _ => 0,
    }
}

/// The line of an attribute or a method, and of the selector of a selection.
fn write_name<A: Allocator>(
    text: &mut Text<A>,
    label: &str,
    named: Option<Named>,
    selector: Option<u8>,
) {
    write_named(text, label, named);
    match selector {
        Some(selector) => number_line(
            text,
            2,
            "selective access by selector ",
            u64::from(selector),
            "",
        ),
        None => {}
    }
}

/// The line of a date-time, if there is one.
fn write_when<A: Allocator>(text: &mut Text<A>, bytes: &[u8]) {
    if bytes.is_empty() {
        return;
    }
    begin(text, 2);
    text.push("date-time ");
    write_string_time(text, bytes);
    end(text);
}

/// The kind of an access.
fn access_label(choice: u8) -> &'static str {
    match choice {
        1 | 4 => "get ",
        2 | 5 => "set ",
        _ => "act ",
    }
}

/// The lines of the named objects.
fn write_names<A: Allocator>(text: &mut Text<A>, field: Field, bytes: &[u8]) {
    match (field, bytes) {
        (Field::Attribute, [front @ .., 1, selector]) if front.len() == 9 => {
            write_name(text, "", name_at(front, false), Some(*selector));
        }
        (Field::Attribute | Field::Notified, _) => {
            write_name(text, "", name_at(bytes, false), None);
        }
        (Field::Method, _) => write_name(text, "", name_at(bytes, true), None),
        (Field::Access, [choice, front @ ..]) => {
            write_name(
                text,
                access_label(*choice),
                name_at(front, *choice == 3),
                None,
            );
        }
        (Field::ShortName, [5, front @ ..]) => {
            number_line(text, 2, "block ", number_of(front), "");
        }
        (Field::ShortName, [_, high, low, ..]) => {
            octets_line(text, 2, "short name ", &[*high, *low]);
        }
        _ => {}
    }
}

/// The line of an Action-Result.
fn write_action<A: Allocator>(text: &mut Text<A>, code: u8) {
    write_result(text, "action-result ", action_result(code), code);
}

/// The lines of results.
fn write_results<A: Allocator>(text: &mut Text<A>, field: Field, bytes: &[u8]) {
    match (field, bytes) {
        (Field::GetResult | Field::ShortData | Field::ShortResult, [1, code]) => {
            write_access(text, *code);
        }
        (Field::ShortResult, [0]) => line(text, 2, "success"),
        (Field::ShortData | Field::ShortResult, [_, high, low]) => {
            number_line(text, 2, "block ", number_of(&[*high, *low]), "");
        }
        (Field::AccessResult, [code]) => write_access(text, *code),
        (Field::Return, [code, 1, 1, access]) => {
            write_action(text, *code);
            write_access(text, *access);
        }
        (Field::Return, [code, ..]) => write_action(text, *code),
        (Field::AccessDone, [3, code]) => write_action(text, *code),
        (Field::AccessDone, [_, code]) => write_access(text, *code),
        (Field::BlockResult, [_, a, b, c, d, _, code]) => {
            write_number(text, "block ", u32::from_be_bytes([*a, *b, *c, *d]));
            write_access(text, *code);
        }
        (Field::Exception, [state, service, counter @ ..]) => {
            write_exception(text, *state, *service);
            if counter.is_empty() {
                return;
            }
            number_line(text, 2, "invocation counter ", number_of(counter), "");
        }
        (Field::ServiceError, _) => octets_line(text, 2, "service and error ", bytes),
        _ => {}
    }
}

/// The line of the control octet of a block (IEC 62056-5-3, 9.3.5): whether it is the last one, whether more are sent before an answer,
/// and the window of the sender.
fn write_control<A: Allocator>(text: &mut Text<A>, bytes: &[u8]) {
    let [control] = bytes else {
        return;
    };
    let control = *control;
    begin(text, 2);
    text.push("block control ");
    octet(text, control);
    text.push_if(control / 128 == 1, ", the last one");
    text.push_if(control / 64 % 2 == 1, ", streaming");
    text.push(", window ");
    number(text, u64::from(control % 64));
    end(text);
}

/// The line of a number in a general block transfer: of the block, or, after that, of the last block that it acknowledges.
fn write_block_number<A: Allocator>(text: &mut Text<A>, is_second: bool, bytes: &[u8]) {
    let label = if is_second {
        "acknowledged: block "
    } else {
        "block "
    };
    number_line(text, 2, label, number_of(bytes), "");
}

/// The lines of a field that is shown as it is.
fn write_field<A: Allocator>(text: &mut Text<A>, field: Field, bytes: &[u8]) {
    match field {
        Field::LongInvoke => octets_line(text, 2, "long-invoke-id-and-priority ", bytes),
        Field::Number => number_line(text, 2, "block ", number_of(bytes), ""),
        Field::Control => write_control(text, bytes),
        Field::Title => octets_line(text, 2, "system title ", behind_length(bytes)),
        Field::Time => write_when(text, behind_length(bytes)),
        Field::OptionalTime => match bytes {
            [1, rest @ ..] => write_when(text, behind_length(rest)),
            _ => {}
        },
        Field::Attribute | Field::Method | Field::Notified | Field::Access | Field::ShortName =>
            write_names(text, field, bytes),
        _ => write_results(text, field, bytes),
    }
}

/// The line of ciphered content, with its security header (IEC 62056-5-3, 9.2.7.2.4.1).
pub fn write_ciphered<A: Allocator>(text: &mut Text<A>, control: u8, counter: u32, len: usize) {
    begin(text, 2);
    text.push("security control ");
    octet(text, control);
    text.push_if(control / 16 % 2 == 1, ", authenticated");
    text.push_if(control / 32 % 2 == 1, ", encrypted");
    text.push_if(control / 64 % 2 == 1, ", broadcast key");
    text.push_if(control / 128 == 1, ", compressed");
    text.push(", suite ");
    number(text, u64::from(control % 16));
    end(text);
    number_line(text, 2, "invocation counter ", u64::from(counter), "");
    number_line(text, 2, "ciphered: ", len as u64, " octets");
}

/// The kind of octets that are reported by their length.
fn length_label(field: Field) -> &'static str {
    match field {
        Field::Key => "information on a key: ",
        Field::Ciphered => "ciphered: ",
        Field::ShortData => "block of ",
        _ => "octets: ",
    }
}

/// The lines of a field.
fn write_item<A: Allocator + Copy>(text: &mut Text<A>, alloc: A, level: usize, item: Item<'_>) {
    match item {
        Item::Plain(field, bytes) => write_field(text, field, bytes),
        Item::List(_, count) => number_line(text, 2, "list of ", u64::from(count), ""),
        Item::Value(shown) => {
            let depth = level.min(64) as u8;
            write_shown(text, alloc, depth + 2, shown);
        }
        Item::Block { last, number, len } => write_block(text, last, number, len as usize),
        Item::Length(field, count) => {
            number_line(text, 2, length_label(field), u64::from(count), " octets");
        }
        Item::Ciphered {
            control,
            counter,
            len,
        } => write_ciphered(text, control, counter, len),
    }
}

/// Whether an APDU has a list.
fn has_list(foreign: Foreign<'_>) -> bool {
    foreign
        .form
        .steps
        .iter()
        .any(|step| matches!(step, Step::Many(_)))
}

/// The lines of such an APDU, with this secrecy of its values, and the object that it answers for, if that is known.
pub fn write_foreign<A: Allocator + Copy>(
    text: &mut Text<A>,
    alloc: A,
    foreign: Foreign<'_>,
    of: Option<Named>,
    secrecy: Secrecy,
) {
    write_form(text, foreign.form.name, foreign.survey.invoke);
    if !has_list(foreign) {
        write_named(text, "of ", of);
    }
    let mut telling = foreign.telling(secrecy);
    let mut is_second = false;
    for _ in 0..u64::MAX {
        let Some((level, item)) = telling.next() else {
            return;
        };
        if let Item::Plain(Field::ShortNumber, bytes) = item {
            write_block_number(text, is_second, bytes);
            is_second = true;
        } else {
            write_item(text, alloc, level, item);
        }
    }
}
