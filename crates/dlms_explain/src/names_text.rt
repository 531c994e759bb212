//! Names in a line.

use crate::words::{Text, begin, end, number};
use dlms_acse::Conformance;
use dlms_names::{
    code_name, medium_name, phase_name, processing_name, quantity_name, service_name,
};
use std::alloc::{AllocError, Allocator};

/// A number after a label, unless it is this one.
fn write_unless<A: Allocator>(text: &mut Text<A>, label: &str, value: u8, usual: u8) {
    if value == usual {
        return;
    }
    text.push(label);
    number(text, u64::from(value));
}

/// A name after a mark, if there is one.
fn write_known<A: Allocator>(text: &mut Text<A>, mark: &str, name: Option<&str>) {
    if let Some(name) = name {
        text.push(mark);
        text.push(name);
    }
}

/// The value group D of a present value, for which value group E names no rate.
const NOW: u8 = 7;

/// The names for the value groups C, D and E of a code of electricity.
fn write_quantity<A: Allocator>(
    text: &mut Text<A>,
    quantity: &str,
    group_c: u8,
    group_d: u8,
    group_e: u8,
) {
    text.push(": ");
    text.push(quantity);
    write_known(text, " ", phase_name(group_c));
    write_known(text, ", ", processing_name(group_d));
    if group_d != NOW {
        write_unless(text, ", rate ", group_e, 0);
    }
}

/// The names for the value groups of a code: the medium, the quantity with its phase, its processing and its rate, the billing
/// period and the channel.
fn write_groups<A: Allocator>(text: &mut Text<A>, code: [u8; 6]) {
    let [a, b, c, d, e, f] = code;
    let Some(medium) = medium_name(a) else {
        return;
    };
    text.push(" ");
    text.push(medium);
    if a == 1
        && let Some(quantity) = quantity_name(c)
    {
        write_quantity(text, quantity, c, d, e);
    }
    write_unless(text, ", billing period ", f, 0xff);
    write_unless(text, ", channel ", b, 0);
}

/// Whether the value groups of a code name a quantity of electricity, and how it is processed.
pub fn is_quantity(code: [u8; 6]) -> bool {
    let [a, _, c, d, _, f] = code;
    a == 1 && quantity_name(c).is_some() && processing_name(d).is_some() && f == 0xff
}

/// A code as `1.0.1.8.0.255`, followed by its name, or by those of its value groups.
pub fn write_name<A: Allocator>(text: &mut Text<A>, code: [u8; 6]) {
    for (at, group) in code.iter().enumerate() {
        if at > 0 {
            text.push(".");
        }
        number(text, u64::from(*group));
    }
    match code_name(code) {
        Some(name) => {
            text.push(" ");
            text.push(name);
        }
        None => write_groups(text, code),
    }
}

/// Appends to the text a code as `1.0.1.8.0.255`, followed by its name, or by those of its value groups.
pub fn write_code<A: Allocator + Copy>(
    words: &mut String<A>,
    code: [u8; 6],
) -> Result<(), AllocError> {
    let mut text = Text::behind(words);
    write_name(&mut text, code);
    text.end(words)
}

/// The value of the first of the 24 bits of a conformance block.
const FIRST_BIT: u32 = 0x80_0000;

/// The name of the service of a bit.
fn write_service<A: Allocator>(text: &mut Text<A>, bit: u8) {
    match service_name(bit) {
        Some(name) => text.push(name),
        None => {
            text.push("reserved bit ");
            number(text, u64::from(bit));
        }
    }
}

/// A line with the names of the services that are there.
pub fn write_conformance<A: Allocator>(text: &mut Text<A>, depth: u8, conformance: Conformance) {
    begin(text, depth);
    text.push("conformance:");
    let mut weight = FIRST_BIT;
    let mut parting = " ";
    for bit in 0..24u8 {
        if conformance.0 & weight != 0 {
            text.push(parting);
            write_service(text, bit);
            parting = ", ";
        }
        weight /= 2;
    }
    if parting == " " {
        text.push(" none");
    }
    end(text);
}
