//! The values in a telegram, as entries like those of notifications.

use crate::entries::Entry;
use dlms_telegram::{
    Number, Telegram, character_in, group_in, line_in, moment_in, number_in, read_line,
};
use dlms_values::{OctetsKind, SignedKind, UnsignedKind, Value};
use std::alloc::{AllocError, Allocator};

/// The last value group E of identifiers that are strings; others are versions, in the Belgian telegram.
const LAST_IDENTIFIER: u8 = 2;

/// The number of octets of a date-time.
const MOMENT: usize = 12;

/// The factor of the unit kilo, as a power of ten.
const KILO: i8 = 3;

/// The form of a value of a line.
#[derive(Clone, Copy)]
enum Form<'a> {
    Moment([u8; MOMENT]),
    Hexadecimal(&'a [u8]),
    Other(&'a [u8]),
}

/// The number of a unit (IEC 62056-6-2), and the power of ten that the written unit is of it.
fn unit_of(unit: &[u8]) -> Option<(i8, u8)> {
    match unit {
        b"kWh" => Some((KILO, 30)),
        b"Wh" => Some((0, 30)),
        b"kvarh" => Some((KILO, 32)),
        b"varh" => Some((0, 32)),
        b"kVAh" => Some((KILO, 31)),
        b"kW" => Some((KILO, 27)),
        b"W" => Some((0, 27)),
        b"kvar" => Some((KILO, 29)),
        b"var" => Some((0, 29)),
        b"kVA" => Some((KILO, 28)),
        b"VA" => Some((0, 28)),
        b"V" => Some((0, 35)),
        b"A" => Some((0, 33)),
        b"Hz" => Some((0, 44)),
        b"m3" => Some((0, 13)),
        b"MJ" => Some((6, 25)),
        b"GJ" => Some((9, 25)),
        b"s" => Some((0, 7)),
        _ => None,
    }
}

/// A value of a telegram.
#[derive(Clone, Copy)]
struct Group<'a> {
    /// The name of its line.
    name: Option<[u8; 6]>,
    octets: &'a [u8],
    /// Whether it is the last of its line.
    is_last: bool,
}

/// The values of a telegram that have not been read: those of a line, and the lines after it.
#[derive(Clone, Copy)]
struct Rest<'a> {
    name: Option<[u8; 6]>,
    groups: &'a [u8],
    text: &'a [u8],
}

/// All values of a telegram, whose first line only identifies the meter.
fn all_of<'a>(telegram: &Telegram<'a>) -> Rest<'a> {
    let (_, text) = line_in(telegram.text);
    Rest {
        name: None,
        groups: &[],
        text,
    }
}

/// The next value. Lines without values are left out.
fn next_group<'a>(rest: &mut Rest<'a>) -> Option<Group<'a>> {
    for _ in 0..rest.text.len().saturating_add(1) {
        if let Some((octets, groups)) = group_in(rest.groups) {
            rest.groups = groups;
            return Some(Group {
                name: rest.name,
                octets,
                is_last: groups.is_empty(),
            });
        }
        if rest.text.is_empty() {
            return None;
        }
        let (line, text) = line_in(rest.text);
        rest.text = text;
        if let Some(data) = read_line(line) {
            rest.name = data.name;
            rest.groups = data.groups;
        }
    }
    None
}

/// Whether the value of this object is an octet string in hexadecimal digits, by value groups C, D and E (IEC 62056-6-1, 7.4.1): the
/// logical device name, an identifier of equipment, a message.
fn is_string(name: Option<[u8; 6]>) -> bool {
    let Some(name) = name else {
        return false;
    };
    let (c, d, e) = (name[2], name[3], name[4]);
    (c == 42 && d == 0) || (c == 96 && d == 13) || (c == 96 && d == 1 && e <= LAST_IDENTIFIER)
}

/// Whether these are hexadecimal digits of printable characters.
fn are_characters(digits: &[u8]) -> bool {
    let mut rest = digits;
    for _ in 0..digits.len() {
        match rest {
            [] => return true,
            [high, low, more @ ..] => {
                if character_in(*high, *low).is_none() {
                    return false;
                }
                rest = more;
            }
            _ => return false,
        }
    }
    false
}

/// The form of a value.
fn form_of<'a>(group: &Group<'a>) -> Form<'a> {
    if let Some(moment) = moment_in(group.octets) {
        return Form::Moment(moment);
    }
    if is_string(group.name) && are_characters(group.octets) {
        return Form::Hexadecimal(group.octets);
    }
    Form::Other(group.octets)
}

/// Appends the characters that hexadecimal digits are.
fn add_characters<A: Allocator>(octets: &mut Vec<u8, A>, digits: &[u8]) -> Result<(), AllocError> {
    let mut rest = digits;
    for _ in 0..digits.len() {
        if let [high, low, more @ ..] = rest {
            octets.push(character_in(*high, *low).unwrap_or(0))?;
            rest = more;
        }
    }
    Ok(())
}

/// The octets of the values of a telegram that are not in it as they are: the date-times of its time stamps, and the characters of its
/// octet strings, one after another.
pub fn octets_of<A: Allocator>(
    alloc: A,
    telegram: &Telegram<'_>,
) -> Result<Vec<u8, A>, AllocError> {
    let mut octets = Vec::new(alloc);
    let mut rest = all_of(telegram);
    for _ in 0..telegram.text.len() {
        let Some(group) = next_group(&mut rest) else {
            break;
        };
        match form_of(&group) {
            Form::Moment(moment) => octets.extend_from_slice(&moment)?,
            Form::Hexadecimal(digits) => add_characters(&mut octets, digits)?,
            Form::Other(_) => {}
        }
    }
    Ok(octets)
}

/// The first of these octets. The others remain.
fn cut<'a>(octets: &mut &'a [u8], count: usize) -> &'a [u8] {
    let all = *octets;
    let (first, rest) = all.split_at(count.min(all.len()));
    *octets = rest;
    first
}

/// The scaler and the unit of a number.
fn scale_of(number: &Number<'_>) -> Option<(i8, u8)> {
    let (power, unit) = unit_of(number.unit)?;
    let decimals = i8::try_from(number.decimals).ok()?;
    Some((power.checked_sub(decimals)?, unit))
}

/// The number that a text is, if it is one with a known unit, or a whole one.
fn number_of<'a>(text: &[u8]) -> Option<(Value<'a>, Option<(i8, u8)>)> {
    let (is_negative, digits) = match text {
        [b'-', digits @ ..] => (true, digits),
        _ => (false, text),
    };
    let number = number_in(digits)?;
    let scale = scale_of(&number);
    if scale.is_none() && !(number.unit.is_empty() && number.decimals == 0) {
        return None;
    }
    let value = if is_negative {
        let mantissa = i64::try_from(number.mantissa).ok()?;
        Value::Signed(SignedKind::Long64, mantissa.checked_neg()?)
    } else {
        Value::Unsigned(UnsignedKind::Long64Unsigned, number.mantissa)
    };
    Some((value, scale))
}

/// A value as it is written: a number, and otherwise a text.
fn written<'a>(text: &'a [u8]) -> (Value<'a>, Option<(i8, u8)>) {
    match number_of(text) {
        Some(number) => number,
        None => (Value::Octets(OctetsKind::VisibleString, text), None),
    }
}

/// The values of a telegram, each with the name of its line. A time stamp before another value of its line has no name. `octets` are
/// those that `octets_of` returns for it.
pub fn telegram_entries<'a, A: Allocator>(
    alloc: A,
    telegram: &Telegram<'a>,
    octets: &'a [u8],
) -> Result<Vec<Entry<'a>, A>, AllocError> {
    let mut entries = Vec::new(alloc);
    let mut octets = octets;
    let mut rest = all_of(telegram);
    for _ in 0..telegram.text.len() {
        let Some(group) = next_group(&mut rest) else {
            break;
        };
        let (name, (value, scale)) = match form_of(&group) {
            Form::Moment(_) => {
                let moment = Value::Octets(OctetsKind::DateTime, cut(&mut octets, MOMENT));
                (
                    if group.is_last { group.name } else { None },
                    (moment, None),
                )
            }
            Form::Hexadecimal(digits) => {
                let text = cut(&mut octets, digits.len() / 2);
                (
                    group.name,
                    (Value::Octets(OctetsKind::VisibleString, text), None),
                )
            }
            Form::Other(text) => (group.name, written(text)),
        };
        entries.push(Entry { name, value, scale })?;
    }
    Ok(entries)
}
