//! The objects of a meter, as its object list has them.

use crate::progress::append_blanks;
use crate::values::{append_code, append_labelled};
use dlms_data::Data;
use dlms_explain::write_code;
use dlms_names::class_of;
use dlms_text::{Entry, ValueFault, append_quoted, entry_of, right_of, value_at};
use std::alloc::{AllocError, Global};

/// The most octets of an entry that is read: far more than 255 attributes and as many methods take.
const MOST_ENTRY: usize = 16_384;

/// The width of the name of an attribute or a method, with a blank: few names are longer.
const PART_WIDTH: usize = 32;

/// How an object list is printed: a line an object in columns; a line for each attribute and method, with its name and the values that
/// can be read; or as JSON, without values or with them.
#[derive(Clone, Copy, PartialEq, Eq)]
pub enum ListForm {
    Columns,
    Long,
    Json,
    LongJson,
}

impl ListForm {
    /// Whether it is JSON.
    pub fn is_json(self) -> bool {
        matches!(self, ListForm::Json | ListForm::LongJson)
    }

    /// Whether values are printed too.
    pub fn has_values(self) -> bool {
        matches!(self, ListForm::Long | ListForm::LongJson)
    }
}

/// The widths of the columns of an object list.
#[derive(Clone, Copy)]
pub struct ListWidths {
    name: usize,
    class: usize,
    attributes: usize,
}

impl ListWidths {
    /// Columns that have nothing yet.
    pub fn new() -> Self {
        ListWidths {
            name: 0,
            class: 0,
            attributes: 0,
        }
    }
}

/// The right to an attribute, by its access mode (IEC 62056-6-2, Blue Book 4.4.4, attribute_access_mode).
fn attribute_right(mode: u8) -> &'static str {
    match mode {
        0 => "-",
        1 => "r",
        2 => "w",
        3 => "rw",
        4 => "ar",
        5 => "aw",
        6 => "arw",
        _ => "?",
    }
}

/// The right to a method.
fn method_right(mode: u8) -> &'static str {
    match mode {
        0 => "-",
        1 => "x",
        2 => "ax",
        _ => "?",
    }
}

/// The right to an attribute or to a method.
fn right_name(is_method: bool, mode: u8) -> &'static str {
    if is_method {
        method_right(mode)
    } else {
        attribute_right(mode)
    }
}

/// Appends the rights to attributes, or to methods, each after its number.
fn append_rights(
    text: &mut Vec<u8>,
    label: &str,
    rights: &[Data<Global>],
    is_method: bool,
) -> Result<(), AllocError> {
    text.extend_from_slice(label.as_bytes())?;
    for right in rights {
        match right_of(right) {
            Some((number, mode)) => {
                append_labelled(text, b" ", u64::from(number))?;
                text.extend_from_slice(right_name(is_method, mode).as_bytes())?;
            }
            None => text.extend_from_slice(b" ?")?,
        }
    }
    Ok(())
}

/// Appends a code and its name.
fn append_name(alloc: Global, text: &mut Vec<u8>, code: [u8; 6]) -> Result<(), AllocError> {
    let mut words = String::new(alloc);
    match write_code(&mut words, code) {
        Ok(()) => text.extend_from_slice(words.as_bytes()),
        Err(error) => Err(error),
    }
}

/// Ends a column that began at this place: it gets blanks up to its width, which first grows to the length of its text.
fn end_column(text: &mut Vec<u8>, begin: usize, width: &mut usize) -> Result<usize, AllocError> {
    let length = text.len().saturating_sub(begin);
    *width = (*width).max(length);
    append_blanks(text, width.saturating_sub(length))?;
    text.extend_from_slice(b" |")?;
    Ok(text.len())
}

/// Appends the class of an entry.
fn append_class(text: &mut Vec<u8>, entry: &Entry<'_, Global>) -> Result<(), AllocError> {
    text.extend_from_slice(class_name(entry.class).as_bytes())?;
    append_labelled(text, b" ", u64::from(entry.class))?;
    append_labelled(text, b", version ", u64::from(entry.version))
}

/// Appends the line of an entry of the object list, in columns that grow to fit it.
fn append_entry(
    alloc: Global,
    text: &mut Vec<u8>,
    entry: &Entry<'_, Global>,
    widths: &mut ListWidths,
) -> Result<(), AllocError> {
    let begin = text.len();
    append_name(alloc, text, entry.name)?;
    let begin = end_column(text, begin, &mut widths.name)?;
    text.extend_from_slice(b" ")?;
    append_class(text, entry)?;
    let begin = end_column(text, begin, &mut widths.class)?;
    append_rights(text, "", entry.attributes, false)?;
    end_column(text, begin, &mut widths.attributes)?;
    append_rights(text, "", entry.methods, true)?;
    text.extend_from_slice(b"\n")
}

/// The name of an attribute or a method of a class; empty if it has none.
fn part_name(class: u16, is_method: bool, number: u8) -> &'static str {
    match class_of(class) {
        Some(class) if is_method => class.method(number).unwrap_or(""),
        Some(class) => class.attribute(number).unwrap_or(""),
        None => "",
    }
}

/// Appends an attribute, or a method: its number, its name and the right to it.
pub fn append_part(
    text: &mut Vec<u8>,
    class: u16,
    is_method: bool,
    number: u8,
    mode: u8,
) -> Result<(), AllocError> {
    let word: &[u8] = if is_method {
        b"  method    "
    } else {
        b"  attribute "
    };
    append_labelled(text, word, u64::from(number))?;
    text.extend_from_slice(if number < 10 { b"    " } else { b"   " })?;
    let begin = text.len();
    text.extend_from_slice(part_name(class, is_method, number).as_bytes())?;
    let length = text.len().saturating_sub(begin);
    append_blanks(text, PART_WIDTH.saturating_sub(length).max(1))?;
    text.extend_from_slice(right_name(is_method, mode).as_bytes())
}

/// The attribute that every class has, the name under which the object is listed (IEC 62056-6-2).
const LOGICAL_NAME: u8 = 1;

/// Whether an attribute says more than its object's name, and this access mode lets it be read.
pub fn has_value(number: u8, mode: u8) -> bool {
    number != LOGICAL_NAME && matches!(mode, 1 | 3 | 4 | 6)
}

/// Appends the line of an entry, above the lines of its attributes and methods.
pub fn append_heading(
    alloc: Global,
    text: &mut Vec<u8>,
    entry: &Entry<'_, Global>,
) -> Result<(), AllocError> {
    append_name(alloc, text, entry.name)?;
    text.extend_from_slice(b" | ")?;
    append_class(text, entry)?;
    text.extend_from_slice(b"\n")
}

/// The name of a class.
fn class_name(class: u16) -> &'static str {
    match class_of(class) {
        Some(class) => class.name,
        None => "class",
    }
}

/// Appends rights as an object of JSON after a label, which opens it.
fn append_rights_json(
    text: &mut Vec<u8>,
    label: &[u8],
    rights: &[Data<Global>],
    is_method: bool,
) -> Result<(), AllocError> {
    text.extend_from_slice(label)?;
    let mut parting = "\"";
    for right in rights {
        if let Some((number, mode)) = right_of(right) {
            append_labelled(text, parting.as_bytes(), u64::from(number))?;
            text.extend_from_slice(b"\":")?;
            append_quoted(text, right_name(is_method, mode).as_bytes())?;
            parting = ",\"";
        }
    }
    text.extend_from_slice(b"}")
}

/// Appends an entry of the object list as an object of JSON, without its closing brace.
pub fn append_open_json(text: &mut Vec<u8>, entry: &Entry<'_, Global>) -> Result<(), AllocError> {
    text.extend_from_slice(b"{\"name\":\"")?;
    append_code(text, entry.name)?;
    append_labelled(text, b"\",\"class\":", u64::from(entry.class))?;
    append_labelled(text, b",\"version\":", u64::from(entry.version))?;
    append_rights_json(text, b",\"attributes\":{", entry.attributes, false)?;
    append_rights_json(text, b",\"methods\":{", entry.methods, true)
}

/// The value of an element of an object list; `None` if it is longer than an entry can be.
pub fn element_of(alloc: Global, element: &[u8]) -> Result<Option<Data<Global>>, ValueFault> {
    if element.len() > MOST_ENTRY {
        return Ok(None);
    }
    let (value, _) = value_at(alloc, element)?;
    Ok(Some(value))
}

/// Appends an element that was read in a form, if it is an entry, and returns whether it is.
fn append_read(
    alloc: Global,
    text: &mut Vec<u8>,
    value: &Data<Global>,
    form: ListForm,
    widths: &mut ListWidths,
) -> Result<bool, AllocError> {
    let Some(entry) = entry_of(value) else {
        return Ok(false);
    };
    if form.is_json() {
        append_open_json(text, &entry)?;
        text.extend_from_slice(b"}")?;
    } else {
        append_entry(alloc, text, &entry, widths)?;
    }
    Ok(true)
}

/// Appends an element of an object list in a form, if it is an entry, and returns whether it is.
pub fn append_object(
    alloc: Global,
    text: &mut Vec<u8>,
    element: &[u8],
    form: ListForm,
    widths: &mut ListWidths,
) -> Result<bool, ValueFault> {
    let Some(value) = element_of(alloc, element)? else {
        return Ok(false);
    };
    let appended = append_read(alloc, text, &value, form, widths);
    drop(value);
    Ok(appended?)
}
