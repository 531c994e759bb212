//! The values of a whole object list, read one after another.

use crate::connection::Calls;
use crate::requests::{MeterSession, SECOND, is_answer};
use dlms_data::Descriptor;
use dlms_faults::Fault;
use dlms_inquiries::scaler_of;
use dlms_names::access_result;
use dlms_printing::{ListForm, NoValues, Teller, Values};
use dlms_words::ValueFormat;
use std::alloc::AllocError;
use std::io::Write;

/// The classes whose attribute 2 is long: the buffer of a profile, and the object list itself (IEC 62056-6-2, Blue Book 4.3.6, 4.4.4).
const PROFILE: u16 = 7;

const ASSOCIATION: u16 = 15;

/// Why the value of an attribute is not read here; nothing for the others.
fn reason_to_skip(attribute: Descriptor) -> Option<&'static str> {
    match (attribute.class, attribute.id) {
        (PROFILE, SECOND) => Some("rows of a profile: dlms profile"),
        (ASSOCIATION, SECOND) => Some("this list"),
        _ => None,
    }
}

/// The reason that a fault gives for a value that is not there.
fn reason_in(fault: &Fault<'_>) -> &'static str {
    match fault {
        Fault::Result(_, code, _) => access_result(*code).unwrap_or("refused"),
        Fault::Large(..) => "longer than --most allows",
        _ => "refused",
    }
}

/// Whether a fault is of one attribute alone, so that the next one can be read.
fn is_of_attribute(fault: &Fault<'_>) -> bool {
    is_answer(fault) || matches!(fault, Fault::Large(..))
}

/// Appends why there is no value.
fn append_reason(text: &mut Vec<u8>, reason: &str, form: ListForm) -> Result<(), AllocError> {
    if form.is_json() {
        text.extend_from_slice(b"{\"missing\":\"")?;
        text.extend_from_slice(reason.as_bytes())?;
        return text.extend_from_slice(b"\"}");
    }
    text.extend_from_slice(b"  (")?;
    text.extend_from_slice(reason.as_bytes())?;
    text.extend_from_slice(b")")
}

/// Appends the lines of a value: the first on the line of its attribute, the others indented under it.
fn append_lines(text: &mut Vec<u8>, lines: &[u8]) -> Result<(), AllocError> {
    let lines = lines.strip_suffix(b"\n".as_slice()).unwrap_or(lines);
    text.extend_from_slice(b"  ")?;
    for octet in lines {
        text.extend_from_slice(&[*octet])?;
        if *octet == b'\n' {
            text.extend_from_slice(b"      ")?;
        }
    }
    Ok(())
}

/// Appends a printed value: as JSON as it is, as text in lines.
fn append_printed<'a>(text: &mut Vec<u8>, printed: &[u8], form: ListForm) -> Result<(), Fault<'a>> {
    if form.is_json() {
        text.extend_from_slice(printed)?;
    } else {
        append_lines(text, printed)?;
    }
    Ok(())
}

impl<'a, C: Calls> MeterSession<'a, '_, C> {
    /// Appends the value that came last, with its scaler and unit if it has them.
    fn append_last(
        &mut self,
        text: &mut Vec<u8>,
        attribute: Descriptor,
        form: ListForm,
    ) -> Result<(), Fault<'a>> {
        let value = self.copy_value()?;
        let scaled = match scaler_of(attribute) {
            Some(scaler) => self.scaler_unit("", scaler),
            None => None,
        };
        let mut printed = Vec::new(self.alloc);
        let put = self.put_in_list(attribute, value.as_slice(), scaled, form, &mut printed);
        let told = match put {
            Ok(()) => append_printed(text, printed.as_slice(), form),
            Err(fault) => Err(fault),
        };
        drop(printed);
        drop(value);
        told
    }

    /// Prints a value of the object list.
    fn put_in_list(
        &self,
        attribute: Descriptor,
        value: &[u8],
        scaled: Option<(i8, u8)>,
        form: ListForm,
        printed: &mut Vec<u8>,
    ) -> Result<(), Fault<'a>> {
        let mut teller = Teller::new(self.alloc, self.place, printed);
        if form.is_json() {
            teller.put_value_json(attribute, value, scaled)
        } else {
            teller.put_value(attribute, value, ValueFormat::Text, scaled)
        }
    }

    /// Prints the object list in a form.
    #[inline(never)]
    pub fn list_all<W: Write>(&mut self, form: ListForm, output: &mut W) -> Result<(), Fault<'a>> {
        self.fetch_list()?;
        if form.has_values() {
            return self.put_list_with_values(form, output);
        }
        let mut teller = Teller::new(self.alloc, self.place, output);
        teller.put_objects(self.calls.value(), form, &mut NoValues)
    }

    /// Prints the object list, which came last, with its values.
    fn put_list_with_values<W: Write>(
        &mut self,
        form: ListForm,
        output: &mut W,
    ) -> Result<(), Fault<'a>> {
        let list = self.copy_value()?;
        let mut teller = Teller::new(self.alloc, self.place, output);
        teller.put_objects(list.as_slice(), form, self)
    }
}

impl<'a, C: Calls> Values<'a> for MeterSession<'a, '_, C> {
    fn append_value(
        &mut self,
        text: &mut Vec<u8>,
        attribute: Descriptor,
        form: ListForm,
    ) -> Result<(), Fault<'a>> {
        if let Some(reason) = reason_to_skip(attribute) {
            append_reason(text, reason, form)?;
            return Ok(());
        }
        match self.fetch("", attribute) {
            Ok(()) => self.append_last(text, attribute, form),
            Err(fault) if is_of_attribute(&fault) => {
                let reason = reason_in(&fault);
                drop(fault);
                append_reason(text, reason, form)?;
                Ok(())
            }
            Err(fault) => Err(fault),
        }
    }
}
