//! The value of an attribute, and the result of a SET or an ACTION, as objects of JSON.

use crate::typed::{append_time, is_time};
use crate::values::{Teller, append_code, append_labelled};
use dlms_data::Descriptor;
use dlms_faults::Fault;
use dlms_names::unit_name;
use dlms_text::{append_decimal, append_quoted};
use std::alloc::AllocError;
use std::io::Write;

/// The time of a clock before it was changed, and its time now.
#[derive(Clone, Copy)]
pub struct ClockChange {
    pub before: Option<[u8; 12]>,
    pub after: Option<[u8; 12]>,
}

/// Appends an attribute or a method, of which `word` says which it is, as the front of an object.
fn append_front(text: &mut Vec<u8>, of: Descriptor, word: &[u8]) -> Result<(), AllocError> {
    text.extend_from_slice(b"{\"name\":\"")?;
    append_code(text, of.name)?;
    append_labelled(text, word, u64::from(of.id))?;
    append_labelled(text, b",\"class\":", u64::from(of.class))
}

/// Appends a scaler and a unit.
fn append_scale(text: &mut Vec<u8>, scaler: i8, unit: u8) -> Result<(), AllocError> {
    text.extend_from_slice(b",\"scaler\":")?;
    append_decimal(text, scaler < 0, u64::from(scaler.unsigned_abs()), 0)?;
    text.extend_from_slice(b",\"unit\":")?;
    append_quoted(text, unit_name(unit).unwrap_or("").as_bytes())
}

/// Appends the time that a clock shows, if it shows one.
pub fn append_shown(
    text: &mut Vec<u8>,
    label: &[u8],
    shown: Option<[u8; 12]>,
) -> Result<(), AllocError> {
    match shown {
        Some(octets) => append_time(text, label, &octets, 0),
        None => Ok(()),
    }
}

impl<'a, W: Write> Teller<'a, '_, W> {
    /// Prints the value of an attribute as an object and a line feed. With a scaler and a unit it has both, and a number also scaled.
    pub fn put_json(
        &mut self,
        attribute: Descriptor,
        bytes: &[u8],
        scaled: Option<(i8, u8)>,
    ) -> Result<(), Fault<'a>> {
        append_front(&mut self.text, attribute, b"\",\"attribute\":")?;
        self.text.extend_from_slice(b",")?;
        self.put_scaled_members(attribute, bytes, scaled)?;
        self.text.extend_from_slice(b"}\n")?;
        self.flush()
    }

    /// The members of an object with the value of an attribute, and its scaler and unit if it has them.
    fn put_scaled_members(
        &mut self,
        attribute: Descriptor,
        bytes: &[u8],
        scaled: Option<(i8, u8)>,
    ) -> Result<(), Fault<'a>> {
        self.text.extend_from_slice(b"\"value\":")?;
        let is_time = is_time(attribute.class, i16::from(attribute.id));
        match scaled {
            Some((scaler, unit)) => {
                self.put_typed(bytes, is_time, Some(scaler))?;
                append_scale(&mut self.text, scaler, unit)?;
                Ok(())
            }
            None => self.put_typed(bytes, is_time, None),
        }
    }

    /// Prints the value of an attribute as an object, with its scaler and unit if it has them.
    pub fn put_value_json(
        &mut self,
        attribute: Descriptor,
        bytes: &[u8],
        scaled: Option<(i8, u8)>,
    ) -> Result<(), Fault<'a>> {
        self.text.extend_from_slice(b"{")?;
        self.put_scaled_members(attribute, bytes, scaled)?;
        self.text.extend_from_slice(b"}")?;
        self.flush()
    }

    /// Prints as an object and a line feed that an attribute was set, or a method called that returned this encoding; it is empty if
    /// nothing was returned. The object of a clock has the times before and after.
    pub fn put_success(
        &mut self,
        of: Descriptor,
        is_method: bool,
        returned: &[u8],
        change: ClockChange,
    ) -> Result<(), Fault<'a>> {
        let word: &[u8] = if is_method {
            b"\",\"method\":"
        } else {
            b"\",\"attribute\":"
        };
        append_front(&mut self.text, of, word)?;
        self.text.extend_from_slice(b",\"result\":\"success\"")?;
        append_shown(&mut self.text, b",\"before\":\"", change.before)?;
        append_shown(&mut self.text, b",\"after\":\"", change.after)?;
        if !returned.is_empty() {
            self.text.extend_from_slice(b",\"value\":")?;
            self.put_typed(returned, false, None)?;
        }
        self.text.extend_from_slice(b"}\n")?;
        self.flush()
    }
}
