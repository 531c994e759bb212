//! The output for an object list.

use crate::objects::{
    ListForm, ListWidths, append_heading, append_object, append_open_json, append_part, element_of,
    has_value,
};
use crate::values::{Teller, append_labelled, put_tree};
use dlms_data::{Data, Descriptor};
use dlms_faults::Fault;
use dlms_text::{Entry, Front, ValueFault, entry_of, first_of, front_of, right_of};
use std::alloc::Global;
use std::io::Write;

/// Gives the values of attributes for an object list.
pub trait Values<'a> {
    /// Appends the value of an attribute, or why it cannot be read: as text after the line of the attribute, or as JSON.
    fn append_value(
        &mut self,
        text: &mut Vec<u8>,
        attribute: Descriptor,
        form: ListForm,
    ) -> Result<(), Fault<'a>>;
}

/// Gives no values.
#[derive(Clone, Copy)]
pub struct NoValues;

impl<'a> Values<'a> for NoValues {
    fn append_value(
        &mut self,
        _text: &mut Vec<u8>,
        _attribute: Descriptor,
        _form: ListForm,
    ) -> Result<(), Fault<'a>> {
        Ok(())
    }
}

/// The attribute of an entry with this number.
fn attribute_of(entry: &Entry<'_, Global>, id: u8) -> Descriptor {
    Descriptor {
        class: entry.class,
        name: entry.name,
        id,
    }
}

impl<'a, W: Write> Teller<'a, '_, W> {
    /// An element that is no entry: its value.
    fn put_other(&mut self, element: &[u8], form: ListForm) -> Result<(), Fault<'a>> {
        if !form.is_json() {
            return put_tree(self, element);
        }
        self.text.extend_from_slice(b"{\"value\":")?;
        self.put_typed(element, false, None)?;
        self.text.extend_from_slice(b"}")?;
        self.flush_long()
    }

    /// The lines of an entry: its attributes with their values, and its methods.
    fn put_lines<V: Values<'a>>(
        &mut self,
        entry: &Entry<'_, Global>,
        values: &mut V,
    ) -> Result<(), Fault<'a>> {
        append_heading(self.alloc, &mut self.text, entry)?;
        for right in entry.attributes {
            if let Some((number, mode)) = right_of(right) {
                append_part(&mut self.text, entry.class, false, number, mode)?;
                if has_value(number, mode) {
                    let attribute = attribute_of(entry, number);
                    values.append_value(&mut self.text, attribute, ListForm::Long)?;
                }
                self.text.extend_from_slice(b"\n")?;
                self.flush()?;
            }
        }
        for right in entry.methods {
            if let Some((number, mode)) = right_of(right) {
                append_part(&mut self.text, entry.class, true, number, mode)?;
                self.text.extend_from_slice(b"\n")?;
            }
        }
        self.flush()
    }

    /// An entry as JSON with the values of its attributes.
    fn put_members<V: Values<'a>>(
        &mut self,
        entry: &Entry<'_, Global>,
        values: &mut V,
    ) -> Result<(), Fault<'a>> {
        append_open_json(&mut self.text, entry)?;
        self.text.extend_from_slice(b",\"values\":{")?;
        let mut parting: &[u8] = b"\"";
        for right in entry.attributes {
            match right_of(right) {
                Some((number, mode)) if has_value(number, mode) => {
                    append_labelled(&mut self.text, parting, u64::from(number))?;
                    self.text.extend_from_slice(b"\":")?;
                    let attribute = attribute_of(entry, number);
                    values.append_value(&mut self.text, attribute, ListForm::LongJson)?;
                    parting = b",\"";
                    self.flush_long()?;
                }
                _ => {}
            }
        }
        self.text.extend_from_slice(b"}}")?;
        self.flush_long()
    }

    /// An element that was read, with values; whether it is an entry.
    fn put_read<V: Values<'a>>(
        &mut self,
        value: &Data<Global>,
        form: ListForm,
        values: &mut V,
    ) -> Result<bool, Fault<'a>> {
        let Some(entry) = entry_of(value) else {
            return Ok(false);
        };
        if form.is_json() {
            self.put_members(&entry, values)?;
        } else {
            self.put_lines(&entry, values)?;
        }
        Ok(true)
    }

    /// An element with values, if it is an entry; whether it is.
    fn put_with_values<V: Values<'a>>(
        &mut self,
        element: &[u8],
        form: ListForm,
        values: &mut V,
    ) -> Result<bool, Fault<'a>> {
        let value = match element_of(self.alloc, element) {
            Ok(Some(value)) => value,
            Ok(None) => return Ok(false),
            Err(fault) => return Err(self.fault(fault)),
        };
        let told = self.put_read(&value, form, values);
        drop(value);
        told
    }

    /// An element without values, if it is an entry; whether it is.
    fn put_without_values(
        &mut self,
        element: &[u8],
        form: ListForm,
        widths: &mut ListWidths,
    ) -> Result<bool, Fault<'a>> {
        match append_object(self.alloc, &mut self.text, element, form, widths) {
            Ok(is_entry) => {
                self.flush_long()?;
                Ok(is_entry)
            }
            Err(fault) => Err(self.fault(fault)),
        }
    }

    /// So many elements of an object list.
    fn put_elements<V: Values<'a>>(
        &mut self,
        count: u32,
        bytes: &[u8],
        form: ListForm,
        widths: &mut ListWidths,
        values: &mut V,
    ) -> Result<(), Fault<'a>> {
        let mut rest = bytes;
        for at in 0..count {
            let Some((element, behind)) = first_of(rest) else {
                return Err(self.fault(ValueFault::Form));
            };
            if at > 0 && form.is_json() {
                self.text.extend_from_slice(b",\n ")?;
            }
            let is_entry = if form.has_values() {
                self.put_with_values(element, form, values)?
            } else {
                self.put_without_values(element, form, widths)?
            };
            if !is_entry {
                self.put_other(element, form)?;
            }
            rest = behind;
        }
        Ok(())
    }

    /// Makes the columns as wide as so many elements of an object list need, up to the first that is no value.
    fn measure_elements(
        &self,
        count: u32,
        bytes: &[u8],
        widths: &mut ListWidths,
    ) -> Result<(), Fault<'a>> {
        let mut line = Vec::new(self.alloc);
        let mut rest = bytes;
        for _ in 0..count {
            let Some((element, behind)) = first_of(rest) else {
                break;
            };
            line.clear();
            match append_object(self.alloc, &mut line, element, ListForm::Columns, widths) {
                Ok(_) => rest = behind,
                Err(fault) => return Err(self.fault(fault)),
            }
        }
        Ok(())
    }

    /// Prints an object list in a form, with the values of its attributes if the form has them.
    pub fn put_objects<V: Values<'a>>(
        &mut self,
        list: &[u8],
        form: ListForm,
        values: &mut V,
    ) -> Result<(), Fault<'a>> {
        let (Front::Array(count), rest) = front_of(list) else {
            return Err(self.fault(ValueFault::Form));
        };
        let mut widths = ListWidths::new();
        if form == ListForm::Columns {
            self.measure_elements(count, rest, &mut widths)?;
        }
        if !form.is_json() {
            self.put_elements(count, rest, form, &mut widths, values)?;
            return self.flush();
        }
        self.text.extend_from_slice(b"[")?;
        self.put_elements(count, rest, form, &mut widths, values)?;
        self.text.extend_from_slice(b"]\n")?;
        self.flush()
    }
}
