//! The rows of a profile as JSON.

use crate::table::{ColumnShape, Table};
use crate::typed::append_time;
use crate::values::{Teller, append_code, append_labelled};
use dlms_buffer::Cell;
use dlms_faults::Fault;
use dlms_names::code_name;
use dlms_text::{append_decimal, append_quoted};
use dlms_values::Value;
use std::alloc::AllocError;
use std::io::Write;

impl ColumnShape {
    /// Appends it as an object of JSON.
    fn append_json(&self, text: &mut Vec<u8>) -> Result<(), AllocError> {
        text.extend_from_slice(b"{\"name\":\"")?;
        append_code(text, self.column.name)?;
        append_labelled(
            text,
            b"\",\"attribute\":",
            u64::from(self.column.attribute.unsigned_abs()),
        )?;
        append_labelled(text, b",\"class\":", u64::from(self.column.class))?;
        if let Some(name) = code_name(self.column.name) {
            text.extend_from_slice(b",\"title\":")?;
            append_quoted(text, name.as_bytes())?;
        }
        if self.scaler().is_some() {
            text.extend_from_slice(b",\"scaler\":")?;
            append_decimal(
                text,
                self.scaler < 0,
                u64::from(self.scaler.unsigned_abs()),
                0,
            )?;
        }
        if let Some(unit) = self.unit() {
            text.extend_from_slice(b",\"unit\":")?;
            append_quoted(text, unit.as_bytes())?;
        }
        text.extend_from_slice(b"}")
    }

    /// The scaler of its numbers, if it has one.
    fn scaler(&self) -> Option<i8> {
        match self.unit {
            Some(_) => Some(self.scaler),
            None => None,
        }
    }
}

impl Table<'_> {
    /// Appends the name of the profile, and the columns.
    pub fn append_head_json(&self, text: &mut Vec<u8>) -> Result<(), AllocError> {
        text.extend_from_slice(b"{\"name\":\"")?;
        append_code(text, self.code)?;
        let mut parting: &[u8] = b"\",\"columns\":[";
        for shape in self.shapes {
            text.extend_from_slice(parting)?;
            shape.append_json(text)?;
            parting = b",";
        }
        text.extend_from_slice(if self.shapes.is_empty() {
            b"\",\"columns\":[],\n\"rows\":["
        } else {
            b"],\n\"rows\":["
        })
    }

    /// A cell. A null that means a later time has that time.
    fn put_cell_json<'a, W: Write>(
        &self,
        teller: &mut Teller<'a, '_, W>,
        shape: &ColumnShape,
        cell: &Cell<'_>,
    ) -> Result<(), Fault<'a>> {
        match cell.value {
            Value::Octets(_, octets) if cell.age > 0 && self.moves_on(shape) => {
                let later = cell.age.saturating_mul(u64::from(self.period));
                teller
                    .text
                    .extend_from_slice(b"{\"type\":\"null\",\"value\":null")?;
                append_time(&mut teller.text, b",\"time\":\"", octets, later)?;
                teller.text.extend_from_slice(b"}")?;
                Ok(())
            }
            value => teller.put_scaled_value(&value, shape.has_times(), shape.scaler()),
        }
    }

    /// A row, after a comma unless it is the first.
    pub fn put_row_json<'a, W: Write>(
        &self,
        teller: &mut Teller<'a, '_, W>,
        is_first: bool,
        cells: &[Cell<'_>],
    ) -> Result<(), Fault<'a>> {
        let mut parting: &[u8] = if is_first { b"\n[" } else { b",\n[" };
        for (shape, cell) in self.shapes.iter().zip(cells.iter()) {
            teller.text.extend_from_slice(parting)?;
            self.put_cell_json(teller, shape, cell)?;
            parting = b",";
        }
        teller.text.extend_from_slice(b"]")?;
        Ok(())
    }
}
