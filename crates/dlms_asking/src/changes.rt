//! Requests that change a meter: an attribute is set, or a method called, and the output for that.

use crate::connection::Calls;
use crate::requests::{CLOCK, MeterSession, SECOND, first_fault};
use crate::setting::Given;
use dlms_data::{Data, Descriptor};
use dlms_faults::Fault;
use dlms_printing::{ClockChange, Teller, put_clock, put_line};
use dlms_words::OutputFormat;
use std::alloc::Global;
use std::io::Write;

/// A change of the meter: the attribute or the method, its clock if it belongs to one, and the clock's time before the change.
#[derive(Clone, Copy)]
struct Change {
    of: Descriptor,
    is_method: bool,
    clock: Option<Descriptor>,
    before: Option<[u8; 12]>,
}

impl<'a, C: Calls> MeterSession<'a, '_, C> {
    /// The attribute to be set, and its time before that if it is a clock's.
    fn before_set(&mut self, said: &'a str, class: u16) -> Result<Change, Fault<'a>> {
        let of = self.attribute_said(said, class)?;
        let clock = clock_set_by(of);
        Ok(Change {
            of,
            is_method: false,
            clock,
            before: self.clock(said, clock)?,
        })
    }

    /// The method to be called, and what its clock shows before that if it is a clock's method.
    fn before_call(&mut self, said: &'a str, class: u16) -> Result<Change, Fault<'a>> {
        let of = self.method_said(said, class)?;
        let clock = clock_called_by(of);
        Ok(Change {
            of,
            is_method: true,
            clock,
            before: self.clock(said, clock)?,
        })
    }

    /// Sets an attribute, and prints that; of a clock also what it showed before and shows now.
    #[inline(never)]
    pub fn set_one<W: Write>(
        &mut self,
        said: &'a str,
        value: Given<'a>,
        class: u16,
        format: OutputFormat,
        output: &mut W,
    ) -> Result<(), Fault<'a>> {
        let change = match self.before_set(said, class) {
            Ok(change) => change,
            Err(fault) => {
                drop(value);
                return Err(fault);
            }
        };
        let value = self.value_to_set(said, change.of, value)?;
        self.set_to(said, change.of, value)?;
        self.put_change(said, change, &[], format, output)
    }

    /// Calls a method.
    fn call(
        &mut self,
        said: &'a str,
        method: Descriptor,
        value: Option<Data<Global>>,
    ) -> Result<(), Fault<'a>> {
        let answer = self.calls.act(method, value);
        self.judge(said, true, answer)
    }

    /// Calls a method, and prints that and the returned value; for a clock also its time before and after.
    #[inline(never)]
    pub fn act_one<W: Write>(
        &mut self,
        said: &'a str,
        value: Option<Data<Global>>,
        class: u16,
        format: OutputFormat,
        output: &mut W,
    ) -> Result<(), Fault<'a>> {
        let change = match self.before_call(said, class) {
            Ok(change) => change,
            Err(fault) => {
                drop(value);
                return Err(fault);
            }
        };
        self.call(said, change.of, value)?;
        let returned = self.copy_value()?;
        let told = self.put_change(said, change, returned.as_slice(), format, output);
        drop(returned);
        told
    }

    /// Prints a change. `returned` is the encoding of the value that a method returned; it is empty if none was returned.
    fn put_change<W: Write>(
        &mut self,
        said: &'a str,
        change: Change,
        returned: &[u8],
        format: OutputFormat,
        output: &mut W,
    ) -> Result<(), Fault<'a>> {
        match format {
            OutputFormat::Text => self.put_text(said, change, returned, output),
            OutputFormat::Json => self.put_json(said, change, returned, output),
        }
    }

    /// Prints a change as text.
    fn put_text<W: Write>(
        &mut self,
        said: &'a str,
        change: Change,
        returned: &[u8],
        output: &mut W,
    ) -> Result<(), Fault<'a>> {
        put_line(
            output,
            if change.is_method { "called " } else { "set " },
            said,
        )?;
        if !returned.is_empty() {
            let mut teller = Teller::new(self.alloc, self.place, output);
            teller.put_words(returned)?;
        }
        let Some(of) = change.clock else {
            return Ok(());
        };
        let after = self.clock(said, change.clock)?;
        put_clock(self.alloc, output, of.name, change.before, after)
    }

    /// Prints a change as an object of JSON, also if the clock cannot be read after the change.
    fn put_json<W: Write>(
        &mut self,
        said: &'a str,
        change: Change,
        returned: &[u8],
        output: &mut W,
    ) -> Result<(), Fault<'a>> {
        let (after, told) = match self.clock(said, change.clock) {
            Ok(after) => (after, Ok(())),
            Err(fault) => (None, Err(fault)),
        };
        let shown = ClockChange {
            before: change.before,
            after,
        };
        let mut teller = Teller::new(self.alloc, self.place, output);
        let put = teller.put_success(change.of, change.is_method, returned, shown);
        first_fault(put, told)
    }
}

/// The clock that a SET of this attribute changes, if any.
fn clock_set_by(attribute: Descriptor) -> Option<Descriptor> {
    if attribute.class == CLOCK && attribute.id == SECOND {
        Some(attribute)
    } else {
        None
    }
}

/// The clock that a call of this method changes, if any.
fn clock_called_by(method: Descriptor) -> Option<Descriptor> {
    if method.class == CLOCK {
        Some(Descriptor {
            id: SECOND,
            ..method
        })
    } else {
        None
    }
}
