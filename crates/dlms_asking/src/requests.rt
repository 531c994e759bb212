//! The requests to a meter, one after another, and the output for each.

ghost use Rattle.std.specs.Prelude.{◌≤◌};
ghost use Rattle.dlms_data.specs.declared.date_time.TheConstants.{LAST_SECOND};

use crate::connection::Calls;
use dlms_call::{CallFault, Unwatched};
use dlms_client::Answer;
use dlms_data::{Data, Descriptor};
use dlms_faults::Fault;
use dlms_inquiries::{class_by_name, class_named, clock_in, object_list, scale_of, scaler_of};
use dlms_printing::Teller;
use dlms_text::{Name, ValueFault, value_of, written_name};
use dlms_words::ValueFormat;
use std::alloc::Global;
use std::io::Write;

/// The attribute of what most classes keep.
pub const SECOND: u8 = 2;

/// The class Clock, whose time its attribute 2 is.
pub const CLOCK: u16 = 8;

/// How values are printed, and whether each has its name in front.
#[derive(Clone, Copy)]
struct Printing {
    format: ValueFormat,
    is_named: bool,
}

/// A talk with a meter: its place, the calls by its association, how many octets a value may have, and the faults of single names.
#[derive(Drop)]
pub struct MeterSession<'a, 's, C: Calls> {
    pub alloc: Global,
    pub place: &'a str,
    pub calls: &'s mut C,
    pub most: u32,
    pub refused: &'s mut Vec<Fault<'a>>,
}

/// The name that a text writes.
pub fn read_name(text: &str) -> Result<Name, Fault<'_>> {
    match written_name(text) {
        Some(name) => Ok(name),
        None => Err(Fault::Name(text)),
    }
}

/// The name of a method that a text writes, with its number.
pub fn read_method(text: &str) -> Result<Name, Fault<'_>> {
    match written_name(text) {
        Some(name) if name.number.is_some() => Ok(name),
        _ => Err(Fault::Name(text)),
    }
}

/// The value that a text writes, at this second.
pub fn read_value(alloc: Global, text: &str, now: u32) -> Result<Data<Global>, Fault<'_>>
    requires { now ≤ LAST_SECOND }
{
    match value_of(alloc, text, now) {
        Ok(value) => Ok(value),
        Err(ValueFault::Form) => Err(Fault::Value(text)),
        Err(ValueFault::Memory) => Err(Fault::MEMORY),
    }
}

/// Whether a fault is of one name, after which others can be asked for.
fn is_of_name(fault: &Fault<'_>) -> bool {
    is_answer(fault) || matches!(fault, Fault::Class(_))
}

/// Whether a fault is the meter's answer to a request, after which the association goes on.
pub fn is_answer(fault: &Fault<'_>) -> bool {
    matches!(fault, Fault::Result(..) | Fault::Denied(..))
}

/// Whether a request was carried out; not if the meter refused it, after which the association goes on.
pub fn is_done<'a>(told: Result<(), Fault<'a>>) -> Result<bool, Fault<'a>> {
    match told {
        Ok(()) => Ok(true),
        Err(fault) => {
            if is_answer(&fault) {
                drop(fault);
                Ok(false)
            } else {
                Err(fault)
            }
        }
    }
}

/// The first fault of two results.
pub fn first_fault<'a>(
    first: Result<(), Fault<'a>>,
    second: Result<(), Fault<'a>>,
) -> Result<(), Fault<'a>> {
    match first {
        Ok(()) => second,
        Err(fault) => {
            drop(second);
            Err(fault)
        }
    }
}

impl<'a, C: Calls> MeterSession<'a, '_, C> {
    /// The result that an answer reports for the object of this name: nothing more for a success.
    pub fn judge(
        &self,
        name: &'a str,
        is_action: bool,
        answer: Result<Answer, CallFault>,
    ) -> Result<(), Fault<'a>> {
        match answer {
            Ok(Answer::Value) | Ok(Answer::Result(0)) => Ok(()),
            Ok(Answer::Result(code)) => Err(Fault::Result(name, code, is_action)),
            Ok(Answer::Denied(denial)) => Err(Fault::Denied(name, denial)),
            Err(CallFault::TooLarge) => Err(Fault::Large(name, self.most)),
            Err(fault) => Err(Fault::of_call(self.place, fault)),
        }
    }

    /// Asks for an attribute. Its encoding is the client's value then.
    pub fn fetch(&mut self, name: &'a str, attribute: Descriptor) -> Result<(), Fault<'a>> {
        let most = self.most as usize;
        let answer = self.calls.get(attribute, most, &mut Unwatched);
        self.judge(name, false, answer)
    }

    /// A copy of the encoding that came last.
    pub fn copy_value(&self) -> Result<Vec<u8>, Fault<'a>> {
        Ok(Vec::from_slice(self.alloc, self.calls.value())?)
    }

    /// Asks for the object list.
    pub fn fetch_list(&mut self) -> Result<(), Fault<'a>> {
        self.fetch("0.0.40.0.0.255/2", object_list())
    }

    /// Reads the object list, unless that was tried before. One that the meter refuses is empty.
    fn need_list(&mut self, list: &mut Option<Vec<u8>>) -> Result<(), Fault<'a>> {
        if list.is_some() {
            return Ok(());
        }
        let octets = list.insert(Vec::new(self.alloc));
        self.fetch_list()?;
        octets.extend_from_slice(self.calls.value())?;
        Ok(())
    }

    /// The class of an object by the object list.
    fn class_listed(
        &self,
        list: &Option<Vec<u8>>,
        text: &'a str,
        name: Name,
    ) -> Result<u16, Fault<'a>> {
        let Some(list) = list else {
            return Err(Fault::Class(text));
        };
        match class_named(self.alloc, list.as_slice(), name.code) {
            Ok(Some(class)) => Ok(class),
            Ok(None) | Err(ValueFault::Form) => Err(Fault::Class(text)),
            Err(ValueFault::Memory) => Err(Fault::MEMORY),
        }
    }

    /// The class of an object: the given one, the one of its name in each meter, or the one in the object list, which is read when
    /// it is first needed.
    fn class(
        &mut self,
        list: &mut Option<Vec<u8>>,
        text: &'a str,
        name: Name,
        given: u16,
    ) -> Result<u16, Fault<'a>> {
        if given > 0 {
            return Ok(given);
        }
        if let Some(class) = class_by_name(name.code) {
            return Ok(class);
        }
        self.need_list(list)?;
        self.class_listed(list, text, name)
    }

    /// The scaler and the unit of a register's value, if it has them.
    pub fn scaler_unit(&mut self, said: &'a str, scaler: Descriptor) -> Option<(i8, u8)> {
        match self.fetch(said, scaler) {
            Ok(()) => scale_of(self.calls.value()),
            Err(fault) => {
                drop(fault);
                None
            }
        }
    }

    /// An attribute by its name: the value if no number is given.
    fn attribute(
        &mut self,
        list: &mut Option<Vec<u8>>,
        said: &'a str,
        name: Name,
        class: u16,
    ) -> Result<Descriptor, Fault<'a>> {
        let class = self.class(list, said, name, class)?;
        let code = name.code;
        Ok(Descriptor {
            class,
            name: code,
            id: name.number.unwrap_or(SECOND),
        })
    }

    /// The same for a single name.
    fn attribute_of(
        &mut self,
        said: &'a str,
        name: Name,
        class: u16,
    ) -> Result<Descriptor, Fault<'a>> {
        let mut list = None;
        let attribute = self.attribute(&mut list, said, name, class);
        drop(list);
        attribute
    }

    /// Prints the value of an attribute, after its name if that is wanted, and with its scaler and unit if it has them.
    fn put<W: Write>(
        &self,
        said: &str,
        attribute: Descriptor,
        value: &[u8],
        scaled: Option<(i8, u8)>,
        printing: Printing,
        output: &mut W,
    ) -> Result<(), Fault<'a>> {
        let mut teller = Teller::new(self.alloc, self.place, output);
        if printing.is_named {
            teller.put_name(said)?;
        }
        teller.put_value(attribute, value, printing.format, scaled)
    }

    /// Prints the value that came last, without a scaler.
    fn put_last<W: Write>(
        &self,
        said: &str,
        attribute: Descriptor,
        printing: Printing,
        output: &mut W,
    ) -> Result<(), Fault<'a>> {
        let value = self.calls.value();
        self.put(said, attribute, value, None, printing, output)
    }

    /// Prints the value of a register that came last, with its scaler and its unit.
    fn put_scaled<W: Write>(
        &mut self,
        said: &'a str,
        attribute: Descriptor,
        scaler: Descriptor,
        printing: Printing,
        output: &mut W,
    ) -> Result<(), Fault<'a>> {
        let value = self.copy_value()?;
        let scaled = self.scaler_unit(said, scaler);
        let told = self.put(said, attribute, value.as_slice(), scaled, printing, output);
        drop(value);
        told
    }

    /// Prints the value of an attribute.
    fn get_one<W: Write>(
        &mut self,
        list: &mut Option<Vec<u8>>,
        said: &'a str,
        class: u16,
        printing: Printing,
        output: &mut W,
    ) -> Result<(), Fault<'a>> {
        let attribute = self.attribute(list, said, read_name(said)?, class)?;
        self.fetch(said, attribute)?;
        match scaler_of(attribute) {
            Some(scaler) if printing.format != ValueFormat::Encoding => {
                self.put_scaled(said, attribute, scaler, printing, output)
            }
            _ => self.put_last(said, attribute, printing, output),
        }
    }

    /// Keeps the fault of one name, so that the others are asked for all the same. Any other fault is returned.
    fn keep(&mut self, told: Result<(), Fault<'a>>) -> Result<(), Fault<'a>> {
        let Err(fault) = told else {
            return Ok(());
        };
        if !is_of_name(&fault) {
            return Err(fault);
        }
        self.refused.push(fault)?;
        Ok(())
    }

    /// Prints the values of attributes, with an object list that is read when it is first needed.
    fn get_each<W: Write>(
        &mut self,
        list: &mut Option<Vec<u8>>,
        names: &'a str,
        class: u16,
        printing: Printing,
        output: &mut W,
    ) -> Result<(), Fault<'a>> {
        let mut rest = names;
        'names: for _name in 0..names.len() {
            let (said, behind) = match rest.split_once(',') {
                Some((said, behind)) => (said, Some(behind)),
                None => (rest, None),
            };
            let told = self.get_one(list, said, class, printing, output);
            self.keep(told)?;
            match behind {
                Some(behind) => rest = behind,
                None => return Ok(()),
            }
        }
        Ok(())
    }

    /// Prints the values of attributes, each after its name if there are several. A name that the meter refuses or lacks is kept
    /// with its fault.
    #[inline(never)]
    pub fn get_all<W: Write>(
        &mut self,
        names: &'a str,
        class: u16,
        format: ValueFormat,
        output: &mut W,
    ) -> Result<(), Fault<'a>> {
        let several = names.split_once(',').is_some();
        let printing = Printing {
            format,
            is_named: several && format != ValueFormat::Json,
        };
        let mut list = None;
        let told = self.get_each(&mut list, names, class, printing, output);
        drop(list);
        told
    }

    /// The attribute that a text names.
    pub fn attribute_said(&mut self, said: &'a str, class: u16) -> Result<Descriptor, Fault<'a>> {
        let name = read_name(said)?;
        self.attribute_of(said, name, class)
    }

    /// The method that a text names.
    pub fn method_said(&mut self, said: &'a str, class: u16) -> Result<Descriptor, Fault<'a>> {
        let name = read_method(said)?;
        self.attribute_of(said, name, class)
    }

    /// The octets that a clock shows, or none if the meter does not give them. An object that is not a clock is not read.
    pub fn clock(
        &mut self,
        said: &'a str,
        clock: Option<Descriptor>,
    ) -> Result<Option<[u8; 12]>, Fault<'a>> {
        let Some(clock) = clock else {
            return Ok(None);
        };
        let told = self.fetch(said, clock);
        if is_done(told)? {
            Ok(clock_in(self.calls.value()))
        } else {
            Ok(None)
        }
    }

    /// Sets an attribute.
    pub fn set_to(
        &mut self,
        said: &'a str,
        attribute: Descriptor,
        value: Data<Global>,
    ) -> Result<(), Fault<'a>> {
        let answer = self.calls.set(attribute, value);
        self.judge(said, false, answer)
    }

    /// Ends the association, and the link.
    pub fn end(&mut self) {
        self.calls.end();
    }
}
