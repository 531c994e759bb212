//! The values of attributes that a meter gave, and its clock.

ghost use Rattle.dlms_collecting.specs.Clocks.{IsClockOf};

use crate::fault::{MeterFault, Refusal, nth_name};
use dlms_call::CallFault;
use dlms_client::{Answer, Fault};
use dlms_data::Descriptor;
use dlms_ends::RunFault;
use dlms_inquiries::{ClockScript, Comparison, Correction, Reading};
use std::alloc::{AllocError, Global};

/// The value of an attribute of a meter.
#[derive(Clone, Copy)]
pub struct MeterValue<'a> {
    /// The meter's name in the list.
    pub meter: &'a str,
    /// The attribute's name, as it was requested.
    pub name: &'a str,
    pub attribute: Descriptor,
    /// The encoding of its value.
    pub value: &'a [u8],
    /// The scaler and the unit of a register, if the meter gave them.
    pub scale: Option<(i8, u8)>,
    /// The second of the system's clock, counted from 1970 on, in the round in which the last answer of the meter came.
    pub second: u64,
}

/// The clock of a meter, and how it was corrected.
#[derive(Clone, Copy)]
pub struct MeterClock<'a> {
    /// The meter's name in the list.
    pub meter: &'a str,
    pub found: Comparison,
    pub done: Correction,
    /// The clock after it was corrected, if it was and could be read.
    pub after: Option<Comparison>,
}

/// How values and clocks are printed.
pub trait ValueText {
    /// Appends the line of a value, with its line feed. Returns `false`, and may have appended a part of it, if the encoding is no value.
    fn append_value(&self, text: &mut Vec<u8>, value: &MeterValue<'_>) -> Result<bool, AllocError>;

    /// Appends the line of a clock, with its line feed.
    fn append_clock(&self, text: &mut Vec<u8>, clock: &MeterClock<'_>) -> Result<(), AllocError>;
}

/// Why an attribute was not given, if it was not.
fn refusal(reading: &Reading) -> Option<Refusal> {
    match (reading.attribute, reading.answer) {
        (None, _) => Some(Refusal::Class),
        (Some(_), Answer::Value) => None,
        (Some(_), Answer::Result(code)) => Some(Refusal::Result(code)),
        (Some(_), Answer::Denied(denial)) => Some(Refusal::Denied(denial)),
    }
}

/// What the clock of a meter shows at this second of the system's, or why its time was not given or not set. The script is over.
pub fn clock_of(script: &ClockScript, second: u64) -> Result<Comparison, MeterFault>
    ensures { IsClockOf script.now second result }
{
    match script.answer() {
        Some(Answer::Value) => Ok(Comparison::of(script.shown(), second)),
        Some(Answer::Result(code)) => Err(MeterFault::Refused(0, Refusal::Result(code))),
        Some(Answer::Denied(denial)) => Err(MeterFault::Refused(0, Refusal::Denied(denial))),
        None => Err(MeterFault::Other(RunFault::Io)),
    }
}

/// What came of the attributes of a meter, as it is printed: the lines, how many they are, and what failed.
#[derive(Drop)]
pub struct PrintedValues {
    pub text: Vec<u8>,
    pub lines: u64,
    pub faults: Vec<MeterFault>,
}

impl PrintedValues {
    /// Nothing yet.
    pub fn new(alloc: Global) -> Self {
        PrintedValues {
            text: Vec::new(alloc),
            lines: 0,
            faults: Vec::new(alloc),
        }
    }

    /// Appends the line of the value that came of the attribute with this number, or keeps why there is none.
    fn add<T: ValueText>(
        &mut self,
        texts: &T,
        meter: &str,
        names: &str,
        second: u64,
        number: usize,
        reading: &Reading,
    ) -> Result<(), AllocError> {
        if let Some(refusal) = refusal(reading) {
            self.faults.push(MeterFault::Refused(number, refusal))?;
            return Ok(());
        }
        let Some(attribute) = reading.attribute else {
            return Ok(());
        };
        let length = self.text.len();
        let value = MeterValue {
            meter,
            name: nth_name(names, number),
            attribute,
            value: reading.value.as_slice(),
            scale: reading.scale,
            second,
        };
        if texts.append_value(&mut self.text, &value)? {
            self.lines = self.lines.saturating_add(1);
        } else {
            self.text.truncate(length);
            self.faults
                .push(MeterFault::Call(CallFault::Talk(Fault::Form)))?;
        }
        Ok(())
    }

    /// Appends the value of each attribute, or why it was refused, in the order of the names. The last answer came at this second.
    pub fn add_all<T: ValueText>(
        &mut self,
        texts: &T,
        meter: &str,
        names: &str,
        second: u64,
        readings: &[Reading],
    ) -> Result<(), AllocError> {
        for (number, reading) in readings.iter().enumerate() {
            self.add(texts, meter, names, second, number, reading)?;
        }
        Ok(())
    }
}
