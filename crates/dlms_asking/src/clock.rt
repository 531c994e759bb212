//! A meter's clock beside the system's, and its correction, as text and as JSON.

use crate::connection::Calls;
use crate::given::now;
use crate::requests::{MeterSession, is_done};
use dlms_buffer::append_clock;
use dlms_data::{Data, LAST_SECOND, octet_string_of, octets};
use dlms_faults::Fault;
use dlms_inquiries::{
    Comparison, Correction, SHIFT_TIME, TIME, clock_in, clock_part, is_off, shift_for, time_to_set,
};
use dlms_printing::put;
use dlms_text::{append_decimal, append_number};
use dlms_words::{ClockOptions, OutputFormat};
use std::alloc::{AllocError, Global};
use std::io::Write;
use std::time::Clock;

/// The clock's name as it is written (IEC 62056-6-1).
const NAME: &str = "0.0.1.0.0.255";

/// Whether a clock is only compared or also corrected, from which difference on, and how that is printed.
#[derive(Clone, Copy)]
pub struct ClockRequest {
    set: bool,
    threshold: u32,
    format: OutputFormat,
}

/// The request that the options make.
pub fn clock_request(options: &ClockOptions<'_>) -> ClockRequest {
    ClockRequest {
        set: options.set,
        threshold: options.threshold,
        format: options.format,
    }
}

/// Appends a date-time as ISO 8601, with its offset from UTC if it says one. Returns `false`, and appends nothing, if it names no time.
fn append_time(text: &mut Vec<u8>, time: [u8; 12]) -> Result<bool, AllocError> {
    append_clock(text, &time, 0)
}

/// Appends the meter's time as ISO 8601, with its offset from UTC if it says one. Returns `false`, and appends nothing, if it shows no
/// time.
fn append_meter(text: &mut Vec<u8>, found: &Comparison) -> Result<bool, AllocError> {
    match found.shown {
        Some(shown) => append_time(text, shown),
        None => Ok(false),
    }
}

/// Appends the system's time as ISO 8601.
fn append_system(text: &mut Vec<u8>, found: &Comparison) -> Result<(), AllocError> {
    let _is_shown = append_time(text, octets(found.system.min(LAST_SECOND)))?;
    Ok(())
}

/// Appends the meter's time and by how many seconds it is ahead, with a sign, as two fields of CSV. Without a time it is
/// `not specified`, and the second field is empty.
pub fn append_csv(text: &mut Vec<u8>, found: &Comparison) -> Result<(), AllocError> {
    if !append_meter(text, found)? {
        text.extend_from_slice(b"not specified")?;
    }
    text.extend_from_slice(b",")?;
    let Some(ahead) = found.ahead() else {
        return Ok(());
    };
    if ahead > 0 {
        text.extend_from_slice(b"+")?;
    }
    append_decimal(text, ahead < 0, ahead.unsigned_abs(), 0)
}

/// Appends the line that says by how many seconds the meter's clock is off.
fn append_difference(text: &mut Vec<u8>, found: &Comparison) -> Result<(), AllocError> {
    let Some(ahead) = found.ahead() else {
        return text.extend_from_slice(b"the meter's clock shows no time\n");
    };
    if ahead == 0 {
        return text.extend_from_slice(b"no difference\n");
    }
    if ahead < 0 {
        text.extend_from_slice(b"behind by ")?;
    } else {
        text.extend_from_slice(b"ahead by ")?;
    }
    let seconds = ahead.unsigned_abs();
    append_number(text, seconds)?;
    if seconds == 1 {
        text.extend_from_slice(b" second\n")
    } else {
        text.extend_from_slice(b" seconds\n")
    }
}

/// Appends both times, and the difference, as three lines.
fn append_lines(text: &mut Vec<u8>, found: &Comparison) -> Result<(), AllocError> {
    text.extend_from_slice(b"meter   ")?;
    if !append_meter(text, found)? {
        text.extend_from_slice(b"not specified")?;
    }
    text.extend_from_slice(b"\nsystem  ")?;
    append_system(text, found)?;
    text.extend_from_slice(b"\n")?;
    append_difference(text, found)
}

/// Appends both times, and the difference, as members of an object of JSON.
fn append_members(text: &mut Vec<u8>, found: &Comparison) -> Result<(), AllocError> {
    text.extend_from_slice(b"\"meter\":\"")?;
    if append_meter(text, found)? {
        text.extend_from_slice(b"\"")?;
    } else {
        let _quote = text.pop();
        text.extend_from_slice(b"null")?;
    }
    text.extend_from_slice(b",\"system\":\"")?;
    append_system(text, found)?;
    text.extend_from_slice(b"\",\"ahead\":")?;
    match found.ahead() {
        Some(ahead) => append_decimal(text, ahead < 0, ahead.unsigned_abs(), 0),
        None => text.extend_from_slice(b"null"),
    }
}

/// The word for a correction.
pub fn correction_word(done: Correction) -> &'static str {
    match done {
        Correction::Shifted => "shifted",
        Correction::Set => "set",
        Correction::Nothing => "nothing",
    }
}

/// Appends the comparison, the correction, and the comparison after it, as members of an object of JSON, and its last brace.
pub fn append_correction(
    text: &mut Vec<u8>,
    found: &Comparison,
    done: Correction,
    after: Option<Comparison>,
) -> Result<(), AllocError> {
    append_members(text, found)?;
    text.extend_from_slice(b",\"done\":\"")?;
    text.extend_from_slice(correction_word(done).as_bytes())?;
    text.extend_from_slice(b"\"")?;
    if let Some(after) = after {
        text.extend_from_slice(b",\"after\":{")?;
        append_members(text, &after)?;
        text.extend_from_slice(b"}")?;
    }
    text.extend_from_slice(b"}\n")
}

impl ClockRequest {
    /// Appends the comparison, the correction, and the comparison after it, as lines.
    fn append_text(
        &self,
        text: &mut Vec<u8>,
        found: &Comparison,
        done: Correction,
        after: Option<Comparison>,
    ) -> Result<(), AllocError> {
        append_lines(text, found)?;
        if self.set && done == Correction::Nothing {
            text.extend_from_slice(b"not set\n")?;
        } else if self.set {
            text.extend_from_slice(correction_word(done).as_bytes())?;
            text.extend_from_slice(b"\n")?;
        }
        match after {
            Some(after) => append_lines(text, &after),
            None => Ok(()),
        }
    }

    /// Prints the comparison, the correction, and the comparison after it.
    fn put<'a, W: Write>(
        &self,
        alloc: Global,
        found: Comparison,
        done: Correction,
        after: Option<Comparison>,
        output: &mut W,
    ) -> Result<(), Fault<'a>> {
        let mut text = Vec::new(alloc);
        match self.format {
            OutputFormat::Text => self.append_text(&mut text, &found, done, after)?,
            OutputFormat::Json => {
                text.extend_from_slice(b"{")?;
                append_correction(&mut text, &found, done, after)?;
            }
        }
        put(output, text.as_slice())
    }
}

impl<'a, C: Calls> MeterSession<'a, '_, C> {
    /// Reads the meter's clock, and the system's at the middle of the exchange.
    fn compare<H: Clock>(&mut self, host: &H) -> Result<Comparison, Fault<'a>> {
        let before = now(host)?;
        self.fetch(NAME, clock_part(TIME))?;
        let after = now(host)?;
        Ok(Comparison {
            shown: clock_in(self.calls.value()),
            system: before.saturating_add(after.saturating_sub(before) / 2),
        })
    }

    /// Shifts the clock by this many seconds. Returns whether the meter did that.
    fn shift_clock(&mut self, seconds: i16) -> Result<bool, Fault<'a>> {
        let shift = Some(Data::Long(seconds));
        let answer = self.calls.act(clock_part(SHIFT_TIME), shift);
        let told = self.judge(NAME, true, answer);
        is_done(told)
    }

    /// Corrects the clock: by a shift, or else by the system's time.
    fn correct<H: Clock>(&mut self, host: &H, found: Comparison) -> Result<Correction, Fault<'a>> {
        let is_shifted = match shift_for(found.ahead()) {
            Some(seconds) => self.shift_clock(seconds)?,
            None => false,
        };
        if is_shifted {
            return Ok(Correction::Shifted);
        }
        match self.set_clock(host, found.shown) {
            Ok(()) => Ok(Correction::Set),
            Err(fault) => Err(fault),
        }
    }

    /// Sets the clock, which shows this, to the system's time.
    fn set_clock<H: Clock>(&mut self, host: &H, shown: Option<[u8; 12]>) -> Result<(), Fault<'a>> {
        let time = time_to_set(shown, i64::from(now(host)?));
        let value = octet_string_of(self.alloc, &time)?;
        self.set_to(NAME, clock_part(TIME), value)
    }

    /// Compares the clock with the system's, corrects it if that is asked for and it is off, and prints that. If it cannot be read
    /// after it was corrected, the correction is printed all the same.
    #[inline(never)]
    pub fn clock_one<H: Clock, W: Write>(
        &mut self,
        host: &H,
        request: ClockRequest,
        output: &mut W,
    ) -> Result<(), Fault<'a>> {
        let found = self.compare(host)?;
        if !request.set || !is_off(found.ahead(), request.threshold) {
            return request.put(self.alloc, found, Correction::Nothing, None, output);
        }
        self.correct_one(host, request, found, output)
    }

    /// Corrects the clock, and prints that, with the comparison before it and the one after it.
    fn correct_one<H: Clock, W: Write>(
        &mut self,
        host: &H,
        request: ClockRequest,
        found: Comparison,
        output: &mut W,
    ) -> Result<(), Fault<'a>> {
        let done = self.correct(host, found)?;
        match self.compare(host) {
            Ok(after) => request.put(self.alloc, found, done, Some(after), output),
            Err(fault) => {
                let _put = request.put(self.alloc, found, done, None, output);
                Err(fault)
            }
        }
    }
}
