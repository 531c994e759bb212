//! Rows of a profile: the requests for its columns and its buffer.

use crate::connection::Calls;
use crate::requests::{MeterSession, first_fault, is_answer, read_name};
use dlms_buffer::{BufferFault, Column, by_entries, by_range, column_of, first_of_last};
use dlms_call::{CallFault, Watch};
use dlms_data::{Descriptor, LAST_SECOND, Selector, octets, secs};
use dlms_faults::Fault;
use dlms_inquiries::scaler_of;
use dlms_printing::{ColumnShape, Following, RowPrinter, Showing, Table};
use dlms_values::{Value, read};
use dlms_words::{ProfileOptions, TableFormat, number};
use std::alloc::Global;
use std::io::Write;

/// The name of the load profile (IEC 62056-6-1).
pub const LOAD_PROFILE: &str = "1.0.99.1.0.255";

/// The class Profile generic, and its attributes (IEC 62056-6-2, Blue Book 4.3.6).
pub const PROFILE: u16 = 7;

pub const BUFFER: u8 = 2;

const CAPTURE_OBJECTS: u8 = 3;

const CAPTURE_PERIOD: u8 = 4;

const ENTRIES_IN_USE: u8 = 7;

/// The last entry of a buffer, as a selector names it.
const LAST_ENTRY: u32 = 0;

/// The first octet of a deviation that is left open.
const OPEN_DEVIATION: u8 = 0x80;

/// The first and the last second of a day.
pub const MIDNIGHT: &str = "00:00:00";

pub const LAST_OF_DAY: &str = "23:59:59";

/// From one time of the meter's clock to another, both included, as date-times.
#[derive(Clone, Copy)]
pub struct TimeRange {
    from: [u8; 12],
    to: [u8; 12],
}

/// Which rows of a profile are printed, and how, and whether the progress is shown.
#[derive(Clone, Copy)]
pub struct ProfileRequest<'a> {
    name: &'a str,
    range: Option<TimeRange>,
    last: Option<u32>,
    format: TableFormat,
    raw: bool,
    showing: Showing,
}

/// The number of one or two digits.
fn octet_of(digits: &str) -> Option<u8> {
    u8::try_from(number(digits.as_bytes())?).ok()
}

/// The year, the month and the day of a date as `2026-01-31`.
fn date_of(text: &str) -> Option<(u16, u8, u8)> {
    let (year, rest) = text.split_once('-')?;
    let (month, day) = rest.split_once('-')?;
    let year = u16::try_from(number(year.as_bytes())?).ok()?;
    Some((year, octet_of(month)?, octet_of(day)?))
}

/// The hour, the minute and the second of a time as `12:00` or `12:00:00`.
fn time_of(text: &str) -> Option<(u8, u8, u8)> {
    let (hour, rest) = text.split_once(':')?;
    let (minute, second) = match rest.split_once(':') {
        Some((minute, second)) => (minute, second),
        None => (rest, "0"),
    };
    Some((octet_of(hour)?, octet_of(minute)?, octet_of(second)?))
}

/// The second of a meter's clock, counted from 2000-01-01 00:00:00, that a text names, as `2026-01-31T12:00:00`; of a date alone
/// this time of the day.
pub fn second_in(text: &str, time: &str) -> Option<u32> {
    let (date, time) = match text.split_once('T') {
        Some((date, time)) => (date, time),
        None => (text, time),
    };
    let (year, month, day) = date_of(date)?;
    let (hour, minute, second) = time_of(time)?;
    let [high, low] = year.to_be_bytes();
    secs(&[
        high,
        low,
        month,
        day,
        0,
        hour,
        minute,
        second,
        0,
        OPEN_DEVIATION,
        0,
        0,
    ])
}

/// The date-time that a text names, with its deviation left open; the second `other` if no text is given.
fn clock_in<'a>(text: Option<&'a str>, time: &str, other: u32) -> Result<[u8; 12], Fault<'a>> {
    let second = match text {
        Some(text) => match second_in(text, time) {
            Some(second) => second,
            None => return Err(Fault::Time(text)),
        },
        None => other,
    };
    let mut clock = octets(second.min(LAST_SECOND));
    clock[9] = OPEN_DEVIATION;
    Ok(clock)
}

/// The range of times that the options give, if they give one.
fn range_of<'a>(options: &ProfileOptions<'a>) -> Result<Option<TimeRange>, Fault<'a>> {
    if options.from.is_none() && options.to.is_none() {
        return Ok(None);
    }
    Ok(Some(TimeRange {
        from: clock_in(options.from, MIDNIGHT, 0)?,
        to: clock_in(options.to, LAST_OF_DAY, LAST_SECOND)?,
    }))
}

/// The request that the options make, with this much of its progress shown.
pub fn request_of<'a>(
    options: &ProfileOptions<'a>,
    showing: Showing,
) -> Result<ProfileRequest<'a>, Fault<'a>> {
    Ok(ProfileRequest {
        name: options.name.unwrap_or(LOAD_PROFILE),
        range: range_of(options)?,
        last: options.last,
        format: options.format,
        raw: options.raw,
        showing,
    })
}

impl<'a> ProfileRequest<'a> {
    /// The name of the profile.
    pub fn name(&self) -> &'a str {
        self.name
    }

    /// Whether its progress is shown.
    pub fn showing(&self) -> Showing {
        self.showing
    }
}

/// The columns in the encoding of the capture objects.
fn columns_in(alloc: Global, bytes: &[u8]) -> Result<Vec<ColumnShape>, BufferFault> {
    let (value, _rest) = read(bytes)?;
    let Value::Array(objects) = value else {
        return Err(BufferFault::Columns);
    };
    let mut objects = objects;
    let mut shapes = Vec::new(alloc);
    for _ in 0..objects.len() {
        let Some(object) = objects.next_value() else {
            break;
        };
        let Some(column) = column_of(object) else {
            return Err(BufferFault::Columns);
        };
        shapes.push(ColumnShape::new(column))?;
    }
    Ok(shapes)
}

/// The attribute with the scaler and the unit of a column, if it is a register's.
fn scaler_for(column: Column) -> Option<Descriptor> {
    scaler_of(Descriptor {
        class: column.class,
        name: column.name,
        id: u8::try_from(column.attribute).ok()?,
    })
}

/// The first column that is a clock's time.
fn clock_among(shapes: &[ColumnShape]) -> Option<Column> {
    for shape in shapes {
        if shape.is_time() {
            return Some(shape.column);
        }
    }
    None
}

/// The part of a buffer whose rows are in a range of times, if it has a clock.
fn part_in<'a>(
    alloc: Global,
    name: &'a str,
    range: &TimeRange,
    clock: Option<Column>,
) -> Result<Option<Selector<Global>>, Fault<'a>> {
    let Some(clock) = clock else {
        return Err(Fault::NoClock(name));
    };
    Ok(Some(by_range(alloc, &clock, &range.from, &range.to)?))
}

impl<'a, C: Calls> MeterSession<'a, '_, C> {
    /// The columns of a profile.
    fn columns(
        &mut self,
        request: &ProfileRequest<'a>,
        code: [u8; 6],
    ) -> Result<Vec<ColumnShape>, Fault<'a>> {
        let attribute = Descriptor {
            class: PROFILE,
            name: code,
            id: CAPTURE_OBJECTS,
        };
        self.fetch(request.name, attribute)?;
        match columns_in(self.alloc, self.calls.value()) {
            Ok(shapes) => Ok(shapes),
            Err(fault) => Err(Fault::of_buffer(request.name, fault)),
        }
    }

    /// Asks for the scalers and the units of the columns that have some.
    fn scale(&mut self, name: &'a str, shapes: &mut [ColumnShape]) {
        for shape in shapes.iter_mut() {
            if let Some(scaler) = scaler_for(shape.column) {
                if let Some((scaler, unit)) = self.scaler_unit(name, scaler) {
                    shape.scaler = scaler;
                    shape.unit = Some(unit);
                }
            }
        }
    }

    /// A number that an attribute of the profile has.
    fn number_of(&mut self, name: &'a str, code: [u8; 6], id: u8) -> Result<u32, Fault<'a>> {
        let attribute = Descriptor {
            class: PROFILE,
            name: code,
            id,
        };
        self.fetch(name, attribute)?;
        match read(self.calls.value()) {
            Ok((Value::Unsigned(_, number), _)) => Ok(u32::try_from(number).unwrap_or(u32::MAX)),
            _ => Err(Fault::of_call(self.place, CallFault::Talk(dlms_client::Fault::Form))),
        }
    }

    /// The capture period in seconds; 0 if the meter does not say it.
    pub fn period(&mut self, name: &'a str, code: [u8; 6]) -> Result<u32, Fault<'a>> {
        match self.number_of(name, code, CAPTURE_PERIOD) {
            Ok(period) => Ok(period),
            Err(fault) => {
                if is_answer(&fault) {
                    drop(fault);
                    Ok(0)
                } else {
                    Err(fault)
                }
            }
        }
    }

    /// The part of the buffer that is asked for, if not all of it is.
    fn part(
        &mut self,
        request: &ProfileRequest<'a>,
        code: [u8; 6],
        clock: Option<Column>,
    ) -> Result<Option<Selector<Global>>, Fault<'a>> {
        match (request.range, request.last) {
            (Some(range), _) => part_in(self.alloc, request.name, &range, clock),
            (None, Some(count)) => self.last_part(request.name, code, count),
            (None, None) => Ok(None),
        }
    }

    /// The last entries of the buffer, this many.
    fn last_part(
        &mut self,
        name: &'a str,
        code: [u8; 6],
        count: u32,
    ) -> Result<Option<Selector<Global>>, Fault<'a>> {
        let in_use = self.number_of(name, code, ENTRIES_IN_USE)?;
        Ok(Some(by_entries(self.alloc, first_of_last(in_use, count), LAST_ENTRY)?))
    }

    /// Asks for the rows, and shows what has come of them. The buffer's encoding is the client's value then.
    fn fetch_rows<V: Watch>(
        &mut self,
        request: &ProfileRequest<'a>,
        code: [u8; 6],
        part: Option<Selector<Global>>,
        watch: &mut V,
    ) -> Result<(), Fault<'a>> {
        let attribute = Descriptor {
            class: PROFILE,
            name: code,
            id: BUFFER,
        };
        let most = self.most as usize;
        let answer = match part {
            None => self.calls.get(attribute, most, watch),
            Some(part) => self.calls.get_part(attribute, part, most, watch),
        };
        self.judge(request.name, false, answer)
    }

    /// Prints rows of a profile with these columns, while they come.
    fn put_rows<W: Write, P: Following>(
        &mut self,
        request: &ProfileRequest<'a>,
        code: [u8; 6],
        shapes: &mut [ColumnShape],
        output: &mut W,
        progress: &mut P,
    ) -> Result<(), Fault<'a>> {
        if !request.raw {
            self.scale(request.name, shapes);
        }
        let period = self.period(request.name, code)?;
        let clock = clock_among(shapes);
        let table = Table {
            code,
            shapes,
            period,
            raw: request.raw,
            last: request.last,
        };
        match self.part(request, code, clock) {
            Ok(part) => self.print_rows(request, code, part, table, output, progress),
            Err(fault) => Err(fault),
        }
    }

    /// Asks for the rows, and prints them while they come. A fault of theirs came before one of the line.
    fn print_rows<W: Write, P: Following>(
        &mut self,
        request: &ProfileRequest<'a>,
        code: [u8; 6],
        part: Option<Selector<Global>>,
        table: Table<'_>,
        output: &mut W,
        progress: &mut P,
    ) -> Result<(), Fault<'a>> {
        let mut printer = match RowPrinter::new(
            self.alloc,
            request.name,
            table,
            request.format,
            output,
            progress,
        ) {
            Ok(printer) => printer,
            Err(_) => {
                drop(part);
                return Err(Fault::MEMORY);
            }
        };
        let fetched = self.fetch_rows(request, code, part, &mut printer);
        let printed = printer.finish(self.calls.value(), fetched.is_ok());
        drop(printer);
        first_fault(printed, fetched)
    }

    /// Prints rows of a profile.
    pub fn profile_one<W: Write, P: Following>(
        &mut self,
        request: ProfileRequest<'a>,
        output: &mut W,
        progress: &mut P,
    ) -> Result<(), Fault<'a>> {
        let code = read_name(request.name)?.code;
        let mut shapes = self.columns(&request, code)?;
        let told = self.put_rows(&request, code, &mut shapes, output, progress);
        drop(shapes);
        told
    }
}
