//! The report on a file as one object of JSON (RFC 8259).

use crate::fault::ShowFault;
use crate::file::MOST_BYTES;
use crate::journal::records_at;
use crate::report::why_due;
use crate::words::{Words, column_name};
use dlms_journal::Records;
use dlms_plot::{Iso, Quantity};
use dlms_state::State;
use dlms_store::{JOURNAL, JOURNAL_PAGES, PAGES};
use dlms_survey::{Image, Judge, Place, Recovery, Survey, place_of};
use dlms_text::{append_number, append_pairs, append_quoted, append_text};
use std::alloc::{AllocError, Allocator};
use std::fmt::Display;
use std::io::Write;
use std::str;

/// An object of JSON that is put together.
#[derive(Drop)]
struct Json<A: Allocator> {
    alloc: A,
    text: Vec<u8, A>,
}

impl<A: Allocator + Copy> Json<A> {
    /// Octets of the form: brackets, commas, names of members.
    fn push(&mut self, octets: &[u8]) -> Result<(), AllocError> {
        self.text.extend_from_slice(octets)
    }

    /// A comma before each item of a list but the first one.
    fn part(&mut self, is_first: bool) -> Result<(), AllocError> {
        if is_first { Ok(()) } else { self.push(b",") }
    }

    /// A member that is a number.
    fn number(&mut self, name: &[u8], value: u64) -> Result<(), AllocError> {
        self.push(name)?;
        append_number(&mut self.text, value)
    }

    /// A member, or an item, that is a string.
    fn string<T: Display>(&mut self, name: &[u8], value: &T) -> Result<(), AllocError> {
        self.push(name)?;
        let words = format!(in self.alloc; "{value}")?;
        let appended = append_quoted(&mut self.text, words.as_bytes());
        drop(words);
        appended
    }
}

/// The purpose of a page's place, its slot if it is in one, and its index among those of this purpose.
fn put_place<A: Allocator + Copy>(json: &mut Json<A>, place: Place) -> Result<(), AllocError> {
    let (name, slot, index) = match place {
        Place::Gate(slot) => ("gate", Some(slot), 0),
        Place::Body(slot, index) => ("body", Some(slot), index),
        Place::Journal(index) => ("journal", None, index),
        Place::Ring(index) => ("ring", None, index),
    };
    json.string(b",\"place\":", &name)?;
    if let Some(slot) = slot {
        json.number(b",\"slot\":", u64::from(slot.index()))?;
    }
    json.number(b",\"index\":", u64::from(index))
}

/// The pages: where each is, and whether it counts or why not.
fn put_pages<A: Allocator + Copy>(
    json: &mut Json<A>,
    judge: &Judge<'_, A>,
) -> Result<(), AllocError> {
    json.push(b",\"pages\":[")?;
    for page in 0..PAGES {
        json.part(page == 0)?;
        json.number(b"{\"page\":", u64::from(page))?;
        put_place(json, place_of(page))?;
        json.string(b",\"verdict\":", &judge.verdict(page))?;
        json.push(b"}")?;
    }
    json.push(b"]")
}

/// The slot that counts, or null.
fn put_slot<A: Allocator + Copy>(json: &mut Json<A>, survey: &Survey<A>) -> Result<(), AllocError> {
    let Ok((slot, edition)) = survey.active else {
        return json.push(b",\"slot\":null");
    };
    json.number(b",\"slot\":{\"number\":", u64::from(slot.index()))?;
    json.number(b",\"version\":", u64::from(edition.version.number()))?;
    json.number(b",\"generation\":", edition.generation)?;
    json.push(b"}")
}

/// The events of a journal page.
fn put_events<A: Allocator + Copy>(
    json: &mut Json<A>,
    events: Records<'_>,
) -> Result<(), AllocError> {
    json.push(b",\"events\":[")?;
    let mut is_first = true;
    for event in events {
        json.part(is_first)?;
        json.string(b"", &Words(&event))?;
        is_first = false;
    }
    json.push(b"]}")
}

/// The journal pages that have whole records, and their events.
fn put_journal<A: Allocator + Copy>(
    json: &mut Json<A>,
    image: &Image<A>,
    judge: &Judge<'_, A>,
) -> Result<(), AllocError> {
    json.push(b",\"journal\":[")?;
    let mut is_first = true;
    for index in 0..JOURNAL_PAGES {
        let page = JOURNAL + index;
        if let Some(events) = records_at(image, page) {
            json.part(is_first)?;
            json.number(b"{\"page\":", u64::from(page))?;
            json.string(b",\"verdict\":", &judge.verdict(page))?;
            put_events(json, events)?;
            is_first = false;
        }
    }
    json.push(b"]")
}

/// What a recovery would do.
fn put_recovery<A: Allocator + Copy>(
    json: &mut Json<A>,
    survey: &Survey<A>,
) -> Result<(), AllocError> {
    json.push(b",\"recovery\":{\"action\":")?;
    match survey.recovery() {
        Recovery::Nothing => json.push(b"\"nothing\"")?,
        Recovery::Checkpoint(slot, generation) => {
            json.number(b"\"checkpoint\",\"slot\":", u64::from(slot.index()))?;
            json.number(b",\"generation\":", generation)?;
            json.string(b",\"reason\":", &why_due(survey))?;
        }
        Recovery::Refused(fault) => json.string(b"\"refused\",\"reason\":", &fault)?,
    }
    json.push(b"}")
}

/// The three registers.
fn put_registers<A: Allocator + Copy>(
    json: &mut Json<A>,
    registers: [u32; 3],
) -> Result<(), AllocError> {
    json.push(b",\"registers\":[")?;
    for (channel, value) in registers.iter().enumerate() {
        if let Some(quantity) = Quantity::of_channel(channel) {
            let unit = quantity.energy_unit();
            json.part(channel == 0)?;
            json.string(b"{\"name\":", &quantity.code())?;
            json.string(b",\"quantity\":", &quantity.name())?;
            json.number(b",\"value\":", u64::from(*value))?;
            json.string(b",\"unit\":", &unit.strip_prefix('k').unwrap_or(unit))?;
            json.push(b"}")?;
        }
    }
    json.push(b"]")
}

/// The values of a row, in the order of the columns.
fn put_row<A: Allocator + Copy>(
    json: &mut Json<A>,
    columns: &[u8],
    values: &[u32],
) -> Result<(), AllocError> {
    json.push(b"[")?;
    for (place, (id, value)) in columns.iter().zip(values).enumerate() {
        json.part(place == 0)?;
        if *id == 0 {
            json.string(b"", &Iso(*value))?;
        } else {
            json.number(b"", u64::from(*value))?;
        }
    }
    json.push(b"]")
}

/// The columns of the load profile, the number of its oldest row, and its rows.
fn put_profile<A: Allocator + Copy>(
    json: &mut Json<A>,
    state: &State<A>,
) -> Result<(), AllocError> {
    json.push(b",\"columns\":[")?;
    for (place, id) in state.columns().iter().enumerate() {
        json.part(place == 0)?;
        json.string(b"", &column_name(*id))?;
    }
    json.push(b"],\"first_row\":")?;
    let first = state.first_number();
    let first = format!(in json.alloc; "{first}")?;
    json.push(first.as_bytes())?;
    json.push(b",\"rows\":[")?;
    let mut is_first = true;
    for row in state.rows().iter() {
        json.part(is_first)?;
        put_row(json, state.columns(), row.values.as_slice())?;
        is_first = false;
    }
    json.push(b"]")
}

/// The meter's text: as `text` if it is UTF-8, otherwise as `hex`, in hexadecimal digits.
fn put_text<A: Allocator + Copy>(json: &mut Json<A>, octets: &[u8]) -> Result<(), AllocError> {
    if str::from_utf8(octets).is_err() {
        json.push(b",\"hex\":\"")?;
        append_pairs(&mut json.text, octets)?;
        return json.push(b"\"");
    }
    json.push(b",\"text\":\"")?;
    append_text(&mut json.text, octets)?;
    json.push(b"\"")
}

/// What a recovery finds: the state and the rows, but no secret; or null.
fn put_state<A: Allocator + Copy>(
    json: &mut Json<A>,
    survey: &Survey<A>,
) -> Result<(), AllocError> {
    json.push(b",\"state\":")?;
    let Some(state) = survey.state() else {
        return json.push(b"null");
    };
    json.string(b"{\"clock\":", &Iso(state.clock()))?;
    json.number(b",\"last_moment\":", u64::from(state.last()))?;
    let offset = state.offset();
    let offset = format!(in json.alloc; "{offset}")?;
    json.push(b",\"offset\":")?;
    json.push(offset.as_bytes())?;
    json.number(b",\"capture_period\":", u64::from(state.period()))?;
    put_registers(json, state.registers())?;
    put_text(json, state.text())?;
    put_profile(json, state)?;
    json.push(b"}")
}

/// The whole report.
fn put_report<A: Allocator + Copy>(
    json: &mut Json<A>,
    image: &Image<A>,
    survey: &Survey<A>,
    length: u64,
) -> Result<(), AllocError> {
    let judge = Judge::new(image, survey);
    json.number(b"{\"bytes\":", length)?;
    json.number(b",\"page_bytes\":", MOST_BYTES as u64)?;
    put_pages(json, &judge)?;
    put_slot(json, survey)?;
    put_journal(json, image, &judge)?;
    put_recovery(json, survey)?;
    put_state(json, survey)?;
    json.push(b"}\n")
}

/// Writes the whole report on an image, of a file with this many bytes, as one object of JSON in a line: the pages, which slot counts,
/// the journal's events, what a recovery would do, and the state and the rows, or null if it would refuse. No secret is in it.
pub fn write_json_report<A: Allocator + Copy, W: Write>(
    alloc: A,
    image: &mut Image<A>,
    length: u64,
    output: &mut W,
) -> Result<(), ShowFault> {
    let survey = Survey::of(alloc, image)?;
    let mut json = Json {
        alloc,
        text: Vec::new(alloc),
    };
    put_report(&mut json, image, &survey, length)?;
    output.write_all(json.text.as_slice())?;
    Ok(())
}
