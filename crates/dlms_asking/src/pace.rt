//! How often a meter captures rows, and when it captured the first one that it still has.

use crate::asking::{FEW_COUNTERS, SIZE, is_unanswered, line_to};
use crate::connection::{Calls, open_association};
use crate::profile::{BUFFER, LOAD_PROFILE, PROFILE};
use crate::requests::{MeterSession, read_name};
use crate::route::{PollLine, poll_line, poll_secret};
use crate::security::{heed_counter, keep_counter, parted, protection_with};
use arrayvec::ArrayVec;
use dlms_buffer::by_entries;
use dlms_call::Unwatched;
use dlms_client::{Plan, Route};
use dlms_data::{Descriptor, secs};
use dlms_ends::End;
use dlms_faults::Fault;
use dlms_frame::Address;
use dlms_guards::Protection;
use dlms_inquiries::twelve;
use dlms_keys::StoredCounters;
use dlms_polling::{HostPollInputs, PollInputs, secret_of};
use dlms_values::{Value, read};
use dlms_words::{MeterOptions, PollOptions};
use std::alloc::Global;
use std::fs::File;
use std::net::Net;
use std::random::RandomSource;
use std::rt::Files;
use std::time::Clock;

/// The number of the oldest entry of a buffer.
const OLDEST: u32 = 1;

/// The most octets of the encoding of one row.
const MOST: u32 = 65_536;

/// How a meter captures the rows of its load profile.
#[derive(Clone, Copy)]
pub struct Pace {
    /// The seconds from one row to the next; 0 if the meter does not say it, or captures by events.
    pub period: u32,
    /// The clock of the first row, if that was asked for, and there is one.
    pub first: Option<u32>,
}

/// The clock of the first row in the encoding of a buffer.
fn first_clock(bytes: &[u8]) -> Option<u32> {
    let Ok((Value::Array(rows), _)) = read(bytes) else {
        return None;
    };
    let mut rows = rows;
    let Some(Value::Structure(values)) = rows.next_value() else {
        return None;
    };
    let mut values = values;
    match values.next_value() {
        Some(Value::Octets(_, clock)) => secs(&twelve(clock)?),
        _ => None,
    }
}

impl<'a, C: Calls> MeterSession<'a, '_, C> {
    /// The pace of the load profile; with the clock of its first row if that is wanted.
    fn pace(&mut self, wants_first: bool) -> Result<Pace, Fault<'a>> {
        let name = read_name(LOAD_PROFILE)?.code;
        let period = self.period(LOAD_PROFILE, name)?;
        let first = if wants_first {
            self.first_row(name)?
        } else {
            None
        };
        Ok(Pace { period, first })
    }

    /// The clock of the first row of the load profile, which has this name, if there is one.
    fn first_row(&mut self, name: [u8; 6]) -> Result<Option<u32>, Fault<'a>> {
        let buffer = Descriptor {
            class: PROFILE,
            name,
            id: BUFFER,
        };
        let part = by_entries(self.alloc, OLDEST, OLDEST)?;
        let most = self.most as usize;
        let answer = self.calls.get_part(buffer, part, most, &mut Unwatched);
        self.judge(LOAD_PROFILE, false, answer)?;
        Ok(first_clock(self.calls.value()))
    }
}

/// The pace, by an association, which then ends.
fn pace_by<'a, C: Calls>(
    alloc: Global,
    meter: &MeterOptions<'a>,
    counters: &mut Option<Box<StoredCounters>>,
    calls: &mut C,
    wants_first: bool,
) -> Result<Pace, Fault<'a>> {
    heed_counter(alloc, meter, counters, calls)?;
    let mut refused = Vec::new(alloc);
    let mut talk = MeterSession {
        alloc,
        place: meter.place,
        calls,
        most: MOST,
        refused: &mut refused,
    };
    let pace = talk.pace(wants_first);
    talk.end();
    keep_counter(meter, counters, talk.calls)?;
    pace
}

/// The pace, over a line.
fn pace_over<'a, S: End>(
    alloc: Global,
    options: &PollOptions<'a>,
    plan: Plan,
    protection: Option<Protection>,
    line: &mut S,
    wants_first: bool,
) -> Result<Pace, Fault<'a>> {
    let meter = &options.meter;
    let (guard, mut counters) = parted(protection);
    match open_association(alloc, meter.place, plan, guard, line) {
        Ok(mut connection) => pace_by(alloc, meter, &mut counters, &mut connection, wants_first),
        Err(fault) => Err(fault),
    }
}

/// The secret of a poll over this line, if it sends one.
fn secret<'a, H: Files + Clock + AllocGlobal>(
    host: &H,
    options: &PollOptions<'a>,
    line: PollLine<'a>,
) -> Result<Option<ArrayVec<u8, 16>>, Fault<'a>> {
    let PollLine { address, route } = line;
    let file = poll_secret(options, route);
    if options.meter.security.is_some() || (route.is_some() && file.is_none()) {
        return Ok(None);
    }
    let mut inputs = HostPollInputs::new(host);
    match secret_of(&mut inputs, options.client, file) {
        Ok(found) if options.client.has_secret() => Ok(Some(found)),
        Ok(_) => Ok(None),
        Err(fault) => Err(Fault::of_field(host.alloc(), address, options.readings, file, fault)),
    }
}

/// The association of a poll over this line, as a client asks for it: its route and its secret.
fn plan_of<'a, H: Files + Clock + AllocGlobal>(
    host: &H,
    options: &PollOptions<'a>,
    line: PollLine<'a>,
) -> Result<Plan, Fault<'a>> {
    let secret = secret(host, options, line)?;
    let client = options.client.sap();
    let route = line
        .route
        .unwrap_or(Route::Hdlc(client, Address::One(1), None));
    Ok(Plan {
        route,
        secret,
        size: SIZE,
    })
}

/// Asks once.
fn ask_once<'a, H: Net + Files<File = File> + Clock + AllocGlobal + RandomSource>(
    host: &H,
    options: &PollOptions<'a>,
    wants_first: bool,
) -> Result<Pace, Fault<'a>> {
    let line = poll_line(options)?;
    let plan = plan_of(host, options, line)?;
    let protection = protection_with(host, &options.meter, FEW_COUNTERS)?;
    let mut line = match line_to(host, &options.meter, line.address) {
        Ok(line) => line,
        Err(fault) => {
            drop(protection);
            return Err(fault);
        }
    };
    let alloc = host.alloc();
    let pace = pace_over(alloc, options, plan, protection, &mut line, wants_first);
    drop(line);
    pace
}

/// Asks the meter of a poll how often it captures rows, and when it captured the first one, if that is wanted. A meter that does not
/// answer is asked again as often as `--retries` says.
#[inline(never)]
pub fn ask_for_pace<'a, H: Net + Files<File = File> + Clock + AllocGlobal + RandomSource>(
    host: &H,
    options: &PollOptions<'a>,
    wants_first: bool,
) -> Result<Pace, Fault<'a>> {
    'calls: for _call in 0..options.meter.retries.unwrap_or(0) {
        let pace = ask_once(host, options, wants_first);
        if !is_unanswered(options.meter.place, &pace) {
            return pace;
        }
        drop(pace);
        let mut inputs = HostPollInputs::new(host);
        inputs.pause();
    }
    ask_once(host, options, wants_first)
}
