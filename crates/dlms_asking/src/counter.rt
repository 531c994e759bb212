//! The last frame counter that a meter accepted from the client, as it tells every client.

use crate::asking::line_to;
use crate::connection::{Calls, open_association};
use crate::requests::{MeterSession, read_name};
use crate::route::route_of;
use dlms_call::CallFault;
use dlms_client::{Fault as TalkFault, Plan, Route};
use dlms_data::Descriptor;
use dlms_ends::End;
use dlms_faults::Fault;
use dlms_text::Name;
use dlms_values::{Value, read};
use dlms_words::MeterOptions;
use std::alloc::Global;
use std::fs::File;
use std::net::Net;
use std::rt::Files;
use std::time::Clock;

/// The public client, which needs neither secret nor key (IEC 62056-5-3).
const PUBLIC: u32 = 16;

/// The class Data, and its value (IEC 62056-6-2, Blue Book 4.3.1).
const DATA: u16 = 1;

const VALUE: u8 = 2;

/// The most octets of the encoding of a counter, and of an APDU in this association.
const MOST: u32 = 16;

const SIZE: u16 = 1_024;

/// The counter in an encoding, if it is an unsigned number of 32 bits.
fn counter_in(bytes: &[u8]) -> Option<u32> {
    match read(bytes) {
        Ok((Value::Unsigned(_, number), _)) => u32::try_from(number).ok(),
        _ => None,
    }
}

impl<'a, C: Calls> MeterSession<'a, '_, C> {
    /// The counter that an object has.
    fn counter(&mut self, name: &'a str, attribute: Descriptor) -> Result<u32, Fault<'a>> {
        self.fetch(name, attribute)?;
        match counter_in(self.calls.value()) {
            Some(counter) => Ok(counter),
            None => Err(Fault::Call(self.place, CallFault::Talk(TalkFault::Form))),
        }
    }
}

/// The counter, by an association, which then ends.
fn counter_by<'a, C: Calls>(
    alloc: Global,
    place: &'a str,
    name: &'a str,
    attribute: Descriptor,
    calls: &mut C,
) -> Result<u32, Fault<'a>> {
    let mut refused = Vec::new(alloc);
    let mut talk = MeterSession {
        alloc,
        place,
        calls,
        most: MOST,
        refused: &mut refused,
    };
    let told = talk.counter(name, attribute);
    talk.end();
    told
}

/// The counter, over a line.
fn counter_over<'a, S: End>(
    alloc: Global,
    place: &'a str,
    route: Route,
    name: &'a str,
    attribute: Descriptor,
    line: &mut S,
) -> Result<u32, Fault<'a>> {
    let plan = Plan {
        route,
        secret: None,
        size: SIZE,
    };
    match open_association(alloc, place, plan, None, line) {
        Ok(mut connection) => counter_by(alloc, place, name, attribute, &mut connection),
        Err(fault) => Err(fault),
    }
}

/// The attribute that a name of a counter means.
fn counter_attribute(said: Name) -> Descriptor {
    let name = said.code;
    Descriptor {
        class: DATA,
        name,
        id: said.number.unwrap_or(VALUE),
    }
}

/// The last counter that the meter accepted from the client, by an object of class Data that the public client may read. Nothing
/// authenticates it.
#[inline(never)]
pub fn last_counter<'a, H: Net + Files<File = File> + Clock + AllocGlobal>(
    host: &H,
    meter: &MeterOptions<'a>,
    name: &'a str,
) -> Result<u32, Fault<'a>> {
    let attribute = counter_attribute(read_name(name)?);
    let (route, address) = route_of(meter, PUBLIC)?;
    let mut line = line_to(host, meter, address)?;
    let told = counter_over(host.alloc(), meter.place, route, name, attribute, &mut line);
    drop(line);
    told
}
