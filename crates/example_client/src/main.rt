//! A client and a meter, in memory: the objects, a text that is set and read, the clock, and blocks both ways.
#![tactic(auto)]

mod line;

use anyhow::{Result, anyhow};
use arrayvec::ArrayVec;
use dlms_association::Terms;
use dlms_carrier::HdlcCarrier;
use dlms_client::{Answer, Client, Outcome, Plan, Route};
use dlms_data::{Data, Descriptor, fits, octet_string_of, octets, read, secs};
use dlms_frame::Address;
use dlms_meter::Meter;
use dlms_pages::MemoryPages;
use dlms_store::PAGES;
use line::{Bench, settled};
use std::alloc::Global;

/// The object list of the association.
const OBJECTS: Descriptor = Descriptor {
    class: 15,
    name: [0, 0, 40, 0, 0, 255],
    id: 2,
};

/// The text.
const TEXT: Descriptor = Descriptor {
    class: 1,
    name: [0, 0, 96, 1, 1, 255],
    id: 2,
};

/// The time.
const TIME: Descriptor = Descriptor {
    class: 8,
    name: [0, 0, 1, 0, 0, 255],
    id: 2,
};

/// The clock's method that takes it to the nearest full minute.
const ADJUST: Descriptor = Descriptor {
    class: 8,
    name: [0, 0, 1, 0, 0, 255],
    id: 3,
};

/// What nobody may set.
const NAME: Descriptor = Descriptor {
    class: 1,
    name: [0, 0, 42, 0, 0, 255],
    id: 2,
};

/// The value of an attribute.
fn value_of(bench: &mut Bench, attribute: Descriptor) -> Result<Data<Global>> {
    if !bench.client.is_free() {
        return Err(anyhow!("the client is not free"));
    }
    bench.client.get::<Global>(attribute, None)?;
    match settled(bench) {
        Some(Outcome::Answered(Answer::Value)) => match read(bench.alloc, bench.client.value()) {
            Ok((value, _)) => Ok(value),
            Err(_) => Err(anyhow!("no value")),
        },
        _ => Err(anyhow!("no value came")),
    }
}

/// The result of setting an attribute.
fn set(bench: &mut Bench, attribute: Descriptor, value: Data<Global>) -> Result<u8> {
    if !bench.client.is_free() || !fits(&value) {
        drop(value);
        return Err(anyhow!("the client is not free"));
    }
    bench.client.set(attribute, None, value)?;
    match settled(bench) {
        Some(Outcome::Answered(Answer::Result(code))) => Ok(code),
        _ => Err(anyhow!("no result came")),
    }
}

/// The result of a method with this parameter.
fn act(bench: &mut Bench, method: Descriptor, parameter: Data<Global>) -> Result<u8> {
    if !bench.client.is_free() || !fits(&parameter) {
        drop(parameter);
        return Err(anyhow!("the client is not free"));
    }
    bench.client.act(method, Some(parameter))?;
    match settled(bench) {
        Some(Outcome::Answered(Answer::Result(code))) => Ok(code),
        _ => Err(anyhow!("no result came")),
    }
}

/// How the last answer came.
fn way(bench: &Bench) -> &'static str {
    match bench.client.apdu() {
        [0xc4 | 0xc5 | 0xc7, 0x01, ..] => "in one piece",
        [0xc4, 0x02, ..] | [0xc5, 0x03, ..] => "in blocks",
        _ => "in another way",
    }
}

/// The octets of an octet-string; none of another value.
fn octets_of(value: &Data<Global>) -> &[u8] {
    match value {
        Data::OctetString(bytes) => bytes.as_slice(),
        _ => &[],
    }
}

/// Management, by this address of the meter, with APDUs of this many bytes.
fn management(server: Address, size: u16) -> Plan {
    let mut secret = ArrayVec::new();
    let _fits = secret.try_extend_from_slice(b"12345678");
    Plan {
        route: Route::Hdlc(1, server, None),
        secret: Some(secret),
        size,
    }
}

/// The objects are listed.
fn list<R: Print>(rt: &R, bench: &mut Bench) -> Result<()> {
    let objects = value_of(bench, OBJECTS)?;
    let count = match &objects {
        Data::Array(items) => items.as_slice().len(),
        _ => 0,
    };
    drop(objects);
    println!(rt; "{count} objects, {}", way(bench))?;
    Ok(())
}

/// A text is set and read.
fn text<R: Print>(rt: &R, bench: &mut Bench) -> Result<()> {
    let text = octet_string_of(bench.alloc, &[0x2e; 200])?;
    let result = set(bench, TEXT, text)?;
    println!(rt; "text set: {result}, {}", way(bench))?;
    let text = value_of(bench, TEXT)?;
    let count = octets_of(&text).len();
    drop(text);
    println!(rt; "text: {count} octets, {}", way(bench))?;
    Ok(())
}

/// The clock is set and adjusted.
fn set_clock<R: Print>(rt: &R, bench: &mut Bench) -> Result<()> {
    let time = octet_string_of(bench.alloc, octets(86_399).as_slice())?;
    let result = set(bench, TIME, time)?;
    println!(rt; "clock set: {result}")?;
    let long = octet_string_of(bench.alloc, &[0x2e; 200])?;
    let result = act(bench, ADJUST, long)?;
    println!(rt; "clock adjusted: {result}")?;
    Ok(())
}

/// The clock is read.
fn clock<R: Print>(rt: &R, bench: &mut Bench) -> Result<()> {
    let time = value_of(bench, TIME)?;
    let second = secs(octets_of(&time));
    drop(time);
    match second {
        Some(second) => println!(rt; "clock: {second}")?,
        None => println!(rt; "no clock")?,
    }
    Ok(())
}

/// What nobody may set is set in vain.
fn refused<R: Print>(rt: &R, bench: &mut Bench) -> Result<()> {
    let name = octet_string_of(bench.alloc, b"1")?;
    let result = set(bench, NAME, name)?;
    println!(rt; "name set: {result}")?;
    Ok(())
}

/// One association.
fn session<R: Print>(rt: &R, bench: &mut Bench) -> Result<()> {
    list(rt, bench)?;
    text(rt, bench)?;
    set_clock(rt, bench)?;
    clock(rt, bench)?;
    refused(rt, bench)
}

/// A new meter in memory.
fn meter_of(alloc: Global) -> Result<Meter<MemoryPages>> {
    let pages = MemoryPages::new(alloc, PAGES)?;
    match Meter::format(alloc, pages) {
        Ok(meter) => Ok(meter),
        Err(refused) => {
            drop(refused);
            Err(anyhow!("no meter"))
        }
    }
}

/// A client by this plan, over an HDLC link.
fn client_of(alloc: Global, plan: Plan) -> Result<Client<HdlcCarrier>> {
    if !plan.is_lawful() {
        drop(plan);
        return Err(anyhow!("no such plan"));
    }
    let Plan {
        route,
        secret,
        size,
    } = plan;
    match route {
        Route::Hdlc(sap, server, proposal) => Ok(Client::new(
            alloc,
            HdlcCarrier::new(alloc, sap, server, proposal)?,
            Terms { secret, size },
        )),
        Route::Tcp(_, _) => Err(anyhow!("not over HDLC")),
    }
}

/// A meter in memory, and a client by this plan.
fn bench_of(alloc: Global, plan: Plan) -> Result<Bench> {
    let client = client_of(alloc, plan)?;
    match meter_of(alloc) {
        Ok(meter) => Ok(Bench {
            alloc,
            meter,
            client,
        }),
        Err(fault) => {
            drop(client);
            Err(fault)
        }
    }
}

/// The client's session, from its request for a connection to the connection's end.
fn converse<R: Print>(rt: &R, bench: &mut Bench) -> Result<()> {
    if !bench.client.can_begin() {
        return Err(anyhow!("the client cannot begin"));
    }
    bench.client.begin();
    match settled(bench) {
        Some(Outcome::Associated) => session(rt, bench)?,
        _ => println!(rt; "no association")?,
    }
    leave(rt, bench)
}

/// A client by this plan, from its request for a connection to the connection's end.
fn talk<R: Print + AllocGlobal>(rt: &R, plan: Plan) -> Result<()> {
    let mut bench = bench_of(rt.alloc(), plan)?;
    let talked = converse(rt, &mut bench);
    drop(bench);
    talked
}

/// The association is released.
fn leave<R: Print>(rt: &R, bench: &mut Bench) -> Result<()> {
    if !bench.client.is_free() {
        return Err(anyhow!("the client is not free"));
    }
    bench.client.release();
    match settled(bench) {
        Some(Outcome::Down) => println!(rt; "down")?,
        _ => println!(rt; "not down")?,
    }
    Ok(())
}

fn main(rt: HostRuntime) -> Result<()> {
    talk(&rt, management(Address::One(1), 1024))?;
    talk(&rt, management(Address::Two(1, 17), 64))?;
    talk(&rt, management(Address::Four(1, 17), 256))?;
    Ok(())
}
