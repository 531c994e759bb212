//! A client and a meter, and the octets between them.

use dlms_carrier::HdlcCarrier;
use dlms_client::{Client, Outcome};
use dlms_meter::Meter;
use dlms_pages::MemoryPages;
use std::alloc::Global;

/// The most exchanges until a request has its outcome.
const EXCHANGES: u16 = 400;

/// A client and a meter.
#[derive(Drop)]
pub struct Bench {
    pub alloc: Global,
    pub meter: Meter<MemoryPages<Global>, Global>,
    pub client: Client<HdlcCarrier>,
}

/// The outcome of the meter's reply to the client's octets; none if the meter is silent or the client fails.
fn exchange(bench: &mut Bench) -> Option<Outcome> {
    let (_, reply) = bench.meter.feed(bench.client.out());
    let reply = reply?;
    bench.client.feed(reply.as_slice()).result.ok()
}

/// The outcome of the client's last call, after the exchanges that it takes; none if the meter is silent or the client fails.
pub fn settled(bench: &mut Bench) -> Option<Outcome> {
    for _ in 0..EXCHANGES {
        match exchange(bench)? {
            Outcome::Nothing => {}
            outcome => return Some(outcome),
        }
    }
    None
}
