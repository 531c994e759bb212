//! The route to a meter, by the options that a poll and the requests share.

ghost use Rattle.std.specs.Prelude.{IfOk, IfSome};
ghost use Rattle.dlms_carrier.specs.Any.{IsRoute};

use dlms_client::Route;
use dlms_faults::Fault;
use dlms_frame::{Address, Client};
use dlms_text::server_of;
use dlms_words::{MeterOptions, Place, PollOptions, split_place};

/// The address, or the wrapper port, of a meter's management logical device (IEC 62056-46 and -47, reserved addresses).
const SERVER: u8 = 1;

/// What carries the APDUs over a line.
#[derive(Clone, Copy, PartialEq, Eq)]
enum Carrier {
    Hdlc,
    Wrapper,
}

/// The carrier to a place, if the line can have it and the options allow it. The place may name it, as `wrapper://HOST:PORT`;
/// otherwise an option does.
fn carrier_to(meter: &MeterOptions<'_>, place: &Place<'_>) -> Option<Carrier> {
    let carrier = match place.carrier {
        Some(carrier) => carrier,
        None if meter.wrapper => "wrapper",
        None => "hdlc",
    };
    let is_device = place.line.starts_with('/');
    let needs_frames = meter.wide || meter.information.is_some();
    if carrier == "wrapper" && !is_device && !needs_frames {
        Some(Carrier::Wrapper)
    } else if (carrier == "hdlc" || carrier == "serial" && is_device) && !meter.wrapper {
        Some(Carrier::Hdlc)
    } else {
        None
    }
}

/// The carrier to a place, and the address or the device of the line.
fn line_of<'a>(meter: &MeterOptions<'a>) -> Result<(Carrier, &'a str), Fault<'a>> {
    let place = split_place(meter.place);
    match carrier_to(meter, &place) {
        Some(carrier) => Ok((carrier, place.line)),
        None => Err(Fault::Place(meter.place)),
    }
}

/// The meter's wrapper port.
fn port<'a>(meter: &MeterOptions<'a>) -> Result<u16, Fault<'a>> {
    let Some(text) = meter.server else {
        return Ok(u16::from(SERVER));
    };
    match text.parse::<u16>() {
        Ok(port) if !text.starts_with('+') => Ok(port),
        _ => Err(Fault::Port(text)),
    }
}

/// The meter's address on an HDLC link.
fn server<'a>(meter: &MeterOptions<'a>) -> Result<Address, Fault<'a>> {
    match meter.server {
        None => Ok(Address::One(SERVER)),
        Some(text) => match server_of(text, meter.wide) {
            Some(address) => Ok(address),
            None => Err(Fault::Server(text)),
        },
    }
}

/// The size of the meter's frames that is proposed, if one is.
fn proposal(meter: &MeterOptions<'_>) -> Option<u16> {
    match meter.information {
        Some(size) => Some(u16::try_from(size).unwrap_or(0)),
        None => None,
    }
}

/// The route from the client with this address to the meter, by this carrier.
fn route_by<'a>(
    meter: &MeterOptions<'a>,
    carrier: Carrier,
    client: u32,
) -> Result<Route, Fault<'a>> {
    let client = u8::try_from(client).unwrap_or(0);
    match carrier {
        Carrier::Hdlc => Ok(Route::Hdlc(client, server(meter)?, proposal(meter))),
        Carrier::Wrapper => Ok(Route::Tcp(u16::from(client), port(meter)?)),
    }
}

/// The route from the client with this address to the meter, and the address or the device of the line.
pub fn route_of<'a>(meter: &MeterOptions<'a>, client: u32) -> Result<(Route, &'a str), Fault<'a>> {
    let (carrier, line) = line_of(meter)?;
    match route_by(meter, carrier, client) {
        Ok(route) => Ok((route, line)),
        Err(fault) => Err(fault),
    }
}

/// The line of a poll: its address or its device, and the route over it.
#[derive(Clone, Copy)]
pub struct PollLine<'a> {
    pub address: &'a str,
    /// Absent if no option asks for one: then the poll's client asks the meter at address 1 over HDLC.
    pub route: Option<Route>,
}

/// The route, if its addresses are in their ranges.
fn lawful<'a>(route: Route, place: &'a str) -> Result<Route, Fault<'a>>
    ensures { IfOk result IsRoute }
{
    if route.is_lawful() {
        Ok(route)
    } else {
        Err(Fault::Server(place))
    }
}

/// Whether a poll by this carrier goes by a route. A protected one does in each case.
fn is_routed(options: &PollOptions<'_>, carrier: Carrier) -> bool {
    let meter = &options.meter;
    let is_addressed = options.sap.is_some() || meter.server.is_some() || meter.wide;
    is_addressed
        || meter.security.is_some()
        || meter.information.is_some()
        || carrier == Carrier::Wrapper
}

/// The route of a poll by this carrier, if its addresses are in their ranges.
fn poll_route<'a>(options: &PollOptions<'a>, carrier: Carrier) -> Result<Route, Fault<'a>>
    ensures { IfOk result IsRoute }
{
    let meter = &options.meter;
    let client = options.sap.unwrap_or(u32::from(options.client.sap()));
    match route_by(meter, carrier, client) {
        Ok(route) => lawful(route, meter.place),
        Err(fault) => Err(fault),
    }
}

/// The line of a poll. A protected poll goes by a route in each case.
pub fn poll_line<'a>(options: &PollOptions<'a>) -> Result<PollLine<'a>, Fault<'a>>
    ensures { IfOk result (λ line. IfSome line.route IsRoute) }
{
    let (carrier, address) = line_of(&options.meter)?;
    if !is_routed(options, carrier) {
        return Ok(PollLine {
            address,
            route: None,
        });
    }
    match poll_route(options, carrier) {
        Ok(route) => Ok(PollLine {
            address,
            route: Some(route),
        }),
        Err(fault) => Err(fault),
    }
}

/// The file of the secret that a poll sends. Over a route the public client sends none.
pub fn poll_secret<'a>(options: &PollOptions<'a>, route: Option<Route>) -> Option<&'a str> {
    match route {
        Some(_) if options.client == Client::Public => None,
        _ => options.meter.secret_file,
    }
}

/// The public client's route to the meter of a poll.
pub fn public_route(route: Option<Route>) -> Route {
    let client = Client::Public.sap();
    match route {
        None => Route::Hdlc(client, Address::One(SERVER), None),
        Some(Route::Hdlc(_, server, proposal)) => Route::Hdlc(client, server, proposal),
        Some(Route::Tcp(_, port)) => Route::Tcp(u16::from(client), port),
    }
}
