//! The list of the meters: a line for each, with its name, its place and its options.

ghost use Rattle.std.specs.Prelude.{◌≡◌};
ghost use Rattle.std.specs.List.{list_all};
ghost use Rattle.dlms_collecting.specs.List.{begins_name, is_mark, is_name, is_name_byte};

use crate::list_fault::{LineFault, ListFault};
use dlms_client::Route;
use dlms_frame::{Address, Client};
use dlms_identity::Expected;
use dlms_lines::host_and_port;
use dlms_text::{server_of, written_name};
use std::alloc::Global;
use std::collections::HashSet;

/// The address, or the wrapper port, of a meter's management logical device (IEC 62056-46 and -47, reserved addresses).
const SERVER: u8 = 1;

/// The greatest address of a client.
const LAST_CLIENT: u8 = 127;

/// The logical device name (IEC 62056-6-1, COSEM logical device name).
const DEVICE_NAME: [u8; 6] = [0, 0, 42, 0, 0, 255];

/// A meter of the list.
#[derive(Clone, Copy)]
pub struct Meter<'a> {
    /// Its line of the list, without blanks around it.
    pub line: &'a str,
    /// Its name, and that of its readings file without `.csv`.
    pub name: &'a str,
    /// Its host, or its host and its port, as the line has them.
    pub place: &'a str,
    /// The client that polls it.
    pub client: Client,
    /// The way to it, with addresses in their ranges (`Route::is_lawful`).
    pub route: Route,
    /// Whether no option asks for a route. Then a client without a secret file sends its first secret, as in `poll`.
    pub is_plain: bool,
    /// The file of the client's secret.
    pub secret_file: Option<&'a str>,
    /// The file of the client's settings, if the association is to be protected.
    pub security: Option<&'a str>,
    /// The text that an object of the meter has to show.
    pub expected: Option<Expected<'a>>,
}

/// The client of the meters whose lines name none.
#[derive(Clone, Copy)]
pub struct Defaults<'a> {
    /// Its address, 1 to 127, if it is given.
    pub client: Option<u8>,
    /// The file of its secret, if one is given.
    pub secret_file: Option<&'a str>,
}

/// The options of a line, as it has them, and the address of the client that the command names.
#[derive(Clone, Copy)]
struct Options<'a> {
    default_client: Option<u8>,
    client: Option<&'a str>,
    secret_file: Option<&'a str>,
    security: Option<&'a str>,
    carrier: Option<&'a str>,
    server: Option<&'a str>,
    expect: Option<&'a str>,
}

/// The names and the files of settings of the lines before. No two meters have the same.
#[derive(Drop)]
struct Earlier<'a> {
    names: HashSet<&'a str>,
    settings: HashSet<&'a str>,
}

/// Whether a byte is a low line or a hyphen.
fn is_mark(byte: u8) -> bool
    ensures { result ≡ is_mark byte }
{
    byte == b'_' || byte == b'-'
}

/// Whether a name may contain this byte.
fn is_name_byte(byte: u8) -> bool
    ensures { result ≡ is_name_byte byte }
{
    byte.is_ascii_alphanumeric() || byte == b'.' || is_mark(byte)
}

/// Whether a word begins as a name does: with any byte but a full stop.
fn begins_name(word: &[u8]) -> bool
    ensures { result ≡ begins_name word.now }
{
    match word {
        [first, ..] => *first != b'.',
        [] => false,
    }
}

/// Whether a name may contain all of these bytes.
fn are_name_bytes(word: &[u8]) -> bool
    ensures { result ≡ list_all is_name_byte word.now }
{
    word.iter().all(|byte| is_name_byte(*byte))
}

/// Whether a word is a name: it leads to a file in its folder.
fn is_name(word: &[u8]) -> bool
    ensures { result ≡ is_name word.now }
{
    begins_name(word) && are_name_bytes(word)
}

/// Keeps the value of an option that was not given before.
fn keep<'a>(option: &mut Option<&'a str>, value: &'a str) -> Result<(), LineFault> {
    if option.is_some() {
        return Err(LineFault::OptionTwice);
    }
    if value.is_empty() {
        return Err(LineFault::Option);
    }
    *option = Some(value);
    Ok(())
}

impl<'a> Options<'a> {
    /// The line has none.
    fn none(defaults: &Defaults<'a>) -> Self {
        Options {
            default_client: defaults.client,
            client: None,
            secret_file: None,
            security: None,
            carrier: None,
            server: None,
            expect: None,
        }
    }

    /// Reads an option.
    fn read(&mut self, word: &'a str) -> Result<(), LineFault> {
        let Some((key, value)) = word.split_once('=') else {
            return Err(LineFault::Option);
        };
        match key {
            "client" => keep(&mut self.client, value),
            "secret-file" => keep(&mut self.secret_file, value),
            "carrier" => keep(&mut self.carrier, value),
            "server" => keep(&mut self.server, value),
            "security" => keep(&mut self.security, value),
            "expect" => keep(&mut self.expect, value),
            _ => Err(LineFault::Option),
        }
    }
}

/// The client of a line, and its address: that of its option, or the one that the command names, or management. A client that has only an
/// address has the rights of management here.
fn client_of(options: &Options<'_>) -> Option<(Client, u8)> {
    match options.client {
        Some("management") => Some((Client::Management, Client::Management.sap())),
        Some("reader") => Some((Client::Reader, Client::Reader.sap())),
        Some("public") => Some((Client::Public, Client::Public.sap())),
        Some(digits) => {
            let sap = digits.parse::<u8>().ok()?;
            if sap == 0 || sap > LAST_CLIENT || digits.starts_with('+') {
                return None;
            }
            Some((Client::Management, sap))
        }
        None => {
            let sap = options.default_client.unwrap_or(Client::Management.sap());
            Some((Client::Management, sap))
        }
    }
}

/// Whether the client of a line is given by its address, which asks for a route.
fn is_address(options: &Options<'_>) -> bool {
    match options.client {
        None => options.default_client.is_some(),
        Some("management" | "reader" | "public") => false,
        Some(_) => true,
    }
}

/// The route over HDLC from the client of this address.
fn hdlc_route(client: u8, server: Option<&str>) -> Option<Route> {
    match server {
        None => Some(Route::Hdlc(client, Address::One(SERVER), None)),
        Some(text) => Some(Route::Hdlc(client, server_of(text, false)?, None)),
    }
}

/// The route over the wrapper from the client of this address.
fn wrapper_route(client: u8, server: Option<&str>) -> Option<Route> {
    match server {
        None => Some(Route::Tcp(u16::from(client), u16::from(SERVER))),
        Some(text) if text.starts_with('+') => None,
        Some(text) => Some(Route::Tcp(u16::from(client), text.parse::<u16>().ok()?)),
    }
}

/// The route by these options from the client of this address.
fn route_of(options: &Options<'_>, client: u8) -> Result<Route, LineFault> {
    let (route, fault) = match options.carrier {
        None | Some("hdlc") => (hdlc_route(client, options.server), LineFault::Server),
        Some("wrapper") => (wrapper_route(client, options.server), LineFault::Port),
        Some(_) => return Err(LineFault::Carrier),
    };
    match route {
        Some(route) if route.is_lawful() => Ok(route),
        _ => Err(fault),
    }
}

/// The object and the text that an option gives: `NAME=TEXT`, or the text alone, which is the logical device name.
fn expected_in(text: &str) -> Option<Expected<'_>> {
    let Some((object, shown)) = text.split_once('=') else {
        return Some(Expected {
            name: DEVICE_NAME,
            text,
        });
    };
    match written_name(object) {
        Some(name) if name.number.is_none() => Some(Expected {
            name: name.code,
            text: shown,
        }),
        _ => None,
    }
}

/// The object and the text that a line expects, if it expects one.
fn expected_of<'a>(options: &Options<'a>) -> Result<Option<Expected<'a>>, (&'a str, LineFault)> {
    let Some(text) = options.expect else {
        return Ok(None);
    };
    match expected_in(text) {
        Some(expected) => Ok(Some(expected)),
        None => Err((text, LineFault::Expect)),
    }
}

/// Judges a name and a place.
fn judge_place(name: &str, place: &str) -> Result<(), (bool, LineFault)> {
    if !is_name(name.as_bytes()) {
        return Err((false, LineFault::Name));
    }
    if place.starts_with('/') {
        return Err((true, LineFault::Serial));
    }
    match host_and_port(place) {
        Some(_) => Ok(()),
        None => Err((true, LineFault::Place)),
    }
}

/// The meter with this name and place, and these options.
fn with_options<'a>(
    line: &'a str,
    name: &'a str,
    place: &'a str,
    options: &Options<'a>,
) -> Result<Meter<'a>, (&'a str, LineFault)> {
    let Some((client, sap)) = client_of(options) else {
        return Err((options.client.unwrap_or(""), LineFault::Client));
    };
    let expected = expected_of(options)?;
    match route_of(options, sap) {
        Ok(route) => Ok(Meter {
            line,
            name,
            place,
            client,
            route,
            is_plain: options.server.is_none()
                && options.carrier != Some("wrapper")
                && !is_address(options),
            secret_file: options.secret_file,
            security: options.security,
            expected,
        }),
        Err(LineFault::Carrier) => Err((options.carrier.unwrap_or(""), LineFault::Carrier)),
        Err(fault) => Err((options.server.unwrap_or(""), fault)),
    }
}

/// The meter of a line that is not empty. A fault comes with the word that is refused.
fn meter_of<'a>(line: &'a str, defaults: &Defaults<'a>) -> Result<Meter<'a>, (&'a str, LineFault)> {
    let mut words = line.split_whitespace();
    let Some(name) = words.next() else {
        return Err((line, LineFault::NoPlace));
    };
    let Some(place) = words.next() else {
        return Err((name, LineFault::NoPlace));
    };
    match judge_place(name, place) {
        Ok(()) => {}
        Err((is_place, fault)) => return Err((if is_place { place } else { name }, fault)),
    }
    let mut options = Options::none(defaults);
    for word in words {
        if let Err(fault) = options.read(word) {
            return Err((word, fault));
        }
    }
    if let Some(file) = options.security
        && options.secret_file.is_some()
    {
        return Err((file, LineFault::NoSecret));
    }
    if options.security.is_none() {
        options.secret_file = options.secret_file.or(defaults.secret_file);
    }
    with_options(line, name, place, &options)
}

impl<'a> Earlier<'a> {
    /// Adds the name and the file of settings of the meter in this line, unless an earlier line has one of them.
    fn add(&mut self, number: usize, meter: &Meter<'a>) -> Result<(), ListFault<'a>> {
        if !self.names.insert(meter.name)? {
            return Err(ListFault::Line(number, meter.name, LineFault::NameTwice));
        }
        let Some(file) = meter.security else {
            return Ok(());
        };
        if !self.settings.insert(file)? {
            return Err(ListFault::Line(number, file, LineFault::SecurityTwice));
        }
        Ok(())
    }
}

/// The meters of a list. Empty lines, and lines that begin with `#`, have none. No two meters have the same name or the same file of
/// settings.
pub fn read_list<'a>(
    alloc: Global,
    text: &'a str,
    defaults: &Defaults<'a>,
) -> Result<Vec<Meter<'a>>, ListFault<'a>> {
    let mut meters = Vec::new(alloc);
    let mut earlier = Earlier {
        names: HashSet::new(alloc),
        settings: HashSet::new(alloc),
    };
    let mut number = 0usize;
    for line in text.lines() {
        number = number.saturating_add(1);
        let line = line.trim();
        if line.is_empty() || line.starts_with('#') {
            continue;
        }
        let meter = match meter_of(line, defaults) {
            Ok(meter) => meter,
            Err((word, fault)) => return Err(ListFault::Line(number, word, fault)),
        };
        earlier.add(number, &meter)?;
        meters.push(meter)?;
    }
    Ok(meters)
}
