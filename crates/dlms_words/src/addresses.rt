//! Addresses of a host and a port, and places, which may name a carrier.
ghost use Rattle.std.specs.Prelude.{◌≡◌, ◌↔◌, ◌<◌, length, option_map, is_some, IsTrue};
ghost use Rattle.std.specs.List.{list_all, list_any};
ghost use lib.Dec.{eqb};
ghost use Rattle.dlms_words.specs.Addresses.{EndsHost, IsAddress, IsPlace, IsPort, carrier_of, is_bracketed, is_device, is_host, is_host_octet, line_of};

use crate::numbers::number;

/// The octet between a host and a port.
const COLON: u8 = b':';

/// The greatest port.
const LAST_PORT: u32 = 65_535;

/// Whether these digits are those of a port.
fn is_port(digits: &[u8]) -> bool
    ensures { IsTrue result ↔ IsPort digits.now }
{
    match number(digits) {
        Some(port) => port <= LAST_PORT,
        None => false,
    }
}

/// Whether a host ends at this place, followed by a port.
fn ends_host(text: &[u8], at: usize) -> bool
    requires { at < length text.now }
    ensures { IsTrue result ↔ EndsHost text.now at }
{
    text[at] == COLON && is_port(&text[at + 1..])
}

/// Whether a text is a host, a colon and a port. Which host that is, and whether it has a name, is the system's to say.
pub fn is_address(text: &[u8]) -> bool
    ensures { IsTrue result ↔ IsAddress text.now }
{
    for at in 1..text.len() {
        if ends_host(text, at) {
            return true;
        }
    }
    false
}

/// Whether a text is the path of a device, from the root on.
pub fn is_device(text: &[u8]) -> bool
    ensures { result ≡ is_device text.now }
{
    match text {
        [b'/', ..] => true,
        _ => false,
    }
}

/// A place where a meter is: the line to it, and the carrier of the line if the place names one.
#[derive(Clone, Copy)]
pub struct Place<'a> {
    /// The name before `://`, which need not be that of a carrier.
    pub carrier: Option<&'a str>,
    /// The address of a host and a port, or the path of a device; whether it is one of these is not checked.
    pub line: &'a str,
}

/// Splits a place such as `wrapper://HOST:PORT` at its first colon, if two slashes follow that. Any other text is a line.
pub fn split_place(place: &str) -> Place<'_>
    ensures carrier { option_map (λ name. name.now) result.carrier ≡ carrier_of place.now }
    ensures line { result.line.now ≡ line_of place.now }
{
    let whole = Place {
        carrier: None,
        line: place,
    };
    let Some((name, rest)) = place.split_once(':') else {
        return whole;
    };
    match rest.strip_prefix("//") {
        Some(line) => Place {
            carrier: Some(name),
            line,
        },
        None => whole,
    }
}

/// Whether an octet may be in the name of a host.
fn is_host_octet(octet: u8) -> bool
    ensures { result ≡ is_host_octet octet }
{
    octet.is_ascii_alphanumeric() || octet == b'-' || octet == b'.' || octet == b'_'
}

/// Whether all octets may be in the name of a host.
fn are_host_octets(text: &[u8]) -> bool
    ensures { result ≡ list_all is_host_octet text.now }
{
    text.iter().all(|octet| is_host_octet(*octet))
}

/// Whether a text has a point in it.
fn has_point(text: &[u8]) -> bool
    ensures { result ≡ list_any (λ octet. eqb octet 46) text.now }
{
    text.iter().any(|octet| *octet == b'.')
}

/// Whether a text is an address in brackets.
fn is_bracketed(text: &[u8]) -> bool
    ensures { result ≡ is_bracketed text.now }
{
    match text {
        [b'[', ..] => true,
        _ => false,
    }
}

/// Whether a line, after a carrier or without one, is a host alone.
fn is_host(has_carrier: bool, line: &str) -> bool
    ensures { result ≡ is_host has_carrier line.now }
{
    let octets = line.as_bytes();
    line == "localhost"
        || is_bracketed(octets)
        || are_host_octets(octets) && (has_point(octets) || has_carrier && octets.len() > 0)
}

/// Whether a place names a carrier.
fn names_carrier(place: &str) -> bool
    ensures { result ≡ is_some (carrier_of place.now) }
{
    split_place(place).carrier.is_some()
}

/// Whether a text is a place where a meter may be: the device of a serial line, or a host, with a port or without one.
pub fn is_place(place: &str) -> bool
    ensures { IsTrue result ↔ IsPlace place.now }
{
    let line = split_place(place).line;
    is_device(line.as_bytes()) || is_address(line.as_bytes()) || is_host(names_carrier(place), line)
}
