//! The host and the port of a meter's place.

/// The registered port of DLMS/COSEM (IEC 62056-47).
const PORT: u16 = 4_059;

/// The address of IP version 6 in the brackets, or the whole text.
fn without_brackets(host: &str) -> &str {
    match host.strip_prefix('[') {
        Some(rest) => rest.strip_suffix(']').unwrap_or(host),
        None => host,
    }
}

/// The host and the port of a place, `HOST:PORT` or `HOST` with the registered port; an address of IP version 6 is in brackets. `None` if
/// the place has neither form.
pub fn host_and_port(place: &str) -> Option<(&str, u16)> {
    let (host, port) = match place.rsplit_once(':') {
        Some((host, digits)) if !place.ends_with(']') => (host, digits.parse::<u16>().ok()?),
        _ => (place, PORT),
    };
    let host = without_brackets(host);
    if host.is_empty() {
        return None;
    }
    Some((host, port))
}
