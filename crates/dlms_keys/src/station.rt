//! The keys of a station, and what they open.

ghost use Rattle.std.specs.Prelude.{◌≡◌, MatchResult, Ok, Err};
ghost use Rattle.dlms_keys.specs.Station.{authentication_for, encryption_for, first_title, is_near, is_title, opened_by, opens, title_for};

use arrayvec::ArrayVec;
use dlms_cipher::Keys;
use dlms_security::{Closed, Header, KeyKind, Known, MOST_APDU, Policy, open_message};

/// The keys of a station, a meter or a client. They have no `Debug` form, so that no key is printed by mistake. Dropping them does
/// not wipe the keys.
#[derive(Clone, Copy)]
pub struct Station {
    /// Its system title.
    pub title: [u8; 8],
    /// The global unicast encryption key, of messages in both directions.
    pub encryption_key: [u8; 16],
    /// The authentication key. Without it only messages open that have no tag.
    pub authentication_key: Option<[u8; 16]>,
}

/// The sender of a message, as it says itself, or as the association says.
pub(crate) fn first_title(named: Option<[u8; 8]>, sender: Option<[u8; 8]>) -> Option<[u8; 8]>
    ensures { result ≡ first_title named sender }
{
    match named {
        Some(title) => Some(title),
        None => sender,
    }
}

/// The title under which a message is opened: its sender's, or the station's own if the sender is not known.
fn title_for(sender: Option<[u8; 8]>, station: &Station) -> [u8; 8]
    ensures { result ≡ title_for sender station.now }
{
    match sender {
        Some(title) => title,
        None => station.title,
    }
}

/// The encryption key of a kind of message.
fn encryption_for(
    kind: KeyKind,
    dedicated: Option<[u8; 16]>,
    station: &Station,
) -> Result<[u8; 16], Closed>
    ensures { result ≡ encryption_for kind dedicated station.now }
{
    match (kind, dedicated) {
        (KeyKind::Global, _) => Ok(station.encryption_key),
        (KeyKind::Dedicated, Some(key)) => Ok(key),
        (KeyKind::Dedicated, None) => Err(Closed::NoDedicatedKey),
    }
}

/// The authentication key of a message under this policy; any, if it has no tag.
fn authentication_for(policy: Policy, station: &Station) -> Result<[u8; 16], Closed>
    ensures { result ≡ authentication_for policy station.now }
{
    match (station.authentication_key, policy) {
        (Some(key), _) => Ok(key),
        (None, Policy::Encrypted) => Ok([0; 16]),
        (None, _) => Err(Closed::NoAuthenticationKey),
    }
}

/// The APDU in a message with this header under the keys of a station.
pub(crate) fn open_with(
    station: &Station,
    known: &Known,
    policy: Policy,
    header: Header,
    message: &[u8],
) -> Result<ArrayVec<u8, MOST_APDU>, Closed>
    ensures { let by = opened_by known.now policy header message.now station.now in
        MatchResult result (λ apdu. by ≡ Ok apdu.items) (λ f. by ≡ Err f) }
{
    let encryption = encryption_for(header.kind, known.dedicated_key, station)?;
    let authentication = authentication_for(policy, station)?;
    let title = title_for(first_title(header.title, known.sender), station);
    match open_message(&Keys::new(encryption, authentication), &title, message) {
        Ok(apdu) => Ok(apdu),
        Err(fault) => Err(Closed::Refused(fault)),
    }
}

/// Whether the keys of a station open a message with this header.
pub(crate) fn opens(
    station: &Station,
    known: &Known,
    policy: Policy,
    header: Header,
    message: &[u8],
) -> bool
    ensures { result ≡ opens known.now policy header message.now station.now }
{
    open_with(station, known, policy, header, message).is_ok()
}

/// Whether a title is this one.
pub(crate) fn is_title(title: &[u8; 8], other: Option<[u8; 8]>) -> bool
    ensures { result ≡ is_title title.now other }
{
    match other {
        Some(other) => *title == other,
        None => false,
    }
}

/// Whether a station is the sender or the receiver of a message with this header.
pub(crate) fn is_near(station: &Station, known: &Known, header: Header) -> bool
    ensures { result ≡ is_near known.now header station.now }
{
    is_title(&station.title, header.title)
        || is_title(&station.title, known.sender)
        || is_title(&station.title, known.receiver)
}
