//! The sender and the receiver of a frame.

ghost use Rattle.std.specs.Prelude.{◌≡◌};
ghost use Rattle.dlms_dissect.specs.Parties.{lower, parties_of, side_by_content, side_by_form, side_by_management, side_of, upper};
ghost use Rattle.dlms_dissect.specs.Talks.{are_same, may_be};

use crate::control::{Control, read};
use dlms_frame::{Address, Frame};

/// An end of the line.
#[derive(Clone, Copy, PartialEq, Eq)]
pub enum Side {
    Client,
    Meter,
}

/// The two ends of a session, by the upper part of each one's address, and by the lower part of the meter's, if it has one.
#[derive(Clone, Copy)]
pub struct Parties {
    pub client: u16,
    pub meter: u16,
    pub lower: Option<u16>,
}

/// Whether two lower parts may be those of one meter, whose addresses may be of several forms.
fn may_be(one: Option<u16>, other: Option<u16>) -> bool
    ensures { result ≡ may_be one other }
{
    match (one, other) {
        (Some(one), Some(other)) => one == other,
        _ => true,
    }
}

impl Parties {
    /// Whether these are the same ends.
    pub fn are_same(self, other: Parties) -> bool
        ensures { result ≡ are_same self other }
    {
        self.client == other.client && self.meter == other.meter && may_be(self.lower, other.lower)
    }
}

/// The service access point of the meter's management.
const MANAGEMENT: u16 = 1;

/// The second octet before a client's APDU (IEC 62056-46, the LLC sublayer).
const FROM_CLIENT: u8 = 0xe6;

/// The same of a meter's.
const FROM_METER: u8 = 0xe7;

/// The upper part of an address.
pub fn upper(address: Address) -> u16
    ensures { result ≡ upper address }
{
    match address {
        Address::One(upper) => u16::from(upper),
        Address::Two(upper, _) => u16::from(upper),
        Address::Four(upper, _) => upper,
    }
}

/// The lower part of an address, if it has one.
pub fn lower(address: Address) -> Option<u16>
    ensures { result ≡ lower address }
{
    match address {
        Address::One(_) => None,
        Address::Two(_, lower) => Some(u16::from(lower)),
        Address::Four(_, lower) => Some(lower),
    }
}

/// Who sends the frame, told by the forms of its addresses: a client's has one byte.
fn side_by_form(frame: &Frame<'_>) -> Option<Side>
    ensures { result ≡ side_by_form frame.now }
{
    match (lower(frame.dest), lower(frame.src)) {
        (Some(_), None) => Some(Side::Client),
        (None, Some(_)) => Some(Side::Meter),
        _ => None,
    }
}

/// Who sends the frame, told by which address is that of a meter's management.
fn side_by_number(frame: &Frame<'_>) -> Option<Side>
    ensures { result ≡ side_by_management frame.now }
{
    match (upper(frame.dest), upper(frame.src)) {
        (MANAGEMENT, MANAGEMENT) => None,
        (MANAGEMENT, _) => Some(Side::Client),
        (_, MANAGEMENT) => Some(Side::Meter),
        _ => None,
    }
}

/// The sender of the frame, by its content.
fn side_by_content(frame: &Frame<'_>) -> Option<Side>
    ensures { result ≡ side_by_content frame.now }
{
    match read(frame.control) {
        Control::Snrm | Control::Disc => return Some(Side::Client),
        Control::Ua | Control::Dm | Control::Frmr => return Some(Side::Meter),
        _ => {}
    }
    match frame.info {
        [_, FROM_CLIENT, 0, ..] => Some(Side::Client),
        [_, FROM_METER, 0, ..] => Some(Side::Meter),
        _ => None,
    }
}

/// Who sends the frame: the side that the line says, or else what its addresses and its content tell.
pub fn side_of(said: Option<Side>, frame: &Frame<'_>) -> Option<Side>
    ensures { result ≡ side_of said frame.now }
{
    said.or(side_by_form(frame))
        .or(side_by_number(frame))
        .or(side_by_content(frame))
}

/// The two ends of a frame that this side sends; if it is not known, it is taken as the client's.
pub fn parties_of(side: Option<Side>, frame: &Frame<'_>) -> Parties
    ensures { result ≡ parties_of side frame.now }
{
    match side {
        Some(Side::Meter) => Parties {
            client: upper(frame.dest),
            meter: upper(frame.src),
            lower: lower(frame.src),
        },
        _ => Parties {
            client: upper(frame.src),
            meter: upper(frame.dest),
            lower: lower(frame.dest),
        },
    }
}
