//! The data that a capture gives for a packet: its time and its link.

ghost use Rattle.std.specs.Prelude.{◌≡◌, ◌+◌, ◌≤◌, IfSome, OnSome, length, take, option_map};
ghost use Rattle.dlms_capture.specs.Numbers.{number_at, part_at, rest_at};

use byteorder::{BigEndian, ByteOrder, LittleEndian};

/// When a packet came: seconds since 1970-01-01 00:00:00 UTC.
#[derive(Clone, Copy, Debug, PartialEq, Eq)]
pub struct Stamp {
    pub seconds: u64,
    pub nanoseconds: u32,
}

/// A packet: its time, if that is given, the number of its link layer (the registry of LINKTYPE values), and its octets.
#[derive(Clone, Copy)]
pub struct Packet<'a> {
    pub stamp: Option<Stamp>,
    pub link: u16,
    pub octets: &'a [u8],
}

/// In which order the octets of a number stand.
#[derive(Clone, Copy, Debug, PartialEq, Eq)]
pub enum Endian {
    Big,
    Little,
}

/// How many nanoseconds a second has.
pub const SECOND: u32 = 1_000_000_000;

/// The number of the four octets from this place on, if they are there.
#[tactic(auto, unfolding(crate::specs::Numbers::number_at, crate::specs::Numbers::rest_at))]
pub fn long_at(endian: Endian, octets: &[u8], at: usize) -> Option<u32>
    ensures number { result ≡ number_at endian 4 at octets.now }
    ensures here { OnSome result (at + 4 ≤ length octets.now) }
{
    let octets = rest(octets, at)?;
    if octets.len() < 4 {
        return None;
    }
    match endian {
        Endian::Big => Some(BigEndian::read_u32(octets)),
        Endian::Little => Some(LittleEndian::read_u32(octets)),
    }
}

/// The number of the two octets from this place on, if they are there.
#[tactic(auto, unfolding(crate::specs::Numbers::number_at, crate::specs::Numbers::rest_at))]
pub fn short_at(endian: Endian, octets: &[u8], at: usize) -> Option<u16>
    ensures { result ≡ number_at endian 2 at octets.now }
{
    let octets = rest(octets, at)?;
    if octets.len() < 2 {
        return None;
    }
    match endian {
        Endian::Big => Some(BigEndian::read_u16(octets)),
        Endian::Little => Some(LittleEndian::read_u16(octets)),
    }
}

/// The octets from this place on, if there are that many.
#[tactic(auto, unfolding(crate::specs::Numbers::rest_at))]
pub fn rest(octets: &[u8], at: usize) -> Option<&[u8]>
    ensures { option_map (λ o. o.now) result ≡ rest_at at octets.now }
{
    octets.get(at..)
}

/// This many octets from this place on, if they are there.
#[tactic(auto, unfolding(crate::specs::Numbers::part_at, crate::specs::Numbers::rest_at))]
pub fn part(octets: &[u8], at: usize, len: usize) -> Option<&[u8]>
    ensures part { option_map (λ o. o.now) result ≡ part_at at len octets.now }
    ensures size { IfSome result (λ o. length o.now ≡ len) }
{
    rest(octets, at)?.get(..len)
}

/// The first octets, at most this many.
pub fn first(octets: &[u8], most: usize) -> &[u8]
    ensures { result.now ≡ take most octets.now }
{
    octets.get(..most).unwrap_or(octets)
}
