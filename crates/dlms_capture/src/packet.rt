//! The contents of a packet: the ends and octets of a TCP segment or a UDP datagram, after the headers of its link and of IP.

ghost use Rattle.std.specs.Prelude.{◌≡◌, ◌<◌, option_map};
ghost use Rattle.dlms_capture.specs.Captured.{captured_of};
ghost use Rattle.dlms_capture.specs.Packets.{after_cooked, after_extensions, after_tags, after_type, carried_at, carried_by_four, carried_by_six, carried_form, cut_at, ends_at, extension_at, four_at, is_extension, is_network, is_tag, network_at, segment_at, segment_form, six_at, tcp_at, udp_at};

use crate::interface::{Endian, Packet, first, long_at, part, rest, short_at};

/// An address of IP.
#[derive(Clone, Copy, Debug, PartialEq, Eq)]
pub enum Address {
    Four([u8; 4]),
    Six([u8; 16]),
}

/// An end of a connection: its address and its port.
#[derive(Clone, Copy, Debug, PartialEq, Eq)]
pub struct Place {
    pub address: Address,
    pub port: u16,
}

/// The two ends of a segment, in its direction.
#[derive(Clone, Copy, Debug, PartialEq, Eq)]
pub struct Ends {
    pub from: Place,
    pub to: Place,
}

/// By what the octets are carried.
#[derive(Clone, Copy, Debug, PartialEq, Eq)]
pub enum Transport {
    /// TCP: the number of the first octet, that of the octet which is awaited, and whether the segment opens a connection (SYN) and
    /// awaits an octet (ACK).
    Tcp {
        sequence: u32,
        awaited: u32,
        opens: bool,
        answers: bool,
    },
    /// UDP.
    Udp,
}

/// The contents of a packet.
#[derive(Clone, Copy)]
pub struct Segment<'a> {
    pub ends: Ends,
    pub transport: Transport,
    pub octets: &'a [u8],
}

/// The contents of a packet of IP: its addresses, the number of the protocol, and the protocol's octets.
#[derive(Clone, Copy)]
struct Carried<'a> {
    from: Address,
    to: Address,
    protocol: u8,
    octets: &'a [u8],
}

/// The numbers of link layers (the registry of LINKTYPE values).
const NULL: u16 = 0;

const ETHERNET: u16 = 1;

const RAW: u16 = 101;

const LOOP: u16 = 108;

const COOKED: u16 = 113;

const FOUR: u16 = 228;

const SIX: u16 = 229;

const COOKED_2: u16 = 276;

/// The types of what Ethernet carries that are read: IP of both versions, and tags of virtual networks.
const TYPE_FOUR: u16 = 0x0800;

const TYPE_SIX: u16 = 0x86dd;

const TYPE_TAG: u16 = 0x8100;

const TYPE_OUTER_TAG: u16 = 0x88a8;

/// The numbers of what IP carries that are read.
const TCP: u8 = 6;

const UDP: u8 = 17;

/// Whether a type of Ethernet is IP.
fn is_network(kind: u16) -> bool
    ensures { result ≡ is_network kind }
{
    kind == TYPE_FOUR || kind == TYPE_SIX
}

/// Whether a type of Ethernet is a tag.
fn is_tag(kind: u16) -> bool
    ensures { result ≡ is_tag kind }
{
    kind == TYPE_TAG || kind == TYPE_OUTER_TAG
}

/// The packet of IP after the type at this place.
#[tactic(auto, unfolding(crate::specs::Packets::after_type))]
fn after_type(octets: &[u8], at: usize) -> Option<&[u8]>
    requires { at < 256 }
    ensures { option_map (λ o. o.now) result ≡ after_type at octets.now }
{
    if is_network(short_at(Endian::Big, octets, at)?) {
        rest(octets, at + 2)
    } else {
        None
    }
}

/// The packet of IP in a frame of Ethernet, after at most two tags.
fn after_ethernet(octets: &[u8]) -> Option<&[u8]>
    ensures { option_map (λ o. o.now) result ≡ after_tags 2 12 octets.now }
{
    if !is_tag(short_at(Endian::Big, octets, 12)?) {
        return after_type(octets, 12);
    }
    if !is_tag(short_at(Endian::Big, octets, 16)?) {
        return after_type(octets, 16);
    }
    after_type(octets, 20)
}

/// The packet of IP in a packet of a Linux cooked capture of version 2.
fn after_cooked(octets: &[u8]) -> Option<&[u8]>
    ensures { option_map (λ o. o.now) result ≡ after_cooked octets.now }
{
    if is_network(short_at(Endian::Big, octets, 0)?) {
        rest(octets, 20)
    } else {
        None
    }
}

/// The packet of IP in a packet.
#[tactic(auto, unfolding(crate::specs::Packets::network_at))]
fn network(link: u16, octets: &[u8]) -> Option<&[u8]>
    ensures { option_map (λ o. o.now) result ≡ network_at link octets.now }
{
    match link {
        ETHERNET => after_ethernet(octets),
        NULL | LOOP => rest(octets, 4),
        RAW | FOUR | SIX => Some(octets),
        COOKED => after_type(octets, 14),
        COOKED_2 => after_cooked(octets),
        _ => None,
    }
}

/// An address of four octets.
fn four(octets: &[u8], at: usize) -> Option<Address>
    ensures { result ≡ four_at at octets.now }
{
    let octets = part(octets, at, 4)?;
    let mut address = [0u8; 4];
    address.copy_from_slice(octets);
    Some(Address::Four(address))
}

/// An address of sixteen octets.
fn six(octets: &[u8], at: usize) -> Option<Address>
    ensures { result ≡ six_at at octets.now }
{
    let octets = part(octets, at, 16)?;
    let mut address = [0u8; 16];
    address.copy_from_slice(octets);
    Some(Address::Six(address))
}

/// The octets up to a stated length. A packet whose length a network card is still to write says 0.
fn cut(octets: &[u8], len: u16) -> &[u8]
    ensures { result.now ≡ cut_at len octets.now }
{
    if len == 0 {
        octets
    } else {
        first(octets, usize::from(len))
    }
}

/// The contents of a packet of IP of version 4 (RFC 791); `None` for a fragment.
#[tactic(auto, unfolding(crate::specs::Packets::carried_by_four))]
fn carried_by_four(octets: &[u8]) -> Option<Carried<'_>>
    ensures { option_map carried_form result ≡ carried_by_four octets.now }
{
    let head = usize::from(octets.first()? % 16) * 4;
    let len = short_at(Endian::Big, octets, 2)?;
    let fragment = short_at(Endian::Big, octets, 6)?;
    let carried = Carried {
        from: four(octets, 12)?,
        to: four(octets, 16)?,
        protocol: *octets.get(9)?,
        octets: rest(cut(octets, len), head)?,
    };
    if head < 20 || fragment % 0x4000 != 0 {
        return None;
    }
    Some(carried)
}

/// The numbers of the headers that may be between that of IP of version 6 and the contents.
const HOPS: u8 = 0;

const ROUTE: u8 = 43;

const GOAL: u8 = 60;

/// How many such heads are passed over.
const MOST_HEADS: u8 = 8;

/// Whether the header of this number is passed over.
fn is_extension(protocol: u8) -> bool
    ensures { result ≡ is_extension protocol }
{
    matches!(protocol, HOPS | ROUTE | GOAL)
}

/// The number of the header after an extension header, and the octets from there on.
#[tactic(auto, unfolding(crate::specs::Packets::extension_at))]
fn after_extension(octets: &[u8]) -> Option<(u8, &[u8])>
    ensures { option_map (λ c. (c.0, c.1.now)) result ≡ extension_at octets.now }
{
    let following = *octets.first()?;
    let len = usize::from(*octets.get(1)?);
    Some((following, rest(octets, (len + 1) * 8)?))
}

/// The octets after the extension headers of a packet of IP of version 6, and their number.
fn after_extensions(protocol: u8, octets: &[u8]) -> Option<(u8, &[u8])>
    ensures { option_map (λ c. (c.0, c.1.now)) result ≡ after_extensions 8 protocol octets.now }
{
    let mut protocol = protocol;
    let mut carried = octets;
    for _ in 0..MOST_HEADS {
        if !is_extension(protocol) {
            return Some((protocol, carried));
        }
        let Some(header) = after_extension(carried) else {
            return None;
        };
        (protocol, carried) = header;
    }
    None
}

/// The contents of a packet of IP of version 6 (RFC 8200); `None` for a fragment.
#[tactic(auto, unfolding(crate::specs::Packets::carried_by_six))]
fn carried_by_six(octets: &[u8]) -> Option<Carried<'_>>
    ensures { option_map carried_form result ≡ carried_by_six octets.now }
{
    let len = short_at(Endian::Big, octets, 4)?;
    let payload = rest(octets, 40)?;
    let (protocol, carried) = after_extensions(*octets.get(6)?, cut(payload, len))?;
    Some(Carried {
        from: six(octets, 8)?,
        to: six(octets, 24)?,
        protocol,
        octets: carried,
    })
}

/// The contents of a packet of IP of either version.
#[tactic(auto, unfolding(crate::specs::Packets::carried_at))]
fn carried_by(octets: &[u8]) -> Option<Carried<'_>>
    ensures { option_map carried_form result ≡ carried_at octets.now }
{
    match octets.first()? / 16 {
        4 => carried_by_four(octets),
        6 => carried_by_six(octets),
        _ => None,
    }
}

/// The ends of a segment or a datagram, both of which begin with the two ports.
#[tactic(auto, unfolding(crate::specs::Packets::ends_at))]
fn ends_of(carried: Carried<'_>) -> Option<Ends>
    ensures { result ≡ ends_at (carried_form carried.entry) }
{
    let from = short_at(Endian::Big, carried.octets, 0)?;
    let to = short_at(Endian::Big, carried.octets, 2)?;
    Some(Ends {
        from: Place {
            address: carried.from,
            port: from,
        },
        to: Place {
            address: carried.to,
            port: to,
        },
    })
}

/// A TCP segment (RFC 9293).
#[tactic(auto, unfolding(crate::specs::Packets::tcp_at))]
fn tcp(carried: Carried<'_>) -> Option<Segment<'_>>
    ensures { option_map segment_form result ≡ tcp_at (carried_form carried.entry) }
{
    let sequence = long_at(Endian::Big, carried.octets, 4)?;
    let awaited = long_at(Endian::Big, carried.octets, 8)?;
    let head = usize::from(carried.octets.get(12)? / 16) * 4;
    let flags = *carried.octets.get(13)?;
    let ends = ends_of(carried)?;
    let octets = rest(carried.octets, head)?;
    if head < 20 {
        return None;
    }
    Some(Segment {
        ends,
        transport: Transport::Tcp {
            sequence,
            awaited,
            opens: flags & 0x02 != 0,
            answers: flags & 0x10 != 0,
        },
        octets,
    })
}

/// A UDP datagram (RFC 768).
#[tactic(auto, unfolding(crate::specs::Packets::udp_at))]
fn udp(carried: Carried<'_>) -> Option<Segment<'_>>
    ensures { option_map segment_form result ≡ udp_at (carried_form carried.entry) }
{
    let len = usize::from(short_at(Endian::Big, carried.octets, 4)?);
    let octets = rest(carried.octets, 8)?;
    Some(Segment {
        ends: ends_of(carried)?,
        transport: Transport::Udp,
        octets: first(octets, len.saturating_sub(8)),
    })
}

/// The contents of a packet, if that is a TCP segment or a UDP datagram over IP, by a link layer that is read here. Octets that a
/// capture has cut off are missing at the end.
#[tactic(auto, unfolding(crate::specs::Packets::segment_at))]
pub fn segment_of<'a>(packet: Packet<'a>) -> Option<Segment<'a>>
    ensures { option_map segment_form result ≡ segment_at (captured_of packet.entry) }
{
    let carried = carried_by(network(packet.link, packet.octets)?)?;
    match carried.protocol {
        TCP => tcp(carried),
        UDP => udp(carried),
        _ => None,
    }
}
