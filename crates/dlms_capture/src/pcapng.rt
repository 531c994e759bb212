//! The format pcapng (draft-ietf-opsawg-pcapng): blocks, each with its type and its length, of which some say how to read others.

ghost use Rattle.std.specs.Prelude.{◌≡◌, ◌+◌, ◌<◌, ◌*◌, ◌/◌, ◌^◌, min, if◌then◌else◌, option_map, length, drop, take};
ghost use Rattle.dlms_capture.specs.Captured.{captured_of};
ghost use Rattle.dlms_capture.specs.Numbers.{number_at};
ghost use Rattle.dlms_capture.specs.PcapngFormat.{is_number, begins_section, section_endian, padded, option_at, options_in, resolution_in, resolution_by, interface_at, units_of, stamp_by, packet_at, simple_packet_at, content_of, content_at, interface_or_other, packet_or_other};

use crate::interface::{Endian, Packet, SECOND, Stamp, first, long_at, part, rest, short_at};

/// The type of the block that begins a section, the same in either order of octets.
const SECTION: u32 = 0x0a0d_0d0a;

/// The number that tells the byte order of a section.
const BYTE_ORDER: u32 = 0x1a2b_3c4d;

/// How long a block is at least: its type, and twice its length.
pub const SHORTEST: usize = 12;

/// The types of the blocks that are read.
const INTERFACE: u32 = 1;

const OLD_PACKET: u32 = 2;

const SIMPLE_PACKET: u32 = 3;

const PACKET: u32 = 6;

/// The number of the option that says what the stamps of an interface count, and that of the last option.
const RESOLUTION: u16 = 9;

const LAST_OPTION: u16 = 0;

/// The unit of an interface's stamps without an option for it: 10^-6 seconds.
const MICROSECONDS: u8 = 6;

/// An interface: the number of its link layer, and what its stamps count (10 to the power of minus so much; with the first bit set 2
/// to that power).
#[derive(Clone, Copy)]
pub struct Interface {
    pub link: u16,
    pub resolution: u8,
}

/// The kinds of blocks.
#[derive(Clone, Copy)]
pub enum Block<'a> {
    Interface(Interface),
    Packet(Packet<'a>),
    Other,
}

/// Whether the number at this place is this one.
fn is_at(endian: Endian, octets: &[u8], at: usize, number: u32) -> bool
    ensures { result ≡ is_number number (number_at endian 4 at octets.now) }
{
    match long_at(endian, octets, at) {
        Some(found) => found == number,
        None => false,
    }
}

/// The byte order of the section that begins here, once twelve octets of it are there.
#[tactic(auto, unfolding(crate::specs::PcapngFormat::section_endian))]
pub fn section_of(octets: &[u8]) -> Option<Endian>
    ensures { result ≡ section_endian octets.now }
{
    if is_at(Endian::Big, octets, 8, BYTE_ORDER) {
        return Some(Endian::Big);
    }
    if is_at(Endian::Little, octets, 8, BYTE_ORDER) {
        return Some(Endian::Little);
    }
    None
}

/// Whether a section begins here.
#[tactic(auto, unfolding(crate::specs::PcapngFormat::begins_section))]
pub fn is_section(octets: &[u8]) -> bool
    ensures { result ≡ begins_section octets.now }
{
    is_at(Endian::Big, octets, 0, SECTION)
}

/// How many octets the next block has, once eight of them are there.
pub fn len_of(endian: Endian, octets: &[u8]) -> Option<u32>
    ensures { result ≡ number_at endian 4 4 octets.now }
{
    long_at(endian, octets, 4)
}

/// An option of a block.
#[derive(Clone, Copy)]
struct Choice<'a> {
    code: u16,
    value: &'a [u8],
    /// The octets after it.
    behind: &'a [u8],
}

/// How many octets an option's value takes, which ends at a multiple of four.
fn padded(len: usize) -> usize
    requires { len < 65536 }
    ensures { result ≡ padded len }
{
    (len + 3) / 4 * 4
}

/// The first option of these, if it is not the one that ends them. A value that the block cuts off is what is left of it.
#[tactic(auto, unfolding(crate::specs::PcapngFormat::option_at))]
fn option_of(endian: Endian, octets: &[u8]) -> Option<Choice<'_>>
    ensures { option_map
        (λ o. (o.code, o.value.now, o.behind.now)) result ≡ option_at endian octets.now }
{
    let code = short_at(endian, octets, 0)?;
    let len = usize::from(short_at(endian, octets, 2)?);
    if code == LAST_OPTION {
        return None;
    }
    Some(Choice {
        code,
        value: first(behind(octets, 4), len),
        behind: behind(octets, 4 + padded(len)),
    })
}

/// The octets from this place on; none if there are not that many.
fn behind(octets: &[u8], at: usize) -> &[u8]
    ensures { result.now ≡ drop at octets.now }
{
    octets.get(at..).unwrap_or(&[])
}

/// The unit of an interface's stamps that an option gives.
fn resolution_in(option: Choice<'_>) -> Option<u8>
    ensures { result ≡ resolution_in (option.entry.code, option.entry.value.now) }
{
    if option.code == RESOLUTION {
        option.value.first().copied()
    } else {
        None
    }
}

/// The unit of an interface's stamps that its options give.
fn resolution_of(endian: Endian, options: &[u8]) -> u8
    ensures { result ≡ resolution_by (options_in (length options.now) endian options.now) }
{
    let mut rest = options;
    for _ in 0..options.len() {
        let Some(option) = option_of(endian, rest) else {
            return MICROSECONDS;
        };
        if let Some(resolution) = resolution_in(option) {
            return resolution;
        }
        rest = option.behind;
    }
    MICROSECONDS
}

/// Ten to this power, up to 10^19.
fn power_of_ten(power: u8) -> u64
    ensures power { result ≡ 10 ^ min power 19 }
    ensures some { 0 < result }
{
    10u64.saturating_pow(u32::from(power.min(19)))
}

/// How many units a second has in the stamps of an interface.
fn units_of(resolution: u8) -> u64
    ensures units { result ≡ units_of resolution }
    ensures some { 0 < result }
{
    match resolution {
        0..=127 => power_of_ten(resolution),
        _ => 1 << (resolution - 128).min(63),
    }
}

/// The nanoseconds of a part of a second, of which a second has this many.
fn nanoseconds_of(part: u64, units: u64) -> u32
    requires { part < units }
    ensures { result ≡ part * 1000000000 / units }
{
    let nanoseconds = u128::from(part) * u128::from(SECOND) / u128::from(units);
    nanoseconds as u32
}

/// The time of an interface's count of units.
fn stamp_of(resolution: u8, high: u32, low: u32) -> Stamp
    ensures { result ≡ stamp_by (units_of resolution) (high * 4294967296 + low) }
{
    let count = u64::from(high) * (1 << 32) + u64::from(low);
    let units = units_of(resolution);
    Stamp {
        seconds: count / units,
        nanoseconds: nanoseconds_of(count % units, units),
    }
}

/// The interface of a block.
#[tactic(auto, unfolding(crate::specs::PcapngFormat::interface_at))]
fn interface_of(endian: Endian, block: &[u8]) -> Option<Interface>
    ensures { result ≡ interface_at endian block.now }
{
    let link = short_at(endian, block, 8)?;
    let options = rest(block, 16)?;
    Some(Interface {
        link,
        resolution: resolution_of(endian, options),
    })
}

/// The number of the interface of a packet; in the older form of two octets.
fn interface_number(endian: Endian, old: bool, block: &[u8]) -> Option<u32>
    ensures { result ≡ number_at endian (if old then 2 else 4) 8 block.now }
{
    if old {
        Some(u32::from(short_at(endian, block, 8)?))
    } else {
        long_at(endian, block, 8)
    }
}

/// The packet of a block that names its interface; in the older form the name has two octets.
#[tactic(auto, unfolding(crate::specs::PcapngFormat::packet_at))]
fn packet_of<'a>(
    endian: Endian,
    interfaces: &[Interface],
    old: bool,
    block: &'a [u8],
) -> Option<Packet<'a>>
    ensures { option_map captured_of result ≡ packet_at endian interfaces.now (if old then 2
        else 4) block.now }
{
    let number = interface_number(endian, old, block)?;
    let interface = *interfaces.get(number as usize)?;
    let high = long_at(endian, block, 12)?;
    let low = long_at(endian, block, 16)?;
    let len = long_at(endian, block, 20)?;
    Some(Packet {
        stamp: Some(stamp_of(interface.resolution, high, low)),
        link: interface.link,
        octets: part(block, 28, len as usize)?,
    })
}

/// The packet of a block that names no interface: it came by the first one. It may be cut at the block's end.
#[tactic(auto, unfolding(crate::specs::PcapngFormat::simple_packet_at))]
fn simple_packet_of<'a>(
    endian: Endian,
    interfaces: &[Interface],
    block: &'a [u8],
) -> Option<Packet<'a>>
    ensures { option_map captured_of result ≡ simple_packet_at endian interfaces.now block.now }
{
    let interface = *interfaces.first()?;
    let len = long_at(endian, block, 8)?;
    let data = rest(block, 12)?;
    let whole = data.len().checked_sub(4)?;
    Some(Packet {
        stamp: None,
        link: interface.link,
        octets: first(first(data, whole), len as usize),
    })
}

/// A block with this packet, or without one.
pub fn with_packet(packet: Option<Packet<'_>>) -> Block<'_>
    ensures { content_of result ≡ packet_or_other (option_map captured_of packet.entry) }
{
    match packet {
        Some(packet) => Block::Packet(packet),
        None => Block::Other,
    }
}

/// A block with this interface, or without one.
fn with_interface(interface: Option<Interface>) -> Block<'static>
    ensures { content_of result ≡ interface_or_other interface }
{
    match interface {
        Some(interface) => Block::Interface(interface),
        None => Block::Other,
    }
}

/// The meaning of a whole block.
#[tactic(auto, unfolding(crate::specs::PcapngFormat::content_at))]
pub fn block_of<'a>(endian: Endian, interfaces: &[Interface], block: &'a [u8]) -> Block<'a>
    ensures { content_of result ≡ content_at endian interfaces.now block.now }
{
    match long_at(endian, block, 0) {
        Some(INTERFACE) => with_interface(interface_of(endian, block)),
        Some(PACKET) => with_packet(packet_of(endian, interfaces, false, block)),
        Some(OLD_PACKET) => with_packet(packet_of(endian, interfaces, true, block)),
        Some(SIMPLE_PACKET) => with_packet(simple_packet_of(endian, interfaces, block)),
        _ => Block::Other,
    }
}
