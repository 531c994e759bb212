//! The format of libpcap's files: a header of 24 octets, and each packet after 16 octets of its own.

ghost use Rattle.std.specs.Prelude.{◌≡◌, ◌≤◌, OnSome, length, option_map};
ghost use Rattle.dlms_capture.specs.Captured.{captured_of};
ghost use Rattle.dlms_capture.specs.PcapFormat.{fraction_in, kind_at, head_at, record_length_at, nanoseconds_of, packet_at};

use crate::interface::{Endian, Packet, SECOND, Stamp, long_at, rest};

/// How long the head of a file is.
pub const FILE_HEAD: usize = 24;

/// How long the head of a packet is.
pub const PACKET_HEAD: usize = 16;

/// The unit of the fraction of a second in a stamp.
#[derive(Clone, Copy, Debug, PartialEq, Eq)]
pub enum Fraction {
    Microseconds,
    Nanoseconds,
}

/// The data in the header of a file.
#[derive(Clone, Copy)]
pub struct Head {
    pub endian: Endian,
    pub fraction: Fraction,
    pub link: u16,
}

/// The magic numbers of files whose fractions count microseconds and nanoseconds (draft-ietf-opsawg-pcap, 4).
const MICROSECOND_MAGIC: u32 = 0xa1b2_c3d4;

const NANOSECOND_MAGIC: u32 = 0xa1b2_3c4d;

/// How many numbers the low half of a number of four octets has.
const HALF: u32 = 0x1_0000;

/// The unit of the fractions of a file in this byte order, if it begins with a magic number in that order.
#[tactic(auto, unfolding(crate::specs::PcapFormat::fraction_in))]
fn fraction_in(endian: Endian, octets: &[u8]) -> Option<Fraction>
    ensures { result ≡ fraction_in endian octets.now }
{
    match long_at(endian, octets, 0)? {
        MICROSECOND_MAGIC => Some(Fraction::Microseconds),
        NANOSECOND_MAGIC => Some(Fraction::Nanoseconds),
        _ => None,
    }
}

/// The byte order of a file, by its first four octets, and what its fractions count.
#[tactic(auto, unfolding(crate::specs::PcapFormat::kind_at))]
pub fn kind_of(octets: &[u8]) -> Option<(Endian, Fraction)>
    ensures { result ≡ kind_at octets.now }
{
    if let Some(fraction) = fraction_in(Endian::Big, octets) {
        return Some((Endian::Big, fraction));
    }
    let fraction = fraction_in(Endian::Little, octets)?;
    Some((Endian::Little, fraction))
}

/// The header of a file, once its 24 octets are there.
#[tactic(auto, unfolding(crate::specs::PcapFormat::head_at))]
pub fn head_of(octets: &[u8]) -> Option<Head>
    ensures head { result ≡ head_at octets.now }
    ensures here { OnSome result (FILE_HEAD ≤ length octets.now) }
{
    let (endian, fraction) = kind_of(octets)?;
    let link = long_at(endian, octets, 20)?;
    Some(Head {
        endian,
        fraction,
        link: (link % HALF) as u16,
    })
}

/// The length of the next packet record, once its header is there.
#[tactic(auto, unfolding(crate::specs::PcapFormat::record_length_at))]
pub fn len_of(head: Head, octets: &[u8]) -> Option<u64>
    ensures { result ≡ record_length_at head octets.now }
{
    let captured = long_at(head.endian, octets, 8)?;
    let _original = long_at(head.endian, octets, 12)?;
    Some(u64::from(captured) + PACKET_HEAD as u64)
}

/// How many nanoseconds a fraction is; of a greater number than a second has, the part below a second.
fn nanoseconds_of(fraction: Fraction, count: u32) -> u32
    ensures { result ≡ nanoseconds_of fraction count }
{
    match fraction {
        Fraction::Microseconds => count % 1_000_000 * 1000,
        Fraction::Nanoseconds => count % SECOND,
    }
}

/// The packet of a packet record.
#[tactic(auto, unfolding(crate::specs::PcapFormat::packet_at))]
pub fn packet_of(head: Head, octets: &[u8]) -> Option<Packet<'_>>
    ensures { option_map captured_of result ≡ packet_at head octets.now }
{
    let seconds = long_at(head.endian, octets, 0)?;
    let fraction = long_at(head.endian, octets, 4)?;
    Some(Packet {
        stamp: Some(Stamp {
            seconds: u64::from(seconds),
            nanoseconds: nanoseconds_of(head.fraction, fraction),
        }),
        link: head.link,
        octets: rest(octets, PACKET_HEAD)?,
    })
}
