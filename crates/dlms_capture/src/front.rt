//! The record or block at the beginning of a capture file's octets, and its extent.

ghost use Rattle.std.specs.Prelude.{◌≡◌, length};
ghost use Rattle.std.specs.Option.{option_map_or};
ghost use Rattle.dlms_capture.specs.Numbers.{number_at};
ghost use Rattle.dlms_capture.specs.PcapFormat.{head_at};
ghost use Rattle.dlms_capture.specs.Fronts.{FrontHasCome, block_front, extent_at, first_front, front_at, record_front, section_front};

use crate::interface::Endian;
use crate::pcap::{self, Head, PACKET_HEAD};
use crate::pcapng::{self, SHORTEST};

/// The most octets that a packet record or a block may have; nothing after a longer one is read.
pub const MOST_BLOCK: u64 = 16_777_216;

/// The form of a file, as far as it is known.
#[derive(Clone, Copy)]
pub enum Form {
    /// Nothing yet.
    Begins,
    Pcap(Head),
    PcapNg(Endian),
    /// It is not a capture, or not from here on.
    Broken,
}

/// How far a record or block goes.
#[derive(Clone, Copy)]
pub enum Extent {
    /// It is not whole yet.
    Part,
    Broken,
    Whole(usize),
}

/// The beginning of a file's octets. Lengths include the header.
#[derive(Clone, Copy)]
pub enum Front {
    /// Something that is not whole yet.
    Part,
    Broken,
    /// The header of a pcap file.
    Header(Head),
    /// The block of this length that begins a section in this byte order.
    Section(Endian, usize),
    /// A packet record, or a block of the section, of this length.
    Whole(usize),
}

/// The extent of a record or block of at least `least` octets, if `have` octets have come and this length is stated.
fn extent_of(least: u64, have: usize, len: Option<u64>) -> Extent
    ensures { result ≡ extent_at least have len }
{
    let Some(len) = len else {
        return Extent::Part;
    };
    if len < least || len > MOST_BLOCK {
        return Extent::Broken;
    }
    if (have as u64) < len {
        return Extent::Part;
    }
    Extent::Whole(len as usize)
}

/// A packet record.
#[tactic(auto, unfolding(crate::specs::Fronts::record_front))]
fn record(head: Head, octets: &[u8]) -> Front
    ensures front { result ≡ record_front head octets.now }
    ensures come { FrontHasCome result octets.now }
{
    let len = pcap::len_of(head, octets);
    match extent_of(PACKET_HEAD as u64, octets.len(), len) {
        Extent::Part => Front::Part,
        Extent::Broken => Front::Broken,
        Extent::Whole(len) => Front::Whole(len),
    }
}

/// How far the block goes that begins here.
fn block_extent(endian: Endian, octets: &[u8]) -> Extent
    ensures { result ≡ extent_at 12 (length octets.now) (number_at endian 4 4 octets.now) }
{
    let len = pcapng::len_of(endian, octets).map(|len| u64::from(len));
    extent_of(SHORTEST as u64, octets.len(), len)
}

/// The block that begins a section.
#[tactic(auto, unfolding(crate::specs::Fronts::section_front))]
fn section(octets: &[u8]) -> Front
    ensures front { result ≡ section_front octets.now }
    ensures come { FrontHasCome result octets.now }
{
    if octets.len() < SHORTEST {
        return Front::Part;
    }
    let Some(endian) = pcapng::section_of(octets) else {
        return Front::Broken;
    };
    match block_extent(endian, octets) {
        Extent::Part => Front::Part,
        Extent::Broken => Front::Broken,
        Extent::Whole(len) => Front::Section(endian, len),
    }
}

/// A block of a section, or the block that begins the next section.
#[tactic(auto, unfolding(crate::specs::Fronts::block_front))]
fn block(endian: Endian, octets: &[u8]) -> Front
    ensures front { result ≡ block_front endian octets.now }
    ensures come { FrontHasCome result octets.now }
{
    if pcapng::is_section(octets) {
        return section(octets);
    }
    match block_extent(endian, octets) {
        Extent::Part => Front::Part,
        Extent::Broken => Front::Broken,
        Extent::Whole(len) => Front::Whole(len),
    }
}

/// The header of a pcap file.
fn header(octets: &[u8]) -> Front
    ensures front { result ≡ option_map_or Front.Header (head_at octets.now) Front.Part }
    ensures come { FrontHasCome result octets.now }
{
    match pcap::head_of(octets) {
        Some(head) => Front::Header(head),
        None => Front::Part,
    }
}

/// The beginning of a file.
#[tactic(auto, unfolding(crate::specs::Fronts::first_front))]
fn beginning(octets: &[u8]) -> Front
    ensures front { result ≡ first_front octets.now }
    ensures come { FrontHasCome result octets.now }
{
    if octets.len() < 4 {
        return Front::Part;
    }
    if pcapng::is_section(octets) {
        return section(octets);
    }
    if pcap::kind_of(octets).is_none() {
        return Front::Broken;
    }
    header(octets)
}

/// The beginning of a file's octets if this form is known.
#[tactic(auto, unfolding(crate::specs::Fronts::front_at))]
pub fn front_of(form: Form, octets: &[u8]) -> Front
    ensures front { result ≡ front_at form octets.now }
    ensures come { FrontHasCome result octets.now }
{
    match form {
        Form::Begins => beginning(octets),
        Form::Pcap(head) => record(head, octets),
        Form::PcapNg(endian) => block(endian, octets),
        Form::Broken => Front::Broken,
    }
}
