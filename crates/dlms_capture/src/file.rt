//! A capture file as it arrives, and its packets.

ghost use Rattle.std.specs.Prelude.{◌≡◌, ◌+◌, ◌-◌, ◌≤◌, ◌<◌, ◌||◌, ◌==◌, ◌++◌, [], Some, is_some, drop, take, length, option_map, IfOk, OnErr, OnOk};
ghost use Rattle.dlms_capture.specs.Captured.{captured_of};
ghost use Rattle.dlms_capture.specs.PcapFormat.{kind_at};
ghost use Rattle.dlms_capture.specs.PcapngFormat.{begins_section, content_of};
ghost use Rattle.dlms_capture.specs.Fronts.{HasCome, front_at};
ghost use Rattle.dlms_capture.specs.Reading.{AwaitsMemory, Finds, LeadsTo, StepFinds, content_in, packet_from, reading_of, with_more};

use crate::front::{Form, Front, front_of};
use crate::interface::{Endian, Packet};
use crate::pcap::{self, FILE_HEAD};
use crate::pcapng::{self, Block, Interface};
use std::alloc::{AllocError, Allocator};

/// The next thing in a file.
pub enum Next<'a> {
    Packet(Packet<'a>),
    /// More octets are needed.
    More,
    /// The octets that follow do not belong to a capture.
    Broken,
}

/// What was found at the beginning of the octets that are not read.
#[derive(Clone, Copy)]
enum Found {
    More,
    Broken,
    /// Something that is not a packet.
    Passed,
    /// A packet, from this place among the kept octets to the first that is not read.
    Packet(usize),
}

/// A capture file, of which some octets have come.
#[derive(Drop)]
pub struct File<A: Allocator> {
    kept: Vec<u8, A>,
    /// How many of the kept octets are read.
    done: usize,
    form: Form,
    interfaces: Vec<Interface, A>,
}

/// Whether a capture begins with these octets, of which four are enough.
pub fn is_capture(octets: &[u8]) -> bool
    ensures { result ≡ (begins_section octets.now || is_some (kind_at octets.now)) }
{
    pcapng::is_section(octets) || pcap::kind_of(octets).is_some()
}

impl<A: Allocator + Copy> File<A> {
    ghost use Rattle.std.specs.Borrow.{sem};
    ghost use Rattle.std.specs.Io.BufRead.{Rests};
    ghost use Rattle.dlms_capture.specs.contracts.file.File.{the_row};
    ghost use Rattle.dlms_capture.specs.Reading.{NextIs};

    /// Before the first octet. No memory is taken here.
    pub fn new(alloc: A) -> Self
        ensures { reading_of result ≡ record { form = Form.Begins; interfaces = []; rest = [] } }
    {
        File {
            kept: Vec::new(alloc),
            done: 0,
            form: Form::Begins,
            interfaces: Vec::new(alloc),
        }
    }

    /// Drops the octets that are read. Those of a packet that is not whole are moved once: nothing after its first octet is read.
    fn let_go(&mut self)
        ensures reading { reading_of self.new ≡ reading_of self.old }
        ensures done { self.new.done ≡ 0 }
    {
        if self.done == 0 {
            return;
        }
        let done = self.done.min(self.kept.len());
        let left = self.kept.len() - done;
        self.kept.copy_within(done.., 0);
        self.kept.truncate(left);
        self.done = 0;
    }

    /// Takes octets of the file, which come after those that are not read. If memory is refused, they are not taken.
    pub fn feed(&mut self, octets: &[u8]) -> Result<(), AllocError>
        ensures ok { OnOk result (reading_of self.new ≡ with_more octets.now
            (reading_of self.old)) }
        ensures err { OnErr result (reading_of self.new ≡ reading_of self.old) }
    {
        self.let_go();
        self.kept.extend_from_slice(octets)
    }

    /// Whether nothing but whole packets and blocks have come.
    pub fn is_whole(&self) -> bool
        ensures { result ≡ (length (reading_of self.now).rest == 0) }
    {
        self.done >= self.kept.len()
    }

    /// The octets that are not read.
    fn rest(&self) -> &[u8]
        ensures { result.now ≡ (reading_of self.now).rest }
    {
        self.kept.get(self.done..).unwrap_or(&[])
    }

    /// The contents of the packet record or block between these two places.
    fn content(&self, from: usize, to: usize) -> Block<'_>
        requires begins { from ≤ to }
        requires ends { to ≤ length self.now.kept.items }
        ensures { content_of result ≡ content_in self.now.form self.now.interfaces.items
            (take (to - from) (drop from self.now.kept.items)) }
    {
        let octets = &self.kept.as_slice()[from..to];
        match self.form {
            Form::Pcap(head) => pcapng::with_packet(pcap::packet_of(head, octets)),
            Form::PcapNg(endian) => pcapng::block_of(endian, self.interfaces.as_slice(), octets),
            Form::Begins | Form::Broken => Block::Other,
        }
    }

    /// The packet in the octets from this place up to those that are not read.
    fn packet(&self, from: usize) -> Option<Packet<'_>>
        requires begins { from ≤ self.now.done }
        requires ends { self.now.done ≤ length self.now.kept.items }
        ensures { option_map captured_of result ≡ packet_from self.now from }
    {
        match self.content(from, self.done) {
            Block::Packet(packet) => Some(packet),
            Block::Interface(_) | Block::Other => None,
        }
    }

    /// Reads a packet record or block of this length. If memory is refused for an interface, its block is not read.
    fn read(&mut self, len: usize) -> Result<Found, AllocError>
        requires come { HasCome len (reading_of self.old).rest }
        requires front { front_at self.old.form (reading_of self.old).rest ≡ Front.Whole len }
        ensures ok { IfOk result (λ found. StepFinds self.old self.new found) }
        ensures err { OnErr result (reading_of self.new ≡ reading_of self.old) }
        ensures refused { OnErr result (AwaitsMemory (reading_of self.old)) }
    {
        let from = self.done;
        let to = from + len;
        match self.content(from, to) {
            Block::Packet(_) => {
                self.done = to;
                Ok(Found::Packet(from))
            }
            Block::Interface(interface) => {
                self.interfaces.push(interface)?;
                self.done = to;
                Ok(Found::Passed)
            }
            Block::Other => {
                self.done = to;
                Ok(Found::Passed)
            }
        }
    }

    /// A section begins, which has none of the interfaces of the section before.
    fn begin_section(&mut self, endian: Endian)
        ensures form { self.new.form ≡ Form.PcapNg endian }
        ensures interfaces { self.new.interfaces.items ≡ [] }
        ensures kept { self.new.kept ≡ self.old.kept }
        ensures done { self.new.done ≡ self.old.done }
    {
        self.form = Form::PcapNg(endian);
        self.interfaces.clear();
    }

    /// Reads what the octets that are not read begin with.
    fn step(&mut self) -> Result<Found, AllocError>
        ensures ok { IfOk result (λ found. StepFinds self.old self.new found) }
        ensures err { OnErr result (reading_of self.new ≡ reading_of self.old) }
        ensures refused { OnErr result (AwaitsMemory (reading_of self.old)) }
    {
        match front_of(self.form, self.rest()) {
            Front::Part => Ok(Found::More),
            Front::Broken => {
                self.form = Form::Broken;
                Ok(Found::Broken)
            }
            Front::Header(head) => {
                self.form = Form::Pcap(head);
                self.done += FILE_HEAD;
                Ok(Found::Passed)
            }
            Front::Section(endian, len) => {
                self.begin_section(endian);
                self.done += len;
                Ok(Found::Passed)
            }
            Front::Whole(len) => self.read(len),
        }
    }

    /// Reads up to the next packet, or to the end if there is none.
    fn find(&mut self) -> Result<Found, AllocError>
        ensures ok { IfOk result (λ found. Finds self.old self.new found) }
        ensures err { OnErr result (LeadsTo (reading_of self.old) (reading_of self.new)) }
        ensures refused { OnErr result (AwaitsMemory (reading_of self.new)) }
    {
        'steps: loop {
            match self.step()? {
                Found::Passed => {}
                found => return Ok(found),
            }
        }
    }

    /// The next packet, or why there is none. Memory is needed only for an interface; if it is refused, the file is read up to the block
    /// of that interface, and the next call goes on there.
    pub fn next(&mut self) -> Result<Next<'_>, AllocError>
        ensures* rests { sem 𝓛 (Rests (the_row A.row A.Allocator) self.entry
            (NextIs (reading_of self.old) result)) }
    {
        match self.find()? {
            Found::Packet(from) => match self.packet(from) {
                Some(packet) => Ok(Next::Packet(packet)),
                None => Ok(Next::More),
            },
            Found::More | Found::Passed => Ok(Next::More),
            Found::Broken => Ok(Next::Broken),
        }
    }
}
