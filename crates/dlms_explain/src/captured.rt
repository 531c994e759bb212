//! Captures, explained: the octets of each connection go to an explainer of its own.

ghost use Rattle.std.specs.Prelude.{◌<◌, length};

use crate::connection::Connection;
use crate::json::{begin_note, end_note, write_note};
use crate::layout::Layout;
use crate::session::Form;
use crate::words::{Text, number};
use dlms_capture::{File, Next, Packet, Segment, Stamp, segment_of};
use dlms_security::Opener;
use std::alloc::{AllocError, Allocator};

/// How many connections are followed at once; of more the one that was longest silent is let go.
const MOST_CONNECTIONS: usize = 32;

/// The message if a capture continues with invalid data.
const BROKEN: &str = "(what follows is no capture)";

/// The message if a capture ends within a packet.
const CUT: &str = "(the capture ends within a packet)";

/// A capture that is explained as it comes.
#[derive(Drop)]
pub struct Captured<A: Allocator, O> {
    alloc: A,
    form: Form,
    opener: O,
    file: File<A>,
    connections: Vec<Box<Connection<A, O>, A>, A>,
    /// How many packets were of other traffic.
    others: u64,
    is_broken: bool,
}

/// The connection of these ends, taken out, or one that begins here.
fn connection_of<A: Allocator + Copy, O: Opener>(
    alloc: A,
    form: Form,
    opener: O,
    connections: &mut Vec<Box<Connection<A, O>, A>, A>,
    segment: Segment<'_>,
) -> Result<Box<Connection<A, O>, A>, AllocError> {
    let at = connections
        .iter()
        .position(|connection| connection.is_of(segment.ends));
    match at {
        Some(at) if at < connections.len() => Ok(connections.remove(at)),
        _ => Ok(Box::new(alloc, Connection::new(alloc, form, opener, segment))?),
    }
}

/// Drops the connection that was silent longest: explains the segments that wait in it, and returns how many segments are of other
/// traffic.
fn end_oldest<A: Allocator + Copy, O: Opener>(
    connections: &mut Vec<Box<Connection<A, O>, A>, A>,
    text: &mut Text<A>,
) -> u64
    requires { 0 < length connections.old.items }
{
    let mut oldest = connections.remove(0);
    let others = oldest.end(text);
    drop(oldest);
    others
}

/// Appends a connection to the others; returns how many segments are then known to be of other traffic.
fn keep<A: Allocator + Copy, O: Opener>(
    connections: &mut Vec<Box<Connection<A, O>, A>, A>,
    connection: Box<Connection<A, O>, A>,
    text: &mut Text<A>,
) -> u64 {
    if connections.push(connection).is_err() {
        text.refuse();
    }
    if connections.len() > MOST_CONNECTIONS {
        end_oldest(connections, text)
    } else {
        0
    }
}

/// Explains a segment, and returns how many are of other traffic.
fn explain_segment<A: Allocator + Copy, O: Opener>(
    alloc: A,
    form: Form,
    opener: O,
    connections: &mut Vec<Box<Connection<A, O>, A>, A>,
    stamp: Option<Stamp>,
    segment: Segment<'_>,
    text: &mut Text<A>,
) -> u64 {
    let Ok(mut connection) = connection_of(alloc, form, opener, connections, segment) else {
        text.refuse();
        return 0;
    };
    let others = connection.explain(stamp, segment, text);
    let let_go = keep(connections, connection, text);
    others.saturating_add(let_go)
}

/// Explains a packet, and returns how many are of other traffic.
fn explain_packet<A: Allocator + Copy, O: Opener>(
    alloc: A,
    form: Form,
    opener: O,
    connections: &mut Vec<Box<Connection<A, O>, A>, A>,
    packet: Packet<'_>,
    text: &mut Text<A>,
) -> u64 {
    match segment_of(packet) {
        Some(segment) => {
            explain_segment(
                alloc,
                form,
                opener,
                connections,
                packet.stamp,
                segment,
                text,
            )
        }
        None => 1,
    }
}

/// The line of how many packets were of other traffic, where some were.
fn write_others<A: Allocator>(text: &mut Text<A>, layout: Layout, count: u64) {
    if count == 0 {
        return;
    }
    begin_note(text, layout);
    text.push("(packets of other traffic: ");
    number(text, count);
    text.push(")");
    end_note(text, layout);
}

impl<A: Allocator + Copy, O: Opener> Captured<A, O> {
    /// Before the first octet. No memory is taken here.
    pub fn new(alloc: A, form: Form, opener: O) -> Self {
        Captured {
            alloc,
            form,
            opener,
            file: File::new(alloc),
            connections: Vec::new(alloc),
            others: 0,
            is_broken: false,
        }
    }

    /// Explains the packets that are complete.
    fn tell(&mut self, text: &mut Text<A>) {
        for _ in 0..u64::MAX {
            match self.file.next() {
                Ok(Next::Packet(packet)) => {
                    let connections = &mut self.connections;
                    let others = explain_packet(
                        self.alloc,
                        self.form,
                        self.opener,
                        connections,
                        packet,
                        text,
                    );
                    self.others = self.others.saturating_add(others);
                }
                Ok(Next::More) => return,
                Ok(Next::Broken) => {
                    self.is_broken = true;
                    write_note(text, self.form.layout, BROKEN);
                    return;
                }
                Err(_) => {
                    text.refuse();
                    return;
                }
            }
        }
    }

    /// Takes octets of the capture, and appends the explanation of the packets that are then complete.
    pub fn feed(&mut self, octets: &[u8], text: &mut Text<A>) {
        if self.is_broken {
            return;
        }
        if self.file.feed(octets).is_err() {
            text.refuse();
            return;
        }
        self.tell(text);
    }

    /// The capture is at its end: explains octets that are no frame, and other traffic.
    pub fn end(&mut self, text: &mut Text<A>) {
        let mut others = self.others;
        for connection in self.connections.iter_mut() {
            others = others.saturating_add(connection.end(text));
        }
        if !self.is_broken && !self.file.is_whole() {
            write_note(text, self.form.layout, CUT);
        }
        write_others(text, self.form.layout, others);
    }
}
