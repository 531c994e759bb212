//! A line in memory: it loses what is sent, sends it twice, and gives it in pieces.
ghost use Rattle.std.specs.Prelude.{◌≤◌, length};

use std::alloc::Global;
use std::cell::RefCell;
use std::io;
use std::io::{ErrorKind, Read, Write};

/// What becomes of the frames that are sent, both directions counted together from 0.
#[derive(Clone, Copy)]
pub enum Fate {
    /// All arrive.
    Whole,
    /// So many are lost, from this one on.
    Lost(u32, u32),
    /// The last byte of this one is missing.
    Cut(u32),
    /// This one arrives twice.
    Twice(u32),
}

/// In which pieces bytes come out.
#[derive(Clone, Copy)]
pub enum Pieces {
    /// All that has come, in one piece.
    Joined,
    /// Each byte by itself.
    Single,
}

/// The frames on their way, and the number of frames sent.
#[derive(Drop)]
struct Traffic {
    to_head: Vec<u8>,
    to_meter: Vec<u8>,
    sent: u32,
}

/// A line.
#[derive(Drop)]
pub struct Wire {
    fate: Fate,
    pieces: Pieces,
    traffic: RefCell<Traffic>,
}

/// An end of a line.
#[derive(Clone, Copy)]
pub struct End<'a> {
    wire: &'a Wire,
    is_head: bool,
}

impl Wire {
    /// A line on which nothing is on its way.
    pub fn new(alloc: Global, fate: Fate, pieces: Pieces) -> Wire {
        Wire {
            fate,
            pieces,
            traffic: RefCell::new(Traffic {
                to_head: Vec::new(alloc),
                to_meter: Vec::new(alloc),
                sent: 0,
            }),
        }
    }

    /// The head end's end.
    pub fn head(&self) -> End<'_> {
        End {
            wire: self,
            is_head: true,
        }
    }

    /// The meter's end.
    pub fn tail(&self) -> End<'_> {
        End {
            wire: self,
            is_head: false,
        }
    }

    /// How many frames were sent.
    pub fn sent(&self) -> u32 {
        match self.traffic.try_borrow() {
            Ok(traffic) => traffic.sent,
            Err(_) => 0,
        }
    }
}

/// What arrives of a frame, and how often.
fn arriving(fate: Fate, number: u32, frame: &[u8]) -> (&[u8], u8) {
    let short = frame.len().saturating_sub(1);
    match fate {
        Fate::Lost(first, count) if first <= number && number - first < count => (&[], 0),
        Fate::Cut(at) if at == number => (frame.get(..short).unwrap_or(&[]), 1),
        Fate::Twice(at) if at == number => (frame, 2),
        _ => (frame, 1),
    }
}

/// Sends bytes this many times.
fn put(way: &mut Vec<u8>, bytes: &[u8], times: u8) -> io::Result<()> {
    for _ in 0..times {
        way.extend_from_slice(bytes)?;
    }
    Ok(())
}

impl Write for End<'_> {
    fn write(&mut self, buf: &[u8]) -> io::Result<usize> {
        let Ok(mut traffic) = self.wire.traffic.try_borrow_mut() else {
            return Err(io::Error::from(ErrorKind::Other));
        };
        let (bytes, times) = arriving(self.wire.fate, traffic.sent, buf);
        traffic.sent = traffic.sent.saturating_add(1);
        if self.is_head {
            put(&mut traffic.to_meter, bytes, times)?;
        } else {
            put(&mut traffic.to_head, bytes, times)?;
        }
        Ok(buf.len())
    }

    fn flush(&mut self) -> io::Result<()> {
        Ok(())
    }
}

/// Takes bytes off the front.
fn take(way: &mut Vec<u8>, most: usize, buf: &mut [u8]) -> usize
    ensures { result ≤ length buf.new }
{
    let count = most.min(way.len()).min(buf.len());
    let mut taken = 0usize;
    for (to, from) in buf.iter_mut().zip(way.iter()) {
        if taken == count {
            break;
        }
        *to = *from;
        taken = taken.saturating_add(1);
    }
    let _front = way.drain(..count);
    count
}

impl Read for End<'_> {
    fn read(&mut self, buf: &mut [u8]) -> io::Result<usize> {
        let Ok(mut traffic) = self.wire.traffic.try_borrow_mut() else {
            return Err(io::Error::from(ErrorKind::Other));
        };
        let most = match self.wire.pieces {
            Pieces::Joined => buf.len(),
            Pieces::Single => 1,
        };
        let count = if self.is_head {
            take(&mut traffic.to_head, most, buf)
        } else {
            take(&mut traffic.to_meter, most, buf)
        };
        match count {
            0 => Err(io::Error::from(ErrorKind::WouldBlock)),
            count => Ok(count),
        }
    }
}
