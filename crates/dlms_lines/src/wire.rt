//! The wire under a line to a meter.

use crate::serial::Serial;
use std::io;
use std::io::{Read, Write};

/// A connection, or a serial line.
#[derive(Drop)]
pub enum Wire<S: Drop> {
    Socket(S),
    Serial(Serial),
}

impl<S: Read + Drop> Read for Wire<S> {
    fn read(&mut self, buf: &mut [u8]) -> io::Result<usize> {
        match self {
            Wire::Socket(stream) => stream.read(buf),
            Wire::Serial(line) => line.read(buf),
        }
    }
}

impl<S: Write + Drop> Write for Wire<S> {
    fn write(&mut self, buf: &[u8]) -> io::Result<usize> {
        match self {
            Wire::Socket(stream) => stream.write(buf),
            Wire::Serial(line) => line.write(buf),
        }
    }

    fn flush(&mut self) -> io::Result<()> {
        match self {
            Wire::Socket(stream) => stream.flush(),
            Wire::Serial(line) => line.flush(),
        }
    }
}
