//! The input and the output of a replay that somebody may be talking to through a pipe: what was printed goes out before
//! more is waited for.

use arrayvec::ArrayVec;
use dlms_program::{Buffered, MOST_BYTES, Piece, Sink, Source};
use std::cell::RefCell;
use std::io;
use std::io::{BufReader, BufWriter, ErrorKind, Read, Write};

/// An output through a buffer, which its input flushes.
pub type Shared<W> = RefCell<BufWriter<W>>;

/// Writes out the contents of the buffer.
pub fn flush<W: Write + Drop>(output: &Shared<W>) -> io::Result<()> {
    match output.try_borrow_mut() {
        Ok(mut output) => output.flush(),
        Err(_) => Err(ErrorKind::Other.into()),
    }
}

/// An input through a buffer. Where the buffer is empty, so that the next byte may have to be waited for, what was printed
/// goes out first.
#[derive(Drop)]
pub struct Input<'a, R: Read + Drop, W: Write + Drop> {
    buffered: Buffered<BufReader<R>>,
    output: &'a Shared<W>,
}

impl<'a, R: Read + Drop, W: Write + Drop> Input<'a, R, W> {
    /// The input from this reader, for a user who reads that output.
    pub fn new(reader: BufReader<R>, output: &'a Shared<W>) -> Self {
        Input {
            buffered: Buffered { reader },
            output,
        }
    }
}

impl<R: Read + Drop, W: Write + Drop> Source for Input<'_, R, W> {
    fn take_piece(&mut self, line: &mut ArrayVec<u8, MOST_BYTES>) -> io::Result<Piece> {
        if self.buffered.reader.buffer().is_empty() {
            flush(self.output)?;
        }
        self.buffered.take_piece(line)
    }
}

/// An output through a buffer.
#[derive(Drop)]
pub struct Output<'a, W: Write + Drop>(pub &'a Shared<W>);

impl<W: Write + Drop> Sink for Output<'_, W> {
    fn take_some(&mut self, bytes: &[u8]) -> io::Result<usize> {
        match self.0.try_borrow_mut() {
            Ok(mut output) => output.take_some(bytes),
            Err(_) => Err(ErrorKind::Other.into()),
        }
    }
}
