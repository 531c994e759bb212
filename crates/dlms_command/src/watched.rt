//! An output that keeps why it failed.

use std::io;
use std::io::{ErrorKind, Write};

/// A writer, and why it failed, if it did.
#[derive(Drop)]
pub struct Watched<'w, W> {
    output: &'w mut W,
    failure: Option<io::Error>,
}

impl<'w, W> Watched<'w, W> {
    /// It has not failed.
    pub fn new(output: &'w mut W) -> Self {
        Watched {
            output,
            failure: None,
        }
    }

    /// Why it failed last.
    pub fn failure(&self) -> Option<io::Error> {
        self.failure
    }

    /// Keeps why it failed. That a call was interrupted is no failure.
    fn keep(&mut self, error: io::Error) -> io::Error {
        if error.kind() != ErrorKind::Interrupted {
            self.failure = Some(error);
        }
        error
    }
}

impl<W: Write> Write for Watched<'_, W> {
    fn write(&mut self, buf: &[u8]) -> io::Result<usize> {
        match self.output.write(buf) {
            Ok(count) => Ok(count),
            Err(error) => Err(self.keep(error)),
        }
    }

    fn flush(&mut self) -> io::Result<()> {
        match self.output.flush() {
            Ok(()) => Ok(()),
            Err(error) => Err(self.keep(error)),
        }
    }
}
