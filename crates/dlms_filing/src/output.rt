//! The outputs for printed texts.
ghost use Rattle.std.specs.Prelude.{None};
ghost use Rattle.dlms_filing.specs.Printing.{Flushes, Outputs, Printed, PrintsAs};

use dlms_ends::put;
use std::io;
use std::io::Write;

/// An output for printed texts.
pub trait Output {
    /// The bytes that went out, in order, the part of them that was flushed, and the bytes that it has, each if it is known. For a
    /// writer the bytes that went out are not; a theorem about code that takes any output also holds for outputs whose bytes are
    /// known.
    ghost printed: { Self → Printed } = { λ _. record { moments = None; flushed = None; bytes = None } };

    /// Writes all of these bytes, or fails after a part of them. They may be kept until a flush.
    fn write_out(&mut self, bytes: &[u8]) -> io::Result<()>
        ensures { Outputs (printed self.old) (printed self.new) bytes.now result };

    /// Sends out what was written and kept.
    fn flush_out(&mut self) -> io::Result<()>
        ensures { Flushes (printed self.old) (printed self.new) result };

    /// Prints all of these bytes, and sends them out, or fails after a part of them.
    final fn print(&mut self, bytes: &[u8]) -> io::Result<()>
    where
        Self: Sized,
        ensures { PrintsAs (printed self.old) (printed self.new) bytes.now result }
    {
        self.write_out(bytes)?;
        self.flush_out()
    }
}

impl<W: Write> Output for W {
    ghost printed = { λ w. record { moments = None; flushed = None; bytes = W.contents w } };

    fn write_out(&mut self, bytes: &[u8]) -> io::Result<()> {
        put(self, bytes)
    }

    fn flush_out(&mut self) -> io::Result<()> {
        self.flush()
    }
}
