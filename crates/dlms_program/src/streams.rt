//! What bytes come from and what they go to, and what each call comes to.
ghost use Rattle.std.specs.Prelude.{◌≡◌, ◌<◌, ◌↔◌, ℕ, List, Option, None, IfOk, IsTrue, OnErr, [], ◌∷◌, length};
ghost use Rattle.std.specs.Io.{WritesAtMost};
ghost use Rattle.std.specs.Io.KnownBytes.{Keeps, WriteAppends};
ghost use Rattle.std.specs.IoError.{error_kind};
ghost use Rattle.dlms_program.specs.Calls.{Adds, Calls, fault_of};
ghost use Rattle.dlms_program.specs.Lines.{TakesPiece};

use crate::pieces::{MOST_BYTES, Piece, add};
use arrayvec::ArrayVec;
use std::io;
use std::io::{BufRead, ErrorKind, Read, Write};

/// What gives bytes, a piece of a line at each call.
pub trait Source {
    /// The bytes that it will return from here on, if they are known.
    ghost remaining: { Self → Option (List ℕ) } = { λ _. None };

    /// The outcomes of its calls, in order, if they are known. They are not known for a `Read`; clauses for code over any source
    /// apply to those that do know them.
    ghost calls: { Self → Option Calls } = { λ _. None };

    /// Takes bytes that are at hand up to the next line feed, and it too, and adds those before it to the line; without a line
    /// feed, as many as the line has room for. An error of the kind `Interrupted` asks for the call to be made again.
    fn take_piece(&mut self, line: &mut ArrayVec<u8, MOST_BYTES>) -> io::Result<Piece>
        ensures piece { IfOk result (TakesPiece (remaining self.old)
            (remaining self.new) line.old.items line.new.items) }
        ensures none { OnErr result (Keeps (remaining self.old) (remaining self.new)) }
        ensures kept { OnErr result (line.new.items ≡ line.old.items) }
        ensures call { Adds (calls self.old) (calls self.new) (fault_of result ∷ []) };
}

impl<R: Read> Source for R {
    ghost remaining = { R.remaining };

    fn take_piece(&mut self, line: &mut ArrayVec<u8, MOST_BYTES>) -> io::Result<Piece> {
        let mut byte = [0u8; 1];
        match self.read(&mut byte)? {
            0 => Ok(Piece::End),
            _ => Ok(add(&byte, line).1),
        }
    }
}

/// A reader that shows the bytes that it has at hand: as much of them as is a piece is taken at once.
#[derive(Drop)]
pub struct Buffered<R: BufRead + Drop> {
    pub reader: R,
}

impl<R: BufRead + Drop> Source for Buffered<R> {
    ghost remaining = { λ shown. R.remaining shown.reader };

    fn take_piece(&mut self, line: &mut ArrayVec<u8, MOST_BYTES>) -> io::Result<Piece> {
        let shown = self.reader.fill_buf()?;
        let (count, piece) = add(shown, line);
        self.reader.consume(count);
        Ok(piece)
    }
}

/// What takes bytes.
pub trait Sink {
    /// The bytes that it holds, if they are known.
    ghost contents: { Self → Option (List ℕ) } = { λ _. None };

    /// The outcomes of its calls, in order, if they are known. They are not known for a `Write`; clauses for code over any sink
    /// apply to those that do know them.
    ghost calls: { Self → Option Calls } = { λ _. None };

    /// Takes the first of these bytes, at least one, and says how many. There must be one. An error of the kind
    /// `Interrupted` asks for the call to be made again.
    fn take_some(&mut self, bytes: &[u8]) -> io::Result<usize>
        requires { 0 < length bytes.now }
        ensures some { IfOk result (λ count. 0 < count) }
        ensures bound { WritesAtMost result bytes.now }
        ensures bytes { WriteAppends (contents self.old) (contents self.new) result bytes.now }
        ensures call { Adds (calls self.old) (calls self.new) (fault_of result ∷ []) };
}

impl<W: Write> Sink for W {
    ghost contents = { W.contents };

    fn take_some(&mut self, bytes: &[u8]) -> io::Result<usize> {
        match self.write(bytes) {
            Ok(0) => Err(ErrorKind::WriteZero.into()),
            taken => taken,
        }
    }
}

/// A signal came in between: the call is to be made again.
pub fn is_interrupted(error: &io::Error) -> bool
    ensures { IsTrue result ↔ (error_kind error.now ≡ ErrorKind.Interrupted) }
{
    error.kind() == ErrorKind::Interrupted
}
