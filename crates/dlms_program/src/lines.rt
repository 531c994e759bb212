//! Lines of bounded length from a source of bytes.
ghost use Rattle.std.specs.Prelude.{◌≡◌, ◌<◌, ◌≤◌, IfOk, IfErr, OnErr};
ghost use Rattle.std.specs.Io.KnownBytes.{Keeps};
ghost use Rattle.dlms_program.specs.Calls.{Called};
ghost use Rattle.dlms_program.specs.Lines.{LosesPart, TakesLine, TakesPiece};

use crate::fault::ReplayFault;
use crate::pieces::{MOST_BYTES, Piece};
use crate::streams::{Source, is_interrupted};
use arrayvec::ArrayVec;

/// The outcome of reading a line.
#[derive(Clone, Copy, PartialEq, Eq)]
pub enum Taken {
    /// No byte was left.
    End,
    /// A line, whose line feed may be missing at the end of the text.
    Whole,
    /// More than `MOST_BYTES` bytes and no line feed.
    Long,
}

/// The next piece of a line. A call that a signal interrupts is made again.
fn next_piece<S: Source>(
    source: &mut S,
    line: &mut ArrayVec<u8, MOST_BYTES>,
) -> Result<Piece, ReplayFault>
    ensures piece { IfOk result (TakesPiece (S.remaining source.old)
        (S.remaining source.new) line.old.items line.new.items) }
    ensures none { OnErr result (Keeps (S.remaining source.old) (S.remaining source.new)) }
    ensures kept { OnErr result (line.new.items ≡ line.old.items) }
    ensures fault { IfErr result (λ e. e ≡ ReplayFault.Io) }
    ensures calls { Called 1 (S.calls source.old) (S.calls source.new) result }
{
    let mut tries = u64::MAX;
    'reading: loop {
        match source.take_piece(line) {
            Ok(piece) => return Ok(piece),
            Err(e) if tries > 0 && is_interrupted(&e) => tries -= 1,
            Err(_) => return Err(ReplayFault::Io),
        }
    }
}

/// Takes a line into `line`, without its line feed. A fault is that of the last call.
pub fn take_line<S: Source>(
    source: &mut S,
    line: &mut ArrayVec<u8, MOST_BYTES>,
) -> Result<Taken, ReplayFault>
    ensures line { IfOk result (TakesLine (S.remaining source.old)
        (S.remaining source.new) line.new.items MOST_BYTES) }
    ensures part { OnErr result (LosesPart (S.remaining source.old)
        (S.remaining source.new) line.new.items) }
    ensures fault { IfErr result (λ e. e ≡ ReplayFault.Io) }
    ensures calls { Called 1 (S.calls source.old) (S.calls source.new) result }
{
    line.clear();
    'bytes: loop {
        match next_piece(source, line)? {
            Piece::Feed => return Ok(Taken::Whole),
            Piece::Part => {
                let _len = line.len();
            }
            Piece::Full => return Ok(Taken::Long),
            Piece::End if line.is_empty() => return Ok(Taken::End),
            Piece::End => return Ok(Taken::Whole),
        }
    }
}
