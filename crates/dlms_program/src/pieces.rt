//! Pieces of a line.
ghost use Rattle.std.specs.Prelude.{◌≡◌, ◌≢◌, ◌≤◌, ◌<◌, ℕ, List, [], length, take, slice_index};
ghost use Rattle.dlms_program.specs.Lines.{AddsPiece, HasNoFeed};

use arrayvec::ArrayVec;
use memchr::memchr;

/// The most bytes of a line, without its line feed.
pub const MOST_BYTES: usize = 8192;

/// The outcome of reading a piece of a line.
#[derive(Clone, Copy, PartialEq, Eq)]
pub enum Piece {
    /// No byte was left.
    End,
    /// The line ended with a line feed.
    Feed,
    /// The line goes on.
    Part,
    /// The line goes on, and there is no room for it.
    Full,
}

/// The number of bytes before the first line feed.
fn before_feed(bytes: &[u8]) -> usize
    ensures within { result ≤ length bytes.now }
    ensures none { HasNoFeed (take result bytes.now) }
    ensures feed { result < length bytes.now → slice_index bytes.now result ≡ 10 }
{
    match memchr(b'\n', bytes) {
        Some(at) => at,
        None => bytes.len(),
    }
}

/// Adds the bytes before the first line feed, or as many as there is room for, and says how many were taken, that line feed too.
pub fn add(shown: &[u8], line: &mut ArrayVec<u8, MOST_BYTES>) -> (usize, Piece)
    ensures within { result.0 ≤ length shown.now }
    ensures piece { AddsPiece shown.now line.old.items line.new.items result.0 result.1 }
{
    if shown.is_empty() {
        return (0, Piece::End);
    }
    let count = before_feed(shown);
    let room = MOST_BYTES - line.len();
    if count <= room {
        let _fits = line.try_extend_from_slice(&shown[..count]);
        if count < shown.len() {
            return (count + 1, Piece::Feed);
        }
        return (count, Piece::Part);
    }
    if room == 0 {
        return (1, Piece::Full);
    }
    let _fits = line.try_extend_from_slice(&shown[..room]);
    (room, Piece::Part)
}
