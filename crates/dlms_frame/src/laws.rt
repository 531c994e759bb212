//! Laws of frames and streams. They make no call: the calls' own clauses cite the same definitions.
ghost use Rattle.std.specs.Prelude.{◌≡◌, ◌+◌, ℕ, List, Bool, [], ◌∷◌, ◌++◌, map, not, length};
ghost use Rattle.dlms_frame.specs.Check.{IsRemainder, dividend_of, line_bits, check_of, from_bits};
ghost use Rattle.dlms_frame.specs.Frame.{Parts, FrameSpelling};
ghost use Rattle.dlms_frame.specs.Stream.{FramesOf, Call, Feeds, Fits, bytes_of, frames_of};
ghost use Rattle.dlms_frame.specs.declared.reading.TheConstants.{FLAG, FORMAT};

/// The check is what the division by x^16 + x^12 + x^5 + 1 leaves, inverted.
pub fn division()
    ensures some { (bytes : List ℕ)
        → (left : List Bool) × IsRemainder (dividend_of (line_bits bytes)) left }
    ensures check { (bytes : List ℕ) (left : List Bool)
        → IsRemainder (dividend_of (line_bits bytes)) left
        → check_of bytes ≡ from_bits (map not left) }
{}

/// Bytes are one frame at most, and a frame has one spelling.
pub fn one_spelling()
    ensures frame { (bytes : List ℕ) (f g : Parts) → FrameSpelling bytes f → FrameSpelling bytes g
        → f ≡ g }
    ensures spelling { (a b : List ℕ) (f : Parts) → FrameSpelling a f → FrameSpelling b f → a ≡ b }
{}

/// A stretch has one list of frames.
pub fn one_list()
    ensures { (stretch : List ℕ) (place : ℕ) (fs gs : List Parts) → FramesOf stretch place fs
        → FramesOf stretch place gs → fs ≡ gs }
{}

/// However the stretch is cut, the calls give its frames.
pub fn any_pieces()
    ensures { (old new : List ℕ) (calls : List Call) → Fits old [] 0 → Feeds old calls new
        → FramesOf (bytes_of calls) 0 (frames_of calls) }
{}

/// The octets that clauses and definitions cite by name: the flag, and the format type in its half octet.
pub fn the_numbers()
    ensures { (FLAG ≡ 0x7E) × (FORMAT ≡ 0xA) }
{}
