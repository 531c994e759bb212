//! Laws of captures. They make no call: the calls' own clauses cite the same definitions.

ghost use Rattle.std.specs.Prelude.{◌≡◌, ◌≤◌, ◌+◌, ◌-◌, ◌++◌, ℕ, length};
ghost use Rattle.dlms_capture.specs.Streams.{behind, stretch};

/// If the output has the octets of a stream from its start up to the next place, a due segment of that stream makes it those up to the
/// new next place: no octet is lost, and none comes twice, whatever the segment repeats.
pub fn nothing_lost()
    ensures { (stream : ℕ → ℕ) (start given place n : ℕ) → start ≤ given → place ≤ given
        → stretch stream start (given - start) ++ behind given place (stretch stream place n)
        ≡ stretch stream start (given + length
        (behind given place (stretch stream place n)) - start) }
{}
