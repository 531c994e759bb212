//! The numbers that clauses cite by name.

ghost use Rattle.std.specs.Prelude.{◌≡◌};
ghost use Rattle.dlms_ends.specs.declared.end.TheConstants.{PIECE, READS};
ghost use Rattle.dlms_ends.specs.declared.head_end.TheConstants.{MOST_BYTES};
ghost use Rattle.dlms_ends.specs.declared.poll_end.TheConstants.{MOST_READS};
ghost use Rattle.dlms_ends.specs.declared.polling.TheConstants.{TURNS};

/// The most bytes of one read, the most reads of one turn, the most turns of a poll, the most bytes that may come in it, and the most
/// reads of a poll over a carrier.
pub fn the_numbers()
    ensures piece { PIECE ≡ 2048 }
    ensures reads { READS ≡ 4096 }
    ensures turns { TURNS ≡ 65536 }
    ensures bytes { MOST_BYTES ≡ 2097152 }
    ensures poll { MOST_READS ≡ 16777216 }
{}
