//! The numbers of a line.

ghost use Rattle.std.specs.Prelude.{◌≡◌};
ghost use Rattle.dlms_lines.specs.declared.line.TheConstants.{WAIT_SECONDS};
ghost use Rattle.dlms_lines.specs.declared.meter_line.TheConstants.{CONNECT_SECONDS};

/// The numbers that clauses cite by name: the seconds for which an answer and a connection are waited for.
pub fn the_numbers()
    ensures waits { (WAIT_SECONDS ≡ 2) × (CONNECT_SECONDS ≡ 8) }
{}
