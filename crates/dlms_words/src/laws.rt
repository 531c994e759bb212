//! The numbers of the arguments.

ghost use Rattle.std.specs.Prelude.{◌≡◌};
ghost use Rattle.dlms_words.specs.declared.defaults.TheConstants.{AHEAD, AT_ONCE, CLIENT, DEADLINE, IDLE, INACTIVITY, MOST, TICK, TURN};

/// The numbers that clauses cite by name: the defaults in seconds, how many meters are polled at once, and for a meter that is asked
/// the client's address and the octets of a value's encoding.
pub fn the_numbers()
    ensures poll { (DEADLINE ≡ 300) × (AHEAD ≡ 86400) × (AT_ONCE ≡ 1000) }
    ensures asking { (CLIENT ≡ 16) × (MOST ≡ 4194304) }
    ensures serve { (TICK ≡ 1) × (IDLE ≡ 5) × (TURN ≡ 60) × (INACTIVITY ≡ 120) }
{}
