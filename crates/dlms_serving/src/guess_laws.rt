//! What holds of all that is tried on a meter.

ghost use Rattle.std.specs.Prelude.{◌≡◌};
ghost use Rattle.dlms_serving.specs.GuessRuns.{OneASecond, RefusalIsWaitedFor};
ghost use Rattle.dlms_serving.specs.declared.guesses.TheConstants.{FIRST_WAIT, FORGOTTEN_AFTER, KNOWN_FOR, KNOWN_WAIT, LONGEST_WAIT, MOST_MARKS, MOST_PROOFS, PATIENCE};

/// Addresses that have proved no secret are refused once a second at most, all together, however many they are and whatever is
/// forgotten of them.
pub fn at_most_one_a_second()
    ensures { OneASecond }
{}

/// A refusal that is kept is waited for.
pub fn a_refusal_is_waited_for()
    ensures { RefusalIsWaitedFor }
{}

/// The numbers that clauses cite by name: the seconds for which an address waits, after a first refusal, at most, and once it has
/// proved a secret; the seconds after which refusals, and proofs, no longer count, and after which a connection is patient; and the
/// number of addresses for which both are kept.
pub fn the_numbers()
    ensures waits { (FIRST_WAIT ≡ 10) × (LONGEST_WAIT ≡ 900) × (KNOWN_WAIT ≡ 2) }
    ensures times { (FORGOTTEN_AFTER ≡ 14400) × (KNOWN_FOR ≡ 90000) × (PATIENCE ≡ 120) }
    ensures kept { (MOST_MARKS ≡ 1024) × (MOST_PROOFS ≡ 32) }
{}
