//! What holds for all the seconds that a meter gets.

ghost use Rattle.std.specs.Prelude.{◌≡◌, ◌+◌, List, length, sum_by};
ghost use Rattle.dlms_serving.specs.declared.hanging_up.TheConstants.{DISC, METER};
ghost use Rattle.dlms_serving.specs.declared.telling.TheConstants.{CATCH_UP};
ghost use Rattle.dlms_serving.specs.declared.turns.TheConstants.{LINE_REFUSALS, PORT_REFUSALS};
ghost use Rattle.dlms_serving.specs.Load.{pulses_after};
ghost use Rattle.dlms_serving.specs.Ticks.{AreNext};
ghost use Rattle.dlms_serving.specs.declared.ticks.Ticks.{Ticks as TicksOf};
ghost use Rattle.dlms_serving.specs.declared.ticks.Second.{Second as SecondOf};

/// The pulses of the seconds that a meter gets add up to those of the load in all that time: none is lost, none comes twice, and a
/// part of a pulse is kept for the next second. No second is left out.
pub fn pulses_add_up()
    ensures pulses { (old new : TicksOf) (seconds : List SecondOf) → AreNext old seconds new
        → pulses_after old.watts old.told + sum_by
        (λ second. second.pulses) seconds ≡ pulses_after old.watts new.told }
    ensures seconds { (old new : TicksOf) (seconds : List SecondOf) → AreNext old seconds new
        → new.told ≡ old.told + length seconds }
{}

/// The numbers that clauses cite by name: the seconds of one look at the clock, the control octet of DISC and the meter's upper
/// address, and the refusals after which a turn is over.
pub fn the_numbers()
    ensures look { CATCH_UP ≡ 60 }
    ensures disc { (DISC ≡ 0x53) × (METER ≡ 1) }
    ensures turn { (PORT_REFUSALS ≡ 1) × (LINE_REFUSALS ≡ 5) }
{}
