//! What is true of every run of a fleet. No program needs to call these functions: their contracts are the laws.

ghost use Rattle.std.specs.Prelude.{◌≡◌};
ghost use Rattle.dlms_fleet.specs.Alone.{EndsByItsSteps, EndsInTime, EndsOnce, FreesSeats, IsAlone, KeepsSeats};
ghost use Rattle.dlms_fleet.specs.Example.{ExampleIsRun, ExampleEnds};
ghost use Rattle.dlms_fleet.specs.Numbers.{KeepsNumbers, OneIsDone};
ghost use Rattle.dlms_fleet.specs.declared.lines.TheConstants.{PIECE};

use crate::job::Job;

/// Whatever happens on which seats in whatever order: on each seat there is a run of that seat alone, of what happened on it.
pub fn each_is_alone<T: Job>()
    ensures { IsAlone T.steps }
{}

/// The number of seats and their limits stay as they are, so no more jobs run at once than there are seats.
pub fn seats_stay<T: Job>()
    ensures { KeepsSeats T.steps }
{}

/// Each job that was started ends once, in time, and by its own steps.
pub fn each_ends<T: Job>()
    ensures once { EndsOnce T.steps }
    ensures in_time { EndsInTime T.steps }
    ensures by_its_steps { EndsByItsSteps T.steps }
{}

/// Once each seat had as many ticks as its job had left, every job that ran then has ended.
pub fn seats_are_freed<T: Job>()
    ensures { FreesSeats T.steps }
{}

/// What a seat of numbered jobs hands back, with whatever outcome, has the number of the job that was started there, and came from it by
/// its own steps alone, whatever happens on the other seats.
pub fn each_keeps_its_number<T: Job>()
    ensures { KeepsNumbers T.steps }
{}

/// The laws apply: in one run two jobs start, one is done as bytes arrive, another starts on its seat, and the second is late. In
/// another one of two numbered jobs is handed back as done.
pub fn runs_exist()
    ensures run { ExampleIsRun }
    ensures ends { ExampleEnds }
    ensures numbered { OneIsDone }
{}

/// The most bytes of one read.
pub fn the_numbers()
    ensures { PIECE ≡ 2048 }
{}
