//! Laws over whole texts. They make no call: the calls' own contracts cite the same definitions.

ghost use Rattle.std.specs.Prelude.{◌≡◌, ◌⊎◌, ℕ, Bool, true, List, Option, Some};
ghost use Rattle.dlms_pages.specs.Device.{Rose};
ghost use Rattle.dlms_store.specs.Later.{GoesOn, IsSpent};
ghost use Rattle.dlms_store.specs.Store.{view_of};
ghost use Rattle.dlms_meter.specs.Run.{IsRunningIn, MeterWorld};
ghost use Rattle.dlms_program.specs.Health.{MeetsEnd, MeetsFault, Reaches};
ghost use Rattle.dlms_program.specs.Outcome.{AllFound, AllHadMemory, AlikeEnds};
ghost use Rattle.dlms_program.specs.Replay.{End, GoesWell, IsAt, Replays, ReplaysOr};

use dlms_meter::Meter;
use dlms_pages::Pages;
pub use dlms_world::laws::{
    calls_are_turns, calls_of_a_meter_are_turns, the_file_and_the_meter_agree,
};
use std::alloc::Allocator;

/// Lines have one outcome if memory is found, the device does not fail and each recovery finds every accepted event: the text
/// written, the end, and the world that they lead to, except for which of its events are settled.
pub fn one_outcome()
    ensures { (honest : Bool) (lines : List (List ℕ)) (number : ℕ) (w : MeterWorld) (s t : List ℕ)
        (end end' : End) (last last' : Option MeterWorld)
        → (a : Replays honest w number lines s end last)
        (b : Replays honest w number lines t end' last')
        → AllFound honest w number lines s end last a
        → AllFound honest w number lines t end' last' b
        → (s ≡ t) × (end ≡ end') × AlikeEnds last last' }
{}

/// On a device that keeps the rules and does not fail, lines have one outcome if memory is found: these are replays that went well,
/// as the contract of `replay` says of those from a running store in which no call met a device fault. The text written is then a
/// function of the text read.
pub fn one_outcome_without_a_fault()
    ensures { (lines : List (List ℕ)) (number : ℕ) (w : MeterWorld) (s t : List ℕ) (end end' : End)
        (last last' : Option MeterWorld)
        → (a : Replays true w number lines s end last)
        (b : Replays true w number lines t end' last')
        → GoesWell true w number lines s end last a → GoesWell true w number lines t end' last' b
        → AllHadMemory true w number lines s end last a
        → AllHadMemory true w number lines t end' last' b
        → (s ≡ t) × (end ≡ end') × AlikeEnds last last' }
{}

/// The changes between two moments of a replay, as a caller sees the meter at both. The device stays as honest as it was, and its
/// count of faults does not fall. If a call in between met a fault, the count rose (at the greatest number it counts as risen), or
/// a store was at its end: no further checkpoint could be made, or no further row got a number. If the device keeps the rules and
/// the store ran initially, the store at the later moment is then at its end.
pub fn a_fault_is_counted<P: Pages, A: Allocator + Copy>(
    _start: &Meter<P, A>,
    _finish: &Meter<P, A>,
)
    ensures later { Reaches (Some _start.now) (Some _finish.now)
        → GoesOn (view_of _start.now.store) (view_of _finish.now.store) }
    ensures any { MeetsFault (Some _start.now) (Some _finish.now)
        → Rose (view_of _start.now.store).faults (view_of _finish.now.store).faults
        ⊎ MeetsEnd (Some _start.now) (Some _finish.now) }
    ensures honest { (w : MeterWorld) → IsAt true _start.now w → IsRunningIn w.store
        → MeetsFault (Some _start.now) (Some _finish.now)
        → Rose (view_of _start.now.store).faults (view_of _finish.now.store).faults
        ⊎ IsSpent _finish.now.store }
{}

/// So a replay from a running store goes well if the count did not rise and no store was at its end: on a device that keeps the
/// rules it is enough to compare the two moments.
pub fn a_replay_without_a_rise_goes_well<P: Pages, A: Allocator + Copy>(
    _start: &Meter<P, A>,
    _finish: &Meter<P, A>,
)
    ensures honest { (w : MeterWorld) (number : ℕ) (lines : List (List ℕ)) (written : List ℕ)
        (end : End) (last : Option MeterWorld) → IsAt true _start.now w → IsRunningIn w.store
        → (Rose (view_of _start.now.store).faults (view_of _finish.now.store).faults → ⊥)
        → (IsSpent _finish.now.store → ⊥)
        → (r : ReplaysOr (MeetsFault (Some _start.now)
        (Some _finish.now)) true w number lines written end last)
        → GoesWell true w number lines written end last r.0 }
    ensures any { (honest : Bool) (w : MeterWorld) (number : ℕ) (lines : List (List ℕ))
        (written : List ℕ) (end : End) (last : Option MeterWorld) → IsRunningIn w.store
        → (Rose (view_of _start.now.store).faults (view_of _finish.now.store).faults → ⊥)
        → (MeetsEnd (Some _start.now) (Some _finish.now) → ⊥)
        → (r : ReplaysOr (MeetsFault (Some _start.now)
        (Some _finish.now)) honest w number lines written end last)
        → GoesWell honest w number lines written end last r.0 }
{}
