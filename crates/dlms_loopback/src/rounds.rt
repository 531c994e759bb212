//! The loopback: a meter in memory, polled over a socket, and its readings filed.

ghost use Rattle.std.specs.Prelude.{◌≡◌, ◌≤◌, ◌+◌, Some, IfErr, IfOk, IfSome, MatchResult, option_map};
ghost use Rattle.dlms_headend.specs.Merged.{last_clock};
ghost use Rattle.dlms_headend.specs.Polling.{fresh_poll};
ghost use Rattle.dlms_meter.specs.Run.{MeterWorld};
ghost use Rattle.dlms_ends.specs.Faults.{TellsError};
ghost use Rattle.dlms_loopback.specs.Rounds.{HasPolled, HoldsFile, IsInWorld, JoinsEnds, LoopFails, Loops, OpensReadings, PrintsText, ReadsRows, Rounds, Seen, TellsKept, Unlooped, plan_from};
ghost use Rattle.dlms_loopback.specs.Stops.{ComesBack, IsBegun, IsUnopened, MakesNone, Restarts, TakesAll, events_after, first_events};

use crate::socket::{Joining, Line};
use arrayvec::ArrayVec;
use dlms_data::LAST_SECOND;
use dlms_ends::{End, RunFault, poll, poller};
use dlms_filing::{Filing, FilingFault, Holding, OpeningFault, Output, keep_rows, open_rows};
use dlms_frame::Client;
use dlms_headend::{Poller, Readings};
use dlms_meter::Meter;
use dlms_pages::{MemoryPages, Pages, Pick};
use dlms_state::FIRST_SECRET;
use dlms_store::PAGES;
use std::alloc::Global;
use std::io;

/// Management's first secret.
const SECRET: &[u8] = FIRST_SECRET;

/// The seconds of a new meter's capture period.
const PERIOD: u32 = 900;

/// A meter over pages in memory.
type MemoryMeter = Meter<MemoryPages<Global>, Global>;

/// Keeps what the system says of the file.
fn tell(told: &mut Option<io::Error>, error: io::Error) -> RunFault
    ensures fault { TellsError error result }
    ensures told { told.new ≡ Some error }
{
    *told = Some(error);
    RunFault::from(error)
}

/// Whether rows were filed, and the system's error if they were not.
#[inline(never)]
fn filing_result(
    told: &mut Option<io::Error>,
    outcome: Result<(), FilingFault>,
) -> Result<(), RunFault>
    ensures { TellsKept told.old told.new outcome result }
{
    match outcome {
        Ok(()) => Ok(()),
        Err(FilingFault::Place(error)) => Err(tell(told, error)),
        Err(FilingFault::Memory) => Err(RunFault::Memory),
        Err(FilingFault::Output) => Err(RunFault::Io),
    }
}

/// The readings at a place.
#[inline(never)]
fn open_readings<F: Filing>(
    alloc: Global,
    place: &mut F,
    told: &mut Option<io::Error>,
) -> Result<Readings, RunFault>
    ensures { OpensReadings (F.asked place.old) (F.asked place.new) told.old told.new result }
{
    match open_rows(alloc, place) {
        Ok(readings) => Ok(readings),
        Err(OpeningFault::Place(error)) => Err(tell(told, error)),
        Err(OpeningFault::Readings(fault)) => Err(RunFault::from(fault)),
    }
}

/// Holds the file, if one is given.
#[inline(never)]
fn hold_file<F: Holding>(
    place: &mut F,
    file: Option<&str>,
    told: &mut Option<io::Error>,
) -> Result<(), RunFault>
    ensures { HoldsFile (option_map (λ x. x.now) file.entry) (F.asked place.old)
        (F.asked place.new) told.old told.new result }
{
    match file {
        Some(file) => match place.hold(file) {
            Ok(()) => Ok(()),
            Err(error) => Err(tell(told, error)),
        },
        None => Ok(()),
    }
}

/// Joins the two ends of the line.
fn join_ends<S: Joining>(line: &mut Line<S>) -> Result<(), RunFault>
    ensures { JoinsEnds (S.past line.old.head) (S.past line.new.head) (S.past line.old.tail)
        (S.past line.new.tail) result }
{
    match S::join(&mut line.head, &mut line.tail) {
        Ok(()) => Ok(()),
        Err(error) => Err(RunFault::from(error)),
    }
}

/// Prints the readings.
#[inline(never)]
fn print<O: Output>(readings: &Readings, output: &mut O) -> Result<(), RunFault>
    ensures { PrintsText (O.printed output.old) (O.printed output.new) readings.now result }
{
    let text = readings.text()?;
    output.print(text.as_bytes())?;
    Ok(())
}

/// Counts 42 pulses on channel 0, and captures twice.
fn start(meter: &mut MemoryMeter) -> Result<(), RunFault>
    ensures { TakesAll meter.old meter.new first_events result }
{
    meter.pulses(0, 42)?;
    meter.moment(PERIOD)?;
    meter.moment(2 * PERIOD)?;
    Ok(())
}

/// A new meter with 42 pulses on channel 0 and two captures.
#[inline(never)]
fn new_meter(alloc: Global) -> Result<MemoryMeter, RunFault>
    ensures { MatchResult result IsBegun (MakesNone ⟦<MemoryPages<Global> as Pages>⟧ alloc) }
{
    let pages = MemoryPages::new(alloc, PAGES)?;
    let mut meter = match Meter::format(alloc, pages) {
        Ok(meter) => meter,
        Err((pages, fault)) => {
            drop(pages);
            return Err(RunFault::Open(fault));
        }
    };
    match start(&mut meter) {
        Ok(()) => Ok(meter),
        Err(why) => {
            drop(meter);
            Err(why)
        }
    }
}

/// Counts one more pulse, and captures once more.
fn go_on(meter: &mut MemoryMeter, round: u8) -> Result<(), RunFault>
    ensures { TakesAll meter.old meter.new (events_after round) result }
{
    meter.pulses(0, 1)?;
    meter.moment((2 + u32::from(round)) * PERIOD)?;
    Ok(())
}

/// The meter as it comes back from a stop of the power: what its device had not synced is lost, and its links are down.
#[inline(never)]
fn come_back(alloc: Global, meter: MemoryMeter) -> Result<MemoryMeter, RunFault>
    ensures { MatchResult result (ComesBack meter) (IsUnopened meter) }
{
    match Meter::recover(alloc, meter.close().cut(Pick::AllOld)) {
        Ok(meter) => Ok(meter),
        Err((pages, fault)) => {
            drop(pages);
            Err(RunFault::Open(fault))
        }
    }
}

/// The meter as it comes back from a stop of the power, with one more pulse and one more capture.
#[inline(never)]
fn restart(alloc: Global, meter: MemoryMeter, round: u8) -> Result<MemoryMeter, RunFault>
    ensures { Restarts meter round result }
{
    let mut meter = match come_back(alloc, meter) {
        Ok(meter) => meter,
        Err(why) => return Err(why),
    };
    match go_on(&mut meter, round) {
        Ok(()) => Ok(meter),
        Err(why) => {
            drop(meter);
            Err(why)
        }
    }
}

/// A poll by management, from the last row's second on.
fn managements_poller(alloc: Global, after: Option<u32>) -> Poller
    requires { IfSome after (λ second. second ≤ LAST_SECOND) }
    ensures { result ≡ fresh_poll (plan_from SECRET.now after) }
{
    let mut secret = ArrayVec::new();
    let _fits = secret.try_extend_from_slice(SECRET);
    poller(alloc, Client::Management, secret, after)
}

/// Polls once, from the last row's second on, merges what came, and keeps it.
fn poll_once<F: Filing, S: End>(
    alloc: Global,
    place: &mut F,
    readings: &mut Readings,
    told: &mut Option<io::Error>,
    line: &mut Line<S>,
    meter: &mut MemoryMeter,
) -> Result<(), RunFault>
    ensures { let before : Seen = record {
      head = S.past line.old.head;
      tail = S.past line.old.tail;
      asked = F.asked place.old;
    } in
        let after : Seen = record {
          head = S.past line.new.head;
          tail = S.past line.new.tail;
          asked = F.asked place.new;
        } in
        ReadsRows (plan_from SECRET.now
        (last_clock readings.old)) before after meter.old meter.new told.old told.new readings.old
        result readings.new }
{
    let poller = managements_poller(alloc, readings.last());
    match poll(&mut line.head, &mut line.tail, meter, poller) {
        Ok(done) => filing_result(told, keep_rows(place, readings, done.rows())),
        Err(fault) => Err(fault),
    }
}

/// Polls the meter, then stops it and polls it again `stops` times. The rows of each poll that is done are kept.
fn rounds<F: Filing, S: End>(
    alloc: Global,
    place: &mut F,
    readings: &mut Readings,
    told: &mut Option<io::Error>,
    line: &mut Line<S>,
    meter: MemoryMeter,
    stops: u8,
) -> Result<(), RunFault>
    ensures { let before : Seen = record {
      head = S.past line.old.head;
      tail = S.past line.old.tail;
      asked = F.asked place.old;
    } in
        let after : Seen = record {
          head = S.past line.new.head;
          tail = S.past line.new.tail;
          asked = F.asked place.new;
        } in
        (w : MeterWorld) → IsInWorld meter w
        → Rounds meter SECRET.now stops before after told.old told.new readings.old result
        readings.new }
{
    let mut meter = meter;
    poll_once(alloc, place, readings, told, line, &mut meter)?;
    'stops: for round in 0..stops {
        meter = restart(alloc, meter, round + 1)?;
        poll_once(alloc, place, readings, told, line, &mut meter)?;
    }
    Ok(())
}

/// The readings of a file, with those of a new meter in memory that was polled over the line. The file is read before anything else
/// is done.
fn poll_readings<F: Holding, S: Joining>(
    alloc: Global,
    place: &mut F,
    line: &mut Line<S>,
    file: Option<&str>,
    stops: u8,
    told: &mut Option<io::Error>,
) -> Result<Readings, RunFault>
    ensures polled { let before : Seen = record {
      head = S.past line.old.head;
      tail = S.past line.old.tail;
      asked = F.asked place.old;
    } in
        let after : Seen = record {
          head = S.past line.new.head;
          tail = S.past line.new.tail;
          asked = F.asked place.new;
        } in
        let name = option_map (λ x. x.now) file.entry in
        IfOk result
        (HasPolled ⟦<MemoryPages<Global> as Pages>⟧ alloc name SECRET.now stops before after told.old
        told.new) }
    ensures fails { let before : Seen = record {
      head = S.past line.old.head;
      tail = S.past line.old.tail;
      asked = F.asked place.old;
    } in
        let after : Seen = record {
          head = S.past line.new.head;
          tail = S.past line.new.tail;
          asked = F.asked place.new;
        } in
        let name = option_map (λ x. x.now) file.entry in
        IfErr result
        (LoopFails ⟦<MemoryPages<Global> as Pages>⟧ alloc name SECRET.now stops before after told.old
        told.new) }
{
    match hold_file(place, file, told) {
        Ok(()) => {}
        Err(fault) => return Err(fault),
    }
    let mut readings = match open_readings(alloc, place, told) {
        Ok(readings) => readings,
        Err(fault) => return Err(fault),
    };
    let meter = match new_meter(alloc) {
        Ok(meter) => meter,
        Err(fault) => return Err(fault),
    };
    match join_ends(line) {
        Ok(()) => {}
        Err(fault) => return Err(fault),
    }
    match rounds(alloc, place, &mut readings, told, line, meter, stops) {
        Ok(()) => Ok(readings),
        Err(why) => Err(why),
    }
}

/// Polls a new meter in memory over a line, and prints the readings. The meter has 42 pulses on channel 0 and captures at 900 and
/// 1800 seconds. If a file is given, its readings come first, and after each finished poll it contains them and the new ones; no
/// other program has the file meanwhile. Then, `stops` times, the meter is stopped, loses what it has not synced, comes back, gets
/// one more pulse and one more capture, and is polled again. The file is read before anything else is done. If the file is what
/// failed, `told` gets the system's error.
pub fn loopback<F: Holding, S: Joining, O: Output>(
    alloc: Global,
    place: &mut F,
    line: &mut Line<S>,
    file: Option<&str>,
    stops: u8,
    output: &mut O,
    told: &mut Option<io::Error>,
) -> Result<(), RunFault>
    ensures loops { let before : Seen = record {
      head = S.past line.old.head;
      tail = S.past line.old.tail;
      asked = F.asked place.old;
    } in
        let after : Seen = record {
          head = S.past line.new.head;
          tail = S.past line.new.tail;
          asked = F.asked place.new;
        } in
        let name = option_map (λ x. x.now) file.entry in
        IfOk result
        (λ _. Loops ⟦<MemoryPages<Global> as Pages>⟧ alloc name SECRET.now stops before after told.old
        told.new (O.printed output.old) (O.printed output.new)) }
    ensures fails { let before : Seen = record {
      head = S.past line.old.head;
      tail = S.past line.old.tail;
      asked = F.asked place.old;
    } in
        let after : Seen = record {
          head = S.past line.new.head;
          tail = S.past line.new.tail;
          asked = F.asked place.new;
        } in
        let name = option_map (λ x. x.now) file.entry in
        IfErr result
        (Unlooped ⟦<MemoryPages<Global> as Pages>⟧ alloc name SECRET.now stops before after told.old
        told.new (O.printed output.old) (O.printed output.new)) }
{
    match poll_readings(alloc, place, line, file, stops, told) {
        Ok(readings) => print(&readings, output),
        Err(why) => Err(why),
    }
}
