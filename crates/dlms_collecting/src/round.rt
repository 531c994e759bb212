//! A round of a collection: each meter of the list is polled once, or asked for attributes once, or its clock is compared and corrected.

ghost use Rattle.std.specs.Prelude.{◌≡◌, ◌*◌};
ghost use Rattle.dlms_collecting.specs.declared.pace.TheConstants.{TICKS_A_SECOND};
ghost use Rattle.dlms_collecting.specs.declared.round.TheConstants.{ANSWER_SECONDS};

use crate::collecting::Collection;
use crate::fault::{CollectFault, FaultText, MeterFault};
use crate::list::Meter;
use crate::order::Order;
use crate::pace::{Pace, TICKS_A_SECOND};
use crate::report::{Failure, Tally};
use crate::results::Results;
use crate::values::ValueText;
use crate::wires::Wires;
use dlms_filing::Output;
use dlms_fleet::{Fleet, Limits, Numbered, take_all};
use dlms_inquiries::MeterJob;
use dlms_pages::sync_folder;
use std::fs::{File, Files};
use std::io::Write;
use std::net::{Net, SocketAddr};
use std::random::RandomSource;
use std::time::{Clock, Duration, Instant};

/// For how many seconds an answer is waited for, as in `poll`.
const ANSWER_SECONDS: u32 = 2;

/// The most polls that begin in a turn.
const MOST_STARTS: usize = 64;

/// The most polls that are filed in a turn: the files of a group.
const GROUP: usize = 64;

/// The meters of a round, and how they are polled.
#[derive(Drop)]
pub struct RoundSetup<'a, 'l, T> {
    pub collection: &'l Collection<'a>,
    pub texts: &'l T,
    pub meters: &'l [Meter<'a>],
    /// A path in the folder of the readings files.
    pub probe: &'l str,
    /// How many polls may run at once.
    pub seats: usize,
    /// Whether progress is shown.
    pub shows: bool,
}

/// A round: the jobs that run, and the meters that wait with the results of the others.
#[derive(Drop)]
pub struct Round<'a, 'l, 'o, 'r, R, T, O, E> {
    rt: &'r R,
    collection: &'l Collection<'a>,
    /// A path in the folder of the readings files.
    probe: &'l str,
    fleet: Fleet<Numbered<MeterJob>>,
    wires: Wires<Order<'r, R>, Numbered<MeterJob>>,
    pace: Pace,
    results: Results<'a, 'l, 'o, T, O, E>,
}

/// The limits of a poll with this deadline in seconds. Nothing is on a connection before its poll begins.
fn limits(deadline: u32) -> Limits
    ensures quiet { result.quiet ≡ 0 }
    ensures answer { result.answer ≡ ANSWER_SECONDS * TICKS_A_SECOND }
{
    Limits {
        deadline: deadline.saturating_mul(TICKS_A_SECOND),
        quiet: 0,
        answer: ANSWER_SECONDS * TICKS_A_SECOND,
    }
}

/// The moment that it is.
pub fn moment<'a, R: Clock>(rt: &R) -> Result<Instant, CollectFault<'a>> {
    match Instant::now(rt) {
        Ok(now) => Ok(now),
        Err(error) => Err(CollectFault::Wait(error)),
    }
}

/// The second of the system's clock, counted from 1970 on.
fn system_second<'a, R: Clock>(rt: &R) -> Result<u64, CollectFault<'a>> {
    match rt.since_1970() {
        Ok(since) => Ok(since.as_secs()),
        Err(error) => Err(CollectFault::Wait(error)),
    }
}

impl<
    'a,
    'l,
    'o,
    'r,
    R: Net + Files<File = File> + Clock + AllocGlobal + RandomSource,
    T: FaultText + ValueText,
    O: Output,
    E: Write,
> Round<'a, 'l, 'o, 'r, R, T, O, E> {
    /// A round that is not begun.
    pub fn new(
        rt: &'r R,
        setup: &RoundSetup<'a, 'l, T>,
        output: &'o mut O,
        errors: &'o mut E,
    ) -> Result<Self, CollectFault<'a>> {
        let alloc = rt.alloc();
        let wires = match Wires::new(rt, alloc, setup.seats) {
            Ok(wires) => wires,
            Err(error) => return Err(CollectFault::Wait(error)),
        };
        let now = moment(rt)?;
        Ok(Round {
            rt,
            collection: setup.collection,
            probe: setup.probe,
            fleet: Fleet::new(alloc, limits(setup.collection.deadline), setup.seats)?,
            wires,
            pace: Pace::new(now),
            results: Results::new(alloc, setup, now, output, errors)?,
        })
    }

    /// How many meters were polled, how many failed, and how many rows are new.
    pub fn tally(&self) -> Tally {
        self.results.tally()
    }

    /// The meters that failed. The round is over.
    pub fn into_failures(self) -> Vec<Failure> {
        self.results.into_failures()
    }

    /// Starts what comes next for a meter at an address, on a free seat.
    fn start(&mut self, number: usize, address: SocketAddr) -> Result<(), MeterFault> {
        let Some(meter) = self.results.meter(number) else {
            return Ok(());
        };
        let Some(seat) = self.wires.free_seat() else {
            return Ok(());
        };
        let second = self.wires.second();
        let (order, job) = self.results.order(self.rt, number, meter, second)?;
        if let Err(error) = self.wires.connect(self.rt, address, order) {
            return Err(MeterFault::Line(error));
        }
        if let Err(job) = self.fleet.start(seat, job) {
            drop(job);
        }
        Ok(())
    }

    /// Starts the next meters while a seat is free; some of them, so that those that run are not kept waiting.
    fn start_next(&mut self) -> Result<(), CollectFault<'a>> {
        for _ in 0..MOST_STARTS {
            if self.wires.free_seat().is_none() {
                return Ok(());
            }
            let Some((number, address)) = self.results.next() else {
                return Ok(());
            };
            if let Err(fault) = self.start(number, address) {
                self.results.fail(number, fault, false)?;
            }
        }
        Ok(())
    }

    /// Files the next polls that ended, as one group: then the folder is synced if a file was put there.
    fn file_group(&mut self) -> Result<(), CollectFault<'a>> {
        let mut is_put = false;
        for _ in 0..GROUP {
            let Some(ended) = self.wires.take_ended() else {
                break;
            };
            is_put = self.results.finish(ended)? || is_put;
        }
        if is_put && let Err(error) = sync_folder(self.rt, self.probe) {
            let folder = self.collection.purpose.folder().unwrap_or("");
            return Err(CollectFault::System(folder, error));
        }
        Ok(())
    }

    /// How long events may be waited for: until the next tick, and not at all if something else is to be done.
    fn wait(&self, now: Instant) -> Duration {
        let may_start = self.results.waiting() > 0 && self.wires.free_seat().is_some();
        if self.wires.has_ended() || may_start {
            return Duration::ZERO;
        }
        self.pace.left(now)
    }

    /// Takes what happened on the connections, and a tick if one is due.
    fn take_events(&mut self) -> Result<(), CollectFault<'a>> {
        let wait = self.wait(moment(self.rt)?);
        if let Err(error) = self.wires.look(wait) {
            return Err(CollectFault::Wait(error));
        }
        self.wires.set_second(system_second(self.rt)?);
        take_all(&mut self.fleet, &mut self.wires, u64::MAX);
        let now = moment(self.rt)?;
        if self.pace.ticks(now) {
            self.wires.tick();
            take_all(&mut self.fleet, &mut self.wires, u64::MAX);
            self.results.show_progress(now, self.wires.running());
        }
        Ok(())
    }

    /// Whether every meter was polled or failed.
    fn is_over(&self) -> bool {
        self.wires.running() == 0 && !self.wires.has_ended() && self.results.waiting() == 0
    }

    /// Polls until every meter was polled or failed.
    fn poll_all(&mut self) -> Result<(), CollectFault<'a>> {
        self.results.look_up_all(self.rt)?;
        'turns: for _ in 0..u64::MAX {
            self.start_next()?;
            if self.is_over() {
                return Ok(());
            }
            self.take_events()?;
            self.file_group()?;
            if self.wires.is_short() {
                return Err(CollectFault::Memory);
            }
        }
        Ok(())
    }

    /// Polls each meter. The line of progress is removed at the end.
    pub fn run(&mut self) -> Result<(), CollectFault<'a>> {
        let ended = self.poll_all();
        self.results.clear_progress();
        ended
    }
}
