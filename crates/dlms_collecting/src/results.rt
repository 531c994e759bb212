//! The meters of a round that wait, and the results of the others: what is counted, printed and filed of them.

use crate::collecting::{Collection, Purpose};
use crate::fault::{CollectFault, FaultText, MeterFault};
use crate::list::Meter;
use crate::meter_file::MeterFile;
use crate::named::Named;
use crate::order::Order;
use crate::progress::{AboveProgress, Progress};
use crate::report::{Failure, Tally};
use crate::round::RoundSetup;
use crate::schedule::Schedule;
use crate::texts::judge_text;
use crate::values::{MeterClock, PrintedValues, ValueText, clock_of};
use crate::wires::{EndedPoll, Seconds};
use dlms_client::Route;
use dlms_ends::RunFault;
use dlms_filing::Output;
use dlms_fleet::{Numbered, Outcome};
use dlms_identity::Expected;
use dlms_inquiries::{
    AskJob, Attributes, ClockScript, Comparison, Correction, MeterJob, Questions,
};
use dlms_lines::host_and_port;
use std::alloc::{AllocError, Global};
use std::fs::{File, Files};
use std::io;
use std::io::{ErrorKind, Write};
use std::net::{Net, SocketAddr, ToSocketAddrs};
use std::random::RandomSource;
use std::time::{Clock, Instant};

/// What came of a job that ended.
#[derive(Clone, Copy)]
enum Finished {
    /// Its meter's file was put.
    Filed,
    /// Its meter is done, or waits for what comes next.
    Nothing,
    /// Its meter failed.
    Failed(MeterFault),
}

/// Why a connection was lost.
fn loss(failure: Option<io::Error>) -> MeterFault {
    match failure {
        Some(error) => MeterFault::Line(error),
        None => MeterFault::Other(RunFault::Io),
    }
}

/// The meters of a round that wait, and the results of the others. No connection is in it.
#[derive(Drop)]
pub struct Results<'a, 'l, 'o, T, O, E> {
    alloc: Global,
    collection: &'l Collection<'a>,
    texts: &'l T,
    meters: &'l [Meter<'a>],
    schedule: Schedule,
    /// Whether a meter has shown the text that it has to show, by its number.
    are_known: Vec<bool>,
    /// How the clock of a meter was found that waits for its correction, by its number; nothing if clocks are not corrected.
    found: Vec<Option<Comparison>>,
    progress: Progress,
    tally: Tally,
    failures: Vec<Failure>,
    output: &'o mut O,
    errors: &'o mut E,
}

/// None of this many meters is known.
fn all_unknown(alloc: Global, meters: usize) -> Result<Vec<bool>, AllocError> {
    let mut known = Vec::with_capacity(alloc, meters)?;
    for _ in 0..meters {
        known.push(false)?;
    }
    Ok(known)
}

/// The clock of none of this many meters is known.
fn no_clocks(alloc: Global, meters: usize) -> Result<Vec<Option<Comparison>>, AllocError> {
    let mut found = Vec::with_capacity(alloc, meters)?;
    for _ in 0..meters {
        found.push(None)?;
    }
    Ok(found)
}

/// Adds the addresses of a place to a schedule.
fn look_up<R: Net>(rt: &R, schedule: &mut Schedule, place: &str) -> io::Result<()> {
    let Some(place) = host_and_port(place) else {
        return Err(ErrorKind::InvalidInput.into());
    };
    for address in place.to_socket_addrs(rt)? {
        schedule.add_address(address)?;
    }
    Ok(())
}

impl<'a, 'l, 'o, T: FaultText + ValueText, O: Output, E: Write> Results<'a, 'l, 'o, T, O, E> {
    /// No meter waits yet, and there is no result.
    pub fn new(
        alloc: Global,
        setup: &RoundSetup<'a, 'l, T>,
        now: Instant,
        output: &'o mut O,
        errors: &'o mut E,
    ) -> Result<Self, AllocError> {
        let clocks = match setup.collection.purpose {
            Purpose::Clock(Some(_)) => setup.meters.len(),
            _ => 0,
        };
        Ok(Results {
            alloc,
            collection: setup.collection,
            texts: setup.texts,
            meters: setup.meters,
            schedule: Schedule::new(alloc),
            are_known: all_unknown(alloc, setup.meters.len())?,
            found: no_clocks(alloc, clocks)?,
            progress: Progress::new(setup.shows, now),
            tally: Tally::new(),
            failures: Vec::new(alloc),
            output,
            errors,
        })
    }

    /// How many meters wait.
    pub fn waiting(&self) -> usize {
        self.schedule.waiting()
    }

    /// The next meter's number, and the address at which it is tried.
    pub fn next(&mut self) -> Option<(usize, SocketAddr)> {
        self.schedule.take()
    }

    /// The meter with this number.
    pub fn meter(&self, number: usize) -> Option<&'l Meter<'a>> {
        self.meters.get(number)
    }

    /// Shows how far the collection has come, while this many jobs run.
    pub fn show_progress(&mut self, now: Instant, running: usize) {
        let waiting = self.schedule.waiting();
        self.progress
            .show(self.errors, now, &self.tally, running, waiting);
    }

    /// Removes the line of progress.
    pub fn clear_progress(&mut self) {
        self.progress.clear(self.errors);
    }

    /// How many meters were polled, how many failed, and how many rows are new.
    pub fn tally(&self) -> Tally {
        self.tally
    }

    /// The meters that failed. The round is over.
    pub fn into_failures(self) -> Vec<Failure> {
        self.failures
    }

    /// Counts a meter that failed.
    fn count_failure(&mut self, number: usize, fault: MeterFault) -> Result<(), CollectFault<'a>> {
        self.tally.failed = self.tally.failed.saturating_add(1);
        self.failures.push((number, fault))?;
        Ok(())
    }

    /// Looks up the hosts of all meters, before the first connection is begun: a look-up has to be waited for.
    pub fn look_up_all<R: Net>(&mut self, rt: &R) -> Result<(), CollectFault<'a>> {
        let meters = self.meters;
        for number in 0..meters.len() {
            let found = look_up(rt, &mut self.schedule, meters[number].place);
            if self.schedule.add_meter()? {
                continue;
            }
            let error = match found {
                Ok(()) => ErrorKind::AddrNotAvailable.into(),
                Err(error) => error,
            };
            self.count_failure(number, MeterFault::Line(error))?;
        }
        Ok(())
    }

    /// Whether the meter with this number has shown the text that it has to show.
    fn is_known(&self, number: usize) -> bool {
        self.are_known.get(number).copied().unwrap_or(false)
    }

    /// Keeps whether the meter with this number has shown its text.
    fn keep_known(&mut self, number: usize, is_known: bool) {
        if let Some(known) = self.are_known.get_mut(number) {
            *known = is_known;
        }
    }

    /// Takes how the clock of the meter with this number was found, if it waits for its correction. A meter that fails in between has to
    /// show its clock anew.
    fn take_found(&mut self, number: usize) -> Option<Comparison> {
        self.found.get_mut(number)?.take()
    }

    /// Keeps how the clock of the meter with this number was found.
    fn keep_found(&mut self, number: usize, found: Comparison) {
        if let Some(kept) = self.found.get_mut(number) {
            *kept = Some(found);
        }
    }

    /// Has a meter that failed wait again if it has another address or may be tried again; otherwise counts it. It has to show its text
    /// anew.
    pub fn fail(
        &mut self,
        number: usize,
        fault: MeterFault,
        was_connected: bool,
    ) -> Result<(), CollectFault<'a>> {
        self.keep_known(number, false);
        let is_of_line = matches!(fault, MeterFault::Line(_));
        if is_of_line && !was_connected && self.schedule.try_next_address(number)? {
            return Ok(());
        }
        if fault.may_pass() && self.schedule.try_again(number, self.collection.retries)? {
            return Ok(());
        }
        self.count_failure(number, fault)
    }

    /// The text that a meter has to show first, if one is expected and was not shown yet.
    fn awaited_text(&self, number: usize, meter: &Meter<'a>) -> Option<Expected<'a>> {
        if self.is_known(number) {
            return None;
        }
        meter.expected
    }

    /// What is wanted of a meter: it is polled, attributes are requested, or its clock is read or corrected.
    fn wanted_order<'r, R: Files<File = File> + Clock + AllocGlobal + RandomSource>(
        &mut self,
        rt: &'r R,
        number: usize,
        meter: &Meter<'a>,
        second: u64,
    ) -> Result<(Order<'r, R>, Numbered<MeterJob>), MeterFault> {
        match self.collection.purpose {
            Purpose::Poll(folder) => Order::for_poll(rt, number, meter, folder),
            Purpose::Get(_, names) => Order::for_values(rt, number, meter, names),
            Purpose::Clock(_) => {
                let found = self.take_found(number);
                Order::for_clock(rt, number, meter, found, second)
            }
        }
    }

    /// What comes next for a meter: its text is requested if one is expected and was not shown yet, and then what is wanted of it. The
    /// clock of a meter is compared with this second of the system's.
    pub fn order<'r, R: Files<File = File> + Clock + AllocGlobal + RandomSource>(
        &mut self,
        rt: &'r R,
        number: usize,
        meter: &Meter<'a>,
        second: u64,
    ) -> Result<(Order<'r, R>, Numbered<MeterJob>), MeterFault> {
        match self.awaited_text(number, meter) {
            Some(expected) => Order::for_text(rt, number, meter, &expected),
            None => self.wanted_order(rt, number, meter, second),
        }
    }

    /// The name of the meter with this number.
    fn name_of(&self, number: usize) -> &'a str {
        match self.meters.get(number) {
            Some(meter) => meter.name,
            None => "",
        }
    }

    /// Files the rows of a poll that is done, and prints the new ones.
    fn file<R: Files<File = File> + AllocGlobal>(
        &mut self,
        number: usize,
        file: &mut MeterFile<'_, R>,
        job: &Numbered<MeterJob>,
    ) -> Result<Finished, CollectFault<'a>> {
        let alloc = self.alloc;
        let name = self.name_of(number);
        let mut output = Named::rows(alloc, name, self.collection.format, self.output);
        let mut above = AboveProgress::new(&mut self.progress, self.errors);
        let mut errors = Named::messages(alloc, name, &mut above);
        let filed = file.file(alloc, number, job, &mut output, &mut errors);
        if output.has_failed() {
            return Err(CollectFault::Output);
        }
        match filed {
            Ok(()) => {
                self.tally.rows = self.tally.rows.saturating_add(output.lines());
                self.tally.done = self.tally.done.saturating_add(1);
                Ok(Finished::Filed)
            }
            Err(fault) => Ok(Finished::Failed(fault)),
        }
    }

    /// Judges the text that a meter showed. If it is the expected one, the meter waits for what comes next.
    fn judge(
        &mut self,
        number: usize,
        job: &AskJob<Questions>,
    ) -> Result<Finished, CollectFault<'a>> {
        let expected = match self.meters.get(number) {
            Some(meter) => meter.expected,
            None => None,
        };
        let Some(expected) = expected else {
            return Ok(Finished::Nothing);
        };
        match judge_text(job.script().replies(), &expected) {
            Ok(()) => {
                self.keep_known(number, true);
                self.schedule.go_on(number)?;
                Ok(Finished::Nothing)
            }
            Err(fault) => Ok(Finished::Failed(fault)),
        }
    }

    /// Prints the values that a meter gave, the last of them at this second of the system's clock, and counts it as failed if it did not
    /// give all.
    fn print_values(
        &mut self,
        number: usize,
        job: &AskJob<Attributes>,
        second: u64,
    ) -> Result<Finished, CollectFault<'a>> {
        let name = self.name_of(number);
        let mut printed = PrintedValues::new(self.alloc);
        printed.add_all(
            self.texts,
            name,
            self.collection.purpose.names(),
            second,
            job.script().readings(),
        )?;
        if self.output.write_out(printed.text.as_slice()).is_err()
            || self.output.flush_out().is_err()
        {
            return Err(CollectFault::Output);
        }
        self.tally.rows = self.tally.rows.saturating_add(printed.lines);
        if printed.faults.is_empty() {
            self.tally.done = self.tally.done.saturating_add(1);
            return Ok(Finished::Nothing);
        }
        self.tally.failed = self.tally.failed.saturating_add(1);
        for fault in &printed.faults {
            self.failures.push((number, *fault))?;
        }
        Ok(Finished::Nothing)
    }

    /// Prints the clock of a meter, and how it was corrected.
    fn print_clock(
        &mut self,
        number: usize,
        found: Comparison,
        done: Correction,
        after: Option<Comparison>,
    ) -> Result<(), CollectFault<'a>> {
        let clock = MeterClock {
            meter: self.name_of(number),
            found,
            done,
            after,
        };
        let mut text = Vec::new(self.alloc);
        self.texts.append_clock(&mut text, &clock)?;
        if self.output.write_out(text.as_slice()).is_err() || self.output.flush_out().is_err() {
            return Err(CollectFault::Output);
        }
        self.tally.rows = self.tally.rows.saturating_add(1);
        Ok(())
    }

    /// Takes the clock that a meter showed at this second of the system's, or after it was corrected. One that is off waits for its
    /// correction; any other is printed. If it could not be read after it was corrected, the correction is printed all the same.
    fn take_clock(
        &mut self,
        number: usize,
        found: Option<Comparison>,
        script: &ClockScript,
        second: u64,
    ) -> Result<Finished, CollectFault<'a>> {
        let done = script.done();
        match (found, clock_of(script, second)) {
            (None, Ok(now)) if self.collection.purpose.corrects(&now) => {
                self.keep_found(number, now);
                self.schedule.go_on(number)?;
                return Ok(Finished::Nothing);
            }
            (None, Ok(now)) => self.print_clock(number, now, done, None)?,
            (Some(found), Ok(after)) => self.print_clock(number, found, done, Some(after))?,
            (Some(found), Err(fault)) if done != Correction::Nothing => {
                self.print_clock(number, found, done, None)?;
                return Ok(Finished::Failed(fault));
            }
            (_, Err(fault)) => return Ok(Finished::Failed(fault)),
        }
        self.tally.done = self.tally.done.saturating_add(1);
        Ok(Finished::Nothing)
    }

    /// The second of the system's clock in the round in which the last answer came to a meter's requests that are done: over HDLC their
    /// last message requests the connection's end at that answer, and over the wrapper they end with it.
    fn answered(&self, number: usize, seconds: Seconds) -> u64 {
        match self.meters.get(number) {
            Some(meter) if matches!(meter.route, Route::Hdlc(..)) => seconds.sent,
            _ => seconds.ended,
        }
    }

    /// Takes a job that is done.
    fn take<R: Files<File = File> + AllocGlobal>(
        &mut self,
        order: &mut Order<'_, R>,
        job: &Numbered<MeterJob>,
        seconds: Seconds,
    ) -> Result<Finished, CollectFault<'a>> {
        let number = order.number;
        match &job.job {
            MeterJob::Poll(_) => match &mut order.file {
                Some(file) => self.file(number, file, job),
                None => Ok(Finished::Nothing),
            },
            MeterJob::Text(job) => self.judge(number, &**job),
            MeterJob::Values(job) => {
                let second = self.answered(number, seconds);
                self.print_values(number, &**job, second)
            }
            MeterJob::Clock(job) => {
                let second = self.answered(number, seconds);
                self.take_clock(number, order.found, job.script(), second)
            }
        }
    }

    /// Keeps the meter's counter, and handles the result of a job that ended: its rows or values, or its failure. Returns whether a
    /// readings file was put.
    pub fn finish<R: Files<File = File> + Clock + AllocGlobal + RandomSource>(
        &mut self,
        ended: EndedPoll<Order<'_, R>, Numbered<MeterJob>>,
    ) -> Result<bool, CollectFault<'a>> {
        let EndedPoll {
            cargo,
            outcome,
            job,
            failure,
            was_connected,
            seconds,
        } = ended;
        let mut order = cargo;
        let number = order.number;
        let finished = match (order.keep_counter(&job), outcome) {
            (Err(fault), _) => Ok(Finished::Failed(fault)),
            (Ok(()), Outcome::Done) => self.take(&mut order, &job, seconds),
            (Ok(()), Outcome::Fails(fault)) => Ok(Finished::Failed(MeterFault::of_job(fault))),
            (Ok(()), Outcome::Lost) => Ok(Finished::Failed(loss(failure))),
            (Ok(()), Outcome::Late) => Ok(Finished::Failed(MeterFault::Late)),
        };
        drop(order);
        drop(job);
        match finished? {
            Finished::Filed => Ok(true),
            Finished::Nothing => Ok(false),
            Finished::Failed(fault) => {
                self.fail(number, fault, was_connected)?;
                Ok(false)
            }
        }
    }
}
