//! A poll over a carrier as a job: it returns the octets to send, in place of writing them.
ghost use Rattle.dlms_headend.specs.Asking.{AreSeconds};
ghost use Rattle.std.specs.Prelude.{◌≡◌, ◌-◌, ◌<◌, ◌≤◌, ◌↔◌, IfOk, IfSome, IsTrue, false, length, option_map};
ghost use Rattle.dlms_carrier.specs.Any.{IsRoute};
ghost use Rattle.dlms_headend.specs.CarrierPollValue.{terms_of};
ghost use Rattle.dlms_headend.specs.Rows.{AreReadings};
ghost use Rattle.dlms_ends.specs.Carried.{accepted_by, fault_of, peer_of};
ghost use Rattle.dlms_ends.specs.PollEnds.{IsNew, IsOneRead, cause, told_by};
ghost use Rattle.dlms_fleet.specs.Inputs.Input.{Begins, Reads, TimesOut};
ghost use Rattle.dlms_jobs.specs.PollJobs.{BeginsPoll, Collects, IsStep, ReadsBytes, ReadsPiece, TakesTimeout};

use dlms_carrier::{AnyCarrier, Route};
use dlms_ends::RunFault;
use dlms_fleet::{Job, JobStep};
use dlms_headend::{CarrierPoll, PollFault, PollOutcome, PollTerms, Row, list_columns};
use dlms_secured::{Guard, Secured, SecuredFault};
use std::alloc::{AllocError, Global};
use std::marker::Model;

/// The most bytes that may arrive in a poll.
const MOST_BYTES: usize = 2_097_152;

/// A poll over the carrier of a route, protected if it has a guard, and the number of bytes that may still arrive.
#[derive(Drop)]
pub struct PollJob {
    alloc: Global,
    poll: CarrierPoll<Secured<AnyCarrier>>,
    left: usize,
    /// The counter of the first message that was accepted.
    first: Option<u32>,
}

impl Model for PollJob {
    ghost use Rattle.dlms_ends.specs.PollEnds.{PollEndValue};

    ghost Value = { PollEndValue };

    ghost view = { λ job. record { poll = job.poll; left = job.left } };
}

/// The guard that is in this box.
fn taken_out(guard: Option<Box<Guard>>) -> Option<Guard>
    ensures { result ≡ option_map (λ kept. kept.value) guard }
{
    match guard {
        Some(kept) => Some(Box::into_inner(kept)),
        None => None,
    }
}

/// The step for the outcome of a call: these octets are sent, if there are any. After the end of a poll none are.
fn step_for(out: Vec<u8>, outcome: Result<PollOutcome, RunFault>) -> JobStep<Vec<u8>, RunFault>
    ensures { IsStep out.items outcome result }
{
    match outcome {
        Ok(PollOutcome::Nothing) => {
            if out.is_empty() {
                return JobStep::Nothing;
            }
            JobStep::Sends(out)
        }
        Ok(PollOutcome::Done) => JobStep::Done,
        Err(fault) => JobStep::Fails(fault),
    }
}

impl PollJob {
    /// A new poll by these terms over the carrier of this route: one that this guard protects, or without a guard one in clear. The
    /// guard's challenge is unused, and it has a counter left for each APDU that goes out, and two more.
    #[inline(never)]
    pub fn new(
        alloc: Global,
        route: Route,
        terms: PollTerms,
        guard: Option<Box<Guard>>,
    ) -> Result<Box<PollJob>, AllocError>
        requires route { IsRoute route }
        requires after { AreSeconds terms.after terms.until }
        ensures { IfOk result (λ job. IsNew route (terms_of terms)
            (option_map (λ kept. kept.value) guard) job.value) }
    {
        let carrier = AnyCarrier::new(alloc, route)?;
        let carrier = Secured::new(carrier, taken_out(guard));
        let job = PollJob {
            alloc,
            poll: CarrierPoll::new(alloc, carrier, terms),
            left: MOST_BYTES,
            first: None,
        };
        let job = Box::new(alloc, job)?;
        Ok(job)
    }

    /// Adds the octets that the last call of the poll gives to those to send. If the security layer ended the association there are
    /// none, and its cause is returned.
    fn collect(&self, out: &mut Vec<u8>) -> Result<PollOutcome, RunFault>
        ensures { Collects out.old.items out.new.items self.now.poll result }
    {
        if let Some(fault) = self.secured_fault() {
            return Err(RunFault::Insecure(fault));
        }
        let octets = self.poll.out();
        if octets.is_empty() {
            return Ok(PollOutcome::Nothing);
        }
        match out.extend_from_slice(octets) {
            Ok(()) => Ok(PollOutcome::Nothing),
            Err(_) => Err(RunFault::Memory),
        }
    }

    /// Requests the connection. A poll that has begun already fails, and does not change.
    fn connect(&mut self, out: &mut Vec<u8>) -> Result<PollOutcome, RunFault>
        ensures { BeginsPoll out.old.items out.new.items self.old result self.new }
    {
        if !self.poll.can_begin() {
            return Err(RunFault::Poll(PollFault::Line));
        }
        self.poll.begin();
        self.collect(out)
    }

    /// The fault of a poll that failed. If the meter has other columns, the last answer lists them.
    fn fault_of(&self, fault: PollFault) -> RunFault
        ensures { result ≡ told_by fault self.now.poll }
    {
        match fault {
            PollFault::Columns => RunFault::Columns(list_columns(self.poll.answer())),
            fault => RunFault::Poll(fault),
        }
    }

    /// The report of the poll's fault: the security layer's cause, if it ended the association.
    fn cause(&self, fault: PollFault) -> RunFault
        ensures { result ≡ cause (fault_of self.now.poll.carrier) fault self.now.poll }
    {
        match self.secured_fault() {
            Some(why) => RunFault::Insecure(why),
            None => self.fault_of(fault),
        }
    }

    /// Calls the poll once with octets that arrived. Returns the number of octets that it read, and the outcome.
    fn read_once(&mut self, octets: &[u8]) -> (usize, Result<PollOutcome, RunFault>)
        ensures len { result.0 ≤ length octets.now }
        ensures some { 0 < length octets.now → 0 < result.0 }
        ensures reads { IsOneRead self.old.poll octets.now result.0 result.1 self.new.poll }
        ensures left { self.new.left ≡ self.old.left }
    {
        let heard = self.poll.feed(octets);
        match heard.result {
            Err(fault) => (heard.count, Err(self.cause(fault))),
            Ok(outcome) => (heard.count, Ok(outcome)),
        }
    }

    /// Passes a piece to the poll call by call, and collects its octets after each. Once the poll is done the rest of the piece is
    /// dropped.
    fn read_piece(&mut self, bytes: &[u8], out: &mut Vec<u8>) -> Result<PollOutcome, RunFault>
        ensures piece { ReadsPiece out.old.items out.new.items self.old.poll bytes.now result
            self.new.poll }
        ensures left { self.new.left ≡ self.old.left }
    {
        let mut rest = bytes;
        'calls: while !rest.is_empty() {
            let (count, result) = self.read_once(rest);
            match result {
                Ok(PollOutcome::Nothing) => {}
                Ok(PollOutcome::Done) => return Ok(PollOutcome::Done),
                Err(fault) => return Err(fault),
            }
            match self.collect(out) {
                Ok(_) => {}
                Err(fault) => return Err(fault),
            }
            rest = &rest[count..];
        }
        Ok(PollOutcome::Nothing)
    }

    /// Whether this many more bytes may arrive; if so they are counted.
    fn counts(&mut self, bytes: usize) -> bool
        ensures counted { IsTrue result → (bytes ≤ self.old.left)
            × (self.new ≡ record self.old { left = self.old.left - bytes }) }
        ensures more { result ≡ false → (self.old.left < bytes) × (self.new ≡ self.old) }
    {
        match self.left.checked_sub(bytes) {
            Some(left) => {
                self.left = left;
                true
            }
            None => false,
        }
    }

    /// Counts a piece and passes it to the poll. More bytes than a poll may have are the fault `Protocol`.
    fn take(&mut self, bytes: &[u8], out: &mut Vec<u8>) -> Result<PollOutcome, RunFault>
        ensures { ReadsBytes out.old.items out.new.items self.old bytes.now result self.new }
    {
        if !self.counts(bytes.len()) {
            return Err(RunFault::Poll(PollFault::Protocol));
        }
        self.read_piece(bytes, out)
    }

    /// Passes a timeout to the poll, and collects its octets.
    fn repeat(&mut self, out: &mut Vec<u8>) -> Result<PollOutcome, RunFault>
        ensures told { TakesTimeout out.old.items out.new.items self.old.poll result
            self.new.poll }
        ensures left { self.new.left ≡ self.old.left }
    {
        match self.poll.wait() {
            Err(fault) => Err(self.cause(fault)),
            Ok(PollOutcome::Done) => Ok(PollOutcome::Done),
            Ok(PollOutcome::Nothing) => self.collect(out),
        }
    }

    /// Remembers the counter of the message that was accepted first.
    fn remember_first(&mut self)
        ensures { self.new ≡ self.old }
    {
        self.first = self.first.or(self.last_accepted());
    }

    /// The rows that were polled; none before they are there.
    pub fn rows(&self) -> &[Row]
        ensures rows { result.now ≡ self.now.poll.talk.rows }
        ensures readings { AreReadings result.now }
    {
        self.poll.rows()
    }

    /// Why the security layer ended the association; none if it did not, or without a guard.
    pub fn secured_fault(&self) -> Option<SecuredFault>
        ensures { result ≡ fault_of self.now.poll.carrier }
    {
        self.poll.carrier().fault()
    }

    /// The counter of the meter that the guard accepted last, to be stored; none without a guard.
    pub fn last_accepted(&self) -> Option<u32>
        ensures { result ≡ accepted_by self.now.poll.carrier.guard }
    {
        match self.poll.carrier().guard() {
            Some(guard) => guard.last_accepted(),
            None => None,
        }
    }

    /// The counter of the first message that the guard accepted, by which the association is judged; none without a guard. If two
    /// messages come in one read, that of the second is reported.
    pub fn first_accepted(&self) -> Option<u32> {
        self.first
    }

    /// The meter's system title, to be stored; none before the meter sent it, or without a guard.
    pub fn peer(&self) -> Option<[u8; 8]>
        ensures { result ≡ peer_of self.now.poll.carrier.guard }
    {
        match self.poll.carrier().guard() {
            Some(guard) => guard.peer(),
            None => None,
        }
    }
}

impl Job for PollJob {
    ghost use Rattle.dlms_jobs.specs.PollJobs.{JobSteps};

    type Message = Vec<u8>;

    type Fault = RunFault;

    ghost steps = { JobSteps };

    fn begin(&mut self) -> JobStep<Vec<u8>, RunFault> {
        let mut out = Vec::new(self.alloc);
        let result = self.connect(&mut out);
        step_for(out, result)
    }

    fn read(&mut self, bytes: &[u8]) -> JobStep<Vec<u8>, RunFault> {
        let mut out = Vec::new(self.alloc);
        let result = self.take(bytes, &mut out);
        self.remember_first();
        step_for(out, result)
    }

    fn timeout(&mut self) -> JobStep<Vec<u8>, RunFault> {
        let mut out = Vec::new(self.alloc);
        let result = self.repeat(&mut out);
        step_for(out, result)
    }
}
