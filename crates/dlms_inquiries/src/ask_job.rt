//! Requests to a meter as a job: it returns the octets to send, in place of writing them.
ghost use Rattle.std.specs.Prelude.{◌≡◌, ◌-◌, ◌<◌, ◌≤◌, ◌↔◌, IfOk, IsTrue, Ok, Some, false, true, length, option_map};
ghost use Rattle.dlms_association.specs.declared.answer.Answer.{Answer};
ghost use Rattle.dlms_client.specs.Plan.{IsPlan, plan_of};
ghost use Rattle.dlms_fleet.specs.Inputs.Input.{Begins, Reads, TimesOut};
ghost use Rattle.dlms_inquiries.specs.Carried.{accepted_by, fault_of, peer_of};
ghost use Rattle.dlms_inquiries.specs.Inquiries.{Chooses, Collects, FollowsOn, GoesOn, IsNew, IsStep, Leaves, OneRead, ReadsPiece, Requests, Settled, Told, cause};

use crate::fault::InquiryFault;
use crate::script::{Question, Script};
use dlms_association::Terms;
use dlms_carrier::AnyCarrier;
use dlms_client::{Answer, AskFault, Client, Fault, Outcome, Plan};
use dlms_data::fits;
use dlms_fleet::{Job, JobStep};
use dlms_secured::{Guard, Secured, SecuredFault};
use std::alloc::{AllocError, Global};
use std::marker::Model;

/// The most bytes that may arrive in an association.
const MOST_BYTES: usize = 2_097_152;

/// Whether a job goes on after a call.
#[derive(Clone, Copy)]
enum Progress {
    Waits,
    Done,
}

/// An association over the carrier of a route, protected if it has a guard: the requests of a script are made in it, one after another,
/// and then its end is requested.
#[derive(Drop)]
pub struct AskJob<S> {
    alloc: Global,
    client: Client<Secured<AnyCarrier>>,
    script: S,
    /// The number of bytes that may still arrive.
    left: usize,
    /// Whether the script has no more requests.
    is_over: bool,
    /// The counter of the first message that was accepted.
    first: Option<u32>,
}

impl<S> Model for AskJob<S> {
    ghost use Rattle.dlms_inquiries.specs.Inquiries.{AskValue};

    ghost Value = { AskValue S };

    ghost view = { λ job. record {
      client = job.client;
      script = job.script;
      left = job.left;
      is_over = job.is_over;
    } };
}

/// The guard that is in this box.
fn taken_out(guard: Option<Box<Guard>>) -> Option<Guard>
    ensures { result ≡ option_map (λ kept. kept.value) guard }
{
    match guard {
        Some(kept) => Some(Box::into_inner(kept)),
        None => None,
    }
}

/// The step for the outcome of the calls: these octets are sent, if there are any.
fn step_for(out: Vec<u8>, outcome: Result<Progress, InquiryFault>) -> JobStep<Vec<u8>, InquiryFault>
    ensures { IsStep out.items outcome result }
{
    match outcome {
        Ok(Progress::Waits) => {
            if out.is_empty() {
                return JobStep::Nothing;
            }
            JobStep::Sends(out)
        }
        Ok(Progress::Done) => JobStep::Done,
        Err(fault) => JobStep::Fails(fault),
    }
}

/// Why a request was not made.
fn unasked(fault: AskFault) -> InquiryFault {
    match fault {
        AskFault::TooLong => InquiryFault::TooLong,
        AskFault::Memory => InquiryFault::Memory,
    }
}

impl<S: Drop> AskJob<S> {
    /// A new association by this plan: one that this guard protects, or without a guard one in clear. The guard's challenge is unused,
    /// and it has a counter left for each APDU that goes out, and two more.
    #[inline(never)]
    pub fn new(
        alloc: Global,
        plan: Plan,
        guard: Option<Box<Guard>>,
        script: S,
    ) -> Result<Box<AskJob<S>>, AllocError>
        requires { IsPlan (plan_of plan) }
        ensures { IfOk result (λ job. IsNew (plan_of plan)
            (option_map (λ kept. kept.value) guard) script job.value) }
    {
        let carrier = AnyCarrier::new(alloc, plan.route)?;
        let carrier = Secured::new(carrier, taken_out(guard));
        let terms = Terms {
            secret: plan.secret,
            size: plan.size,
        };
        let job = AskJob {
            alloc,
            client: Client::new(alloc, carrier, terms),
            script,
            left: MOST_BYTES,
            is_over: false,
            first: None,
        };
        let job = Box::new(alloc, job)?;
        Ok(job)
    }
}

impl<S> AskJob<S> {
    /// The script, which has what came of its requests.
    pub fn script(&self) -> &S
        ensures { result.now ≡ self.now.script }
    {
        &self.script
    }

    /// Why the security layer ended the association; none if it did not, or without a guard.
    pub fn secured_fault(&self) -> Option<SecuredFault>
        ensures { result ≡ fault_of self.now.client.carrier }
    {
        self.client.carrier().fault()
    }

    /// The counter of the meter that the guard accepted last, to be stored; none without a guard.
    pub fn last_accepted(&self) -> Option<u32>
        ensures { result ≡ accepted_by self.now.client.carrier.guard }
    {
        match self.client.carrier().guard() {
            Some(guard) => guard.last_accepted(),
            None => None,
        }
    }

    /// The counter of the first message that the guard accepted, by which the association is judged; none without a guard. If two
    /// messages come in one read, that of the second is reported.
    pub fn first_accepted(&self) -> Option<u32> {
        self.first
    }

    /// The meter's system title, to be stored; none before the meter sent it, or without a guard.
    pub fn peer(&self) -> Option<[u8; 8]>
        ensures { result ≡ peer_of self.now.client.carrier.guard }
    {
        match self.client.carrier().guard() {
            Some(guard) => guard.peer(),
            None => None,
        }
    }

    /// Remembers the counter of the message that was accepted first.
    fn remember_first(&mut self)
        ensures { self.new ≡ self.old }
    {
        self.first = self.first.or(self.last_accepted());
    }

    /// The report of the client's fault: the security layer's cause, if it ended the association.
    fn cause(&self, fault: Fault) -> InquiryFault
        ensures { result ≡ cause (fault_of self.now.client.carrier) fault }
    {
        match self.secured_fault() {
            Some(why) => InquiryFault::Insecure(why),
            None => InquiryFault::Talk(fault),
        }
    }

    /// Adds the octets that the last call of the client gives to those to send. If the security layer ended the association there are
    /// none, and its cause is returned.
    fn collect(&self, out: &mut Vec<u8>) -> Result<Progress, InquiryFault>
        ensures { Collects out.old.items out.new.items self.now.client result }
    {
        if let Some(fault) = self.secured_fault() {
            return Err(InquiryFault::Insecure(fault));
        }
        let octets = self.client.out();
        match out.extend_from_slice(octets) {
            Ok(()) => Ok(Progress::Waits),
            Err(_) => Err(InquiryFault::Memory),
        }
    }

    /// Whether this many more bytes may arrive; if so they are counted.
    fn counts(&mut self, bytes: usize) -> bool
        ensures counted { IsTrue result → (bytes ≤ self.old.left)
            × (self.new ≡ record self.old { left = self.old.left - bytes }) }
        ensures more { result ≡ false → (self.old.left < bytes) × (self.new ≡ self.old) }
    {
        match self.left.checked_sub(bytes) {
            Some(left) => {
                self.left = left;
                true
            }
            None => false,
        }
    }

    /// Makes a request, unless none may be made or its value has no spelling.
    fn request(&mut self, question: Question) -> Result<Progress, InquiryFault>
        ensures { Requests self.old question result self.new }
    {
        if !self.client.is_free() {
            drop(question);
            return Err(InquiryFault::Talk(Fault::Form));
        }
        let asked = match question {
            Question::Get(attribute) => self.client.get::<Global>(attribute, None),
            Question::Set(attribute, value) => {
                if !fits(&value) {
                    drop(value);
                    return Err(InquiryFault::Talk(Fault::Form));
                }
                self.client.set::<Global>(attribute, None, value)
            }
            Question::Act(method, Some(value)) => {
                if !fits(&value) {
                    drop(value);
                    return Err(InquiryFault::Talk(Fault::Form));
                }
                self.client.act(method, Some(value))
            }
            Question::Act(method, None) => self.client.act::<Global>(method, None),
        };
        match asked {
            Ok(()) => Ok(Progress::Waits),
            Err(fault) => Err(unasked(fault)),
        }
    }

    /// Requests the end of the connection.
    fn leave(&mut self) -> Result<Progress, InquiryFault>
        ensures { Leaves self.old result self.new }
    {
        if !self.client.is_free() {
            return Err(InquiryFault::Talk(Fault::Form));
        }
        self.is_over = true;
        match self.client.disconnect() {
            Outcome::Down => Ok(Progress::Done),
            _ => Ok(Progress::Waits),
        }
    }

    /// Makes the next request of the script, or without one requests the end of the connection.
    fn make(&mut self, next: Option<Question>) -> Result<Progress, InquiryFault>
        ensures { Chooses self.old next result self.new }
    {
        match next {
            Some(question) => self.request(question),
            None => self.leave(),
        }
    }

    /// The result of a job that is over: what the meter does then has no effect.
    fn settled(&self, told: Result<Progress, InquiryFault>) -> Result<Progress, InquiryFault>
        ensures { Settled self.now told result }
    {
        match told {
            Err(_) if self.is_over => Ok(Progress::Done),
            told => told,
        }
    }
}

impl<S: Script> AskJob<S> {
    /// Requests the connection. A job that has begun already fails.
    fn connect(&mut self, out: &mut Vec<u8>) -> Result<Progress, InquiryFault>
        ensures { Told S.follows Begins out.old.items out.new.items self.old result self.new }
    {
        if !self.client.can_begin() {
            return Err(InquiryFault::Talk(Fault::Line));
        }
        self.client.begin();
        self.collect(out)
    }

    /// The script takes an answer. Its next request is made, or without one the connection's end is requested.
    fn go_on(&mut self, answer: Option<Answer>, out: &mut Vec<u8>) -> Result<Progress, InquiryFault>
        ensures { GoesOn S.follows out.old.items out.new.items self.old answer result self.new }
    {
        let next = match self.script.next(answer, self.client.value()) {
            Ok(next) => next,
            Err(_) => return Err(InquiryFault::Memory),
        };
        match self.make(next) {
            Ok(Progress::Waits) => self.collect(out),
            Ok(Progress::Done) => Ok(Progress::Done),
            Err(fault) => Err(fault),
        }
    }

    /// Does what follows from an outcome of the client.
    fn follow(&mut self, outcome: Outcome, out: &mut Vec<u8>) -> Result<Progress, InquiryFault>
        ensures { FollowsOn S.follows out.old.items out.new.items self.old outcome result self.new }
    {
        match outcome {
            Outcome::Nothing => Ok(Progress::Waits),
            Outcome::Associated => self.go_on(None, out),
            Outcome::Answered(answer) => self.go_on(Some(answer), out),
            Outcome::Down => {
                if self.is_over {
                    Ok(Progress::Done)
                } else {
                    Err(InquiryFault::Talk(Fault::Down))
                }
            }
        }
    }

    /// Calls the client once with octets that arrived, and does what follows. Returns the number of octets that it read.
    fn read_once(
        &mut self,
        octets: &[u8],
        out: &mut Vec<u8>,
    ) -> (usize, Result<Progress, InquiryFault>)
        ensures len { result.0 ≤ length octets.now }
        ensures some { 0 < length octets.now → 0 < result.0 }
        ensures reads { OneRead S.follows out.old.items out.new.items self.old octets.now result.0
            result.1 self.new }
    {
        let heard = self.client.feed(octets);
        let outcome = match heard.result {
            Ok(outcome) => outcome,
            Err(fault) => return (heard.count, Err(self.cause(fault))),
        };
        match self.collect(out) {
            Ok(_) => (heard.count, self.follow(outcome, out)),
            Err(fault) => (heard.count, Err(fault)),
        }
    }

    /// Passes a piece to the client call by call. Once the job is done the rest of the piece is dropped.
    fn read_piece(&mut self, bytes: &[u8], out: &mut Vec<u8>) -> Result<Progress, InquiryFault>
        ensures { ReadsPiece S.follows out.old.items out.new.items self.old bytes.now result
            self.new }
    {
        let mut rest = bytes;
        'calls: while !rest.is_empty() {
            let (count, result) = self.read_once(rest, out);
            match result {
                Ok(Progress::Waits) => {}
                Ok(Progress::Done) => return Ok(Progress::Done),
                Err(fault) => return Err(fault),
            }
            rest = &rest[count..];
        }
        Ok(Progress::Waits)
    }

    /// Counts a piece and passes it to the client. More bytes than may arrive are the fault `Form`.
    fn take(&mut self, bytes: &[u8], out: &mut Vec<u8>) -> Result<Progress, InquiryFault>
        ensures { Told S.follows (Reads bytes.now) out.old.items out.new.items self.old result
            self.new }
    {
        if !self.counts(bytes.len()) {
            return Err(InquiryFault::Talk(Fault::Form));
        }
        self.read_piece(bytes, out)
    }

    /// Passes a timeout to the client. A job that is over is done.
    fn repeat(&mut self, out: &mut Vec<u8>) -> Result<Progress, InquiryFault>
        ensures { Told S.follows TimesOut out.old.items out.new.items self.old result self.new }
    {
        if self.is_over {
            return Ok(Progress::Done);
        }
        match self.client.wait() {
            Ok(_) => self.collect(out),
            Err(fault) => Err(self.cause(fault)),
        }
    }
}

impl<S: Script> Job for AskJob<S> {
    ghost use Rattle.dlms_inquiries.specs.Inquiries.{JobSteps};

    type Message = Vec<u8>;

    type Fault = InquiryFault;

    ghost steps = { JobSteps S.follows };

    fn begin(&mut self) -> JobStep<Vec<u8>, InquiryFault> {
        let mut out = Vec::new(self.alloc);
        let told = self.connect(&mut out);
        step_for(out, told)
    }

    fn read(&mut self, bytes: &[u8]) -> JobStep<Vec<u8>, InquiryFault> {
        let mut out = Vec::new(self.alloc);
        let told = self.take(bytes, &mut out);
        self.remember_first();
        step_for(out, self.settled(told))
    }

    fn timeout(&mut self) -> JobStep<Vec<u8>, InquiryFault> {
        let mut out = Vec::new(self.alloc);
        let told = self.repeat(&mut out);
        step_for(out, told)
    }
}
