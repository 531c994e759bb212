//! A poll of the load profile over the client's link.

ghost use Rattle.std.specs.Prelude.{[], Ok, Err, ◌≡◌, ◌≤◌, ◌↔◌, List, ℕ, IsTrue, IfSome, IfErr, length};
ghost use Rattle.dlms_link.specs.Client.{IsIdle, client_step};
ghost use Rattle.dlms_headend.specs.declared.poll_fault.PollFault.TheVariants.{Memory};
ghost use Rattle.dlms_headend.specs.declared.stage.Course.TheVariants.{Ready, Running};
ghost use Rattle.dlms_link.specs.declared.out.ClientOut.TheVariants.{Down};
ghost use Rattle.dlms_headend.specs.declared.row.Row.{Row as RowOf};
ghost use Rattle.dlms_headend.specs.declared.step.PollStep.TheVariants.{Done};
ghost use Rattle.dlms_headend.specs.Poll.{HasReleased};
ghost use Rattle.dlms_headend.specs.Asking.{AreSeconds, association_bytes};
ghost use Rattle.dlms_headend.specs.PollerValue.{plan_of};
ghost use Rattle.dlms_headend.specs.Rows.{AreReadings};
ghost use Rattle.dlms_headend.specs.Talk.{FitsTalk, CanTake, Ends};
ghost use Rattle.dlms_headend.specs.Polling.{IsDone, fresh_poll, IsGet, IsDue, Fits, FitsIn, Begins, TimesOut, CanTimeOut, HasFailed, Continues, Answers, GoesDown, PollsEarly, PollsBy, Polls, WantsBy, WantsMemory, with_link};
ghost use Rattle.dlms_link.specs.declared.kept.TheConstants.{MOST_APDU};

use crate::due::due_apdu;
use crate::plan::Plan;
use crate::poll_fault::PollFault;
use crate::row::Row;
use crate::stage::{Course, Stage};
use crate::step::PollStep;
use crate::talk::Talk;
use dlms_frame::{Frame, SentFrame};
use dlms_link::{ClientLink, ClientOut};
use std::alloc::{Allocator, Global};
use std::marker::Model;

/// A poll of the load profile: it connects, associates, reads the columns if its plan asks for them, the buffer, and the columns
/// again, releases and disconnects.
#[derive(Drop)]
pub struct Poller<A: Allocator = Global> {
    plan: Plan,
    link: ClientLink,
    course: Course,
    talk: Talk<A>,
}

impl<A: Allocator> Model for Poller<A> {
    ghost use Rattle.dlms_headend.specs.PollerValue.{PollerValue, IsStanding, plan_of};

    ghost Value = { PollerValue };

    ghost view = { λ p. record {
      plan = plan_of p.plan;
      link = p.link;
      course = p.course;
      talk = p.talk;
    } };

    ghost invariant = { λ p. IsStanding p.plan p.link p.course };
}

/// The frame that goes out at this stage. It takes no memory.
fn due(plan: &Plan, link: &mut ClientLink, stage: Stage) -> SentFrame
    requires idle { IsIdle link.old }
    requires seconds { AreSeconds plan.now.after plan.now.until }
    ensures { IsDue (plan_of plan.now) stage link.old result link.new }
{
    match due_apdu(plan.sent_secret(), plan.after, plan.until, stage) {
        Some(request) => link.send(request.as_slice()),
        None => link.disconnect(),
    }
}

impl<A: Allocator + Copy> Poller<A> {
    /// A poll by this plan. No memory is taken here.
    pub fn new(alloc: A, plan: Plan) -> Self
        requires { AreSeconds plan.after plan.until }
        ensures value { result ≡ fresh_poll (plan_of plan) }
        ensures fits { Fits result [] }
    {
        let link = ClientLink::new(plan.client);
        Poller {
            plan,
            link,
            course: Course::Ready,
            talk: Talk::new(alloc),
        }
    }

    /// The first frame, once; none from then on.
    pub fn next(&mut self) -> Option<SentFrame>
        ensures begins { Begins self.old result self.new }
        ensures keeps { (apdus : List (List ℕ)) → Fits self.old apdus → Fits self.new apdus }
    {
        match self.course {
            Course::Ready => {
                self.course = Course::Running;
                Some(self.link.connect())
            }
            _ => None,
        }
    }

    /// How the poll handles a frame. After a fault it returns the same fault again; after the poll is done it returns `Nothing`.
    pub fn on(&mut self, frame: &Frame<'_>) -> Result<PollStep, PollFault>
        // Frame by frame, whatever APDUs were taken so far.
        ensures polls { (apdus : List (List ℕ)) → Fits self.old apdus
            → Polls apdus frame.now self.old result self.new }
        // It is done only if these were an acceptance, answers that spell the rows, and the answer to the release; and if the plan
        // asks for the columns, an answer with them before the rows and one after them.
        ensures done { (apdus : List (List ℕ)) → Fits self.old apdus → result ≡ Ok Done
            → HasReleased self.old.plan.columns apdus self.new.talk.rows }
        // And it is done if they are, once the link goes down.
        ensures is_done { (apdus : List (List ℕ)) (rows : List RowOf) → Fits self.old apdus
            → self.old.course ≡ Running → HasReleased self.old.plan.columns apdus rows
            → (client_step self.old.link frame.now).1 ≡ Down
            → IsDone (with_link self.old (client_step self.old.link frame.now).0) result self.new
            × (self.new.talk.rows ≡ rows) }
        // Memory is wanting only for an answer to a GET of the buffer that needs some; never for a request.
        ensures memory { (apdus : List (List ℕ)) → Fits self.old apdus → self.old.course ≡ Running
            → result ≡ Err Memory → WantsMemory self.old apdus frame.now }
    {
        self.turn(frame)
    }

    /// A frame, wherever the poll stands.
    fn turn(&mut self, frame: &Frame<'_>) -> Result<PollStep, PollFault>
        ensures polls { (apdus : List (List ℕ)) → Fits self.old apdus
            → Polls apdus frame.now self.old result self.new }
        ensures done { (apdus : List (List ℕ)) → Fits self.old apdus → result ≡ Ok Done
            → HasReleased self.old.plan.columns apdus self.new.talk.rows }
        ensures memory { (apdus : List (List ℕ)) → Fits self.old apdus → self.old.course ≡ Running
            → result ≡ Err Memory → WantsMemory self.old apdus frame.now }
    {
        match self.course {
            Course::Failed(fault) => Err(fault),
            Course::Done => Ok(PollStep::Nothing),
            Course::Ready => self.early(frame),
            Course::Running => self.running(frame),
        }
    }

    /// The poll fails.
    fn fail(&mut self, fault: PollFault) -> Result<PollStep, PollFault>
        ensures { HasFailed self.old fault result self.new }
    {
        self.course = Course::Failed(fault);
        Err(fault)
    }

    /// A frame before the first one went out.
    fn early(&mut self, frame: &Frame<'_>) -> Result<PollStep, PollFault>
        requires { self.old.course ≡ Ready }
        ensures { PollsEarly (client_step self.old.link frame.now).1
            (client_step self.old.link frame.now).0 self.old result self.new }
    {
        match self.link.on(frame) {
            ClientOut::Nothing => Ok(PollStep::Nothing),
            _ => self.fail(PollFault::Protocol),
        }
    }

    /// A frame.
    fn running(&mut self, frame: &Frame<'_>) -> Result<PollStep, PollFault>
        requires { self.old.course ≡ Running }
        ensures polls { (apdus : List (List ℕ)) → FitsIn Running self.old apdus
            → PollsBy (client_step self.old.link frame.now).1
            (client_step self.old.link frame.now).0 apdus self.old result self.new }
        ensures memory { (apdus : List (List ℕ)) → FitsIn Running self.old apdus
            → result ≡ Err Memory
            → WantsBy (client_step self.old.link frame.now).1
            (client_step self.old.link frame.now).0 self.old.plan.columns apdus }
    {
        match self.link.on(frame) {
            ClientOut::Nothing => Ok(PollStep::Nothing),
            ClientOut::Send(frame) => Ok(PollStep::Send(frame)),
            ClientOut::Up => Ok(PollStep::Send(self.go_on())),
            ClientOut::Apdu => self.take(),
            ClientOut::Down => self.down(),
        }
    }

    /// Sends the next request. It takes no memory.
    fn go_on(&mut self) -> SentFrame
        requires running { self.old.course ≡ Running }
        requires idle { IsIdle self.old.link }
        ensures { (apdus : List (List ℕ)) → FitsTalk self.old.plan.columns self.old.talk apdus
            → Continues self.old apdus (Ok (PollStep.Send result)) self.new }
    {
        due(&self.plan, &mut self.link, self.talk.stage())
    }

    /// An APDU was handed up. Only its own cause ends the poll: what is asked next takes no memory.
    fn take(&mut self) -> Result<PollStep, PollFault>
        requires running { self.old.course ≡ Running }
        requires idle { IsIdle self.old.link }
        ensures answers { (apdus : List (List ℕ))
            → FitsTalk self.old.plan.columns self.old.talk apdus → CanTake self.old.talk.stage
            → Answers self.old apdus result self.new }
        ensures ends { (apdus : List (List ℕ)) → FitsTalk self.old.plan.columns self.old.talk apdus
            → CanTake self.old.talk.stage
            → IfErr result (Ends self.old.plan.columns apdus self.old.link.apdu) }
    {
        match self.talk.take(self.plan.columns, self.link.apdu()) {
            Ok(()) => Ok(PollStep::Send(self.go_on())),
            Err(fault) => self.fail(fault),
        }
    }

    /// The link went down.
    fn down(&mut self) -> Result<PollStep, PollFault>
        ensures { GoesDown self.old.talk.stage self.old result self.new }
    {
        match self.talk.stage() {
            Stage::Leaving => {
                self.course = Course::Done;
                Ok(PollStep::Done)
            }
            _ => self.fail(PollFault::Protocol),
        }
    }

    /// A time-out of the frame that is out: it goes again, and the fourth in a row is a fault. After a fault it is the same
    /// fault again.
    pub fn timeout(&mut self) -> Result<SentFrame, PollFault>
        requires { CanTimeOut self.old }
        ensures again { TimesOut self.old result self.new }
        ensures keeps { (apdus : List (List ℕ)) → Fits self.old apdus → Fits self.new apdus }
    {
        if let Course::Failed(fault) = self.course {
            return Err(fault);
        }
        match self.link.timeout() {
            Ok(frame) => Ok(frame),
            Err(_) => {
                self.course = Course::Failed(PollFault::Line);
                Err(PollFault::Line)
            }
        }
    }

    /// Whether a frame is out, or the poll has failed: `timeout` may be called.
    pub fn is_waiting(&self) -> bool
        ensures { IsTrue result ↔ CanTimeOut self.now }
    {
        match self.course {
            Course::Failed(_) => true,
            _ => self.link.is_waiting(),
        }
    }

    /// The APDU that the link handed up last; none before the first.
    pub fn answer(&self) -> &[u8]
        ensures { result.now ≡ self.now.link.apdu }
    {
        self.link.apdu()
    }

    /// The rows that were polled; none before they are there. Each is a reading: its clock is one of the meter's.
    pub fn rows(&self) -> &[Row]
        ensures rows { result.now ≡ self.now.talk.rows }
        ensures readings { AreReadings result.now }
    {
        self.talk.rows()
    }
}
