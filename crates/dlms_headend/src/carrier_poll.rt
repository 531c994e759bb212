//! A poll of the load profile over any carrier of APDUs.

ghost use Rattle.std.specs.Prelude.{[], Ok, Err, ◌≡◌, ◌<◌, ◌≤◌, ◌↔◌, List, ℕ, IsTrue, IfSome, MatchOption, length};
ghost use Rattle.dlms_carrier.specs.declared.event.Event.TheVariants.{Apdu as ApduCame, Up};
ghost use Rattle.dlms_headend.specs.Asking.{AreSeconds};
ghost use Rattle.dlms_headend.specs.CarrierPollValue.{requests_of, terms_of};
ghost use Rattle.dlms_headend.specs.CarrierPolling.{AsksNext, Begins, CanBegin, ComesBy, ComesUp, Fails, Feeds, Fits, GoesOn, HasAll, Hears, IsAsking, IsDone, IsOdd, IsUnderWay, Leaves, Opens, Stops, TakesOver, TimesOut, Waits, fresh_over};
ghost use Rattle.dlms_headend.specs.Due.{IsDueAt};
ghost use Rattle.dlms_headend.specs.Poll.{Needs};
ghost use Rattle.dlms_headend.specs.Rows.{AreReadings};
ghost use Rattle.dlms_headend.specs.Talk.{FitsTalk};
ghost use Rattle.dlms_headend.specs.declared.poll_fault.PollFault.TheVariants.{Memory};
ghost use Rattle.dlms_headend.specs.declared.stage.PollCourse.TheVariants.{Running};
ghost use Rattle.dlms_headend.specs.declared.stage.Stage.TheVariants.{Leaving};

use crate::answer::is_release;
use crate::asking::Request;
use crate::due::{association, due_apdu};
use crate::plan::PollTerms;
use crate::poll_fault::PollFault;
use crate::row::Row;
use crate::stage::{PollCourse, Stage};
use crate::step::{PollHeard, PollOutcome};
use crate::talk::Talk;
use dlms_carrier::{Carrier, Event};
use std::alloc::{Allocator, Global};
use std::marker::Model;

/// A poll of the load profile over a carrier: it connects, associates, reads the columns if its terms ask for them, the buffer, and
/// the columns again, releases, and ends the connection. After each call the caller writes `out`.
///
/// Once it took the last answer before the release it does not fail any more: a timeout, a lost connection or another answer than the
/// one to the release ends it, and it is done.
#[derive(Drop)]
pub struct CarrierPoll<C: Carrier + Drop, A: Allocator = Global> {
    terms: PollTerms,
    carrier: C,
    course: PollCourse,
    talk: Talk<A>,
}

impl<C: Carrier + Drop, A: Allocator> Model for CarrierPoll<C, A> {
    ghost use Rattle.dlms_headend.specs.Asking.{AreSeconds};
    ghost use Rattle.dlms_headend.specs.CarrierPollValue.{CarrierPollValue, terms_of};

    ghost Value = { CarrierPollValue C };

    ghost view = { λ p. record {
      terms = terms_of p.terms;
      carrier = p.carrier;
      course = p.course;
      talk = p.talk;
    } };

    ghost invariant = { λ p. AreSeconds p.terms.after p.terms.until };
}

/// The request that is due at a stage of a poll by these terms, or none once the release was answered. It takes no memory.
fn due(terms: &PollTerms, stage: Stage) -> Option<Request>
    requires { AreSeconds terms.now.after terms.now.until }
    ensures due { MatchOption result (stage ≡ Leaving) (λ request.
        IsDueAt (requests_of (terms_of terms.now)).association
        terms.now.after terms.now.until stage request.items) }
    ensures short { IfSome result (λ request. length request.items ≤ 128) }
{
    due_apdu(terms.sent_secret(), terms.after, terms.until, stage)
}

impl<C: Carrier + Drop, A: Allocator + Copy> CarrierPoll<C, A> {
    /// A poll by these terms over this carrier. It allocates nothing.
    pub fn new(alloc: A, carrier: C, terms: PollTerms) -> Self
        requires { AreSeconds terms.after terms.until }
        ensures value { result ≡ fresh_over carrier (terms_of terms) }
        ensures fits { Fits result [] }
    {
        CarrierPoll {
            terms,
            carrier,
            course: PollCourse::Ready,
            talk: Talk::new(alloc),
        }
    }

    /// Whether nothing was sent yet and there is no connection: `begin` may be called.
    pub fn can_begin(&self) -> bool
        ensures { IsTrue result ↔ CanBegin C.is_down self.now }
    {
        match self.course {
            PollCourse::Ready => self.carrier.is_down(),
            _ => false,
        }
    }

    /// Requests a connection. Once it is up, here or in a call of `feed`, the association is requested. The caller has checked
    /// `can_begin`.
    pub fn begin(&mut self)
        requires { CanBegin C.is_down self.old }
        ensures { Begins C.steps self.old self.new }
    {
        self.course = PollCourse::Connecting;
        match self.carrier.begin() {
            Event::Up => self.open(),
            _ => {}
        }
    }

    /// Requests the association.
    fn open(&mut self)
        requires { C.is_idle self.old.carrier }
        ensures { Opens C.steps self.old self.new }
    {
        let request = association(self.terms.sent_secret());
        let _event = self.carrier.give(request.as_slice());
        self.course = PollCourse::Running;
    }

    /// Reads octets that arrived, up to the first that give something to write or end the poll; the caller passes the others to the
    /// next call. After a fault it returns the same fault again; before its beginning, after its end and after a fault it drops the
    /// octets.
    pub fn feed(&mut self, octets: &[u8]) -> PollHeard
        ensures len { result.count ≤ length octets.now }
        ensures some { 0 < length octets.now → 0 < result.count }
        // Event by event of its carrier, whatever APDUs were taken so far.
        ensures feeds { (apdus : List (List ℕ)) → Fits self.old apdus
            → Feeds C.steps C.apdu_of apdus self.old octets.now result.count result.result self.new }
        // Memory is wanting only for an answer to a GET of the buffer that needs some; never for a request.
        ensures memory { (apdus : List (List ℕ)) → Fits self.old apdus → self.old.course ≡ Running
            → result.result ≡ Err Memory → Needs self.old.terms.columns apdus
            (C.apdu_of self.new.carrier) }
    {
        match self.course {
            PollCourse::Connecting => self.read(octets),
            PollCourse::Running => self.read(octets),
            PollCourse::Failed(fault) => PollHeard {
                count: octets.len(),
                result: Err(fault),
            },
            PollCourse::Ready | PollCourse::Done => PollHeard {
                count: octets.len(),
                result: Ok(PollOutcome::Nothing),
            },
        }
    }

    /// Reads octets that arrived while the poll is under way.
    fn read(&mut self, octets: &[u8]) -> PollHeard
        requires { IsUnderWay self.old }
        ensures len { result.count ≤ length octets.now }
        ensures some { 0 < length octets.now → 0 < result.count }
        ensures hears { (apdus : List (List ℕ)) → Fits self.old apdus
            → Hears C.steps C.apdu_of apdus self.old octets.now result.count result.result self.new }
        ensures memory { (apdus : List (List ℕ)) → Fits self.old apdus
            → result.result ≡ Err Memory → Needs self.old.terms.columns apdus
            (C.apdu_of self.new.carrier) }
    {
        let fed = self.carrier.feed(octets);
        PollHeard {
            count: fed.count,
            result: self.handle(fed.event),
        }
    }

    /// Handles a timeout: no octet arrived in time. The carrier sends its octets again, or the poll fails; if it has all that it asks
    /// for, it is done. While nothing is awaited it returns the fault `Line` and changes nothing; after a fault it returns the same
    /// fault again.
    pub fn wait(&mut self) -> Result<PollOutcome, PollFault>
        ensures { Waits C.steps C.is_waiting self.old result self.new }
    {
        match self.course {
            PollCourse::Failed(fault) => Err(fault),
            PollCourse::Ready | PollCourse::Done => Err(PollFault::Line),
            PollCourse::Connecting | PollCourse::Running => {
                if !self.carrier.is_waiting() {
                    return Err(PollFault::Line);
                }
                self.repeat()
            }
        }
    }

    /// A timeout while the meter's answer is awaited.
    fn repeat(&mut self) -> Result<PollOutcome, PollFault>
        requires { C.is_waiting self.old.carrier }
        ensures { TimesOut C.steps self.old result self.new }
    {
        match self.carrier.wait() {
            Event::TimedOut => self.stop(PollFault::Line),
            _ => Ok(PollOutcome::Nothing),
        }
    }

    /// The poll fails.
    fn fail(&mut self, fault: PollFault) -> Result<PollOutcome, PollFault>
        ensures { Fails self.old fault result self.new }
    {
        self.course = PollCourse::Failed(fault);
        Err(fault)
    }

    /// The poll is done.
    fn finish(&mut self) -> Result<PollOutcome, PollFault>
        ensures { IsDone self.old result self.new }
    {
        self.course = PollCourse::Done;
        Ok(PollOutcome::Done)
    }

    /// Whether all that the poll asks for was taken: the answer to the release is awaited, or the connection's end.
    fn has_all(&self) -> bool
        ensures { IsTrue result ↔ HasAll self.now }
    {
        match self.course {
            PollCourse::Running => self.talk.has_all(),
            _ => false,
        }
    }

    /// Ends the poll: it is done if all that it asks for was taken, and fails otherwise.
    fn stop(&mut self, fault: PollFault) -> Result<PollOutcome, PollFault>
        ensures { Stops self.old fault result self.new }
    {
        if self.has_all() {
            self.finish()
        } else {
            self.fail(fault)
        }
    }

    /// Handles an event of the carrier.
    fn handle(&mut self, event: Event) -> Result<PollOutcome, PollFault>
        requires under_way { IsUnderWay self.old }
        requires up { event ≡ Up → C.is_idle self.old.carrier }
        requires apdu { event ≡ ApduCame → C.is_idle self.old.carrier }
        ensures { (apdus : List (List ℕ)) → Fits self.old apdus
            → ComesBy C.steps event (C.apdu_of self.old.carrier) apdus self.old result self.new }
    {
        match event {
            Event::Nothing => Ok(PollOutcome::Nothing),
            Event::Up => self.up(),
            Event::Apdu => self.take(),
            Event::TimedOut => self.stop(PollFault::Line),
            Event::Down | Event::Refused(_) | Event::Insecure => self.stop(PollFault::Protocol),
        }
    }

    /// The connection came up.
    fn up(&mut self) -> Result<PollOutcome, PollFault>
        requires under_way { IsUnderWay self.old }
        requires idle { C.is_idle self.old.carrier }
        ensures { ComesUp C.steps self.old result self.new }
    {
        match self.course {
            PollCourse::Connecting => {
                self.open();
                Ok(PollOutcome::Nothing)
            }
            _ => self.fail(PollFault::Protocol),
        }
    }

    /// Whether the meter's answer to a request is awaited.
    fn is_asking(&self) -> bool
        ensures { IsTrue result ↔ IsAsking self.now }
    {
        match self.course {
            PollCourse::Running => self.talk.awaits(),
            _ => false,
        }
    }

    /// Handles the APDU that the carrier handed up.
    fn take(&mut self) -> Result<PollOutcome, PollFault>
        requires { C.is_idle self.old.carrier }
        ensures { (apdus : List (List ℕ)) → Fits self.old apdus
            → TakesOver C.steps (C.apdu_of self.old.carrier) apdus self.old result self.new }
    {
        if !self.is_asking() {
            self.stop(PollFault::Protocol)
        } else if self.is_odd() {
            self.finish()
        } else {
            self.hear()
        }
    }

    /// Whether the answer to the release is awaited, and the APDU that was handed up is another one.
    fn is_odd(&self) -> bool
        ensures { IsTrue result ↔ IsOdd (C.apdu_of self.now.carrier) self.now }
    {
        self.talk.is_releasing() && !is_release(self.carrier.apdu())
    }

    /// Handles the answer that was awaited.
    fn hear(&mut self) -> Result<PollOutcome, PollFault>
        requires idle { C.is_idle self.old.carrier }
        requires asking { IsAsking self.old }
        requires even { IsOdd (C.apdu_of self.old.carrier) self.old → ⊥ }
        ensures { (apdus : List (List ℕ)) → Fits self.old apdus
            → TakesOver C.steps (C.apdu_of self.old.carrier) apdus self.old result self.new }
    {
        match self.talk.take(self.terms.columns, self.carrier.apdu()) {
            Ok(()) => self.go_on(),
            Err(fault) => self.fail(fault),
        }
    }

    /// Sends the next request, or requests the connection's end once the release was answered.
    fn go_on(&mut self) -> Result<PollOutcome, PollFault>
        requires { C.is_idle self.old.carrier }
        ensures { (apdus : List (List ℕ)) → FitsTalk self.old.terms.columns self.old.talk apdus
            → GoesOn C.steps self.old apdus result self.new }
    {
        let stage = self.talk.stage();
        match due(&self.terms, stage) {
            Some(request) => {
                let _event = self.carrier.give(request.as_slice());
                Ok(PollOutcome::Nothing)
            }
            None => self.leave(),
        }
    }

    /// Requests the connection's end.
    fn leave(&mut self) -> Result<PollOutcome, PollFault>
        requires idle { C.is_idle self.old.carrier }
        requires leaving { self.old.talk.stage ≡ Leaving }
        ensures { (apdus : List (List ℕ)) → FitsTalk self.old.terms.columns self.old.talk apdus
            → Leaves C.steps self.old apdus result self.new }
    {
        match self.carrier.end() {
            Event::Down => self.finish(),
            _ => Ok(PollOutcome::Nothing),
        }
    }

    /// The octets to write after the last call, if there are any.
    pub fn out(&self) -> &[u8]
        ensures { result.now ≡ C.out_of self.now.carrier }
    {
        self.carrier.out()
    }

    /// The APDU that the carrier handed up last.
    pub fn answer(&self) -> &[u8]
        ensures { result.now ≡ C.apdu_of self.now.carrier }
    {
        self.carrier.apdu()
    }

    /// The carrier.
    pub fn carrier(&self) -> &C
        ensures { result.now ≡ self.now.carrier }
    {
        &self.carrier
    }

    /// The rows that were polled; none before they are there. Each is a reading: its clock is one of the meter's.
    pub fn rows(&self) -> &[Row]
        ensures rows { result.now ≡ self.now.talk.rows }
        ensures readings { AreReadings result.now }
    {
        self.talk.rows()
    }
}
