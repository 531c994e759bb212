//! A poll over a carrier at one end of a line: it reads the octets that arrive, and writes the poll's octets.
ghost use Rattle.dlms_headend.specs.Asking.{AreSeconds};
ghost use Rattle.std.specs.Prelude.{◌≡◌, ◌-◌, ◌<◌, ◌≤◌, ◌↔◌, IfErr, IfOk, IfSome, IsTrue, Option, false, length, option_map};
ghost use Rattle.dlms_carrier.specs.Any.{AnyValue, IsFresh, IsRoute};
ghost use Rattle.dlms_carrier.specs.declared.any.Route.{Route as RouteOf};
ghost use Rattle.dlms_headend.specs.CarrierPollValue.{TermsValue, terms_of};
ghost use Rattle.dlms_headend.specs.CarrierPolling.{CanBegin, fresh_over};
ghost use Rattle.dlms_headend.specs.Rows.{AreReadings};
ghost use Rattle.dlms_secured.specs.Guard.{GuardValue};
ghost use Rattle.dlms_ends.specs.Carried.{accepted_by, fault_of, is_down, peer_of};
ghost use Rattle.dlms_ends.specs.PollEnds.{Dials, Goes, IsLost, IsNew, IsOneRead, IsPolledOver, Listens, PollsOver, TakesPiece, TakesTimeout, Writes, cause, outcome_of_loss, told_by};
ghost use Rattle.dlms_ends.specs.declared.fault.RunFault.TheVariants.{Memory};

use crate::end::{End, Heard, PIECE, bytes_of};
use crate::fault::RunFault;
use crate::head_end::MOST_BYTES;
use dlms_carrier::{AnyCarrier, Route};
use dlms_headend::{CarrierPoll, PollFault, PollOutcome, PollTerms, Row, list_columns};
use dlms_secured::{Guard, Secured, SecuredFault};
use std::alloc::{AllocError, Allocator, Global};
use std::marker::Model;

/// The most reads of the line in a poll.
const MOST_READS: u32 = 16_777_216;

/// A poll over the carrier of a route, protected if it has a guard, on the heap, and the number of bytes that may still arrive.
#[derive(Drop)]
pub struct PollEnd<A: Allocator = Global> {
    poll: Box<CarrierPoll<Secured<AnyCarrier<A>>, A>, A>,
    left: usize,
}

impl<A: Allocator> Model for PollEnd<A> {
    ghost use Rattle.dlms_ends.specs.PollEnds.{PollEndValue};

    ghost Value = { PollEndValue };

    ghost view = { λ end. record { poll = end.poll.value; left = end.left } };
}

/// Writes octets, if there are any.
fn send<W: End>(end: &mut W, octets: &[u8]) -> Result<(), RunFault>
    ensures { Goes (W.past end.old) (W.past end.new) octets.now result }
{
    if octets.is_empty() {
        return Ok(());
    }
    match end.put(octets) {
        Ok(()) => Ok(()),
        Err(error) => Err(RunFault::from(error)),
    }
}

/// The guard that is in this box.
fn taken_out<A: Allocator>(guard: Option<Box<Guard, A>>) -> Option<Guard>
    ensures { result ≡ option_map (λ kept. kept.value) guard }
{
    match guard {
        Some(kept) => Some(Box::into_inner(kept)),
        None => None,
    }
}

/// A poll by these terms over the carrier of this route, with this guard or with none. It is made in a function of its own, so that no
/// other call has it or its guard on the stack.
#[inline(never)]
fn new_poll<A: Allocator + Copy>(
    alloc: A,
    route: Route,
    terms: PollTerms,
    guard: Option<Box<Guard, A>>,
) -> Result<Box<CarrierPoll<Secured<AnyCarrier<A>>, A>, A>, AllocError>
    requires route { IsRoute route }
    requires after { AreSeconds terms.after terms.until }
    ensures { IfOk result (λ made. (carrier : AnyValue) × IsFresh route carrier
        × (made.value ≡ fresh_over
        (record { carrier = carrier; guard = option_map (λ kept. kept.value) guard })
        (terms_of terms))) }
{
    let carrier = AnyCarrier::new(alloc, route)?;
    let carrier = Secured::new(carrier, taken_out(guard));
    let poll = Box::new(alloc, CarrierPoll::new(alloc, carrier, terms))?;
    Ok(poll)
}

/// The outcome of a poll whose line failed for this cause, and that returned this for a timeout.
fn outcome_of_loss(
    why: RunFault,
    told: Result<PollOutcome, PollFault>,
) -> Result<PollOutcome, RunFault>
    ensures { result ≡ outcome_of_loss why told }
{
    match told {
        Ok(PollOutcome::Done) => Ok(PollOutcome::Done),
        Ok(PollOutcome::Nothing) => Err(why),
        Err(_) => Err(why),
    }
}

impl<A: Allocator + Copy> PollEnd<A> {
    /// A new poll by these terms over the carrier of this route: one that this guard protects, or without a guard one in clear. The
    /// guard's challenge is unused, and it has a counter left for each APDU that goes out, and two more.
    pub fn new(
        alloc: A,
        route: Route,
        terms: PollTerms,
        guard: Option<Box<Guard, A>>,
    ) -> Result<Self, RunFault>
        requires route { IsRoute route }
        requires after { AreSeconds terms.after terms.until }
        ensures is_new { IfOk result
            (IsNew route (terms_of terms) (option_map (λ kept. kept.value) guard)) }
        ensures can_dial { IfOk result (λ end. CanBegin is_down end.poll) }
        ensures fails { IfErr result (λ fault. fault ≡ Memory) }
    {
        match new_poll(alloc, route, terms, guard) {
            Ok(poll) => Ok(PollEnd {
                poll,
                left: MOST_BYTES,
            }),
            Err(_) => Err(RunFault::Memory),
        }
    }

    /// Whether nothing was sent yet and there is no connection: `dial` may be called.
    pub fn can_dial(&self) -> bool
        ensures { IsTrue result ↔ CanBegin is_down self.now.poll }
    {
        self.poll.can_begin()
    }

    /// Writes the poll's octets. If the security layer ended the association there are none, and its cause is returned.
    fn send<W: End>(&mut self, end: &mut W) -> Result<(), RunFault>
        ensures goes { Writes (W.past end.old) (W.past end.new) self.old.poll result }
        ensures same { self.new ≡ self.old }
    {
        match self.secured_fault() {
            Some(fault) => Err(RunFault::Insecure(fault)),
            None => send(end, self.poll.out()),
        }
    }

    /// Requests the connection, and writes the poll's octets. The caller has checked `can_dial`.
    pub fn dial<W: End>(&mut self, end: &mut W) -> Result<(), RunFault>
        requires { CanBegin is_down self.old.poll }
        ensures { Dials (W.past end.old) (W.past end.new) self.old result self.new }
    {
        self.poll.begin();
        self.send(end)
    }

    /// The fault of a poll that failed. If the meter has other columns, the last answer lists them.
    fn fault_of(&self, fault: PollFault) -> RunFault
        ensures { result ≡ told_by fault self.now.poll }
    {
        match fault {
            PollFault::Columns => RunFault::Columns(list_columns(self.poll.answer())),
            fault => RunFault::Poll(fault),
        }
    }

    /// The report of the poll's fault: the security layer's cause, if it ended the association.
    fn cause(&self, fault: PollFault) -> RunFault
        ensures { result ≡ cause (fault_of self.now.poll.carrier) fault self.now.poll }
    {
        match self.secured_fault() {
            Some(why) => RunFault::Insecure(why),
            None => self.fault_of(fault),
        }
    }

    /// Calls the poll once with octets that arrived. Returns the number of octets that it read, and the outcome.
    fn read(&mut self, octets: &[u8]) -> (usize, Result<PollOutcome, RunFault>)
        ensures len { result.0 ≤ length octets.now }
        ensures some { 0 < length octets.now → 0 < result.0 }
        ensures reads { IsOneRead self.old.poll octets.now result.0 result.1 self.new.poll }
        ensures left { self.new.left ≡ self.old.left }
    {
        let heard = self.poll.feed(octets);
        match heard.result {
            Err(fault) => (heard.count, Err(self.cause(fault))),
            Ok(outcome) => (heard.count, Ok(outcome)),
        }
    }

    /// Passes a piece to the poll, and writes the poll's octets after each call. Once the poll is done the rest of the piece is dropped.
    fn take<W: End>(&mut self, end: &mut W, bytes: &[u8]) -> Result<PollOutcome, RunFault>
        ensures piece { TakesPiece (W.past end.old)
            (W.past end.new) self.old.poll bytes.now result self.new.poll }
        ensures left { self.new.left ≡ self.old.left }
    {
        let mut rest = bytes;
        'calls: while !rest.is_empty() {
            let (count, result) = self.read(rest);
            match result {
                Ok(PollOutcome::Nothing) => {}
                Ok(PollOutcome::Done) => return Ok(PollOutcome::Done),
                Err(fault) => return Err(fault),
            }
            match self.send(end) {
                Ok(()) => {}
                Err(fault) => return Err(fault),
            }
            rest = &rest[count..];
        }
        Ok(PollOutcome::Nothing)
    }

    /// Whether this many more bytes may arrive; if so they are counted.
    fn counts(&mut self, bytes: usize) -> bool
        ensures counted { IsTrue result → (bytes ≤ self.old.left)
            × (self.new ≡ record self.old { left = self.old.left - bytes }) }
        ensures more { result ≡ false → (self.old.left < bytes) × (self.new ≡ self.old) }
    {
        match self.left.checked_sub(bytes) {
            Some(left) => {
                self.left = left;
                true
            }
            None => false,
        }
    }

    /// Passes a timeout to the poll, and writes its octets.
    fn repeat<W: End>(&mut self, end: &mut W) -> Result<PollOutcome, RunFault>
        ensures told { TakesTimeout (W.past end.old)
            (W.past end.new) self.old.poll result self.new.poll }
        ensures left { self.new.left ≡ self.old.left }
    {
        match self.poll.wait() {
            Err(fault) => Err(self.cause(fault)),
            Ok(PollOutcome::Done) => Ok(PollOutcome::Done),
            Ok(PollOutcome::Nothing) => match self.send(end) {
                Ok(()) => Ok(PollOutcome::Nothing),
                Err(fault) => Err(fault),
            },
        }
    }

    /// The line failed, which the poll takes for a timeout: one that has its rows, and only awaits the answer to its release, may be
    /// done then. Any other ends with this fault.
    fn lose(&mut self, why: RunFault) -> Result<PollOutcome, RunFault>
        ensures lost { IsLost self.old.poll why result self.new.poll }
        ensures left { self.new.left ≡ self.old.left }
    {
        let told = self.poll.wait();
        outcome_of_loss(why, told)
    }

    /// Reads the line once, and passes what arrived to the poll. More bytes than a poll may have are the fault `Protocol`.
    #[inline(never)]
    pub fn listen<S: End>(&mut self, end: &mut S) -> Result<PollOutcome, RunFault>
        ensures { Listens (S.past end.old) (S.past end.new) self.old result self.new }
    {
        let mut piece = [0u8; PIECE];
        match end.hear(&mut piece) {
            Err(error) => self.lose(RunFault::from(error)),
            Ok(Heard::Silence) => self.repeat(end),
            Ok(Heard::Bytes(count)) => {
                if !self.counts(count) {
                    return Err(RunFault::Poll(PollFault::Protocol));
                }
                self.take(end, bytes_of(&piece, count))
            }
        }
    }

    /// Polls the meter at the other end of the line. The caller has checked `can_dial`. More reads than the limit are the fault `Line`.
    pub fn poll<S: End>(&mut self, end: &mut S) -> Result<(), RunFault>
        requires { CanBegin is_down self.old.poll }
        ensures polls { PollsOver (S.past end.old) (S.past end.new) self.old result self.new }
        // A new poll that ended without a fault is done, with the rows that its answers spell.
        ensures done { (route : RouteOf) (terms : TermsValue) (guard : Option GuardValue)
            → IsNew route terms guard self.old
            → IfOk result (λ _. IsPolledOver route terms guard self.new) }
    {
        match self.dial(end) {
            Ok(()) => {}
            Err(fault) => return Err(fault),
        }
        'reads: for _read in 0..MOST_READS {
            match self.listen(end) {
                Ok(PollOutcome::Nothing) => {}
                Ok(PollOutcome::Done) => return Ok(()),
                Err(fault) => return Err(fault),
            }
        }
        Err(RunFault::Poll(PollFault::Line))
    }

    /// The rows that were polled; none before they are there.
    pub fn rows(&self) -> &[Row]
        ensures rows { result.now ≡ self.now.poll.talk.rows }
        ensures readings { AreReadings result.now }
    {
        self.poll.rows()
    }

    /// Why the security layer ended the association; none if it did not, or without a guard.
    pub fn secured_fault(&self) -> Option<SecuredFault>
        ensures { result ≡ fault_of self.now.poll.carrier }
    {
        self.poll.carrier().fault()
    }

    /// The counter of the meter that the guard accepted last, to be stored; none without a guard.
    pub fn last_accepted(&self) -> Option<u32>
        ensures { result ≡ accepted_by self.now.poll.carrier.guard }
    {
        match self.poll.carrier().guard() {
            Some(guard) => guard.last_accepted(),
            None => None,
        }
    }

    /// The meter's system title, to be stored; none before the meter sent it, or without a guard.
    pub fn peer(&self) -> Option<[u8; 8]>
        ensures { result ≡ peer_of self.now.poll.carrier.guard }
    {
        match self.poll.carrier().guard() {
            Some(guard) => guard.peer(),
            None => None,
        }
    }
}
