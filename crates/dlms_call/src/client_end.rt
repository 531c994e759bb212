//! A client at its end of a line: it reads what arrives, and its octets are written.

ghost use Rattle.std.specs.Prelude.{◌≡◌, ◌-◌, ◌<◌, ◌≤◌, ◌↔◌, IfErr, IfOk, IsTrue, None, Ok, Some, false, length, option_map};
ghost use Rattle.dlms_apdu.specs.Forms.{action_normal, get_normal, set_normal};
ghost use Rattle.dlms_apdu.specs.View.{selection_of};
ghost use Rattle.dlms_apdu.specs.Writing.{ParameterFits};
ghost use Rattle.dlms_association.specs.declared.requests.TheConstants.{INVOKE};
ghost use Rattle.dlms_association.specs.declared.stage.Asked.TheVariants.{Action, Get, Set};
ghost use Rattle.dlms_carrier.specs.Any.{AnyValue, IsFresh};
ghost use Rattle.dlms_call.specs.Carried.{Steps, accepted_by, fault_of, is_down, peer_of};
ghost use Rattle.dlms_client.specs.Calls.{Asks, Begins, CanBegin, Leaves, fresh};
ghost use Rattle.dlms_data.specs.View.{value_of};
ghost use Rattle.dlms_data.specs.Writing.{Fits};
ghost use Rattle.dlms_client.specs.Plan.{IsPlan, plan_of, terms_in};
ghost use Rattle.dlms_call.specs.Asking.{IsFree, IsNew};
ghost use Rattle.dlms_call.specs.declared.fault.CallFault.TheVariants.{Memory};
ghost use Rattle.dlms_call.specs.Talking.{Goes, IsOneRead, Listens, Settles, TakesPiece, TakesTimeout, TellsError, Writes, cause, later};

use crate::fault::CallFault;
use crate::watch::Watch;
use dlms_association::Terms;
use dlms_carrier::AnyCarrier;
use dlms_client::{AskFault, Client, Fault, Granted, Outcome, Plan};
use dlms_data::{Data, Descriptor, Selector};
use dlms_ends::{End, Heard, PIECE, bytes_of};
use dlms_secured::{Guard, Secured, SecuredFault};
use std::alloc::{AllocError, Allocator, Global};
use std::io;
use std::io::ErrorKind;
use std::marker::Model;

/// The most bytes that may come in one talk.
pub const MOST_BYTES: usize = 16_777_216;

/// The most reads of the line until an outcome.
const READS: u32 = 16_777_216;

/// A client at its end of a line, on the heap, and how many bytes may still come.
#[derive(Drop)]
pub struct ClientEnd<A: Allocator = Global> {
    client: Box<Client<Secured<AnyCarrier<A>>, A>, A>,
    left: usize,
}

impl<A: Allocator> Model for ClientEnd<A> {
    ghost use Rattle.dlms_call.specs.Talking.{TalkValue};

    ghost Value = { TalkValue };

    ghost view = { λ head. record { client = head.client.value; left = head.left } };
}

/// The fault of an error of the system: `Memory` if an allocation failed, otherwise `Io`.
fn of_system(error: &io::Error) -> CallFault
    ensures { TellsError error.now result }
{
    if error.kind() == ErrorKind::OutOfMemory {
        CallFault::Memory
    } else {
        CallFault::Io
    }
}

/// Octets go out, if there are any.
fn send<W: End>(end: &mut W, octets: &[u8]) -> Result<(), CallFault>
    ensures { Goes (W.past end.old) (W.past end.new) octets.now result }
{
    if octets.is_empty() {
        return Ok(());
    }
    match end.put(octets) {
        Ok(()) => Ok(()),
        Err(error) => Err(of_system(&error)),
    }
}

/// The second outcome, or the first if the second is none.
fn later(first: Outcome, second: Outcome) -> Outcome
    ensures { result ≡ later first second }
{
    match second {
        Outcome::Nothing => first,
        second => second,
    }
}

/// The guard that is in this box.
fn taken_out<A: Allocator>(guard: Option<Box<Guard, A>>) -> Option<Guard>
    ensures { result ≡ option_map (λ kept. kept.value) guard }
{
    match guard {
        Some(kept) => Some(Box::into_inner(kept)),
        None => None,
    }
}

/// A client by this plan. It is made in a function of its own, so that no other call has it or its guard on the stack.
#[inline(never)]
fn new_client<A: Allocator + Copy>(
    alloc: A,
    plan: Plan,
    guard: Option<Box<Guard, A>>,
) -> Result<Box<Client<Secured<AnyCarrier<A>>, A>, A>, AllocError>
    requires { IsPlan (plan_of plan) }
    ensures { IfOk result (λ made. (carrier : AnyValue) × IsFresh (plan_of plan).route carrier
        × (made.value ≡ fresh
        (record { carrier = carrier; guard = option_map (λ kept. kept.value) guard })
        (terms_in (plan_of plan)))) }
{
    let carrier = AnyCarrier::new(alloc, plan.route)?;
    let carrier = Secured::new(carrier, taken_out(guard));
    let terms = Terms {
        secret: plan.secret,
        size: plan.size,
    };
    let client = Box::new(alloc, Client::new(alloc, carrier, terms))?;
    Ok(client)
}

impl<A: Allocator + Copy> ClientEnd<A> {
    /// A client by this plan with this guard, or with none, to which nothing has come.
    pub(crate) fn new(alloc: A, plan: Plan, guard: Option<Box<Guard, A>>) -> Result<Self, CallFault>
        requires { IsPlan (plan_of plan) }
        ensures is_new { IfOk result
            (IsNew (plan_of plan) (option_map (λ kept. kept.value) guard)) }
        ensures fails { IfErr result (λ fault. fault ≡ Memory) }
    {
        match new_client(alloc, plan, guard) {
            Ok(client) => Ok(ClientEnd {
                client,
                left: MOST_BYTES,
            }),
            Err(_) => Err(CallFault::Memory),
        }
    }

    /// The client's octets are written. If the security layer ended the association there are none, and its cause is returned.
    pub(crate) fn send<W: End>(&mut self, end: &mut W) -> Result<(), CallFault>
        ensures goes { Writes (W.past end.old) (W.past end.new) self.old.client result }
        ensures same { self.new ≡ self.old }
    {
        match self.secured_fault() {
            Some(fault) => Err(CallFault::Insecure(fault)),
            None => send(end, self.client.out()),
        }
    }

    /// The report of the client's fault.
    fn cause(&self, fault: Fault) -> CallFault
        ensures { result ≡ cause (fault_of self.now.client.carrier) fault }
    {
        match self.secured_fault() {
            Some(why) => CallFault::Insecure(why),
            None => CallFault::Talk(fault),
        }
    }

    /// One call of the client with octets that arrived: how many it read, and its outcome. More octets of a value than `most` are
    /// the fault `TooLarge`.
    fn read(&mut self, octets: &[u8], most: usize) -> (usize, Result<Outcome, CallFault>)
        ensures len { result.0 ≤ length octets.now }
        ensures some { 0 < length octets.now → 0 < result.0 }
        ensures reads { IsOneRead most self.old.client octets.now result.0 result.1
            self.new.client }
        ensures left { self.new.left ≡ self.old.left }
    {
        let heard = self.client.feed(octets);
        match heard.result {
            Err(fault) => (heard.count, Err(self.cause(fault))),
            Ok(_) if self.client.value().len() > most => (heard.count, Err(CallFault::TooLarge)),
            Ok(outcome) => (heard.count, Ok(outcome)),
        }
    }

    /// The client reads a piece, and its octets are written after each call. The outcome is the last one of these calls.
    fn take<W: End>(&mut self, end: &mut W, bytes: &[u8], most: usize) -> Result<Outcome, CallFault>
        ensures piece { TakesPiece most (W.past end.old)
            (W.past end.new) self.old.client bytes.now result self.new.client }
        ensures left { self.new.left ≡ self.old.left }
    {
        let mut rest = bytes;
        let mut last = Outcome::Nothing;
        'calls: while !rest.is_empty() {
            let (count, result) = self.read(rest, most);
            let outcome = match result {
                Ok(outcome) => outcome,
                Err(fault) => return Err(fault),
            };
            match self.send(end) {
                Ok(()) => {}
                Err(fault) => return Err(fault),
            }
            last = later(last, outcome);
            rest = &rest[count..];
        }
        Ok(last)
    }

    /// Whether this many more bytes may arrive; if so they are counted.
    fn counts(&mut self, bytes: usize) -> bool
        ensures counted { IsTrue result → (bytes ≤ self.old.left)
            × (self.new ≡ record self.old { left = self.old.left - bytes }) }
        ensures more { result ≡ false → (self.old.left < bytes) × (self.new ≡ self.old) }
    {
        match self.left.checked_sub(bytes) {
            Some(left) => {
                self.left = left;
                true
            }
            None => false,
        }
    }

    /// Nothing came in time: the client handles the timeout, and its octets are written.
    fn repeat<W: End>(&mut self, end: &mut W) -> Result<Outcome, CallFault>
        ensures told { TakesTimeout (W.past end.old)
            (W.past end.new) self.old.client result self.new.client }
        ensures left { self.new.left ≡ self.old.left }
    {
        match self.client.wait() {
            Err(fault) => Err(self.cause(fault)),
            Ok(outcome) => match self.send(end) {
                Ok(()) => Ok(outcome),
                Err(fault) => Err(fault),
            },
        }
    }

    /// Reads the line once.
    fn listen<S: End>(
        &mut self,
        end: &mut S,
        piece: &mut [u8; PIECE],
        most: usize,
    ) -> Result<Outcome, CallFault>
        ensures { Listens most (S.past end.old) (S.past end.new) self.old result self.new }
    {
        match end.hear(piece) {
            Err(error) => Err(of_system(&error)),
            Ok(Heard::Silence) => self.repeat(end),
            Ok(Heard::Bytes(count)) => {
                if !self.counts(count) {
                    return Err(CallFault::Talk(Fault::Form));
                }
                self.take(end, bytes_of(piece, count), most)
            }
        }
    }

    /// Reads the line once, and shows what has come of the value.
    fn listen_watched<S: End, V: Watch>(
        &mut self,
        end: &mut S,
        piece: &mut [u8; PIECE],
        most: usize,
        watch: &mut V,
    ) -> Result<Outcome, CallFault>
        ensures { Listens most (S.past end.old) (S.past end.new) self.old result self.new }
    {
        let told = self.listen(end, piece, most);
        watch.look(self.value());
        told
    }

    /// Reads the line until an outcome for the caller, and shows after each read what has come of the value. More octets of a value
    /// than `most` are the fault `TooLarge`, and no request for more of it goes out.
    pub(crate) fn settle<S: End, V: Watch>(
        &mut self,
        end: &mut S,
        most: usize,
        watch: &mut V,
    ) -> Result<Outcome, CallFault>
        ensures { Settles most (S.past end.old) (S.past end.new) self.old result self.new }
    {
        let mut piece = [0u8; PIECE];
        'reads: for _read in 0..READS {
            match self.listen_watched(end, &mut piece, most, watch) {
                Ok(Outcome::Nothing) => {}
                Ok(Outcome::Associated) => return Ok(Outcome::Associated),
                Ok(Outcome::Answered(answer)) => return Ok(Outcome::Answered(answer)),
                Ok(Outcome::Down) => return Ok(Outcome::Down),
                Err(fault) => return Err(fault),
            }
        }
        Err(CallFault::Talk(Fault::Line))
    }

    /// Whether a request may be made.
    pub fn is_free(&self) -> bool
        ensures { IsTrue result ↔ IsFree self.now }
    {
        self.client.is_free()
    }

    /// The client requests its connection. The caller has checked that it can.
    pub(crate) fn begin(&mut self)
        requires { CanBegin is_down self.old.client }
        ensures begins { Begins Steps self.old.client self.new.client }
        ensures left { self.new.left ≡ self.old.left }
    {
        self.client.begin();
    }

    /// The client requests an attribute.
    pub(crate) fn get(&mut self, attribute: Descriptor) -> Result<(), AskFault>
        requires { IsFree self.old }
        ensures asks { Asks Steps Get (get_normal INVOKE attribute None) self.old.client result
            self.new.client }
        ensures left { self.new.left ≡ self.old.left }
    {
        self.client.get::<A>(attribute, None)
    }

    /// The client requests a part of an attribute.
    pub(crate) fn get_part(
        &mut self,
        attribute: Descriptor,
        selector: Selector<A>,
    ) -> Result<(), AskFault>
        requires free { IsFree self.old }
        requires fits { Fits (value_of selector.value) }
        ensures asks { Asks Steps Get (get_normal INVOKE attribute (Some (selection_of selector)))
            self.old.client result self.new.client }
        ensures left { self.new.left ≡ self.old.left }
    {
        self.client.get::<A>(attribute, Some(selector))
    }

    /// The client sets an attribute.
    pub(crate) fn set(&mut self, attribute: Descriptor, value: Data<A>) -> Result<(), AskFault>
        requires free { IsFree self.old }
        requires fits { Fits (value_of value) }
        ensures asks { Asks Steps Set (set_normal INVOKE attribute None (value_of value))
            self.old.client result self.new.client }
        ensures left { self.new.left ≡ self.old.left }
    {
        self.client.set::<A>(attribute, None, value)
    }

    /// The client calls a method.
    pub(crate) fn act(
        &mut self,
        method: Descriptor,
        parameter: Option<Data<A>>,
    ) -> Result<(), AskFault>
        requires free { IsFree self.old }
        requires fits { ParameterFits (option_map value_of parameter) }
        ensures asks { Asks Steps Action
            (action_normal INVOKE method (option_map value_of parameter)) self.old.client result
            self.new.client }
        ensures left { self.new.left ≡ self.old.left }
    {
        self.client.act(method, parameter)
    }

    /// The client requests the connection's end.
    pub(crate) fn disconnect(&mut self) -> Outcome
        requires { IsFree self.old }
        ensures leaves { Leaves Steps self.old.client (Ok result) self.new.client }
        ensures left { self.new.left ≡ self.old.left }
    {
        self.client.disconnect()
    }

    /// The encoding of the last GET's value, as far as it was joined: all of it once the answer was returned.
    pub fn value(&self) -> &[u8]
        ensures { result.now ≡ self.now.client.association.blocks.joined }
    {
        self.client.value()
    }

    /// Why the security layer ended the association; none if it did not, or if there is no guard.
    pub fn secured_fault(&self) -> Option<SecuredFault>
        ensures { result ≡ fault_of self.now.client.carrier }
    {
        self.client.carrier().fault()
    }

    /// The counter of the meter that the guard accepted last, to be stored; none without a guard.
    pub fn last_accepted(&self) -> Option<u32>
        ensures { result ≡ accepted_by self.now.client.carrier.guard }
    {
        match self.client.carrier().guard() {
            Some(guard) => guard.last_accepted(),
            None => None,
        }
    }

    /// The meter's system title, to be stored; none before the meter sent it, or without a guard.
    pub fn peer(&self) -> Option<[u8; 8]>
        ensures { result ≡ peer_of self.now.client.carrier.guard }
    {
        match self.client.carrier().guard() {
            Some(guard) => guard.peer(),
            None => None,
        }
    }

    /// The services and size that the meter granted.
    pub fn granted(&self) -> Granted
        ensures { result ≡ self.now.client.association.granted }
    {
        self.client.granted()
    }
}
