//! A carrier that protects the APDUs of an association.

ghost use Rattle.std.specs.Prelude.{◌≡◌, ◌<◌, ◌≤◌, ◌↔◌, length, IfOk, IsTrue, Some, None, option_map};
ghost use Rattle.dlms_wrapper.specs.declared.message.TheConstants.{MOST_APDU};
ghost use Rattle.dlms_carrier.specs.Carrying.{Begin, Give, Feed, Wait, End};
ghost use Rattle.dlms_carrier.specs.declared.event.Event.TheVariants.{Apdu as ApduCame, Up};
ghost use Rattle.dlms_secured.specs.Guard.{fault_of, extended, renewed, IsShort};
ghost use Rattle.dlms_secured.specs.GuardView.{taken_of, taken_result};
ghost use Rattle.dlms_secured.specs.Steps.{at, quiet, GuardedSteps, Follows, TakesOver, Comes, IsReady, fault_with};

use crate::fault::SecuredFault;
use crate::guard::Guard;
use crate::taken::Taken;
use dlms_carrier::{Carrier, Event, Fed};
use std::marker::Model;

/// A carrier that protects the APDUs of an association if it has a guard, and passes them on unchanged if it has none.
///
/// With a guard the association above it sends and receives APDUs in clear, and each APDU that is sent is protected. The caller sets a new
/// challenge by `renew` of the guard before each association but the first. After the event `Insecure` the connection is over, and
/// the caller closes it; `fault` is the cause.
#[derive(Drop)]
pub struct Secured<C: Carrier + Drop> {
    carrier: C,
    guard: Option<Guard>,
}

impl<C: Carrier + Drop> Model for Secured<C> {
    ghost use Rattle.dlms_secured.specs.Steps.{SecuredValue};

    ghost Value = { SecuredValue C };

    ghost view = { λ s. record { carrier = s.carrier; guard = s.guard } };
}

/// The event of a call that hands no APDU up.
fn quiet(event: Event) -> Event
    ensures { result ≡ quiet event }
{
    match event {
        Event::Apdu => Event::Nothing,
        _ => event,
    }
}

/// Requests a connection, if the challenge is unused.
#[inline(never)]
fn begin<C: Carrier + Drop>(carrier: &mut C, guard: &mut Guard) -> Event
    requires { C.is_down carrier.old }
    ensures steps { GuardedSteps C.steps C.apdu_of (at carrier.old guard.old) Begin result
        (at carrier.new guard.new) }
    ensures up { result ≡ Up → C.is_idle carrier.new }
    ensures ready { result ≡ Up → IsReady guard.new.stage }
{
    if guard.begin() {
        quiet(carrier.begin())
    } else {
        Event::Insecure
    }
}

/// Sends the message for an APDU.
#[inline(never)]
fn give<C: Carrier + Drop>(carrier: &mut C, guard: &mut Guard, apdu: &[u8]) -> Event
    requires { C.is_idle carrier.old }
    ensures { GuardedSteps C.steps C.apdu_of (at carrier.old guard.old) (Give apdu.now) result
        (at carrier.new guard.new) }
{
    match guard.give(apdu) {
        Ok(message) => quiet(carrier.give(message.as_slice())),
        Err(_) => Event::Insecure,
    }
}

/// What follows after the guard took an APDU.
#[inline(never)]
fn follow<C: Carrier + Drop>(
    carrier: &mut C,
    guard: &Guard,
    taken: Result<Taken, SecuredFault>,
) -> Event
    requires idle { C.is_idle carrier.old }
    requires short { IfOk taken (λ t. IsShort (taken_of t)) }
    ensures { Follows C.steps (taken_result taken) (at carrier.old guard.now) result
        (at carrier.new guard.now) }
{
    match taken {
        Ok(Taken::Hand) => Event::Apdu,
        Ok(Taken::Send(message)) => {
            let _event = carrier.give(message.as_slice());
            Event::Nothing
        }
        Err(_) => Event::Insecure,
    }
}

/// Takes the APDU that the carrier handed up.
#[inline(never)]
fn take<C: Carrier + Drop>(carrier: &mut C, guard: &mut Guard) -> Event
    requires { C.is_idle carrier.old }
    ensures { TakesOver C.steps (C.apdu_of carrier.old) (at carrier.old guard.old) result
        (at carrier.new guard.new) }
{
    let taken = guard.take(carrier.apdu());
    follow(carrier, guard, taken)
}

/// What follows after the carrier's event.
fn come<C: Carrier + Drop>(carrier: &mut C, guard: &mut Guard, event: Event) -> Event
    requires { event ≡ ApduCame → C.is_idle carrier.old }
    ensures comes { Comes C.steps event (C.apdu_of carrier.old) (at carrier.old guard.old) result
        (at carrier.new guard.new) }
    ensures up { result ≡ Up → IsReady guard.new.stage }
    ensures same { result ≡ Up → event ≡ Up }
    ensures carrier { result ≡ Up → carrier.new ≡ carrier.old }
{
    match event {
        Event::Apdu => take(carrier, guard),
        _ => {
            guard.heed(event);
            event
        }
    }
}

/// Reads octets that arrived. After a fault they are dropped.
fn feed<C: Carrier + Drop>(carrier: &mut C, guard: &mut Guard, octets: &[u8]) -> Fed
    ensures len { result.count ≤ length octets.now }
    ensures some { 0 < length octets.now → 0 < result.count }
    ensures steps { GuardedSteps C.steps C.apdu_of (at carrier.old guard.old)
        (Feed octets.now result.count) result.event (at carrier.new guard.new) }
    ensures up { result.event ≡ Up → C.is_idle carrier.new }
    ensures ready { result.event ≡ Up → IsReady guard.new.stage }
{
    match guard.fault() {
        Some(_) => Fed {
            count: octets.len(),
            event: Event::Insecure,
        },
        None => {
            let fed = carrier.feed(octets);
            Fed {
                count: fed.count,
                event: come(carrier, guard, fed.event),
            }
        }
    }
}

/// Waits once more, or reports the timeout.
fn wait<C: Carrier + Drop>(carrier: &mut C, guard: &mut Guard) -> Event
    requires { C.is_waiting carrier.old }
    ensures { GuardedSteps C.steps C.apdu_of (at carrier.old guard.old) Wait result
        (at carrier.new guard.new) }
{
    let event = carrier.wait();
    guard.heed(event);
    quiet(event)
}

/// Requests the connection's end.
fn end<C: Carrier + Drop>(carrier: &mut C, guard: &mut Guard) -> Event
    requires { C.is_idle carrier.old }
    ensures { GuardedSteps C.steps C.apdu_of (at carrier.old guard.old) End result
        (at carrier.new guard.new) }
{
    let event = carrier.end();
    guard.heed(event);
    quiet(event)
}

impl<C: Carrier + Drop> Secured<C> {
    /// A carrier over this one, with a guard or without one.
    pub fn new(carrier: C, guard: Option<Guard>) -> Self
        ensures { result ≡ record { carrier = carrier; guard = guard } }
    {
        Secured { carrier, guard }
    }

    /// The guard, if there is one.
    pub fn guard(&self) -> Option<&Guard>
        ensures { option_map (λ g. g.now) result ≡ self.now.guard }
    {
        self.guard.as_ref()
    }

    /// Why the association is over, if the security layer ended it.
    pub fn fault(&self) -> Option<SecuredFault>
        ensures { result ≡ fault_with self.now.guard }
    {
        match &self.guard {
            Some(guard) => guard.fault(),
            None => None,
        }
    }

    /// Sets the challenge of the next association, of 8 to 64 octets that nobody can guess, and its dedicated key, if there is one.
    /// Without a guard it does nothing.
    pub fn renew(&mut self, challenge: &[u8], dedicated: Option<[u8; 16]>)
        requires least { 8 ≤ length challenge.now }
        requires most { length challenge.now ≤ 64 }
        ensures { self.new ≡ record self.old {
          guard = option_map
              (λ g. renewed g challenge.now dedicated) self.old.guard;
        } }
    {
        if let Some(guard) = &mut self.guard {
            guard.renew(challenge, dedicated);
        }
    }

    /// Allows the use of all own counters below `reserved`. The caller has stored this number, and no power failure takes it back.
    /// Without a guard it does nothing.
    pub fn extend_reservation(&mut self, reserved: u32)
        ensures { self.new ≡ record self.old {
          guard = option_map
              (λ g. extended g reserved) self.old.guard;
        } }
    {
        if let Some(guard) = &mut self.guard {
            guard.extend_reservation(reserved);
        }
    }
}

impl<C: Carrier + Drop> Carrier for Secured<C> {
    ghost use Rattle.dlms_secured.specs.Steps.{Steps, out_of, apdu_of, IsIdle, IsWaiting};
    ghost use Rattle.dlms_secured.specs.StepLaws.{awaited, settled};

    ghost steps = { Steps C.steps C.apdu_of };

    ghost out_of = { out_of C.out_of };

    ghost apdu_of = { apdu_of C.apdu_of };

    ghost is_down = { λ s. C.is_down s.carrier };

    ghost is_idle = { IsIdle C.is_idle };

    ghost is_waiting = { IsWaiting C.is_waiting };

    ghost awaited = { awaited C.steps C.apdu_of C.is_waiting C.awaited };

    ghost settled = { settled C.steps C.apdu_of C.is_idle C.settled };

    fn is_down(&self) -> bool {
        self.carrier.is_down()
    }

    fn is_idle(&self) -> bool {
        let ready = match &self.guard {
            Some(guard) => guard.is_ready(),
            None => true,
        };
        ready && self.carrier.is_idle()
    }

    fn is_waiting(&self) -> bool {
        self.fault().is_none() && self.carrier.is_waiting()
    }

    fn begin(&mut self) -> Event {
        match &mut self.guard {
            Some(guard) => begin(&mut self.carrier, guard),
            None => self.carrier.begin(),
        }
    }

    fn give(&mut self, apdu: &[u8]) -> Event {
        match &mut self.guard {
            Some(guard) => give(&mut self.carrier, guard, apdu),
            None => self.carrier.give(apdu),
        }
    }

    fn feed(&mut self, octets: &[u8]) -> Fed {
        match &mut self.guard {
            Some(guard) => feed(&mut self.carrier, guard, octets),
            None => self.carrier.feed(octets),
        }
    }

    fn wait(&mut self) -> Event {
        match &mut self.guard {
            Some(guard) => wait(&mut self.carrier, guard),
            None => self.carrier.wait(),
        }
    }

    fn end(&mut self) -> Event {
        match &mut self.guard {
            Some(guard) => end(&mut self.carrier, guard),
            None => self.carrier.end(),
        }
    }

    fn out(&self) -> &[u8] {
        match self.fault() {
            Some(_) => &[],
            None => self.carrier.out(),
        }
    }

    fn apdu(&self) -> &[u8] {
        match &self.guard {
            Some(guard) => guard.handed(),
            None => self.carrier.apdu(),
        }
    }
}
