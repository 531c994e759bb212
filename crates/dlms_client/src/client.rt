//! A client: an association, and the carrier of its APDUs.

ghost use Rattle.std.specs.Prelude.{◌≡◌, ◌<◌, ◌≤◌, ◌↔◌, IsTrue, Ok, length, option_map};
ghost use Rattle.dlms_apdu.specs.Forms.{get_normal, set_normal, action_normal};
ghost use Rattle.dlms_apdu.specs.View.{selection_of};
ghost use Rattle.dlms_apdu.specs.Writing.{SelectorFits, ParameterFits};
ghost use Rattle.dlms_data.specs.View.{value_of};
ghost use Rattle.dlms_data.specs.Writing.{Fits};
ghost use Rattle.dlms_association.specs.Terms.{IsTerms, terms_of};
ghost use Rattle.dlms_association.specs.declared.requests.TheConstants.{INVOKE};
ghost use Rattle.dlms_association.specs.declared.stage.Asked.TheVariants.{Get, Set, Action};
ghost use Rattle.dlms_carrier.specs.declared.event.Event.TheVariants.{Apdu as ApduCame, Up};
ghost use Rattle.dlms_association.specs.Calls.{IsClosed};
ghost use Rattle.dlms_client.specs.Calls.{fresh, CanBegin, Begins, Feeds, ComesBy, ComesUp, OpensOver, TakesOver, GoesDown, BreaksOver, ClosesOver, Follows, Sends, Leaves, Waits, TimesOut, IsFree, Carries, Asks, Releases};

use crate::outcome::{Heard, Outcome};
use dlms_association::{Apdu, AskFault, Association, Fault, Granted, Step, Terms};
use dlms_carrier::{Carrier, Event};
use dlms_data::{Data, Descriptor, Selector};
use std::alloc::{Allocator, Global};
use std::marker::Model;

/// One association with a meter, over a carrier of its APDUs. After each call the caller writes `out`.
#[derive(Drop)]
pub struct Client<C: Carrier + Drop, A: Allocator = Global> {
    carrier: C,
    association: Association<A>,
    leaving: bool,
}

impl<C: Carrier + Drop, A: Allocator> Model for Client<C, A> {
    ghost use Rattle.dlms_client.specs.ClientValue.{ClientValue};

    ghost Value = { ClientValue C };

    ghost view = { λ c. record { carrier = c.carrier; association = c.association; leaving = c.leaving } };
}

impl<C: Carrier + Drop, A: Allocator + Copy> Client<C, A> {
    /// A client over this carrier, whose association proposes these terms. It allocates nothing.
    pub fn new(alloc: A, carrier: C, terms: Terms) -> Self
        requires { IsTerms (terms_of terms) }
        ensures { result ≡ fresh carrier (terms_of terms) }
    {
        Client {
            carrier,
            association: Association::new(alloc, terms),
            leaving: false,
        }
    }

    /// Whether there is no connection and the association is closed: `begin` may be called.
    pub fn can_begin(&self) -> bool
        ensures { IsTrue result ↔ CanBegin C.is_down self.now }
    {
        self.association.is_closed() && self.carrier.is_down()
    }

    /// Requests a connection. Once it is up, here or in a call of `feed`, the association is requested. The caller has checked
    /// `can_begin`.
    pub fn begin(&mut self)
        requires { CanBegin C.is_down self.old }
        ensures { Begins C.steps self.old self.new }
    {
        match self.carrier.begin() {
            Event::Up => self.open(),
            _ => {}
        }
    }

    /// Reads octets that arrived, up to the first that have an outcome or give something to write; the caller passes the others to
    /// the next call. After a fault it returns the same fault again, and drops the octets.
    pub fn feed(&mut self, octets: &[u8]) -> Heard
        ensures len { result.count ≤ length octets.now }
        ensures some { 0 < length octets.now → 0 < result.count }
        ensures feeds { Feeds C.steps C.apdu_of self.old octets.now result.count result.result self.new }
    {
        match self.association.fault() {
            Some(fault) => Heard {
                count: octets.len(),
                result: Err(fault),
            },
            None => {
                let fed = self.carrier.feed(octets);
                Heard {
                    count: fed.count,
                    result: self.handle(fed.event),
                }
            }
        }
    }

    /// Handles a timeout: no octet arrived in time. The carrier sends its octets again, or the association is over. While nothing is
    /// awaited it returns the fault `Line` and changes nothing; after a fault it returns the same fault again.
    pub fn wait(&mut self) -> Result<Outcome, Fault>
        ensures { Waits C.steps C.is_waiting self.old result self.new }
    {
        match self.association.fault() {
            Some(fault) => Err(fault),
            None => {
                if !self.carrier.is_waiting() {
                    return Err(Fault::Line);
                }
                self.repeat()
            }
        }
    }

    /// A timeout while the meter's answer is awaited.
    fn repeat(&mut self) -> Result<Outcome, Fault>
        requires { C.is_waiting self.old.carrier }
        ensures { TimesOut C.steps self.old result self.new }
    {
        match self.carrier.wait() {
            Event::TimedOut => self.fail(Fault::Line),
            _ => Ok(Outcome::Nothing),
        }
    }

    /// Handles an event of the carrier.
    fn handle(&mut self, event: Event) -> Result<Outcome, Fault>
        requires up { event ≡ Up → C.is_idle self.old.carrier }
        requires apdu { event ≡ ApduCame → C.is_idle self.old.carrier }
        ensures { ComesBy C.steps event (C.apdu_of self.old.carrier) self.old result self.new }
    {
        match event {
            Event::Nothing => Ok(Outcome::Nothing),
            Event::Up => self.up(),
            Event::Apdu => self.take(),
            Event::Down => self.down(),
            Event::TimedOut => self.fail(Fault::Line),
            Event::Refused(_) => self.fail(Fault::Form),
            Event::Insecure => self.fail(Fault::Insecure),
        }
    }

    /// The connection came up.
    fn up(&mut self) -> Result<Outcome, Fault>
        requires { C.is_idle self.old.carrier }
        ensures { ComesUp C.steps self.old result self.new }
    {
        if self.association.is_closed() {
            self.open();
            Ok(Outcome::Nothing)
        } else {
            self.fail(Fault::Form)
        }
    }

    /// Requests the association.
    fn open(&mut self)
        requires idle { C.is_idle self.old.carrier }
        requires closed { IsClosed self.old.association }
        ensures { OpensOver C.steps self.old self.new }
    {
        let request = self.association.open();
        self.send(&request);
    }

    /// Gives an APDU to the carrier.
    fn send(&mut self, apdu: &Apdu)
        requires { C.is_idle self.old.carrier }
        ensures { Sends C.steps self.old apdu.now self.new }
    {
        let _event = self.carrier.give(apdu.as_slice());
    }

    /// Ends the association for good.
    fn fail(&mut self, fault: Fault) -> Result<Outcome, Fault>
        ensures { BreaksOver self.old fault result self.new }
    {
        self.association.end(fault);
        Err(fault)
    }

    /// Handles the APDU that the carrier handed up.
    fn take(&mut self) -> Result<Outcome, Fault>
        requires { C.is_idle self.old.carrier }
        ensures { TakesOver C.steps self.old (C.apdu_of self.old.carrier) result self.new }
    {
        let made = self.association.take(self.carrier.apdu());
        self.follow(made)
    }

    /// What the client does after the association's step.
    fn follow(&mut self, made: Result<Step, Fault>) -> Result<Outcome, Fault>
        requires { C.is_idle self.old.carrier }
        ensures { Follows C.steps made self.old result self.new }
    {
        match made {
            Ok(Step::Nothing) => Ok(Outcome::Nothing),
            Ok(Step::Send(apdu)) => {
                self.send(&apdu);
                Ok(Outcome::Nothing)
            }
            Ok(Step::Associated) => Ok(Outcome::Associated),
            Ok(Step::Answered(answer)) => Ok(Outcome::Answered(answer)),
            Ok(Step::Released) => Ok(self.leave()),
            Err(fault) => Err(fault),
        }
    }

    /// Requests the connection's end.
    fn leave(&mut self) -> Outcome
        requires { C.is_idle self.old.carrier }
        ensures { Leaves C.steps self.old (Ok result) self.new }
    {
        self.leaving = true;
        match self.carrier.end() {
            Event::Down => self.close(),
            _ => Outcome::Nothing,
        }
    }

    /// The connection ended as requested.
    fn close(&mut self) -> Outcome
        ensures { ClosesOver self.old (Ok result) self.new }
    {
        self.association.close();
        self.leaving = false;
        Outcome::Down
    }

    /// The connection went down.
    fn down(&mut self) -> Result<Outcome, Fault>
        ensures { GoesDown self.old.leaving self.old result self.new }
    {
        if self.leaving {
            Ok(self.close())
        } else {
            self.fail(Fault::Down)
        }
    }

    /// Whether a request may be made: `get`, `set`, `act`, `release` and `disconnect` may be called.
    pub fn is_free(&self) -> bool
        ensures { IsTrue result ↔ IsFree C.is_idle self.now }
    {
        self.association.is_free() && self.carrier.is_idle()
    }

    /// Sends the association's APDU, or returns its fault.
    fn carry(&mut self, given: Result<Apdu, AskFault>) -> Result<(), AskFault>
        requires { C.is_idle self.old.carrier }
        ensures { Carries C.steps given self.old result self.new }
    {
        match given {
            Ok(apdu) => {
                self.send(&apdu);
                Ok(())
            }
            Err(fault) => Err(fault),
        }
    }

    /// Requests an attribute, or a part of it (Blue Book, selective access).
    pub fn get<B: Allocator>(
        &mut self,
        descriptor: Descriptor,
        selector: Option<Selector<B>>,
    ) -> Result<(), AskFault>
        requires free { IsFree C.is_idle self.old }
        requires fits { SelectorFits (option_map selection_of selector) }
        ensures { Asks C.steps Get (get_normal INVOKE descriptor
            (option_map selection_of selector)) self.old result self.new }
    {
        let given = self.association.get(descriptor, selector);
        self.carry(given)
    }

    /// Sets an attribute.
    pub fn set<B: Allocator>(
        &mut self,
        descriptor: Descriptor,
        selector: Option<Selector<B>>,
        value: Data<B>,
    ) -> Result<(), AskFault>
        requires free { IsFree C.is_idle self.old }
        requires selector { SelectorFits (option_map selection_of selector) }
        requires value { Fits (value_of value) }
        ensures { Asks C.steps Set (set_normal INVOKE descriptor (option_map selection_of selector)
            (value_of value)) self.old result self.new }
    {
        let given = self.association.set(descriptor, selector, value);
        self.carry(given)
    }

    /// Calls a method.
    pub fn act<B: Allocator>(
        &mut self,
        descriptor: Descriptor,
        parameter: Option<Data<B>>,
    ) -> Result<(), AskFault>
        requires free { IsFree C.is_idle self.old }
        requires fits { ParameterFits (option_map value_of parameter) }
        ensures { Asks C.steps Action (action_normal INVOKE descriptor
            (option_map value_of parameter)) self.old result self.new }
    {
        let given = self.association.act(descriptor, parameter);
        self.carry(given)
    }

    /// Releases the association; the connection's end is requested once the meter has answered.
    pub fn release(&mut self)
        requires { IsFree C.is_idle self.old }
        ensures { Releases C.steps self.old self.new }
    {
        let request = self.association.release();
        self.send(&request);
    }

    /// Requests the end of the connection and of the association. It returns `Down` if the connection ends at once, and otherwise
    /// `Nothing`.
    pub fn disconnect(&mut self) -> Outcome
        requires { IsFree C.is_idle self.old }
        ensures { Leaves C.steps self.old (Ok result) self.new }
    {
        self.leave()
    }

    /// The octets to write after the last call, if there are any.
    pub fn out(&self) -> &[u8]
        ensures { result.now ≡ C.out_of self.now.carrier }
    {
        self.carrier.out()
    }

    /// The encoding of the last GET's value, as far as it was joined: all of it once the answer was returned.
    pub fn value(&self) -> &[u8]
        ensures { result.now ≡ self.now.association.blocks.joined }
    {
        self.association.value()
    }

    /// The APDU that the carrier handed up last.
    pub fn apdu(&self) -> &[u8]
        ensures { result.now ≡ C.apdu_of self.now.carrier }
    {
        self.carrier.apdu()
    }

    /// The carrier.
    pub fn carrier(&self) -> &C
        ensures { result.now ≡ self.now.carrier }
    {
        &self.carrier
    }

    /// The services and the size that the meter granted last; none before an association.
    pub fn granted(&self) -> Granted
        ensures { result ≡ self.now.association.granted }
    {
        self.association.granted()
    }
}
