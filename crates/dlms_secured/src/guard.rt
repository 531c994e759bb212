//! The security context of one association.

ghost use Rattle.std.specs.Prelude.{◌≡◌, ◌≤◌, ◌-◌, ◌↔◌, [], length, false, true, IfOk, IfErr, OnOk, IsTrue, MatchResult, Ok};
ghost use Rattle.std.specs.Prelude.{Err, option_map};
ghost use Rattle.dlms_security.specs.declared.kind.KeyKind.TheVariants.{Global};
ghost use Rattle.dlms_acse.specs.Reading.{aarq_at};
ghost use Rattle.dlms_secured.specs.declared.stage.Stage.TheVariants.{Closed, Open, Failed};
ghost use Rattle.dlms_acse.specs.Writing.{release_response};
ghost use Rattle.dlms_secured.specs.Guard.{proposes, initiate_in, gives_closed, gives_open, gives, hands, at_most, fault_of, IsShort};
ghost use Rattle.dlms_secured.specs.Guard.{takes_response, takes_opening, takes_release, takes_message, takes_open, Takes};
ghost use Rattle.dlms_secured.specs.Guard.{TakesReply, after_begin, after_event, extended, renewed, Is, fails, idle, sends_by, hidden, layer_of};
ghost use Rattle.dlms_secured.specs.Made.{sends_answer};
ghost use Rattle.dlms_secured.specs.Run.{AreStates};
ghost use Rattle.dlms_secured.specs.Steps.{IsReady};
ghost use Rattle.dlms_secured.specs.GuardView.{taken_of, taken_result, octets_of};

use crate::fault::SecuredFault;
use crate::made::{
    Message, accept, ask, confirm, leave, protect_by, release, send_answer, teach, unprotect_by,
};
use crate::messages::{Initiate, MOST_CARRIED, begins, initiate_of, plain_aare};
use crate::reply::Reply;
use crate::response::is_refusal;
use crate::stage::{Granted, Stage};
use crate::taken::Taken;
use crate::terms::Terms;
use arrayvec::ArrayVec;
use dlms_acse::Conformance;
use dlms_carrier::Event;
use dlms_cipher::Keys;
use dlms_security::{Form, MOST_APDU, Policy, Security, StoredState};
use std::marker::Model;

/// The security context of one association with a meter: suite 0, global and dedicated keys, mechanism 5. Under `Policy::Encrypted`
/// both ends still prove their keys, but nothing authenticates the messages. Under `Policy::Authenticated` they can be read.
///
/// A CALLER MUST NOT have two values with the same own title and encryption key, must not lose a reservation, and makes each
/// challenge at random. Dropping the value does not wipe its keys.
#[derive(Drop)]
pub struct Guard {
    security: Security,
    dedicated: Option<Security>,
    key: Option<[u8; 16]>,
    authentication: [u8; 16],
    form: Form,
    challenge: ArrayVec<u8, 64>,
    unused: bool,
    stage: Stage,
    initiate: Initiate,
    handed: ArrayVec<u8, MOST_APDU>,
}

impl Model for Guard {
    ghost use Rattle.dlms_secured.specs.Guard.{GuardValue};

    ghost Value = { GuardValue };

    ghost use Rattle.dlms_secured.specs.GuardView.{value_of};

    ghost view = { value_of };
}

/// A copy of octets that fit.
fn copy_of<const CAP: usize>(octets: &[u8]) -> ArrayVec<u8, CAP>
    requires { length octets.now ≤ CAP }
    ensures { result.items ≡ octets.now }
{
    let mut copy = ArrayVec::new();
    let _fits = copy.try_extend_from_slice(octets);
    copy
}

/// The services that are proposed: with general forms general-protection too (Green Book 9.4.6.1).
fn proposed(form: Form, services: u32) -> u32
    ensures { result ≡ proposes form services }
{
    match form {
        Form::Service => services,
        Form::General => services | Conformance::GENERAL_PROTECTION.0,
    }
}

/// The initiate request of an association request in clear.
fn initiate_in(key: Option<[u8; 16]>, form: Form, apdu: &[u8]) -> Option<Initiate>
    ensures { option_map (λ x. x.items) result ≡ initiate_in key form (aarq_at apdu.now) }
{
    match dlms_acse::read_aarq(apdu) {
        Ok(request) => match request.initiate {
            Some(initiate) => {
                let services = proposed(form, initiate.conformance.0);
                Some(initiate_of(key, services, initiate.size))
            }
            None => None,
        },
        Err(_) => None,
    }
}

/// A copy of an APDU, if the association can take it.
fn copied(apdu: &[u8]) -> Result<ArrayVec<u8, MOST_APDU>, SecuredFault>
    ensures { octets_of result ≡ at_most MOST_CARRIED apdu.now }
{
    if usize::from(MOST_CARRIED) < apdu.len() {
        Err(SecuredFault::Size)
    } else {
        Ok(copy_of(apdu))
    }
}

/// The release response in clear.
fn released() -> ArrayVec<u8, MOST_APDU>
    ensures { result.items ≡ release_response }
{
    copy_of(&[0x63, 0x03, 0x80, 0x01, 0x00])
}

/// The dedicated key that is sent: none under authentication alone, which would not hide it.
fn hidden(policy: Policy, key: Option<[u8; 16]>) -> Option<[u8; 16]>
    ensures { result ≡ hidden policy key }
{
    match policy {
        Policy::Authenticated => None,
        _ => key,
    }
}

/// The layer of a dedicated key.
fn layer_of(
    own: [u8; 8],
    authentication: [u8; 16],
    policy: Policy,
    key: Option<[u8; 16]>,
) -> Option<Security>
    ensures { result ≡ layer_of own authentication policy key }
{
    match key {
        Some(key) => {
            let keys = Keys::new(key, authentication);
            Some(Security::with_dedicated_key(own, keys, policy))
        }
        None => None,
    }
}

impl Guard {
    /// A context without an association. Its own counters continue at the end of the stored reservation, so none is left: store a
    /// higher reservation and call `extend_reservation` before the first association. The challenge has 8 to 64 octets that nobody can
    /// guess, and is used for one association; so is the dedicated key, if there is one: 16 octets that nobody can guess.
    ///
    /// The initiate request contains the dedicated key, under the global key; the messages of the open association are then protected
    /// under it, with counters of its own. `Policy::Authenticated` hides nothing, so under it no dedicated key is sent or used.
    pub fn new(
        terms: &Terms,
        stored: StoredState,
        challenge: &[u8],
        dedicated: Option<[u8; 16]>,
    ) -> Guard
        requires least { 8 ≤ length challenge.now }
        requires most { length challenge.now ≤ 64 }
        ensures { result ≡ record {
          security = record {
            kind = Global;
            own = terms.now.title;
            peer = stored.peer;
            encryption = terms.now.encryption_key;
            authentication = terms.now.authentication_key;
            policy = terms.now.policy;
            next = stored.reserved;
            reserved = stored.reserved;
            accepted = stored.accepted;
          };
          dedicated = layer_of terms.now.title terms.now.authentication_key terms.now.policy
              (hidden terms.now.policy dedicated);
          key = hidden terms.now.policy dedicated;
          authentication = terms.now.authentication_key;
          form = terms.now.form;
          challenge = challenge.now;
          unused = true;
          stage = Closed;
          initiate = [];
          handed = [];
        } }
    {
        let keys = Keys::new(terms.encryption_key, terms.authentication_key);
        let key = hidden(terms.policy, dedicated);
        Guard {
            security: Security::new(terms.title, keys, terms.policy, stored),
            dedicated: layer_of(terms.title, terms.authentication_key, terms.policy, key),
            key,
            authentication: terms.authentication_key,
            form: terms.form,
            challenge: copy_of(challenge),
            unused: true,
            stage: Stage::Closed,
            initiate: ArrayVec::new(),
            handed: ArrayVec::new(),
        }
    }

    /// Sets the challenge of the next association, of 8 to 64 octets that nobody can guess, and its dedicated key, if there is one: 16
    /// octets that nobody can guess. The association, if there is one, is over.
    pub fn renew(&mut self, challenge: &[u8], dedicated: Option<[u8; 16]>)
        requires least { 8 ≤ length challenge.now }
        requires most { length challenge.now ≤ 64 }
        ensures { self.new ≡ renewed self.old challenge.now dedicated }
    {
        let policy = self.security.policy();
        self.key = hidden(policy, dedicated);
        self.dedicated = layer_of(self.security.own(), self.authentication, policy, self.key);
        self.challenge = copy_of(challenge);
        self.unused = true;
        self.stage = Stage::Closed;
    }

    /// The stage of the association.
    pub fn stage(&self) -> Stage
        ensures { result ≡ self.now.stage }
    {
        self.stage
    }

    /// Why the association is over, if it is.
    pub fn fault(&self) -> Option<SecuredFault>
        ensures { result ≡ fault_of self.now.stage }
    {
        match self.stage {
            Stage::Failed(fault) => Some(fault),
            _ => None,
        }
    }

    /// Whether an APDU may be given: there is no association, or it is open.
    pub(crate) fn is_ready(&self) -> bool
        ensures { IsTrue result ↔ IsReady self.now.stage }
    {
        match self.stage {
            Stage::Closed | Stage::Open => true,
            _ => false,
        }
    }

    /// The number of reserved counters that are left. An association needs three, and then one for each APDU.
    pub fn counters_left(&self) -> u32
        ensures left { result ≡ self.now.security.reserved - self.now.security.next }
        ensures states { AreStates self.now }
    {
        if let Some(dedicated) = &self.dedicated {
            let _left = dedicated.counters_left();
        }
        self.security.counters_left()
    }

    /// Allows the use of all counters below `reserved`. The caller has stored this number, and no power failure takes it back.
    pub fn extend_reservation(&mut self, reserved: u32)
        ensures { self.new ≡ extended self.old reserved }
    {
        self.security.extend_reservation(reserved);
    }

    /// The last accepted counter of the meter, to be stored.
    pub fn last_accepted(&self) -> Option<u32>
        ensures { result ≡ self.now.security.accepted }
    {
        self.security.last_accepted()
    }

    /// The meter's system title, to be stored.
    pub fn peer(&self) -> Option<[u8; 8]>
        ensures { result ≡ self.now.security.peer }
    {
        self.security.peer()
    }

    /// The APDU that was handed up last.
    pub fn handed(&self) -> &[u8]
        ensures { result.now ≡ self.now.handed }
    {
        self.handed.as_slice()
    }

    /// Whether a connection may be requested: the challenge is unused. If not, the association is over.
    pub(crate) fn begin(&mut self) -> bool
        ensures begins { result ≡ self.old.unused }
        ensures after { self.new ≡ after_begin self.old }
    {
        if self.unused {
            self.stage = Stage::Closed;
        } else {
            self.stage = Stage::Failed(SecuredFault::Challenge);
        }
        self.unused
    }

    /// What an event of the connection leaves: any event but `Nothing` and `Apdu` ends the association.
    pub(crate) fn heed(&mut self, event: Event)
        ensures { self.new ≡ after_event self.old event }
    {
        match event {
            Event::Nothing | Event::Apdu => {}
            _ => self.stage = Stage::Closed,
        }
    }

    /// The association request, under the unused challenge.
    #[tactic(auto, unfolding(crate::specs::Guard::gives_closed))]
    fn give_closed(&mut self, apdu: &[u8]) -> Result<Message, SecuredFault>
        ensures result { MatchResult result
            (λ m. (gives_closed self.old apdu.now).result ≡ Ok m.items)
            (λ f. (gives_closed self.old apdu.now).result ≡ Err f) }
        ensures after { OnOk result (self.new ≡ (gives_closed self.old apdu.now).guard) }
        ensures failed { IfErr result (λ f. record self.new { stage = Failed f }
            ≡ (gives_closed self.old apdu.now).guard) }
        ensures short { IfOk result (λ m. length m.items ≤ MOST_CARRIED) }
    {
        if !self.unused {
            return Err(SecuredFault::Challenge);
        }
        let Some(initiate) = initiate_in(self.key, self.form, apdu) else {
            return Err(SecuredFault::Request);
        };
        self.unused = false;
        self.initiate = initiate;
        let message = ask(
            &mut self.security,
            Form::Service,
            self.challenge.as_slice(),
            self.initiate.as_slice(),
        )?;
        self.stage = Stage::Opening;
        Ok(message)
    }

    /// The release request, or the protected form of any other APDU.
    #[tactic(auto, unfolding(crate::specs::Guard::gives_open))]
    fn give_open(&mut self, apdu: &[u8]) -> Result<Message, SecuredFault>
        ensures result { MatchResult result
            (λ m. (gives_open self.old apdu.now).result ≡ Ok m.items)
            (λ f. (gives_open self.old apdu.now).result ≡ Err f) }
        ensures after { OnOk result (record self.new { stage = Open }
            ≡ (gives_open self.old apdu.now).guard) }
        ensures failed { IfErr result (λ f. record self.new { stage = Failed f }
            ≡ (gives_open self.old apdu.now).guard) }
        ensures stage { self.new.stage ≡ self.old.stage }
        ensures short { IfOk result (λ m. length m.items ≤ MOST_CARRIED) }
    {
        if begins(0x62, apdu) {
            leave(&mut self.security, Form::Service, self.initiate.as_slice())
        } else {
            protect_by(&mut self.security, &mut self.dedicated, self.form, apdu)
        }
    }

    /// The message for an APDU in this stage.
    fn give_in_stage(&mut self, apdu: &[u8]) -> Result<Message, SecuredFault>
        ensures result { MatchResult result
            (λ m. (gives self.old apdu.now).result ≡ Ok m.items)
            (λ f. (gives self.old apdu.now).result ≡ Err f) }
        ensures after { OnOk result (self.new ≡ (gives self.old apdu.now).guard) }
        ensures failed { IfErr result (λ f. record self.new { stage = Failed f }
            ≡ (gives self.old apdu.now).guard) }
        ensures short { IfOk result (λ m. length m.items ≤ MOST_CARRIED) }
    {
        match self.stage {
            Stage::Closed => self.give_closed(apdu),
            Stage::Open => self.give_open(apdu),
            Stage::Opening | Stage::Proving(_) => Err(SecuredFault::Order),
            Stage::Failed(fault) => Err(fault),
        }
    }

    /// The message that goes out for an APDU. After a fault nothing goes out any more.
    pub(crate) fn give(&mut self, apdu: &[u8]) -> Result<Message, SecuredFault>
        ensures result { MatchResult result
            (λ m. (gives self.old apdu.now).result ≡ Ok m.items)
            (λ f. (gives self.old apdu.now).result ≡ Err f) }
        ensures after { self.new ≡ (gives self.old apdu.now).guard }
        ensures short { IfOk result (λ m. length m.items ≤ MOST_CARRIED) }
    {
        match self.give_in_stage(apdu) {
            Ok(message) => Ok(message),
            Err(fault) => {
                self.stage = Stage::Failed(fault);
                Err(fault)
            }
        }
    }

    /// Ends the association.
    fn fail(&mut self, fault: SecuredFault) -> Result<Taken, SecuredFault>
        ensures { Is (fails self.old fault) (taken_result result) self.new }
    {
        self.stage = Stage::Failed(fault);
        Err(fault)
    }

    /// Hands an APDU up in this stage, or ends the association.
    fn hand(
        &mut self,
        stage: Stage,
        apdu: Result<ArrayVec<u8, MOST_APDU>, SecuredFault>,
    ) -> Result<Taken, SecuredFault>
        ensures hands { Is (hands self.old (idle self.old) stage (octets_of apdu))
            (taken_result result) self.new }
        ensures short { IfOk result (λ t. IsShort (taken_of t)) }
    {
        match apdu {
            Ok(apdu) => {
                self.stage = stage;
                self.handed = apdu;
                Ok(Taken::Hand)
            }
            Err(fault) => {
                self.stage = Stage::Failed(fault);
                Err(fault)
            }
        }
    }

    /// The message with the answer goes out, or the association ends. The layer of the dedicated key learns the meter's title.
    fn answer(&mut self, reply: &Reply) -> Result<Taken, SecuredFault>
        ensures sends { Is (sends_by self.old [] reply.now
            (sends_answer self.old.security self.old.form reply.now.answer))
            (taken_result result) self.new }
        ensures short { IfOk result (λ t. IsShort (taken_of t)) }
    {
        teach(&mut self.dedicated, reply.title);
        match send_answer(&mut self.security, self.form, &reply.answer) {
            Ok(message) => {
                self.stage = Stage::Proving(reply.granted);
                Ok(Taken::Send(message))
            }
            Err(fault) => {
                self.stage = Stage::Failed(fault);
                Err(fault)
            }
        }
    }

    /// The answer to an accepting association response.
    #[tactic(auto, unfolding(crate::specs::Guard::takes_response))]
    fn take_response(&mut self, apdu: &[u8]) -> Result<Taken, SecuredFault>
        ensures takes { Is (takes_response self.old apdu.now) (taken_result result) self.new }
        ensures short { IfOk result (λ t. IsShort (taken_of t)) }
    {
        match accept(&mut self.security, self.challenge.as_slice(), apdu) {
            Ok(reply) => self.answer(&reply),
            Err(fault) => self.fail(fault),
        }
    }

    /// The APDU after the association request: a refusal is handed up as it is, and an accepting response is answered.
    #[tactic(auto, unfolding(crate::specs::Guard::takes_opening))]
    fn take_opening(&mut self, apdu: &[u8]) -> Result<Taken, SecuredFault>
        ensures takes { Is (takes_opening self.old apdu.now) (taken_result result) self.new }
        ensures short { IfOk result (λ t. IsShort (taken_of t)) }
    {
        if is_refusal(apdu) {
            self.hand(Stage::Closed, copied(apdu))
        } else {
            self.take_response(apdu)
        }
    }

    /// The reply to the own answer: after the meter's answer, the plain association response is handed up.
    fn take_reply(&mut self, granted: Granted, apdu: &[u8]) -> Result<Taken, SecuredFault>
        ensures takes { TakesReply self.old granted apdu.now (taken_result result) self.new }
        ensures short { IfOk result (λ t. IsShort (taken_of t)) }
    {
        match confirm(&mut self.security, self.challenge.as_slice(), apdu) {
            Ok(()) => self.hand(Stage::Open, Ok(plain_aare(&granted))),
            Err(fault) => self.hand(Stage::Open, Err(fault)),
        }
    }

    /// A release response.
    #[tactic(auto, unfolding(crate::specs::Guard::takes_release))]
    fn take_release(&mut self, apdu: &[u8]) -> Result<Taken, SecuredFault>
        ensures takes { Is (takes_release self.old apdu.now) (taken_result result) self.new }
        ensures short { IfOk result (λ t. IsShort (taken_of t)) }
    {
        match release(&mut self.security, apdu) {
            Ok(()) => self.hand(Stage::Closed, Ok(released())),
            Err(fault) => self.hand(Stage::Closed, Err(fault)),
        }
    }

    /// The APDU in a protected message.
    #[tactic(auto, unfolding(crate::specs::Guard::takes_message))]
    fn take_message(&mut self, apdu: &[u8]) -> Result<Taken, SecuredFault>
        ensures takes { Is (takes_message self.old apdu.now) (taken_result result) self.new }
        ensures short { IfOk result (λ t. IsShort (taken_of t)) }
    {
        let opened = unprotect_by(&mut self.security, &mut self.dedicated, apdu);
        self.hand(Stage::Open, opened)
    }

    /// An APDU in the open association.
    #[tactic(auto, unfolding(crate::specs::Guard::takes_open))]
    fn take_open(&mut self, apdu: &[u8]) -> Result<Taken, SecuredFault>
        ensures takes { Is (takes_open self.old apdu.now) (taken_result result) self.new }
        ensures short { IfOk result (λ t. IsShort (taken_of t)) }
    {
        if begins(0x63, apdu) {
            self.take_release(apdu)
        } else {
            self.take_message(apdu)
        }
    }

    /// What becomes of an APDU that arrives. After a fault nothing is handed up any more.
    pub(crate) fn take(&mut self, apdu: &[u8]) -> Result<Taken, SecuredFault>
        ensures takes { Takes self.old apdu.now (taken_result result) self.new }
        ensures short { IfOk result (λ t. IsShort (taken_of t)) }
    {
        match self.stage {
            Stage::Closed => self.fail(SecuredFault::Order),
            Stage::Opening => self.take_opening(apdu),
            Stage::Proving(granted) => self.take_reply(granted, apdu),
            Stage::Open => self.take_open(apdu),
            Stage::Failed(fault) => self.fail(fault),
        }
    }
}
