//! The protection of one association.
ghost use Rattle.std.specs.Prelude.{◌≡◌, ◌↔◌, ◌≤◌, ◌<◌, ◌+◌, ◌-◌, ◌^◌, length, IsTrue, IfOk, OnErr, MatchResult, Ok, Err, Some, None};
ghost use Rattle.dlms_cipher.specs.Keys.{encryption_key, authentication_key};
ghost use Rattle.dlms_security.specs.declared.kind.KeyKind.TheVariants.{Global, Dedicated};
ghost use Rattle.dlms_security.specs.Run.{IsState};
ghost use Rattle.dlms_security.specs.Security.{SecurityState, counter_for, answer_for, IsAnswerOf, message_for, after_protect, after_reserved};
ghost use Rattle.dlms_security.specs.Security.{is_from, is_above, check, acceptance, apdu_in, after_unprotect, after_learn};

use crate::body::{body_of, open_body};
use crate::fault::{ProtectFault, UnprotectFault};
use crate::form::{Form, Head, MOST_APDU, MOST_MESSAGE, front_of, is_of, message_of, parts};
use crate::kind::KeyKind;
use crate::policy::Policy;
use crate::stored::StoredState;
use arrayvec::ArrayVec;
use dlms_cipher::Keys;
use std::marker::Model;

/// The protection of one association of a client with a meter, at either end, under the global or a dedicated key.
///
/// A CALLER MUST NOT have two values with the same own title and encryption key, and must not lose a reservation: either
/// would use a counter twice. The titles of both ends must differ. Dropping the value does not wipe its keys.
#[derive(Drop)]
pub struct Security {
    kind: KeyKind,
    own: [u8; 8],
    peer: Option<[u8; 8]>,
    keys: Keys,
    policy: Policy,
    next: u32,
    reserved: u32,
    accepted: Option<u32>,
}

impl Model for Security {
    ghost use Rattle.dlms_security.specs.Security.{SecurityState};
    ghost use Rattle.dlms_cipher.specs.Keys.{encryption_key, authentication_key};
    ghost use Rattle.std.specs.Prelude.{◌≤◌};

    ghost Value = { SecurityState };

    ghost view = { λ s. record {
      kind = s.kind;
      own = s.own;
      peer = s.peer;
      encryption = encryption_key s.keys;
      authentication = authentication_key s.keys;
      policy = s.policy;
      next = s.next;
      reserved = s.reserved;
      accepted = s.accepted;
    } };

    ghost invariant = { λ s. s.next ≤ s.reserved };
}

/// Whether a message may come from the peer: it contains the peer's title, or none.
pub(crate) fn is_from(named: Option<[u8; 8]>, title: &[u8; 8]) -> bool
    ensures { result ≡ is_from named title.now }
{
    match named {
        None => true,
        Some(named) => named == *title,
    }
}

/// Whether a counter is above the last accepted one.
fn is_above(accepted: Option<u32>, counter: u32) -> bool
    ensures { result ≡ is_above accepted counter }
{
    match accepted {
        None => true,
        Some(last) => last < counter,
    }
}

impl Security {
    /// The state under the global key at the start of an association, or after a restart: the own system title, both keys, the
    /// policy that both ends agreed on, and the stored state. Own counters continue at the end of the stored reservation, so none is left:
    /// store a higher reservation and call `extend_reservation` before the first message.
    pub fn new(own: [u8; 8], keys: Keys, policy: Policy, stored: StoredState) -> Security
        ensures { result ≡ record {
          kind = Global;
          own = own;
          peer = stored.peer;
          encryption = encryption_key keys;
          authentication = authentication_key keys;
          policy = policy;
          next = stored.reserved;
          reserved = stored.reserved;
          accepted = stored.accepted;
        } }
    {
        Security {
            kind: KeyKind::Global,
            own,
            peer: stored.peer,
            keys,
            policy,
            next: stored.reserved,
            reserved: stored.reserved,
            accepted: stored.accepted,
        }
    }

    /// The state under a dedicated key, at the start of an association. `keys` has the dedicated key as its encryption key, and
    /// the same authentication key as under the global one (Green Book 9.2.7.2). Counters begin at 0, and nothing is stored. The
    /// peer's title is not known: call `learn`. A CALLER MUST NOT use a dedicated key in a second association, or twice at one end: the client makes a random one for
    /// each association.
    pub fn with_dedicated_key(own: [u8; 8], keys: Keys, policy: Policy) -> Security
        ensures { result ≡ record {
          kind = Dedicated;
          own = own;
          peer = None;
          encryption = encryption_key keys;
          authentication = authentication_key keys;
          policy = policy;
          next = 0;
          reserved = 2 ^ 32 - 1;
          accepted = None;
        } }
    {
        Security {
            kind: KeyKind::Dedicated,
            own,
            peer: None,
            keys,
            policy,
            next: 0,
            reserved: u32::MAX,
            accepted: None,
        }
    }

    /// The number of reserved counters that are left. To never wait for the store, reserve more before it is 0.
    pub fn counters_left(&self) -> u32
        ensures left { result ≡ self.now.reserved - self.now.next }
        ensures state { IsState self.now }
    {
        let _own = self.own;
        self.reserved - self.next
    }

    /// Sets the peer's system title, as the association request or response gives it. A known title stays, since the last
    /// accepted counter belongs to it. The own title is ignored: own messages would be accepted as the peer's.
    pub fn learn(&mut self, title: [u8; 8])
        ensures { self.new ≡ after_learn self.old self.old.peer title }
    {
        if self.peer.is_none() && title != self.own {
            self.peer = Some(title);
        }
    }

    /// Allows the use of all counters below `reserved`. The caller has stored this number, and no power failure takes it
    /// back. A number that is not above the last one changes nothing.
    pub fn extend_reservation(&mut self, reserved: u32)
        ensures { self.new ≡ after_reserved self.old reserved }
    {
        if self.reserved < reserved {
            self.reserved = reserved;
        }
    }

    /// The counter of the next message or answer.
    fn counter(&self) -> Result<u32, ProtectFault>
        ensures counter { MatchResult result (λ n. counter_for self.now ≡ Ok n) (λ f. counter_for self.now ≡ Err f) }
        ensures next { IfOk result (λ n. n ≡ self.now.next) }
        ensures below { IfOk result (λ n. n < self.now.reserved) }
    {
        if self.next == u32::MAX {
            return Err(ProtectFault::Exhausted);
        }
        if self.reserved <= self.next {
            return Err(ProtectFault::Reserve);
        }
        Ok(self.next)
    }

    /// Returns the answer to the peer's challenge of 8 to 64 bytes under authentication mechanism 5 (Green Book 9.2.7.4):
    /// control byte 0x10, counter, tag. It uses a counter up, as a message does. Only the global key answers challenges.
    ///
    /// The caller has refused a challenge that equals its own. The tag in the answer is also that of a message under
    /// `Policy::Authenticated` whose APDU is the challenge: under that policy a caller also refuses a challenge that is an
    /// APDU. Errors: `Exhausted`, `Reserve`.
    pub fn answer(&mut self, challenge: &[u8]) -> Result<[u8; 17], ProtectFault>
        ensures answer { MatchResult result (λ answer. answer_for self.old challenge.now ≡ Ok answer)
            (λ f. answer_for self.old challenge.now ≡ Err f) }
        ensures after { self.new ≡ after_protect self.old (answer_for self.old challenge.now) }
        ensures unchanged { OnErr result (self.new ≡ self.old) }
    {
        let counter = self.counter()?;
        self.next = counter + 1;
        Ok(self.keys.answer(&self.own, counter, challenge))
    }

    /// Whether these bytes are the peer's answer to a challenge, under some counter; no, if the peer's title is not known.
    /// Only the global key answers challenges. The caller made the challenge at random for this association: that alone makes
    /// the answer fresh. Its counter is not compared, since the message that carries the answer has a higher one and was
    /// accepted first.
    pub fn is_answer(&self, challenge: &[u8], answer: &[u8; 17]) -> bool
        ensures { IsTrue result ↔ IsAnswerOf self.now self.now.peer challenge.now answer.now }
    {
        match self.peer {
            Some(title) => self.keys.is_answer(&title, challenge, answer),
            None => false,
        }
    }

    /// Returns the message to send for an APDU of at most `MOST_APDU` bytes, and uses a counter up. Do not send it twice.
    /// Errors, in this order: `Long`, `Service`, `Exhausted`, `Reserve`.
    pub fn protect(
        &mut self,
        form: Form,
        apdu: &[u8],
    ) -> Result<ArrayVec<u8, MOST_MESSAGE>, ProtectFault>
        ensures message { MatchResult result (λ message. message_for self.old form apdu.now ≡ Ok message.items)
            (λ f. message_for self.old form apdu.now ≡ Err f) }
        ensures after { self.new ≡ after_protect self.old (message_for self.old form apdu.now) }
        ensures unchanged { OnErr result (self.new ≡ self.old) }
    {
        if MOST_APDU < apdu.len() {
            return Err(ProtectFault::Long);
        }
        let Some(front) = front_of(self.kind, form, &self.own, apdu) else {
            return Err(ProtectFault::Service);
        };
        let counter = self.counter()?;
        self.next = counter + 1;
        let body = body_of(self.policy, &self.keys, &self.own, counter, apdu);
        Ok(message_of(
            front.as_slice(),
            self.policy.control(),
            counter,
            body.as_slice(),
        ))
    }

    /// The APDU in a message with this header and body.
    fn check(&self, head: Head, body: &[u8]) -> Result<ArrayVec<u8, MOST_APDU>, UnprotectFault>
        ensures { MatchResult result (λ apdu. check self.now head body.now ≡ Ok (record { counter = head.counter; apdu = apdu.items }))
            (λ f. check self.now head body.now ≡ Err f) }
    {
        let Some(title) = self.peer else {
            return Err(UnprotectFault::UnknownTitle);
        };
        if !is_from(head.title, &title) {
            return Err(UnprotectFault::AnotherTitle);
        }
        if head.control != self.policy.control() {
            return Err(UnprotectFault::AnotherControl);
        }
        if !is_above(self.accepted, head.counter) {
            return Err(UnprotectFault::OldCounter);
        }
        let apdu = open_body(self.policy, &self.keys, &title, head.counter, body)?;
        if is_of(self.kind, head.tag, apdu.as_slice()) {
            Ok(apdu)
        } else {
            Err(UnprotectFault::AnotherService)
        }
    }

    /// Returns the APDU in a message of the peer. Its counter becomes the last accepted one, which the caller stores if no
    /// message may be accepted again after a restart. A refusal changes nothing, so the caller may go on.
    pub fn unprotect(&mut self, message: &[u8]) -> Result<ArrayVec<u8, MOST_APDU>, UnprotectFault>
        ensures apdu { MatchResult result (λ apdu. apdu_in (acceptance self.old message.now) ≡ Ok apdu.items)
            (λ f. acceptance self.old message.now ≡ Err f) }
        ensures after { self.new ≡ after_unprotect self.old (acceptance self.old message.now) }
        ensures unchanged { OnErr result (self.new ≡ self.old) }
    {
        let (head, body) = parts(message)?;
        let apdu = self.check(head, body)?;
        self.accepted = Some(head.counter);
        Ok(apdu)
    }

    /// The policy.
    pub fn policy(&self) -> Policy
        ensures { result ≡ self.now.policy }
    {
        self.policy
    }

    /// The own system title.
    pub fn own(&self) -> [u8; 8]
        ensures { result ≡ self.now.own }
    {
        self.own
    }

    /// The last accepted counter of the peer, to be stored.
    pub fn last_accepted(&self) -> Option<u32>
        ensures { result ≡ self.now.accepted }
    {
        self.accepted
    }

    /// The peer's system title, to be stored.
    pub fn peer(&self) -> Option<[u8; 8]>
        ensures { result ≡ self.now.peer }
    {
        self.peer
    }
}
