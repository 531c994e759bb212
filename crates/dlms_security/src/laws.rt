//! Laws over all lists of calls with stops among them. The `_is_a_step` functions prove that the calls of [`Security`] are the
//! events that the laws speak of.
ghost use Rattle.std.specs.Prelude.{◌≡◌, ◌≤◌, MatchResult, Ok, Err};
ghost use Rattle.dlms_cipher.specs.Keys.{encryption_key, authentication_key};
ghost use Rattle.dlms_security.specs.declared.kind.KeyKind.TheVariants.{Global};
ghost use Rattle.dlms_security.specs.Security.{SecurityState};
ghost use Rattle.dlms_security.specs.Encoding.{ReadExactly};
ghost use Rattle.dlms_security.specs.Opening.{OpenedExactly};
ghost use Rattle.dlms_security.specs.Run.{IsState, IsStep, Protects, Unprotects, Reserves, Learns, Answers, Stops};
ghost use Rattle.dlms_security.specs.Run.{NeverTwice, NeverInTheClear, Fresh, Authentic, AcceptedExactly, RoundTrip};

use crate::fault::{ProtectFault, UnprotectFault};
use crate::form::{Form, MOST_APDU, MOST_MESSAGE};
use crate::policy::Policy;
use crate::security::Security;
use crate::stored::StoredState;
use arrayvec::ArrayVec;
use dlms_cipher::Keys;

/// Over all calls, with stops among them, no counter is used twice, and every message that goes out is the protected form of
/// the APDU that the caller passed. If the last accepted counter is read back after every stop, no message is accepted twice.
/// If the peer's title is, every APDU that is returned came in its protected form under that title.
pub fn over_runs()
    ensures never_twice { NeverTwice }
    ensures never_in_the_clear { NeverInTheClear }
    ensures fresh { Fresh }
    ensures authentic { Authentic }
{}

/// A message is read exactly if it encodes a header and a body, and as these.
pub fn reading()
    ensures { ReadExactly }
{}

/// A message is accepted exactly if it is the protected form of an APDU under the peer's title, with a counter above the last
/// accepted one.
pub fn accepting()
    ensures { AcceptedExactly }
{}

/// A message is opened under given keys exactly if it is the protected form of an APDU under them and the sender's title.
pub fn opening_is_exact()
    ensures { OpenedExactly }
{}

/// The peer accepts a message that goes out as the APDU that the caller passed.
pub fn round_trip()
    ensures { RoundTrip }
{}

/// `Security::protect` is an event.
pub fn protect_is_a_step(
    security: &mut Security,
    form: Form,
    apdu: &[u8],
) -> Result<ArrayVec<u8, MOST_MESSAGE>, ProtectFault>
    ensures { MatchResult result (λ message. IsStep security.old (Protects form apdu.now (Ok message.items)) security.new)
        (λ f. IsStep security.old (Protects form apdu.now (Err f)) security.new) }
{
    security.protect(form, apdu)
}

/// `Security::unprotect` is an event.
pub fn unprotect_is_a_step(
    security: &mut Security,
    message: &[u8],
) -> Result<ArrayVec<u8, MOST_APDU>, UnprotectFault>
    ensures { MatchResult result (λ apdu. IsStep security.old (Unprotects message.now (Ok apdu.items)) security.new)
        (λ f. IsStep security.old (Unprotects message.now (Err f)) security.new) }
{
    security.unprotect(message)
}

/// `Security::extend_reservation` is an event.
pub fn extend_reservation_is_a_step(security: &mut Security, reserved: u32)
    ensures { IsStep security.old (Reserves reserved) security.new }
{
    security.extend_reservation(reserved);
}

/// `Security::learn` is an event.
pub fn learn_is_a_step(security: &mut Security, title: [u8; 8])
    ensures { IsStep security.old (Learns title) security.new }
{
    security.learn(title);
}

/// `Security::answer` is an event.
pub fn answer_is_a_step(security: &mut Security, challenge: &[u8]) -> Result<[u8; 17], ProtectFault>
    ensures { IsStep security.old (Answers challenge.now result) security.new }
{
    security.answer(challenge)
}

/// Under the global key `Security::new` gives the state after a stop, if the stored reservation is not below that of the state
/// before it.
pub fn new_is_a_step(own: [u8; 8], keys: Keys, policy: Policy, stored: StoredState) -> Security
    ensures { (s : SecurityState) → s.kind ≡ Global → s.own ≡ own → s.encryption ≡ encryption_key keys
        → s.authentication ≡ authentication_key keys → s.policy ≡ policy → s.reserved ≤ stored.reserved → IsStep s (Stops stored) result }
{
    Security::new(own, keys, policy, stored)
}

/// The laws' premise on states is true of every `Security`.
pub fn is_a_state(security: &Security)
    ensures { IsState security.now }
{
    let _left = security.counters_left();
}
