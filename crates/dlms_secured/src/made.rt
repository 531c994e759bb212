//! What the calls of the security layer make.

ghost use Rattle.std.specs.Prelude.{◌≡◌, ◌≤◌, ◌↔◌, length, IfOk, IsTrue, MatchResult, Ok, Err, option_map};
ghost use Rattle.dlms_secured.specs.Response.{response_of};
ghost use Rattle.dlms_secured.specs.Made.{refusal, unprotects, protects, answers, sends_answer, replies, grants, is_title, through, taught};
ghost use Rattle.dlms_secured.specs.Made.{is_request, may_answer, opens, learns, accepts, releases, asks, leaves, IsProof, Confirms};

use crate::fault::SecuredFault;
use crate::fields::{inner, value_in};
use crate::messages::{
    LEAST_CLEAR, MOST_CARRIED, MOST_FIELD, clear_size, reply_to_hls, secured_aarq, secured_rlrq,
};
use crate::reply::Reply;
use crate::response::{Response, granted_in, proof_in, response_in};
use crate::stage::Granted;
use arrayvec::ArrayVec;
use dlms_security::{Form, MOST_APDU, MOST_MESSAGE, Policy, Security, UnprotectFault};

/// A protected message.
pub(crate) type Message = ArrayVec<u8, MOST_MESSAGE>;

/// The fault for a refusal of a message.
fn refusal(fault: UnprotectFault) -> SecuredFault
    ensures { result ≡ refusal fault }
{
    match fault {
        UnprotectFault::NotProtected => SecuredFault::InClear,
        _ => SecuredFault::Message(fault),
    }
}

/// The APDU in a message of the meter.
#[tactic(auto, unfolding(crate::specs::Made::unprotects))]
pub(crate) fn unprotect(
    security: &mut Security,
    message: &[u8],
) -> Result<ArrayVec<u8, MOST_APDU>, SecuredFault>
    ensures result { MatchResult result
        (λ apdu. (unprotects security.old message.now).result ≡ Ok apdu.items)
        (λ f. (unprotects security.old message.now).result ≡ Err f) }
    ensures after { security.new ≡ (unprotects security.old message.now).security }
{
    match security.unprotect(message) {
        Ok(apdu) => Ok(apdu),
        Err(fault) => Err(refusal(fault)),
    }
}

/// The protected form of an APDU, of at most this many octets.
#[tactic(auto, unfolding(crate::specs::Made::protects))]
pub(crate) fn protect(
    security: &mut Security,
    form: Form,
    most: u16,
    apdu: &[u8],
) -> Result<Message, SecuredFault>
    ensures result { MatchResult result
        (λ message. (protects security.old form most apdu.now).result ≡ Ok message.items)
        (λ f. (protects security.old form most apdu.now).result ≡ Err f) }
    ensures after { security.new ≡ (protects security.old form most apdu.now).security }
    ensures short { IfOk result (λ message. length message.items ≤ most) }
{
    match security.protect(form, apdu) {
        Ok(message) => {
            if usize::from(most) < message.len() {
                Err(SecuredFault::Size)
            } else {
                Ok(message)
            }
        }
        Err(fault) => Err(SecuredFault::Protect(fault)),
    }
}

/// The answer to the meter's challenge.
#[tactic(auto, unfolding(crate::specs::Made::answers))]
fn answer(security: &mut Security, challenge: &[u8]) -> Result<[u8; 17], SecuredFault>
    ensures result { MatchResult result
        (λ answer. (answers security.old challenge.now).result ≡ Ok answer)
        (λ f. (answers security.old challenge.now).result ≡ Err f) }
    ensures after { security.new ≡ (answers security.old challenge.now).security }
{
    match security.answer(challenge) {
        Ok(answer) => Ok(answer),
        Err(fault) => Err(SecuredFault::Protect(fault)),
    }
}

/// The answer to the meter's challenge, and what the meter grants.
#[tactic(auto, unfolding(crate::specs::Made::replies))]
fn reply_to(
    security: &mut Security,
    response: Response<'_>,
    granted: Granted,
) -> Result<Reply, SecuredFault>
    ensures result { let read = response_of response.entry.title response.entry.challenge.now
        response.entry.message.now in
        MatchResult result
        (λ r. (replies security.old read granted).result ≡ Ok r)
        (λ f. (replies security.old read granted).result ≡ Err f) }
    ensures after { let read = response_of response.entry.title response.entry.challenge.now
        response.entry.message.now in
        security.new ≡ (replies security.old read granted).security }
{
    match answer(security, response.challenge) {
        Ok(answer) => Ok(Reply {
            title: response.title,
            granted,
            answer,
        }),
        Err(fault) => Err(fault),
    }
}

/// The reply, if the initiate response can be read and the meter receives APDUs that are long enough.
fn grant(
    security: &mut Security,
    response: Response<'_>,
    granted: Option<Granted>,
) -> Result<Reply, SecuredFault>
    ensures result { let read = response_of response.entry.title response.entry.challenge.now
        response.entry.message.now in
        MatchResult result
        (λ r. (grants security.old read granted).result ≡ Ok r)
        (λ f. (grants security.old read granted).result ≡ Err f) }
    ensures after { let read = response_of response.entry.title response.entry.challenge.now
        response.entry.message.now in
        security.new ≡ (grants security.old read granted).security }
{
    let Some(granted) = granted else {
        return Err(SecuredFault::Initiate);
    };
    if clear_size(granted.size) < LEAST_CLEAR {
        return Err(SecuredFault::Size);
    }
    reply_to(security, response, granted)
}

/// Whether the peer has this title.
fn is_title(title: &[u8; 8], peer: Option<[u8; 8]>) -> bool
    ensures { result ≡ is_title title.now peer }
{
    match peer {
        Some(peer) => peer == *title,
        None => false,
    }
}

/// The reply, after the initiate response was opened under the peer's title.
fn open(security: &mut Security, response: Response<'_>) -> Result<Reply, SecuredFault>
    ensures result { let read = response_of response.entry.title response.entry.challenge.now
        response.entry.message.now in
        MatchResult result
        (λ r. (opens security.old read).result ≡ Ok r)
        (λ f. (opens security.old read).result ≡ Err f) }
    ensures after { let read = response_of response.entry.title response.entry.challenge.now
        response.entry.message.now in
        security.new ≡ (opens security.old read).security }
{
    if !is_title(&response.title, security.peer()) {
        return Err(SecuredFault::Title);
    }
    let apdu = unprotect(security, response.message)?;
    grant(security, response, granted_in(apdu.as_slice()))
}

/// Whether the octets begin as an APDU of a client: an initiate request, or a get, set or action request.
fn is_request(octets: &[u8]) -> bool
    ensures { result ≡ is_request octets.now }
{
    match octets {
        [0x01, kind, ..] => *kind < 2,
        [0xc0 | 0xc1 | 0xc3, kind, ..] => 0 < *kind && *kind < 7,
        _ => false,
    }
}

/// Whether a challenge is answered. Under authentication alone the answer's tag is that of a message whose APDU is the challenge.
fn may_answer(policy: Policy, challenge: &[u8]) -> bool
    ensures { result ≡ may_answer policy challenge.now }
{
    match policy {
        Policy::Authenticated => !is_request(challenge),
        _ => true,
    }
}

/// The reply to an association response. The meter's title is learned first.
#[tactic(auto, unfolding(crate::specs::Made::accepts))]
pub(crate) fn accept(
    security: &mut Security,
    own: &[u8],
    apdu: &[u8],
) -> Result<Reply, SecuredFault>
    ensures result { MatchResult result
        (λ r. (accepts security.old own.now apdu.now).result ≡ Ok r)
        (λ f. (accepts security.old own.now apdu.now).result ≡ Err f) }
    ensures after { security.new ≡ (accepts security.old own.now apdu.now).security }
{
    let Some(fields) = inner(0x61, apdu) else {
        return Err(SecuredFault::Response);
    };
    let response = response_in(&security.own(), own, fields)?;
    if !may_answer(security.policy(), response.challenge) {
        return Err(SecuredFault::NoChallenge);
    }
    security.learn(response.title);
    open(security, response)
}

/// The protected form of an APDU, under the dedicated key if there is one.
pub(crate) fn protect_by(
    security: &mut Security,
    dedicated: &mut Option<Security>,
    form: Form,
    apdu: &[u8],
) -> Result<Message, SecuredFault>
    ensures result { let made = through security.old dedicated.old
        (λ s. protects s form MOST_CARRIED apdu.now) in
        MatchResult result (λ message. made.result ≡ Ok message.items) (λ f. made.result ≡ Err f) }
    ensures global { let made = through security.old dedicated.old
        (λ s. protects s form MOST_CARRIED apdu.now) in security.new ≡ made.security }
    ensures dedicated { let made = through security.old dedicated.old
        (λ s. protects s form MOST_CARRIED apdu.now) in dedicated.new ≡ made.dedicated }
    ensures short { IfOk result (λ message. length message.items ≤ MOST_CARRIED) }
{
    match dedicated {
        Some(dedicated) => protect(dedicated, form, MOST_CARRIED, apdu),
        None => protect(security, form, MOST_CARRIED, apdu),
    }
}

/// The APDU in a message of the open association, under the dedicated key if there is one.
pub(crate) fn unprotect_by(
    security: &mut Security,
    dedicated: &mut Option<Security>,
    message: &[u8],
) -> Result<ArrayVec<u8, MOST_APDU>, SecuredFault>
    ensures result { let made = through security.old dedicated.old
        (λ s. unprotects s message.now) in
        MatchResult result (λ apdu. made.result ≡ Ok apdu.items) (λ f. made.result ≡ Err f) }
    ensures global { let made = through security.old dedicated.old
        (λ s. unprotects s message.now) in security.new ≡ made.security }
    ensures dedicated { let made = through security.old dedicated.old
        (λ s. unprotects s message.now) in dedicated.new ≡ made.dedicated }
{
    match dedicated {
        Some(dedicated) => unprotect(dedicated, message),
        None => unprotect(security, message),
    }
}

/// The layer of the dedicated key learns the meter's title.
pub(crate) fn teach(dedicated: &mut Option<Security>, title: [u8; 8])
    ensures { dedicated.new ≡ taught title dedicated.old }
{
    if let Some(dedicated) = dedicated {
        dedicated.learn(title);
    }
}

/// The protected action request with the answer to the meter's challenge.
pub(crate) fn send_answer(
    security: &mut Security,
    form: Form,
    answer: &[u8; 17],
) -> Result<Message, SecuredFault>
    ensures result { MatchResult result
        (λ message. (sends_answer security.old form answer.now).result ≡ Ok message.items)
        (λ f. (sends_answer security.old form answer.now).result ≡ Err f) }
    ensures after { security.new ≡ (sends_answer security.old form answer.now).security }
    ensures short { IfOk result (λ message. length message.items ≤ MOST_CARRIED) }
{
    let request = reply_to_hls(answer);
    protect(security, form, MOST_CARRIED, request.as_slice())
}

/// Whether a release response is taken: it has no user information, or a protected initiate response that opens.
#[tactic(auto, unfolding(crate::specs::Made::releases))]
pub(crate) fn release(security: &mut Security, apdu: &[u8]) -> Result<(), SecuredFault>
    ensures result { (releases security.old apdu.now).result ≡ result }
    ensures after { security.new ≡ (releases security.old apdu.now).security }
{
    let Some(fields) = inner(0x63, apdu) else {
        return Err(SecuredFault::Response);
    };
    let Some(value) = value_in(0xbe, fields) else {
        return Ok(());
    };
    let Some(message) = inner(0x04, value) else {
        return Err(SecuredFault::Response);
    };
    let _apdu = unprotect(security, message)?;
    Ok(())
}

/// Whether these octets are the meter's answer to the own challenge.
fn is_proof(security: &Security, own: &[u8], answer: Option<[u8; 17]>) -> bool
    ensures { IsTrue result ↔ IsProof security.now own.now answer }
{
    match answer {
        Some(answer) => security.is_answer(own, &answer),
        None => false,
    }
}

/// Whether a message contains the meter's answer to the own challenge. Its counter is not compared: it is below the message's.
pub(crate) fn confirm(
    security: &mut Security,
    own: &[u8],
    message: &[u8],
) -> Result<(), SecuredFault>
    ensures proved { let opened = unprotects security.old message.now in
        Confirms opened.security own.now opened.result result }
    ensures after { security.new ≡ (unprotects security.old message.now).security }
{
    let reply = unprotect(security, message)?;
    if is_proof(security, own, proof_in(reply.as_slice())) {
        Ok(())
    } else {
        Err(SecuredFault::NotProved)
    }
}

/// The association request with ciphering, around the protected initiate request.
#[tactic(auto, unfolding(crate::specs::Made::asks))]
pub(crate) fn ask(
    security: &mut Security,
    form: Form,
    own: &[u8],
    initiate: &[u8],
) -> Result<Message, SecuredFault>
    requires { length own.now ≤ MOST_FIELD }
    ensures result { MatchResult result
        (λ m. (asks security.old form own.now initiate.now).result ≡ Ok m.items)
        (λ f. (asks security.old form own.now initiate.now).result ≡ Err f) }
    ensures after { security.new ≡ (asks security.old form own.now initiate.now).security }
    ensures short { IfOk result (λ m. length m.items ≤ MOST_CARRIED) }
{
    let title = security.own();
    let message = protect(security, form, MOST_FIELD, initiate)?;
    Ok(secured_aarq(&title, own, message.as_slice()))
}

/// The release request around the protected initiate request.
#[tactic(auto, unfolding(crate::specs::Made::leaves))]
pub(crate) fn leave(
    security: &mut Security,
    form: Form,
    initiate: &[u8],
) -> Result<Message, SecuredFault>
    ensures result { MatchResult result
        (λ m. (leaves security.old form initiate.now).result ≡ Ok m.items)
        (λ f. (leaves security.old form initiate.now).result ≡ Err f) }
    ensures after { security.new ≡ (leaves security.old form initiate.now).security }
    ensures short { IfOk result (λ m. length m.items ≤ MOST_CARRIED) }
{
    let message = protect(security, form, MOST_FIELD, initiate)?;
    Ok(secured_rlrq(message.as_slice()))
}
