//! What a reply of the meter says about an association that was asked for.

ghost use Rattle.std.specs.Prelude.{◌≡◌, ◌∷◌, ℕ, Some, option_map};
ghost use Rattle.dlms_frame.specs.Client.{client_of};
ghost use Rattle.dlms_frame.specs.declared.frame.Address.TheVariants.{One};
ghost use Rattle.dlms_serving.specs.Refusals.{SaysFirst, is_guarded, outcome_of, result_of};

use dlms_filing::bytes_behind;
use dlms_frame::{Address, Client, Deframer};

/// The LLC in front of each APDU of the meter (IEC 62056-46, 5.3.2), and the tag of a response to an association request (IEC
/// 62056-5-3, AARE).
const HEAD: [u8; 4] = [0xe6, 0xe7, 0x00, 0x61];

/// Behind the head, its length and its context name of 11 octets stands the result.
const FIELD: usize = 16;

/// The field of the result: an integer of one octet, which follows.
const RESULT: [u8; 4] = [0xa2, 0x03, 0x02, 0x01];

/// The outcome of an association that was asked for.
#[derive(Clone, Copy, PartialEq, Eq)]
pub enum Outcome {
    /// It is refused.
    Refused,
    /// It is open, and whose it is has to know a secret for that.
    Proved,
    /// It is open to anyone who asks.
    Opened,
}

/// The result in an information field of the meter, if it has the response to an association request, or the first segment of one:
/// a client may ask for segments of 32 octets, and the result stands within these.
fn result_of(info: &[u8]) -> Option<u8>
    ensures { result ≡ result_of info.now }
{
    if info.starts_with(&HEAD) && bytes_behind(info, FIELD).starts_with(&RESULT) {
        info.get(FIELD + RESULT.len()).copied()
    } else {
        None
    }
}

/// Whether the client of this address has to know a secret.
fn is_guarded(address: Address) -> bool
    ensures { result ≡ is_guarded address }
{
    match address {
        Address::One(sap) => match Client::of_sap(sap) {
            Some(client) => client.has_secret(),
            None => false,
        },
        Address::Two(_, _) | Address::Four(_, _) => false,
    }
}

/// The outcome that a result has for the client of this address.
fn outcome_of(number: u8, address: Address) -> Outcome
    ensures { result ≡ outcome_of number address }
{
    if number != 0 {
        return Outcome::Refused;
    }
    if is_guarded(address) {
        Outcome::Proved
    } else {
        Outcome::Opened
    }
}

/// The outcome of an association in a frame to this address, if it has one.
fn said_by(info: &[u8], address: Address) -> Option<Outcome>
    ensures { result ≡ option_map (λ (number : ℕ). outcome_of number address) (result_of info.now) }
{
    match result_of(info) {
        Some(number) => Some(outcome_of(number, address)),
        None => None,
    }
}

/// The place of the result's field in an APDU: the frame's, without the LLC's three octets.
const APDU_FIELD: usize = 13;

/// The result in an APDU of the meter, if it is the response to an association request.
fn result_in(apdu: &[u8]) -> Option<u8>
    ensures { result ≡ result_of (0xE6 ∷ 0xE7 ∷ 0x00 ∷ apdu.now) }
{
    if apdu.starts_with(&[0x61]) && bytes_behind(apdu, APDU_FIELD).starts_with(&RESULT) {
        apdu.get(APDU_FIELD + RESULT.len()).copied()
    } else {
        None
    }
}

/// The outcome that a result has for a client.
fn outcome_for(number: u8, who: Client) -> Outcome
    ensures { (sap : ℕ) → client_of sap ≡ Some who → result ≡ outcome_of number (One sap) }
{
    if number == 0 && who.has_secret() {
        Outcome::Proved
    } else if number == 0 {
        Outcome::Opened
    } else {
        Outcome::Refused
    }
}

/// The outcome of an association in an APDU of the meter to this client, if it has one.
pub fn outcome_in_apdu(apdu: &[u8], who: Client) -> Option<Outcome>
    ensures { (sap : ℕ) → client_of sap ≡ Some who
        → result ≡ option_map (λ (number : ℕ). outcome_of number (One sap))
        (result_of (0xE6 ∷ 0xE7 ∷ 0x00 ∷ apdu.now)) }
{
    match result_in(apdu) {
        Some(number) => Some(outcome_for(number, who)),
        None => None,
    }
}

/// The outcome of an association in a reply of the meter, if it has one: its first frame does.
#[inline(never)]
pub fn outcome_in(reply: &[u8]) -> Option<Outcome>
    ensures { SaysFirst reply.now result }
{
    let mut deframer = Deframer::new();
    let _taken = deframer.feed(reply);
    match deframer.frame() {
        Some(frame) => said_by(frame.info, frame.dest),
        None => None,
    }
}
