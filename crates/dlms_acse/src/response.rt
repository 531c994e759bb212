//! Reading the response to an association request.

ghost use Rattle.std.specs.Prelude.{◌≡◌, Ok, IfOk, option_map};
ghost use Rattle.dlms_acse.specs.Reading.{on_some, inner_at, result_at, diagnostic_at, response_at, error_at, answer_from, aare_at};
ghost use Rattle.dlms_acse.specs.declared.outcome.Verdict.{Verdict};
ghost use Rattle.dlms_acse.specs.Spelling.{IsAare};

use crate::conformance::Conformance;
use crate::fault::AcseFault;
use crate::fields::{body, find};
use crate::outcome::Verdict;
use crate::reading::inner;

/// The result.
fn result_of(value: &[u8]) -> Option<u8>
    ensures { result ≡ result_at value.now }
{
    match value {
        [0x02, 0x01, number] => Some(*number),
        _ => None,
    }
}

/// The diagnostic.
fn diagnostic_of(value: &[u8]) -> Option<u8>
    ensures { result ≡ diagnostic_at value.now }
{
    match value {
        [0xa1, 0x03, 0x02, 0x01, number] => Some(*number),
        _ => None,
    }
}

/// An initiate response, as the acceptance that it is.
#[tactic(auto, unfolding(crate::specs::Reading::response_at))]
fn response_of(bytes: &[u8]) -> Option<Verdict>
    ensures { result ≡ response_at bytes.now }
{
    match bytes {
        [
            0x08,
            0x00,
            0x06,
            0x5f,
            0x1f,
            0x04,
            0x00,
            high,
            middle,
            low,
            size_high,
            size_low,
            0x00,
            0x07,
        ] => {
            Some(Verdict::Accepted {
                conformance: Conformance(
                    65536 * u32::from(*high) + 256 * u32::from(*middle) + u32::from(*low),
                ),
                size: 256 * u16::from(*size_high) + u16::from(*size_low),
            })
        }
        _ => None,
    }
}

/// An initiate error.
#[tactic(auto, unfolding(crate::specs::Reading::error_at))]
fn error_of(bytes: &[u8]) -> Option<u8>
    ensures { result ≡ error_at bytes.now }
{
    match bytes {
        [0x0e, 0x01, 0x06, number] => Some(*number),
        _ => None,
    }
}

/// The user information of a response.
fn user_of(value: Option<&[u8]>) -> Option<&[u8]>
    ensures { option_map (λ x. x.now) result ≡ on_some (option_map (λ x. x.now) value.entry)
        (inner_at 4) }
{
    inner(value?, 0x04)
}

/// The content of a response with this result, this diagnostic and this user information.
fn answer(number: u8, diagnostic: u8, user: Option<&[u8]>) -> Result<Verdict, AcseFault>
    ensures { result ≡ answer_from number diagnostic (option_map (λ x. x.now) user.entry) }
{
    let user = user_of(user);
    if number == 0 {
        match user {
            None => Err(AcseFault::Short),
            Some(bytes) => response_of(bytes).ok_or(AcseFault::Short),
        }
    } else {
        let initiate = match user {
            None => None,
            Some(bytes) => error_of(bytes),
        };
        Ok(Verdict::Refused {
            diagnostic,
            initiate,
        })
    }
}

/// The content of a response.
fn said(bytes: &[u8]) -> Result<Verdict, AcseFault>
    ensures { result ≡ aare_at bytes.now }
{
    let fields = body(bytes, 0x61)?;
    let number = result_of(find(fields, 0xa2).ok_or(AcseFault::Short)?).ok_or(AcseFault::Short)?;
    let diagnostic = diagnostic_of(find(fields, 0xa3).ok_or(AcseFault::Short)?).ok_or(
        AcseFault::Short,
    )?;
    answer(number, diagnostic, find(fields, 0xbe))
}

/// Reads the response to an association request. A response without a result or a diagnostic, or an accepted one without an
/// initiate response, is `Short`. Other fields are skipped. An accepted one has the size that it says itself.
pub fn read_aare(bytes: &[u8]) -> Result<Verdict, AcseFault>
    // The bytes are a response that says this.
    ensures found { IfOk result (λ v. IsAare bytes.now v) }
    // The content of a response is the result.
    ensures only { (v : Verdict) → IsAare bytes.now v → result ≡ Ok v }
    // Which fault it is.
    ensures exact { result ≡ aare_at bytes.now }
{
    said(bytes)
}
