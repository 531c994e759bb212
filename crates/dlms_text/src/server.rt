//! Addresses of a meter that a text writes.

ghost use Rattle.std.specs.Prelude.{ℕ, IfNone, IfSome};
ghost use Rattle.dlms_text.specs.Servers.{IsParts, IsServer};
ghost use Rattle.dlms_text.specs.Texts.{IsBelow};

use crate::texts::{cut, number};
use dlms_frame::Address;

/// From here on a part of an address needs two octets, and from there on more.
const SHORT: u16 = 128;

const LONG: u16 = 16_384;

/// The number below this bound that these digits write.
fn below(digits: &str, bound: u16) -> Option<u16>
    ensures some { IfSome result (IsBelow bound digits.now) }
    ensures none { IfNone result ((n : ℕ) → IsBelow bound digits.now n → ⊥) }
{
    let number = u16::try_from(number(digits)?).ok()?;
    if number < bound { Some(number) } else { None }
}

/// The address of two parts.
fn parted(upper: &str, lower: &str, wide: bool) -> Option<Address>
    ensures some { IfSome result (IsParts wide upper.now lower.now) }
    ensures none { IfNone result ((address : Address) → IsParts wide upper.now lower.now address
        → ⊥) }
{
    let upper = below(upper, LONG)?;
    let lower = below(lower, LONG)?;
    if wide || upper >= SHORT || lower >= SHORT {
        Some(Address::Four(upper, lower))
    } else {
        Some(Address::Two(upper as u8, lower as u8))
    }
}

/// The address of a meter that a text writes: an upper address, 0 to 127, in one octet; or an upper and a lower one, with a slash
/// between them, in two octets where both are below 128, in four where `wide` asks for that or one of them is 128 to 16,383.
#[tactic(auto, using(crate::proofs::ServerLemmas::parts_are_server, crate::proofs::ServerLemmas::server_has_parts))]
pub fn server_of(text: &str, wide: bool) -> Option<Address>
    ensures some { IfSome result (IsServer wide text.now) }
    ensures none { IfNone result ((address : Address) → IsServer wide text.now address → ⊥) }
{
    match cut(text, '/') {
        Some((upper, lower)) => match parted(upper, lower, wide) {
            Some(address) => Some(address),
            None => None,
        },
        None if wide => None,
        None => Some(Address::One(below(text, SHORT)? as u8)),
    }
}
