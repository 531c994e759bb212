//! Names of attributes and methods.

ghost use Rattle.std.specs.Prelude.{◌≡◌, ◌<◌, ℕ, [], ◌∷◌, None, Some, IfNone, IfSome, MatchOption, true};
ghost use Rattle.dlms_text.specs.Names.{AreGroups, IsName, IsNamed};
ghost use Rattle.dlms_text.specs.Texts.{IsBelow, before, behind, has};

use crate::texts::{cut, octet};

/// An object by its logical name (OBIS code), and the number of an attribute or a method of it.
#[derive(Clone, Copy, Debug, PartialEq, Eq)]
pub struct Name {
    pub code: [u8; 6],
    pub number: Option<u8>,
}

/// The value group before the first point, and the text after it.
pub fn group(text: &str) -> Option<(u8, &str)>
    ensures { MatchOption result ((n : ℕ) → has 46 text.now ≡ true
        → IsBelow 256 (before 46 text.now) n → ⊥)
        (λ x. (has 46 text.now ≡ true) × IsBelow 256 (before 46 text.now) x.0
        × (x.1.now ≡ behind 46 text.now)) }
{
    let (digits, rest) = cut(text, '.')?;
    Some((octet(digits)?, rest))
}

/// The six value groups of a code.
pub fn code(text: &str) -> Option<[u8; 6]>
    ensures some { IfSome result (AreGroups text.now) }
    ensures none { IfNone result ((a b c d e f : ℕ)
        → AreGroups text.now (a ∷ b ∷ c ∷ d ∷ e ∷ f ∷ []) → ⊥) }
{
    let (a, rest) = group(text)?;
    let (b, rest) = group(rest)?;
    let (c, rest) = group(rest)?;
    let (d, rest) = group(rest)?;
    let (e, rest) = group(rest)?;
    Some([a, b, c, d, e, octet(rest)?])
}

/// The name of a code and of a number of 1 to 255.
fn numbered(groups: &str, digits: &str) -> Option<Name>
    ensures some { IfSome result (λ name. AreGroups groups.now name.code
        × ((n : ℕ) × (name.number ≡ Some n) × IsBelow 256 digits.now n × (0 < n))) }
    ensures none { IfNone result ((a b c d e f n : ℕ)
        → AreGroups groups.now (a ∷ b ∷ c ∷ d ∷ e ∷ f ∷ []) → IsBelow 256 digits.now n → 0 < n
        → ⊥) }
{
    let code = code(groups)?;
    let number = octet(digits)?;
    if number == 0 {
        return None;
    }
    Some(Name {
        code,
        number: Some(number),
    })
}

/// The name that a text writes: a code such as `1.0.1.8.0.255`, and after a slash, if there is one, the number of an attribute or a
/// method, 1 to 255, as in `1.0.99.1.0.255/3`.
pub fn name_of(text: &str) -> Option<Name>
    ensures some { IfSome result (IsName text.now) }
    ensures none { IfNone result ((a b c d e f : ℕ)
        → IsNamed text.now (a ∷ b ∷ c ∷ d ∷ e ∷ f ∷ []) None → ⊥) }
    ensures no_number { IfNone result ((a b c d e f n : ℕ)
        → IsNamed text.now (a ∷ b ∷ c ∷ d ∷ e ∷ f ∷ []) (Some n) → ⊥) }
{
    match cut(text, '/') {
        Some((groups, digits)) => numbered(groups, digits),
        None => Some(Name {
            code: code(text)?,
            number: None,
        }),
    }
}
