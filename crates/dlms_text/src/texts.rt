//! Parts of a text, and numbers in decimal digits.

ghost use Rattle.std.specs.Prelude.{◌≡◌, ◌<◌, ◌^◌, ℕ, ℤ, IfNone, IfSome, MatchOption, true, false};
ghost use Rattle.dlms_text.specs.Texts.{IsBelow, IsSigned, before, behind, has};

/// The text before the first occurrence of this octet of ASCII, and the text after it; `None` if it does not occur.
pub fn cut(text: &str, octet: char) -> Option<(&str, &str)>
    requires { octet < 128 }
    ensures { MatchOption result (has octet text.now ≡ false) (λ x. (has octet text.now ≡ true)
        × (x.0.now ≡ before octet text.now) × (x.1.now ≡ behind octet text.now)) }
{
    text.split_once(octet)
}

/// The number below 2^64 that these digits write.
pub fn number(digits: &str) -> Option<u64>
    ensures some { IfSome result (IsBelow (2 ^ 64) digits.now) }
    ensures none { IfNone result ((n : ℕ) → IsBelow (2 ^ 64) digits.now n → ⊥) }
{
    if *digits.as_bytes().first()? == b'+' {
        return None;
    }
    digits.parse::<u64>().ok()
}

/// The number below 256 that these digits write.
pub fn octet(digits: &str) -> Option<u8>
    ensures some { IfSome result (IsBelow 256 digits.now) }
    ensures none { IfNone result ((n : ℕ) → IsBelow 256 digits.now n → ⊥) }
{
    u8::try_from(number(digits)?).ok()
}

/// The number, at least -2^63 and below 2^63, that these digits write, with a minus before them if it is below 0.
pub fn signed(text: &str) -> Option<i64>
    ensures some { IfSome result (IsSigned (2 ^ 63) text.now) }
    ensures none { IfNone result ((z : ℤ) → IsSigned (2 ^ 63) text.now z → ⊥) }
{
    if *text.as_bytes().first()? == b'+' {
        return None;
    }
    text.parse::<i64>().ok()
}
