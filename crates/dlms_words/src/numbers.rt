//! Numbers in decimal digits.
ghost use Rattle.std.specs.Prelude.{◌<◌, ◌^◌, ℕ, IfSome, IfNone};
ghost use Rattle.dlms_words.specs.Numbers.{IsNumberOf};

/// The number that these digits spell. Leading zeros and any count of digits are taken; there is no sign.
pub fn number(digits: &[u8]) -> Option<u32>
    ensures some { IfSome result (IsNumberOf digits.now) }
    ensures none { IfNone result ((n : ℕ) → n < 2 ^ 32 → IsNumberOf digits.now n → ⊥) }
{
    if digits.is_empty() {
        return None;
    }
    let mut number = 0u32;
    for &digit in digits {
        if !digit.is_ascii_digit() {
            return None;
        }
        let next = u64::from(number) * 10 + u64::from(digit - b'0');
        number = u32::try_from(next).ok()?;
    }
    Some(number)
}
