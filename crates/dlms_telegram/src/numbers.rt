//! The values of a telegram.

ghost use Rattle.std.specs.Prelude.{◌≡◌, ◌<◌, ◌/◌, ◌%◌, ◌∷◌, [], true, IfSome};
ghost use Rattle.dlms_telegram.specs.Line.{AreDigits, IsNumber, IsParted, is_digit, moment_of, number_after, status_of};
ghost use Rattle.dlms_telegram.specs.Telegram.{is_digit_of};

use crate::lines::split_at;

/// A decimal number and its unit.
#[derive(Clone, Copy)]
pub struct Number<'a> {
    /// Its digits without the point.
    pub mantissa: u64,
    /// How many of these are after the point.
    pub decimals: usize,
    /// The unit as it is written, such as kWh; empty without one.
    pub unit: &'a [u8],
}

/// Whether an octet is a decimal digit.
fn is_digit(octet: u8) -> bool
    ensures { result ≡ is_digit octet }
{
    0x30 <= octet && octet <= 0x39
}

/// The number with these digits after those before, if all are digits and the number fits.
pub(crate) fn digits(before: u64, text: &[u8]) -> Option<u64>
    ensures number { IfSome result (λ n. n ≡ number_after before text.now) }
    ensures digits { IfSome result (λ _. AreDigits text.now) }
{
    let mut number = before;
    for octet in text {
        if !is_digit(*octet) {
            return None;
        }
        number = number
            .checked_mul(10)?
            .checked_add(u64::from(*octet - 0x30))?;
    }
    Some(number)
}

/// The octets before the first of a kind, and those after it; all, and none, if there is no such octet.
fn parted(octets: &[u8], mark: u8) -> (&[u8], &[u8])
    ensures { IsParted octets.now mark result.0.now result.1.now }
{
    match split_at(octets, mark) {
        Some((before, after)) => (before, after),
        None => (octets, &[]),
    }
}

/// The number that a value is: digits, perhaps with a point between them, perhaps a star and a unit.
pub fn number_in(value: &[u8]) -> Option<Number<'_>>
    ensures { IfSome result (λ n. IsNumber value.now n.mantissa n.decimals n.unit.now) }
{
    let (number, unit) = parted(value, b'*');
    let (whole, fraction) = parted(number, b'.');
    if whole.is_empty() {
        return None;
    }
    let before = digits(0, whole)?;
    let mantissa = digits(before, fraction)?;
    Some(Number {
        mantissa,
        decimals: fraction.len(),
        unit,
    })
}

/// The number of two digits.
fn pair(high: u8, low: u8) -> Option<u8>
    ensures { IfSome result (λ n. n ≡ number_after 0 (high ∷ low ∷ [])) }
{
    if is_digit(high) && is_digit(low) {
        Some((high - 0x30) * 10 + (low - 0x30))
    } else {
        None
    }
}

/// The status of a clock in summer, S, and in winter, W (IEC 62056-6-2, date-time).
fn status_of(season: u8) -> Option<u8>
    ensures { IfSome result (λ s. s ≡ status_of season) }
{
    match season {
        b'S' => Some(0x80),
        b'W' => Some(0),
        _ => None,
    }
}

/// The date-time that a value is, YYMMDDhhmmss and S or W, with its deviation left open.
pub fn moment_in(value: &[u8]) -> Option<[u8; 12]>
    ensures { IfSome result (λ t. t ≡ moment_of value.now) }
{
    let [a, b, c, d, e, f, g, h, i, j, k, l, season] = value else {
        return None;
    };
    let [high, low] = (2000 + u16::from(pair(*a, *b)?)).to_be_bytes();
    Some([
        high,
        low,
        pair(*c, *d)?,
        pair(*e, *f)?,
        0xff,
        pair(*g, *h)?,
        pair(*i, *j)?,
        pair(*k, *l)?,
        0xff,
        0x80,
        0,
        status_of(*season)?,
    ])
}

/// The number of a hexadecimal digit.
fn hexadecimal(digit: u8) -> Option<u8>
    ensures { IfSome result (λ n. (n < 16) × (is_digit_of n digit ≡ true)) }
{
    match digit {
        b'0'..=b'9' => Some(digit - 0x30),
        b'A'..=b'F' => Some(digit - 0x37),
        b'a'..=b'f' => Some(digit - 0x57),
        _ => None,
    }
}

/// The printable character that two hexadecimal digits are, as the identifiers of equipment are written.
pub fn character_in(high: u8, low: u8) -> Option<u8>
    ensures { IfSome result (λ c. (is_digit_of (c / 16) high ≡ true)
        × (is_digit_of (c % 16) low ≡ true)) }
{
    let octet = hexadecimal(high)? * 16 + hexadecimal(low)?;
    if 0x20 <= octet && octet < 0x7f {
        Some(octet)
    } else {
        None
    }
}
