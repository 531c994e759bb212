//! Fields of an APDU: tags, lengths and what they count.

ghost use Rattle.std.specs.Prelude.{◌≡◌, ◌≤◌, ◌<◌, ◌+◌, [], length, IfOk, option_map, replicate, false};
ghost use Rattle.dlms_acse.specs.Reading.{Tells, is_longer, told, octets_at, checked_at, find_at, body_at};

use crate::fault::AcseFault;
use dlms_data::DataFault;

/// Whether a length begins here that has more bytes than so many.
fn is_longer(bytes: &[u8], most: u8) -> bool
    requires { most ≤ 4 }
    ensures { result ≡ is_longer most bytes.now }
{
    match bytes {
        [] => false,
        [first, ..] => 0x80 + most < *first,
    }
}

/// The fault for a fault in a length.
fn told(fault: DataFault) -> AcseFault
    ensures { result ≡ told fault }
{
    match fault {
        DataFault::Short => AcseFault::Short,
        _ => AcseFault::Length,
    }
}

/// A length and its content, and the bytes after that: BER's spelling of a length is A-XDR's, with at most `most` bytes.
pub(crate) fn take_content(bytes: &[u8], most: u8) -> Result<(&[u8], &[u8]), AcseFault>
    requires { most ≤ 4 }
    ensures exact { Tells (λ x. (x.0.now, x.1.now)) result (octets_at most bytes.now) }
    ensures within { IfOk result (λ x. length x.1.now ≤ length bytes.now) }
{
    if is_longer(bytes, most) {
        return Err(AcseFault::Length);
    }
    match dlms_data::counted(bytes) {
        Ok(parts) => Ok(parts),
        Err(fault) => Err(told(fault)),
    }
}

/// A table of tags in which none was seen.
fn no_tags() -> [bool; 256]
    ensures { result ≡ replicate 256 false }
{
    [false; 256]
}

/// Whether fields stand here, each tag at most once.
fn check(bytes: &[u8]) -> Result<(), AcseFault>
    ensures { result ≡ checked_at (length bytes.now) [] bytes.now }
{
    let mut seen = no_tags();
    let mut rest = bytes;
    while let Some((tag, behind)) = rest.split_first() {
        let tag = usize::from(*tag);
        if seen[tag] {
            return Err(AcseFault::Repeated);
        }
        seen[tag] = true;
        (_, rest) = take_content(behind, 2)?;
    }
    Ok(())
}

/// The value of the field with this tag.
pub(crate) fn find(bytes: &[u8], tag: u8) -> Option<&[u8]>
    ensures { option_map (λ x. x.now) result ≡ find_at (length bytes.now) tag bytes.now }
{
    let mut rest = bytes;
    while let Some((first, behind)) = rest.split_first() {
        let (value, after) = take_content(behind, 2).ok()?;
        if *first == tag {
            return Some(value);
        }
        rest = after;
    }
    None
}

/// The fields of an APDU with this tag.
#[tactic(auto, unfolding(crate::specs::Reading::body_at))]
pub(crate) fn body(bytes: &[u8], tag: u8) -> Result<&[u8], AcseFault>
    ensures { Tells (λ x. x.now) result (body_at tag bytes.now) }
{
    match bytes {
        [] => Err(AcseFault::Short),
        [first, rest @ ..] => {
            if *first != tag {
                return Err(AcseFault::Tag);
            }
            let (fields, behind) = take_content(rest, 2)?;
            check(fields)?;
            if !behind.is_empty() {
                return Err(AcseFault::Length);
            }
            Ok(fields)
        }
    }
}
