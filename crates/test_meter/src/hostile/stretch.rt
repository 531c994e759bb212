//! The frames in bytes, by IEC 62056-46, 6.4.1, and independent of the crate that finds them: the check is a division bit by bit,
//! and each place is tried.

ghost use Rattle.std.specs.Prelude.{◌≤◌, IfSome};

const FLAG: u8 = 0x7e;

/// The frame check sequence: x^16 + x^12 + x^5 + 1, low bits first, from FFFF, inverted.
pub fn check_of(bytes: &[u8]) -> u16 {
    let mut rest = 0xffffu16;
    for byte in bytes {
        rest ^= u16::from(*byte);
        for _ in 0..8u8 {
            rest = if rest % 2 == 1 {
                rest / 2 ^ 0x8408
            } else {
                rest / 2
            };
        }
    }
    !rest
}

/// Whether the last two bytes are the check of those before them.
fn is_checked(bytes: &[u8]) -> bool {
    match bytes {
        [front @ .., low, high] => check_of(front).to_le_bytes() == [*low, *high],
        _ => false,
    }
}

/// How many bytes an address has: 1, 2 or 4, of which only the last one has the low bit 1.
pub fn address_len(bytes: &[u8]) -> Option<usize>
    ensures { IfSome result (λ len. len ≤ 4) }
{
    match bytes {
        [first, ..] if first % 2 == 1 => Some(1),
        [_, second, ..] if second % 2 == 1 => Some(2),
        [_, _, third, fourth, ..] if third % 2 == 0 && fourth % 2 == 1 => Some(4),
        _ => None,
    }
}

/// The number of bytes before the first check: format, destination, source and control.
pub fn header_len(body: &[u8]) -> Option<usize>
    ensures { IfSome result (λ len. len ≤ 11) }
{
    let destination = address_len(body.get(2..)?)?;
    let source = address_len(body.get(2 + destination..)?)?;
    Some(3 + destination + source)
}

/// Whether the bytes between two flags are a frame: its last check alone after the header, or the header's check, information and a
/// last check.
fn is_body(body: &[u8]) -> bool {
    let Some(header) = header_len(body) else {
        return false;
    };
    let has_information = body.len() > header + 4;
    let is_header_checked = match body.get(..header + 2) {
        Some(front) => is_checked(front),
        None => false,
    };
    is_header_checked && (body.len() == header + 2 || has_information && is_checked(body))
}

/// Whether bytes, flags included, are one frame: bits 1010, the segmentation bit, and the number of bytes between the flags.
pub fn is_frame(bytes: &[u8]) -> bool {
    let [FLAG, body @ .., FLAG] = bytes else {
        return false;
    };
    match body {
        [format, low, ..] => {
            format / 16 == 0xa
                && usize::from(format % 8) * 256 + usize::from(*low) == body.len()
                && is_body(body)
        }
        _ => false,
    }
}

/// The next frame from a place on, by the places of its flags: its closing flag stands earliest, and of those that end there
/// it begins earliest.
pub fn next_frame(stretch: &[u8], place: usize) -> Option<(usize, usize)> {
    for (end, byte) in stretch.iter().enumerate().skip(place) {
        if *byte == FLAG {
            for begin in place..end {
                if stretch.get(begin..=end).is_some_and(is_frame) {
                    return Some((begin, end));
                }
            }
        }
    }
    None
}
