//! Bytes that are no frame.

ghost use Rattle.std.specs.Prelude.{◌<◌, ◌≤◌, length, IfSome};

use dlms_frame::check;

/// The octet before and after a frame.
const FLAG: u8 = 0x7e;

/// What is wrong with bytes between flags, as in a frame.
#[derive(Clone, Copy)]
pub enum Damage {
    /// There is no information, and the check is another one.
    Check,
    /// There is information: whether the check of the header is right, and that of the frame.
    Checks { header: bool, frame: bool },
    /// The addresses are not where they belong, or there is no space for a frame's parts.
    Form,
}

/// A piece of bytes that are no frame.
#[derive(Clone, Copy)]
pub struct Piece {
    pub len: usize,
    /// What is wrong if it has a frame's flags and length.
    pub damage: Option<Damage>,
}

/// Whether the last two bytes are the check of those before.
fn is_checked(bytes: &[u8]) -> bool {
    match bytes {
        [front @ .., low, high] => check(front) == u16::from(*high) * 256 + u16::from(*low),
        _ => false,
    }
}

/// How many bytes an address at the front has.
fn address_len(bytes: &[u8]) -> Option<usize>
    ensures { IfSome result (λ len. len ≤ 4) }
{
    match bytes {
        [a, ..] if *a % 2 == 1 => Some(1),
        [_, b, ..] if *b % 2 == 1 => Some(2),
        [_, _, c, d, ..] if *c % 2 == 0 && *d % 2 == 1 => Some(4),
        _ => None,
    }
}

/// The number of bytes before the information and its check: the format, the addresses, the control field.
fn header_len(body: &[u8]) -> Option<usize>
    ensures { IfSome result (λ len. len ≤ 11) }
{
    if body.len() < 2 {
        return None;
    }
    let rest = &body[2..];
    let dest = address_len(rest)?;
    if dest > rest.len() {
        return None;
    }
    let src = address_len(&rest[dest..])?;
    Some(3 + dest + src)
}

/// What is wrong between two flags.
fn damage_of(body: &[u8]) -> Damage {
    let Some(header) = header_len(body) else {
        return Damage::Form;
    };
    if body.len() == header + 2 {
        return Damage::Check;
    }
    if body.len() < header + 5 {
        return Damage::Form;
    }
    Damage::Checks {
        header: is_checked(&body[..header + 2]),
        frame: is_checked(body),
    }
}

/// How many bytes, its flags among them, what has the flags, the format and the length of a frame has at the front.
fn framed_len(bytes: &[u8]) -> Option<usize>
    ensures least { IfSome result (λ len. 4 ≤ len) }
    ensures within { IfSome result (λ len. len ≤ length bytes.now) }
{
    match bytes {
        [FLAG, high, low, ..] if *high / 16 == 0xa => {
            let len = usize::from(*high % 8) * 256 + usize::from(*low);
            if len < 2 || len + 2 > bytes.len() || bytes[len + 1] != FLAG {
                return None;
            }
            Some(len + 2)
        }
        _ => None,
    }
}

/// The first piece of bytes that are no frame: one with the form of a frame, or the bytes before that.
pub fn first_piece(bytes: &[u8]) -> Piece
    ensures some { 0 < length bytes.now → 0 < result.len }
    ensures within { result.len ≤ length bytes.now }
{
    if let Some(len) = framed_len(bytes) {
        return Piece {
            len,
            damage: Some(damage_of(&bytes[1..len - 1])),
        };
    }
    for at in 1..bytes.len() {
        if framed_len(&bytes[at..]).is_some() {
            return Piece {
                len: at,
                damage: None,
            };
        }
    }
    Piece {
        len: bytes.len(),
        damage: None,
    }
}
