//! Reading the bytes of a frame.
ghost use Rattle.std.specs.Prelude.{◌≡◌, ◌+◌, ◌-◌, ◌<◌, ◌≤◌, ◌↔◌, ℕ, List, ◌++◌, ◌∷◌, length, take, drop, IsTrue, IfSome, IfNone};
ghost use Rattle.dlms_frame.specs.declared.frame.Address.{Address as AddressOf};
ghost use Rattle.dlms_frame.specs.declared.frame.Header.{Header as HeaderOf};
ghost use Rattle.dlms_frame.specs.Frame.{Parts, FrameSpelling, IsFrame, IsAddress, IsHeader, address_bytes, header_bytes, checked, body_with, body, spelling};

use crate::division::check;
use crate::frame::{Address, Frame, Header};

/// The octet before and after a frame (IEC 62056-46, the flag).
pub(crate) const FLAG: u8 = 0x7e;

/// The format of every frame, the high half of its first octet (IEC 62056-46, the frame format field: type 3).
pub(crate) const FORMAT: usize = 0xa;

/// Whether the last two bytes are the check of those before.
fn is_checked(bytes: &[u8]) -> bool
    requires { 2 ≤ length bytes.now }
    ensures { IsTrue result ↔ (bytes.now ≡ checked (take (length bytes.now - 2) bytes.now)) }
{
    let n = bytes.len();
    let sum = check(&bytes[..n - 2]);
    u16::from(bytes[n - 1]) * 256 + u16::from(bytes[n - 2]) == sum
}

/// The address at the front, and the bytes after it.
fn read_address(bytes: &[u8]) -> Option<(Address, &[u8])>
    ensures found { IfSome result (λ r. IsAddress r.0
        × (bytes.now ≡ address_bytes r.0 ++ r.1.now)) }
    ensures none { IfNone result ((address : AddressOf) (rest : List ℕ)
        → bytes.now ≡ address_bytes address ++ rest → ⊥) }
{
    let (first, rest) = bytes.split_first()?;
    if *first % 2 == 1 {
        return Some((Address::One(*first / 2), rest));
    }
    let (second, rest) = rest.split_first()?;
    if *second % 2 == 1 {
        return Some((Address::Two(*first / 2, *second / 2), rest));
    }
    let (third, rest) = rest.split_first()?;
    let (fourth, rest) = rest.split_first()?;
    if *third % 2 == 1 || *fourth % 2 == 0 {
        return None;
    }
    let high = u16::from(*first / 2) * 128 + u16::from(*second / 2);
    let low = u16::from(*third / 2) * 128 + u16::from(*fourth / 2);
    Some((Address::Four(high, low), rest))
}

/// The header at the front, and the bytes after it.
fn read_header(bytes: &[u8]) -> Option<(Header, &[u8])>
    ensures found { IfSome result (λ r. IsHeader r.0 × (bytes.now ≡ header_bytes r.0 ++ r.1.now)) }
    ensures none { IfNone result ((header : HeaderOf) (rest : List ℕ) → IsHeader header
        → bytes.now ≡ header_bytes header ++ rest → ⊥) }
{
    let (high, rest) = bytes.split_first()?;
    let (low, rest) = rest.split_first()?;
    if *high / 16 != 10 {
        return None;
    }
    let (dest, rest) = read_address(rest)?;
    let (src, rest) = read_address(rest)?;
    let (control, rest) = rest.split_first()?;
    let len = usize::from(*high) % 8 * 256 + usize::from(*low);
    let segmented = *high / 8 % 2 == 1;
    Some((
        Header {
            segmented,
            len,
            dest,
            src,
            control: *control,
        },
        rest,
    ))
}

/// The information after a header of `at` bytes.
fn info_of(bytes: &[u8], at: usize) -> Option<&[u8]>
    requires { at ≤ length bytes.now }
    ensures found { IfSome result (λ info. bytes.now ≡ body_with (take at bytes.now) info.now) }
    ensures none { IfNone result ((info : List ℕ) → bytes.now ≡ body_with (take at bytes.now) info
        → ⊥) }
{
    let n = bytes.len();
    let rest = n - at;
    if rest == 2 {
        if !is_checked(bytes) {
            return None;
        }
        return Some(&bytes[n..]);
    }
    // The header's check first: it's short, and few bytes that are no frame pass it.
    if rest < 5 || !is_checked(&bytes[..at + 2]) {
        return None;
    }
    if !is_checked(bytes) {
        return None;
    }
    Some(&bytes[at + 2..n - 2])
}

/// The frame that these bytes are, without its flags.
fn read_body(bytes: &[u8]) -> Option<Frame<'_>>
    ensures found { IfSome result (λ f. IsFrame f × (bytes.now ≡ body f)) }
    ensures none { IfNone result ((f : Parts) → IsFrame f → bytes.now ≡ body f → ⊥) }
{
    let (header, rest) = read_header(bytes)?;
    let n = bytes.len();
    if header.len != n {
        return None;
    }
    let info = info_of(bytes, n - rest.len())?;
    Some(Frame {
        segmented: header.segmented,
        dest: header.dest,
        src: header.src,
        control: header.control,
        info,
    })
}

/// The frame that these bytes are.
pub(crate) fn read(bytes: &[u8]) -> Option<Frame<'_>>
    ensures found { IfSome result (λ f. FrameSpelling bytes.now f) }
    ensures none { IfNone result ((f : Parts) → FrameSpelling bytes.now f → ⊥) }
{
    let n = bytes.len();
    if n < 2 || bytes[0] != FLAG || bytes[n - 1] != FLAG {
        return None;
    }
    read_body(&bytes[1..n - 1])
}
