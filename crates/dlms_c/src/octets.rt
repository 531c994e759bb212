//! Calls over a caller's octets, which keep nothing.
ghost use Rattle.std.specs.Prelude.{◌≡◌, ◌<◌, ◌≤◌, ◌+◌, ◌-◌, ◌^◌, ◌↔◌, ℕ, true, false, [], List, length, take, drop, IsTrue};
ghost use Rattle.dlms_data.specs.Spelling.{IsSpelling};
ghost use Rattle.dlms_data.specs.Value.{Value};
ghost use Rattle.dlms_frame.specs.Check.{check_of};
ghost use Rattle.dlms_frame.specs.Frame.{Parts};
ghost use Rattle.dlms_frame.specs.Stream.{FramesOf, IsNext};
ghost use Rattle.dlms_c.specs.Place.{IsFirst, address_of};

use dlms_data::is_value;
use dlms_frame::{Address, Deframer};

/// The check sequence over these octets, a number of 16 bits. Its low octet goes first on the line.
#[unsafe(no_mangle)]
pub extern "C" fn dlms_check(octets: &[u8]) -> u16
    ensures { result ≡ check_of octets.now }
{
    dlms_frame::check(octets)
}

/// Whether all of the octets are the A-XDR of one value.
#[unsafe(no_mangle)]
pub extern "C" fn dlms_is_value(octets: &[u8]) -> bool
    ensures { IsTrue result ↔ ((value : Value) × IsSpelling octets.now value) }
{
    is_value(octets)
}

/// An address of a frame: 1, 2 or 4 octets, whose upper part is a client's address or a logical device. With one octet
/// the lower part is 0.
#[repr(C)]
#[derive(Clone, Copy)]
pub struct FrameAddress {
    pub octets: u8,
    pub upper: u16,
    pub lower: u16,
}

/// A frame in a buffer.
#[repr(C)]
#[derive(Clone, Copy)]
pub struct FramePlace {
    /// The number of octets before its opening flag.
    pub start: usize,
    /// How many octets the buffer has up to and with its closing flag.
    pub end: usize,
    /// The number of octets before its information, and of the information itself.
    pub information: usize,
    pub information_length: usize,
    pub destination: FrameAddress,
    pub source: FrameAddress,
    pub control: u8,
    pub is_segmented: bool,
}

fn told(address: Address) -> FrameAddress
    ensures { result ≡ address_of address }
{
    match address {
        Address::One(upper) => FrameAddress {
            octets: 1,
            upper: u16::from(upper),
            lower: 0,
        },
        Address::Two(upper, lower) => FrameAddress {
            octets: 2,
            upper: u16::from(upper),
            lower: u16::from(lower),
        },
        Address::Four(upper, lower) => FrameAddress {
            octets: 4,
            upper,
            lower,
        },
    }
}

/// Finds the first complete frame in these octets: of those that end first, the one that begins earliest. Returns whether there is
/// one; without one, the place is left as it was.
#[unsafe(no_mangle)]
pub extern "C" fn dlms_next_frame(octets: &[u8], place: &mut FramePlace) -> bool
    ensures found { result ≡ true → (f : Parts) × IsFirst octets.now place.new f }
    ensures none { result ≡ false → FramesOf octets.now 0 [] }
    ensures left { result ≡ false → place.new ≡ place.old }
{
    let mut deframer = Deframer::new();
    let end = deframer.feed(octets);
    let Some(frame) = deframer.frame() else {
        return false;
    };
    let start = end - (frame.len() + 2);
    *place = FramePlace {
        start,
        end,
        information: start + 6 + frame.dest.len() + frame.src.len(),
        information_length: frame.info.len(),
        destination: told(frame.dest),
        source: told(frame.src),
        control: frame.control,
        is_segmented: frame.segmented,
    };
    true
}
