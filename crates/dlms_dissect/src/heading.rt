//! The head of a frame.

ghost use Rattle.std.specs.Prelude.{◌≡◌};
ghost use Rattle.dlms_dissect.specs.Heading.{heading_of};

use dlms_frame::{Address, Frame};

/// The reported content of a frame besides its information.
#[derive(Clone, Copy)]
pub struct Heading {
    pub segmented: bool,
    pub dest: Address,
    pub src: Address,
    pub control: u8,
    /// Whether there is information.
    pub has_information: bool,
    /// How many bytes stand between the flags.
    pub len: usize,
}

/// The head of a frame.
pub fn heading_of(frame: &Frame<'_>) -> Heading
    ensures { result ≡ heading_of frame.now }
{
    Heading {
        segmented: frame.segmented,
        dest: frame.dest,
        src: frame.src,
        control: frame.control,
        has_information: !frame.info.is_empty(),
        len: frame.len(),
    }
}
