//! The purpose of a page.
ghost use Rattle.std.specs.Prelude.{◌≡◌};
ghost use Rattle.dlms_journal.specs.Page.{number_of, kind_named};

/// The purpose of a page. Its number is the first byte of the page.
#[derive(Clone, Copy, Debug, PartialEq, Eq)]
pub enum PageKind {
    /// Nothing was written here since the device was formatted.
    Empty,
    /// The gate of a slot whose bodies are whole.
    OpenGate,
    /// The gate of a slot whose bodies may be half written.
    ClosedGate,
    /// A piece of the state.
    Body,
    /// Records of events.
    Journal,
    /// Rows of the load profile.
    Ring,
}

impl PageKind {
    /// The number by which a page says what it is for, from 0 to 5.
    pub fn number(self) -> u8
        ensures { result ≡ number_of self }
    {
        match self {
            PageKind::Empty => 0,
            PageKind::OpenGate => 1,
            PageKind::ClosedGate => 2,
            PageKind::Body => 3,
            PageKind::Journal => 4,
            PageKind::Ring => 5,
        }
    }

    /// The kind of this number.
    pub fn of_number(number: u8) -> Option<PageKind>
        ensures { result ≡ kind_named number }
    {
        match number {
            0 => Some(PageKind::Empty),
            1 => Some(PageKind::OpenGate),
            2 => Some(PageKind::ClosedGate),
            3 => Some(PageKind::Body),
            4 => Some(PageKind::Journal),
            5 => Some(PageKind::Ring),
            _ => None,
        }
    }
}
