//! Why an association's bytes could not be read.

ghost use Rattle.std.specs.Prelude.{◌≡◌};
ghost use Rattle.dlms_acse.specs.Fault.{number_of};

use thiserror::Error;

/// Why the bytes could not be read: the first cause from left to right.
#[derive(Clone, Copy, Debug, PartialEq, Eq, Error)]
pub enum AcseFault {
    /// The bytes end before a length says, or a field that has to be there is not.
    #[error("the bytes end too soon")]
    Short,
    /// The first byte is that of another APDU.
    #[error("another APDU")]
    Tag,
    /// A length begins with 80, or with 83 to FF, or bytes follow the whole.
    #[error("no length begins so, or bytes follow the end")]
    Length,
    /// A tag stands twice.
    #[error("a tag occurs twice")]
    Repeated,
}

impl AcseFault {
    /// The fault's number, from 1 for `Short` to 4 for `Repeated`.
    pub fn number(self) -> u8
        ensures { result ≡ number_of self }
    {
        match self {
            AcseFault::Short => 1,
            AcseFault::Tag => 2,
            AcseFault::Length => 3,
            AcseFault::Repeated => 4,
        }
    }
}
