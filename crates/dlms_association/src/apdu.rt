//! An outgoing APDU.

use arrayvec::ArrayVec;
use std::marker::Model;

/// The most octets of an outgoing APDU.
pub const MOST_APDU: usize = 1024;

/// An outgoing APDU. It owns its octets.
#[derive(Drop)]
pub struct Apdu {
    octets: ArrayVec<u8, MOST_APDU>,
}

impl Model for Apdu {
    ghost use Rattle.std.specs.Prelude.{List, ℕ, ◌≤◌, length};
    ghost use Rattle.dlms_association.specs.declared.apdu.TheConstants.{MOST_APDU};

    ghost Value = { List ℕ };

    ghost view = { λ a. a.octets.items };

    ghost invariant = { λ a. length a.octets.items ≤ MOST_APDU };
}

impl Apdu {
    ghost use Rattle.std.specs.Prelude.{◌≡◌, ◌≤◌, length};

    /// An APDU of these octets.
    pub fn new(octets: &[u8]) -> Apdu
        requires { length octets.now ≤ MOST_APDU }
        ensures { result ≡ octets.now }
    {
        let mut own = ArrayVec::new();
        let _ = own.try_extend_from_slice(octets);
        Apdu { octets: own }
    }

    /// The octets of the APDU.
    pub fn as_slice(&self) -> &[u8]
        ensures octets { result.now ≡ self.now }
        ensures short { length result.now ≤ MOST_APDU }
    {
        self.octets.as_slice()
    }
}
