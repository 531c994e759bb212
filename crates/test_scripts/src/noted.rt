//! What was asked of clocks, a port and files of secrets in a test.

ghost use Rattle.std.specs.Prelude.{◌≡◌, true};

use std::alloc::Global;
use std::io;
use std::net::{Ipv4Addr, SocketAddr};

/// What was asked, by its number: the second of the steady clock (0), whether another connection waits (1), the next one (2), that
/// it is made ready (3), that its address is barred (4), that a while goes by (5), that the steady clock begins (6), the clock of
/// the day (7), and the secret in a file (8). And what came of it.
#[derive(Drop)]
pub struct Noted {
    pub number: u8,
    pub second: u64,
    pub is_so: bool,
    pub failed: Option<io::Error>,
    pub address: SocketAddr,
    pub file: Vec<u8>,
    pub bytes: Vec<u8>,
}

impl Noted {
    /// Something that was asked of a clock or a port.
    pub fn of(
        alloc: Global,
        number: u8,
        second: u64,
        is_so: bool,
        failed: Option<io::Error>,
    ) -> Self
        ensures number { result.number ≡ number }
        ensures second { result.second ≡ second }
        ensures is_so { result.is_so ≡ is_so }
        ensures failed { result.failed ≡ failed }
    {
        Noted {
            number,
            second,
            is_so,
            failed,
            address: SocketAddr::from((Ipv4Addr::LOCALHOST, 4_059u16)),
            file: Vec::new(alloc),
            bytes: Vec::new(alloc),
        }
    }

    /// Something that was asked of a port, of a connection from this address.
    pub fn from(
        alloc: Global,
        number: u8,
        second: u64,
        failed: Option<io::Error>,
        address: SocketAddr,
    ) -> Self
        ensures number { result.number ≡ number }
        ensures second { result.second ≡ second }
        ensures is_so { result.is_so ≡ true }
        ensures failed { result.failed ≡ failed }
        ensures address { result.address ≡ address }
    {
        let mut noted = Noted::of(alloc, number, second, true, failed);
        noted.address = address;
        noted
    }
}

/// Whether these were the numbers, and no others.
pub fn are_numbered(noted: &[Noted], numbers: &[u8]) -> bool {
    noted.len() == numbers.len()
        && noted
            .iter()
            .zip(numbers.iter())
            .all(|(noted, number)| noted.number == *number)
}
