//! The keys of stations, as the page sends them. They open ciphered APDUs as `dlms explain --keys` does with a file of these stations.
ghost use Rattle.std.specs.Prelude.{◌≡◌, ◌≤◌, ◌↔◌, IsTrue, IsNone, IfOk, IfSome, MatchResult, Ok, Err, None, option_map, take, drop};
ghost use Rattle.dlms_keys.specs.Keyring.{opening_among};
ghost use Rattle.dlms_web.specs.Stations.{AreStations, keyring_in, station_in, stations_in};

use dlms_keys::{Keyring, Station};
use dlms_room::RoomHeap;
use dlms_security::{Closed, Known, Opener, Plain};
use std::alloc::AllocError;

/// The octets of a station: a system title of 8, an encryption key of 16, one that is 0 if there is no authentication key, and the
/// authentication key of 16.
const STATION: usize = 41;

/// Where each begins.
const ENCRYPTION: usize = 8;

const HAS_AUTHENTICATION: usize = 24;

const AUTHENTICATION: usize = 25;

/// The most stations, as in a file.
const MOST_STATIONS: usize = 256;

/// The keys that the page sent: those of stations, or none.
#[derive(Clone, Copy)]
pub struct PageKeys {
    keyring: Option<Keyring<'static>>,
}

/// Whether octets are those of stations, and of at most 256.
pub fn are_stations(octets: &[u8]) -> bool
    ensures { IsTrue result ↔ AreStations octets.now }
{
    octets.len() % STATION == 0 && octets.len() <= STATION * MOST_STATIONS
}

/// The 16 octets of a key, from this place on.
fn key_at(octets: &[u8; STATION], at: usize) -> [u8; 16]
    requires { at ≤ 25 }
    ensures { result ≡ take 16 (drop at octets.now) }
{
    let mut key = [0; 16];
    key.copy_from_slice(&octets[at..at + 16]);
    key
}

/// The station of these octets.
fn station_of(octets: &[u8; STATION]) -> Station
    ensures { result ≡ station_in octets.now }
{
    let mut title = [0; 8];
    title.copy_from_slice(&octets[..ENCRYPTION]);
    let has_authentication = octets[HAS_AUTHENTICATION] != 0;
    Station {
        title,
        encryption_key: key_at(octets, ENCRYPTION),
        authentication_key: has_authentication.then_some(key_at(octets, AUTHENTICATION)),
    }
}

/// The stations of these octets, in a heap that is never given back.
#[tactic(auto, using(crate::proofs::StationLemmas::stations_more))]
fn stations_of(heap: &'static RoomHeap, octets: &[u8]) -> Result<&'static [Station], AllocError>
    ensures { IfOk result (λ stations. stations.now ≡ stations_in octets.now) }
{
    let (parts, _) = octets.as_chunks::<STATION>();
    let mut stations = Vec::new(heap);
    for part in parts {
        stations.push(station_of(part))?;
    }
    Ok(stations.leak())
}

impl PageKeys {
    /// The keys of the stations of these octets, which are kept in a heap; none if there are no octets.
    pub fn over(heap: &'static RoomHeap, octets: &[u8]) -> Result<PageKeys, AllocError>
        ensures { IfOk result (λ keys. option_map (λ keyring. keyring.stations.now) keys.keyring
            ≡ keyring_in octets.now) }
    {
        if octets.is_empty() {
            return Ok(PageKeys { keyring: None });
        }
        let stations = stations_of(heap, octets)?;
        Ok(PageKeys {
            keyring: Some(Keyring::over(stations)),
        })
    }

    /// Returns the APDU in a message of a log, or why it is not opened; `None` without keys.
    fn open_message(&self, known: &Known, message: &[u8]) -> Option<Result<Plain, Closed>>
        ensures none { IsNone result ↔ (self.now.keyring ≡ None) }
        ensures some { IfSome result (λ opened. IfSome self.now.keyring (λ keyring.
            let by = opening_among keyring.stations.now known.now message.now in
            MatchResult opened (λ plain. by ≡ Ok plain.apdu.items) (λ closed. by ≡ Err closed))) }
    {
        match self.keyring {
            Some(keyring) => Some(keyring.open_message(known, message)),
            None => None,
        }
    }
}

impl Opener for PageKeys {
    fn open(&self, known: &Known, message: &[u8]) -> Option<Result<Plain, Closed>> {
        self.open_message(known, message)
    }
}
