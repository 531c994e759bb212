//! The keys of several meters, as a TOML text says them.

ghost use Rattle.std.specs.Prelude.{true, false, ◌≡◌, ◌≢◌, MatchResult, Some, Ok, Err, IfOk, map, option_map, option_and_then};
ghost use Rattle.toml.specs.Data.{as_array};
ghost use Rattle.toml.specs.View.{array_view, view, table_view};
ghost use Rattle.dlms_security.specs.Opening.{header_in};
ghost use Rattle.dlms_keys.specs.Settings.{size_of};
ghost use Rattle.dlms_keys.specs.Keyring.{IsRefusedKeyring, IsRefusedList, IsRefusedStation, IsRefusedText, IsRefusedValue, ReadAsKeyring, SayStations, SaysKeyring, SaysStation, SaysValue, station_at};
ghost use Rattle.dlms_keys.specs.Keyring.{any_opening, has_tag, is_tagged, near_opening, near_station, opening_among, opening_by_policy, station_for, titled_station};

use crate::fault::{SettingsFault, StationsFault};
use crate::members::{has_others, key_of, optional_key_of, title_of};
use crate::setting::Setting;
use crate::station::{Station, first_title, is_near, is_title, open_with, opens};
use arrayvec::ArrayVec;
use dlms_security::{
    Closed, Header, Known, MOST_APDU, Opener, Plain, Policy, UnprotectFault, header_of,
};
use std::alloc::Global;
use toml::value::Array;
use toml::{Table, Value};

/// The most stations.
const MOST_STATIONS: usize = 256;

/// The name of their tables.
const STATION: &str = "station";

/// The settings of a station.
const SETTINGS: [Setting; 3] = [
    Setting::Title,
    Setting::EncryptionKey,
    Setting::AuthenticationKey,
];

/// The keys of stations, in the order of their file.
#[derive(Drop)]
pub struct Stations {
    stations: Vec<Station>,
}

/// The station that a table says.
fn station_of(table: &Table) -> Result<Station, SettingsFault>
    ensures { MatchResult result (λ station. SaysStation (table_view table.now) station)
        (λ fault. IsRefusedStation (table_view table.now) fault) }
{
    if has_others(table, &SETTINGS) {
        return Err(SettingsFault::Unknown);
    }
    let title = title_of(table)?;
    let encryption_key = key_of(table, Setting::EncryptionKey)?;
    let authentication_key = optional_key_of(table)?;
    Ok(Station {
        title,
        encryption_key,
        authentication_key,
    })
}

/// The station that the value with this number says.
fn station_in(number: usize, value: &Value) -> Result<Station, StationsFault>
    ensures { MatchResult result (λ station. SaysValue (view value.now) station)
        (λ fault. IsRefusedValue number (view value.now) fault) }
{
    let Some(table) = value.as_table() else {
        return Err(StationsFault::Other);
    };
    match station_of(table) {
        Ok(station) => Ok(station),
        Err(fault) => Err(StationsFault::At(number, fault)),
    }
}

/// The stations that these values say.
fn stations_of(alloc: Global, values: &[Value]) -> Result<Vec<Station>, StationsFault>
    ensures { MatchResult result (λ stations. SayStations (map view values.now) stations.items)
        (λ fault. IsRefusedList (map view values.now) fault) }
{
    if values.len() > MOST_STATIONS {
        return Err(StationsFault::Many);
    }
    let mut stations = Vec::new(alloc);
    for (i, value) in values.iter().enumerate() {
        let station = match station_in(i + 1, value) {
            Ok(station) => station,
            Err(fault) => return Err(fault),
        };
        match stations.push(station) {
            Ok(()) => {}
            Err(_) => return Err(StationsFault::Memory),
        }
    }
    Ok(stations)
}

/// The value of the member `station`.
fn station_at(table: &Table) -> Option<&Value>
    ensures { option_map (λ v. view v.now) result ≡ station_at (table_view table.now) }
{
    table.get(STATION)
}

/// The values of the member `station`, if it is an array.
fn values_in(table: &Table) -> Option<&Array>
    ensures { option_map (λ values. array_view values.now) result ≡ option_and_then as_array
        (station_at (table_view table.now)) }
{
    match station_at(table) {
        Some(value) => value.as_array(),
        None => None,
    }
}

/// Whether a table has one member.
fn is_single(table: &Table) -> bool
    ensures yes { result ≡ true → size_of (table_view table.now) ≡ 1 }
    ensures no { result ≡ false → size_of (table_view table.now) ≢ 1 }
{
    table.len() == 1
}

/// The stations that a table says.
fn keyring_of(alloc: Global, table: &Table) -> Result<Vec<Station>, StationsFault>
    ensures { MatchResult result (λ stations. SaysKeyring (table_view table.now) stations.items)
        (λ fault. IsRefusedKeyring (table_view table.now) fault) }
{
    if !is_single(table) {
        return Err(StationsFault::Other);
    }
    match values_in(table) {
        Some(values) => stations_of(alloc, values.as_slice()),
        None => Err(StationsFault::Other),
    }
}

/// Whether messages of a policy have a tag.
fn has_tag(policy: Policy) -> bool
    ensures { result ≡ has_tag policy }
{
    match policy {
        Policy::Authenticated | Policy::AuthenticatedEncrypted => true,
        Policy::Encrypted => false,
    }
}

/// The keys of stations, wherever these are kept.
#[derive(Clone, Copy)]
pub struct Keyring<'k> {
    stations: &'k [Station],
}

impl<'k> Keyring<'k> {
    /// The keys of these stations.
    pub fn over(stations: &'k [Station]) -> Self
        ensures { result.stations.now ≡ stations.now }
    {
        Keyring { stations }
    }

    /// The first station that is the sender or the receiver, and opens the message.
    fn near_opening(
        &self,
        known: &Known,
        policy: Policy,
        header: Header,
        message: &[u8],
    ) -> Option<Station>
        ensures { result ≡ near_opening self.now.stations.now known.now policy header message.now }
    {
        self.stations.iter().copied().find(|s| is_near(s, known, header)
            && opens(s, known, policy, header, message))
    }

    /// The first station that opens the message.
    fn any_opening(
        &self,
        known: &Known,
        policy: Policy,
        header: Header,
        message: &[u8],
    ) -> Option<Station>
        ensures { result ≡ any_opening self.now.stations.now known.now policy header message.now }
    {
        self.stations
            .iter()
            .copied()
            .find(|s| opens(s, known, policy, header, message))
    }

    /// The first station that is the sender or the receiver.
    fn near_station(&self, known: &Known, header: Header) -> Option<Station>
        ensures { result ≡ near_station self.now.stations.now known.now header }
    {
        self.stations
            .iter()
            .copied()
            .find(|s| is_near(s, known, header))
    }

    /// The station whose keys are taken for a message with this header.
    fn station_for(
        &self,
        known: &Known,
        policy: Policy,
        header: Header,
        message: &[u8],
    ) -> Option<Station>
        ensures { result ≡ station_for self.now.stations.now known.now policy header message.now }
    {
        if let Some(station) = self.near_opening(known, policy, header, message) {
            return Some(station);
        }
        if has_tag(policy)
            && let Some(station) = self.any_opening(known, policy, header, message)
        {
            return Some(station);
        }
        self.near_station(known, header)
    }

    /// The APDU in a message with this header under this policy.
    fn open_under(
        &self,
        known: &Known,
        policy: Policy,
        header: Header,
        message: &[u8],
    ) -> Result<ArrayVec<u8, MOST_APDU>, Closed>
        ensures { let by = opening_by_policy self.now.stations.now known.now
            (Some policy) header message.now in
            MatchResult result (λ apdu. by ≡ Ok apdu.items) (λ f. by ≡ Err f) }
    {
        let sender = first_title(header.title, known.sender);
        if sender.is_none() && !has_tag(policy) {
            return Err(Closed::UnknownTitle);
        }
        match self.station_for(known, policy, header, message) {
            Some(station) => open_with(&station, known, policy, header, message),
            None if sender.is_some() => Err(Closed::NoKey),
            None => Err(Closed::UnknownTitle),
        }
    }

    /// Returns the APDU in a message of a log, or why it is not opened. The keys are those of its sender or receiver, by its own
    /// title or that of its association (`known`); if it has a tag, the keys of every other station are tried too. If its sender is
    /// not known, each station's own title is tried, and only on messages with a tag.
    pub fn open_message(&self, known: &Known, message: &[u8]) -> Result<Plain, Closed>
        ensures apdu { let by = opening_among self.now.stations.now known.now message.now in
            MatchResult result (λ plain. by ≡ Ok plain.apdu.items) (λ f. by ≡ Err f) }
        ensures tag { IfOk result (λ plain. plain.is_authenticated
            ≡ is_tagged (header_in message.now)) }
    {
        let Some(header) = header_of(message) else {
            return Err(Closed::Refused(UnprotectFault::NotProtected));
        };
        let Some(policy) = header.policy else {
            return Err(Closed::Refused(UnprotectFault::AnotherControl));
        };
        match self.open_under(known, policy, header, message) {
            Ok(apdu) => Ok(Plain {
                is_authenticated: has_tag(policy),
                apdu,
            }),
            Err(closed) => Err(closed),
        }
    }
}

impl Stations {
    /// Reads the stations of a TOML text: `[[station]]` tables with the settings `title`, `encryption-key` and
    /// `authentication-key`, the last of which may be missing. There is nothing else, and there are at most 256.
    pub fn read(alloc: Global, text: &str) -> Result<Stations, StationsFault>
        ensures { MatchResult result (λ s. ReadAsKeyring text.now s.stations.items)
            (λ fault. IsRefusedText text.now fault) }
    {
        match toml::table_from_str(alloc, text) {
            Ok(table) => match keyring_of(alloc, &table) {
                Ok(stations) => Ok(Stations { stations }),
                Err(fault) => Err(fault),
            },
            Err(fault) if fault.is_memory() => Err(StationsFault::Memory),
            Err(_) => Err(StationsFault::Toml),
        }
    }

    /// The first station with this title.
    pub fn station_of(&self, title: [u8; 8]) -> Option<Station>
        ensures { result ≡ titled_station title self.now.stations.items }
    {
        self.stations
            .iter()
            .copied()
            .find(|s| is_title(&s.title, Some(title)))
    }

    /// Their keys.
    pub fn keyring(&self) -> Keyring<'_>
        ensures { result.stations.now ≡ self.now.stations.items }
    {
        Keyring::over(self.stations.as_slice())
    }

    /// Returns the APDU in a message of a log, or why it is not opened, as `Keyring::open_message` does.
    pub fn open_message(&self, known: &Known, message: &[u8]) -> Result<Plain, Closed>
        ensures apdu { let by = opening_among self.now.stations.items known.now message.now in
            MatchResult result (λ plain. by ≡ Ok plain.apdu.items) (λ f. by ≡ Err f) }
        ensures tag { IfOk result (λ plain. plain.is_authenticated
            ≡ is_tagged (header_in message.now)) }
    {
        self.keyring().open_message(known, message)
    }
}

impl Opener for &Stations {
    fn open(&self, known: &Known, message: &[u8]) -> Option<Result<Plain, Closed>> {
        Some(self.open_message(known, message))
    }
}
