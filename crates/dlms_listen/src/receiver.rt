//! Notifications and telegrams, in clear or under the keys of their senders.

ghost use Rattle.std.specs.Prelude.{◌≡◌, IfErr, IfOk, OnErr, OnOk, MatchResult, None, Some, Ok, Err, option_map};
ghost use Rattle.dlms_listen.specs.Sender.{Accepts};
ghost use Rattle.dlms_listen.specs.Notification.{IsNotification, said};
ghost use Rattle.std.specs.Prelude.{◌++◌, IfSome, take};
ghost use Rattle.dlms_cipher.specs.Keys.{authentication_key, encryption_key};
ghost use Rattle.dlms_keys.specs.Keyring.{titled_station};
ghost use Rattle.dlms_cipher.specs.Dlms.{cipher_of, sealed_tag};
ghost use Rattle.dlms_listen.specs.declared.fault.Refusal.TheVariants as refusal;
ghost use Rattle.dlms_telegram.specs.Telegram as telegrams;
ghost use Rattle.dlms_telegram.specs.Telegram.{IsTelegram};
ghost use Rattle.dlms_listen.specs.Unsealing.{Decrypts, IsSealOf, IsUndecrypted, IsUnopened, IsUnopenedBy, IsUnopenedWith, OpensBy, Unseals, sealed_in};
ghost use Rattle.dlms_listen.specs.Receiving.{IsNone, IsStale, has_tag, key_for, opened, opened_by, opened_with, refusal_of};

use crate::counters::{Senders, Unaccepted};
use crate::fault::Refusal;
use crate::notification::{Notification, read_notification};
use arrayvec::ArrayVec;
use dlms_cipher::Keys;
use dlms_keys::{Station, Stations};
use dlms_security::{Header, MOST_APDU, Policy, UnprotectFault, header_of, kind_of, open_message};
use dlms_telegram::{MOST_TELEGRAM, Telegram, read_telegram};

/// The octets of a ciphered telegram before its ciphertext: the tag, the title, the length and the security header.
const HEAD: usize = 18;

/// The octets of its tag.
const TAG: usize = 12;

/// Who protected a notification or a telegram, and how.
#[derive(Clone, Copy)]
pub struct Seal {
    pub title: [u8; 8],
    pub counter: u32,
    /// Whether its tag was looked at, and is right. Nothing authenticates a notification that is only encrypted.
    pub is_authenticated: bool,
}

/// A received message.
#[derive(Clone, Copy)]
pub enum Content<'a> {
    Notification(Notification<'a>),
    Telegram(Telegram<'a>),
}

/// A notification or a telegram, and its seal if it was protected.
#[derive(Clone, Copy)]
pub struct Received<'a> {
    pub content: Content<'a>,
    pub seal: Option<Seal>,
}

/// Takes notifications and telegrams: in clear if there are no keys, and otherwise only those that the keys of their senders open, each counter
/// once. One receiver may serve many streams.
#[derive(Drop)]
pub struct Receiver<'k> {
    keys: Option<&'k Stations>,
    senders: Senders,
}

/// The plain text of a ciphered APDU, and its seal.
#[derive(Drop)]
struct Plain {
    apdu: ArrayVec<u8, MOST_APDU>,
    seal: Seal,
}

/// The authentication key of a station for messages under this policy; any, if it makes no tag.
fn key_for(key: Option<[u8; 16]>, policy: Policy) -> Option<[u8; 16]>
    ensures { result ≡ key_for key policy }
{
    match (key, policy) {
        (Some(key), _) => Some(key),
        (None, Policy::Encrypted) => Some([0; 16]),
        (None, _) => None,
    }
}

/// Whether messages under this policy have a tag.
fn has_tag(policy: Policy) -> bool
    ensures { result ≡ has_tag policy }
{
    match policy {
        Policy::Encrypted => false,
        Policy::Authenticated | Policy::AuthenticatedEncrypted => true,
    }
}

/// Opens a ciphered APDU under the keys of a station.
fn open_by(
    station: Option<Station>,
    policy: Policy,
    seal: Seal,
    apdu: &[u8],
) -> Result<Plain, Refusal>
    ensures { let by = opened_by apdu.now seal policy station in
        MatchResult result (λ p. by ≡ Ok (record { plain = p.apdu.items; seal = p.seal }))
        (λ f. by ≡ Err f) }
{
    let Some(station) = station else {
        return Err(Refusal::Foreign(seal.title));
    };
    let Some(key) = key_for(station.authentication_key, policy) else {
        return Err(Refusal::NoAuthenticationKey(seal.title));
    };
    match open_message(&Keys::new(station.encryption_key, key), &seal.title, apdu) {
        Ok(apdu) => Ok(Plain { apdu, seal }),
        Err(fault) => Err(Refusal::Closed(seal.title, fault)),
    }
}

/// Opens a ciphered APDU with this header under the keys of its sender.
fn open_with(stations: &Stations, header: Header, apdu: &[u8]) -> Result<Plain, Refusal>
    ensures { let by = opened_with stations.now.stations.items apdu.now (Some header) in
        MatchResult result (λ p. by ≡ Ok (record { plain = p.apdu.items; seal = p.seal }))
        (λ f. by ≡ Err f) }
{
    let Some(title) = header.title else {
        return Err(Refusal::NoTitle);
    };
    let Some(policy) = header.policy else {
        return Err(Refusal::Closed(title, UnprotectFault::AnotherControl));
    };
    let seal = Seal {
        title,
        counter: header.counter,
        is_authenticated: has_tag(policy),
    };
    open_by(stations.station_of(title), policy, seal, apdu)
}

/// Opens a ciphered APDU.
fn open(keys: Option<&Stations>, apdu: &[u8]) -> Result<Plain, Refusal>
    ensures { let by = opened (option_map (λ k. k.now.stations.items) keys.entry) apdu.now in
        MatchResult result (λ p. by ≡ Ok (record { plain = p.apdu.items; seal = p.seal }))
        (λ f. by ≡ Err f) }
{
    let Some(stations) = keys else {
        return Err(Refusal::NoKeys);
    };
    match header_of(apdu) {
        Some(header) => open_with(stations, header, apdu),
        None => Err(Refusal::Malformed),
    }
}

/// Reads the notification in the plain text of a ciphered APDU.
fn read_plain(plain: &ArrayVec<u8, MOST_APDU>) -> Result<Notification<'_>, Refusal>
    ensures ok { IfOk result (λ n. IsNotification plain.now.items (said n)) }
    ensures err { IfErr result (λ why. (why ≡ refusal_of plain.now.items)
        × IsNone plain.now.items) }
{
    read_notification(plain.as_slice())
}

/// Reads the telegram that is all of these octets.
fn telegram_in(octets: &[u8]) -> Result<Telegram<'_>, Refusal>
    ensures ok { IfOk result (λ t. IsTelegram octets.now t.text.now t.is_checked) }
    ensures err { IfErr result (λ why. (why ≡ refusal.Malformed) × telegrams.IsNone octets.now) }
{
    match read_telegram(octets) {
        Some(telegram) => Ok(telegram),
        None => Err(Refusal::Malformed),
    }
}

/// The ciphertext and the tag of a ciphered telegram, after its head of 18 octets.
fn sealed_parts(octets: &[u8]) -> Option<(&[u8], [u8; TAG])>
    ensures parts { IfSome result (λ parts. octets.now
        ≡ take 18 octets.now ++ (parts.0.now ++ parts.1)) }
    ensures exact { option_map (λ parts. (parts.0.now, parts.1)) result ≡ sealed_in octets.now }
{
    if octets.len() < HEAD + TAG {
        return None;
    }
    let (_, sealed) = octets.split_at(HEAD);
    let (text, end) = sealed.split_at(sealed.len() - TAG);
    let mut tag = [0; TAG];
    tag.copy_from_slice(end);
    Some((text, tag))
}

/// Decrypts a ciphertext if the tag is its tag.
fn decrypt(
    keys: &Keys,
    seal: Seal,
    text: &[u8],
    tag: &[u8; 12],
    plain: &mut ArrayVec<u8, MOST_TELEGRAM>,
) -> Result<(), UnprotectFault>
    ensures tag { IfOk result (λ _. tag.now
        ≡ sealed_tag (encryption_key keys.now)
        (authentication_key keys.now) seal.title seal.counter text.now) }
    ensures plain { IfOk result (λ _. plain.new.items
        ≡ cipher_of (encryption_key keys.now) seal.title seal.counter text.now) }
    ensures err { IfErr result (IsUndecrypted (encryption_key keys.now)
        (authentication_key keys.now) seal (Some (text.now, tag.now))) }
{
    plain.clear();
    if plain.try_extend_from_slice(text).is_err() {
        return Err(UnprotectFault::Long);
    }
    match keys.open(&seal.title, seal.counter, plain.as_mut_slice(), tag) {
        Ok(()) => Ok(()),
        Err(_) => Err(UnprotectFault::WrongTag),
    }
}

/// Opens a ciphered telegram of this station. It must have a tag.
fn decrypt_parts(
    keys: &Keys,
    seal: Seal,
    octets: &[u8],
    plain: &mut ArrayVec<u8, MOST_TELEGRAM>,
) -> Result<(), UnprotectFault>
    ensures ok { IfOk result (λ _. Decrypts (encryption_key keys.now)
        (authentication_key keys.now) seal octets.now plain.new.items) }
    ensures err { IfErr result (IsUndecrypted (encryption_key keys.now)
        (authentication_key keys.now) seal (sealed_in octets.now)) }
{
    let (text, tag) = sealed_parts(octets).ok_or(UnprotectFault::Short)?;
    decrypt(keys, seal, text, &tag, plain)
}

/// Opens a ciphered telegram of this station, if the station is known.
fn open_of(
    station: Option<Station>,
    seal: Seal,
    octets: &[u8],
    plain: &mut ArrayVec<u8, MOST_TELEGRAM>,
) -> Result<(), Refusal>
    ensures ok { IfOk result (λ _. OpensBy station octets.now seal plain.new.items) }
    ensures err { IfErr result (IsUnopenedBy octets.now seal station) }
{
    let Some(station) = station else {
        return Err(Refusal::Foreign(seal.title));
    };
    let Some(key) = station.authentication_key else {
        return Err(Refusal::NoAuthenticationKey(seal.title));
    };
    let keys = Keys::new(station.encryption_key, key);
    match decrypt_parts(&keys, seal, octets, plain) {
        Ok(()) => Ok(()),
        Err(fault) => Err(Refusal::Closed(seal.title, fault)),
    }
}

/// Opens a ciphered telegram with this header, which must be authenticated and encrypted.
fn open_sealed(
    stations: &Stations,
    header: Header,
    octets: &[u8],
    plain: &mut ArrayVec<u8, MOST_TELEGRAM>,
) -> Result<Seal, Refusal>
    ensures seal { IfOk result (IsSealOf header) }
    ensures opens { IfOk result
        (λ seal. OpensBy
        (titled_station seal.title stations.now.stations.items) octets.now seal plain.new.items) }
    ensures err { IfErr result (IsUnopenedWith stations.now.stations.items octets.now
        (Some header)) }
{
    let Some(title) = header.title else {
        return Err(Refusal::NoTitle);
    };
    let Some(Policy::AuthenticatedEncrypted) = header.policy else {
        return Err(Refusal::Closed(title, UnprotectFault::AnotherControl));
    };
    let seal = Seal {
        title,
        counter: header.counter,
        is_authenticated: true,
    };
    match open_of(stations.station_of(title), seal, octets, plain) {
        Ok(()) => Ok(seal),
        Err(why) => Err(why),
    }
}

/// Opens a ciphered telegram.
fn open_telegram(
    keys: Option<&Stations>,
    octets: &[u8],
    plain: &mut ArrayVec<u8, MOST_TELEGRAM>,
) -> Result<Seal, Refusal>
    ensures ok { IfOk result (λ seal. Unseals (option_map
        (λ k. k.now.stations.items) keys.entry) octets.now seal plain.new.items) }
    ensures err { IfErr result (IsUnopened (option_map
        (λ k. k.now.stations.items) keys.entry) octets.now) }
{
    let Some(stations) = keys else {
        return Err(Refusal::NoKeys);
    };
    match header_of(octets) {
        Some(header) => open_sealed(stations, header, octets, plain),
        None => Err(Refusal::Malformed),
    }
}

/// Accepts the counter of a seal.
fn accept(senders: &mut Senders, seal: Seal) -> Result<(), Refusal>
    ensures ok { OnOk result
        (Accepts seal.title seal.counter senders.old.all.items senders.new.all.items) }
    ensures err { OnErr result (senders.new ≡ senders.old) }
    ensures why { IfErr result (IsStale seal senders.old.all.items) }
{
    let Seal { title, counter, .. } = seal;
    match senders.accept(title, counter) {
        Ok(()) => Ok(()),
        Err(Unaccepted::Full) => Err(Refusal::Foreign(title)),
        Err(Unaccepted::Replay(last)) => Err(Refusal::Replay {
            title,
            counter,
            last,
        }),
    }
}

impl<'k> Receiver<'k> {
    ghost use Rattle.std.specs.Prelude.{◌≡◌, [], IfErr, IfOk, OnErr, option_map};
    ghost use Rattle.dlms_listen.specs.Receiving.{AcceptsSeal, ContainsNotification, IsRefused};
    ghost use Rattle.dlms_listen.specs.Unsealing.{ContainsTelegram, IsRefusedTelegram};

    /// Before the first notification.
    pub fn new(keys: Option<&'k Stations>) -> Self
        ensures { result.senders.all.items ≡ [] }
    {
        Receiver {
            keys,
            senders: Senders::new(),
        }
    }

    /// Takes a notification that is all of an APDU. `plain` gets what a ciphered one contains. A refused one changes nothing.
    pub fn receive<'a>(
        &mut self,
        apdu: &'a [u8],
        plain: &'a mut ArrayVec<u8, MOST_APDU>,
    ) -> Result<Received<'a>, Refusal>
        ensures ok { let keys = option_map (λ k. k.now.stations.items) self.old.keys in
            IfOk result (λ r. ContainsNotification keys apdu.now r.content r.seal) }
        ensures counter { IfOk result
            (λ r. AcceptsSeal r.seal self.old.senders.all.items self.new.senders.all.items) }
        ensures err { let keys = option_map (λ k. k.now.stations.items) self.old.keys in
            IfErr result (IsRefused keys self.old.senders.all.items apdu.now) }
        ensures same { OnErr result (self.new ≡ self.old) }
    {
        if kind_of(apdu).is_none() {
            let notification = read_notification(apdu)?;
            if self.keys.is_some() {
                return Err(Refusal::InClear);
            }
            return Ok(Received {
                content: Content::Notification(notification),
                seal: None,
            });
        }
        let Plain { apdu: opened, seal } = open(self.keys, apdu)?;
        *plain = opened;
        let notification = read_plain(plain)?;
        accept(&mut self.senders, seal)?;
        Ok(Received {
            content: Content::Notification(notification),
            seal: Some(seal),
        })
    }

    /// Takes the octets of a telegram, in clear or ciphered. `plain` gets what a ciphered one contains. A refused one changes no
    /// counter.
    pub fn receive_telegram<'a>(
        &mut self,
        octets: &'a [u8],
        plain: &'a mut ArrayVec<u8, MOST_TELEGRAM>,
    ) -> Result<Received<'a>, Refusal>
        ensures ok { let keys = option_map (λ k. k.now.stations.items) self.old.keys in
            IfOk result (λ r. ContainsTelegram keys octets.now r.content r.seal) }
        ensures counter { IfOk result
            (λ r. AcceptsSeal r.seal self.old.senders.all.items self.new.senders.all.items) }
        ensures err { let keys = option_map (λ k. k.now.stations.items) self.old.keys in
            IfErr result (IsRefusedTelegram keys self.old.senders.all.items octets.now) }
        ensures same { OnErr result (self.new ≡ self.old) }
    {
        if kind_of(octets).is_none() {
            let telegram = telegram_in(octets)?;
            return match self.keys {
                Some(_) => Err(Refusal::InClear),
                None => Ok(Received {
                    content: Content::Telegram(telegram),
                    seal: None,
                }),
            };
        }
        let seal = open_telegram(self.keys, octets, plain)?;
        let telegram = telegram_in(plain.as_slice())?;
        accept(&mut self.senders, seal)?;
        Ok(Received {
            content: Content::Telegram(telegram),
            seal: Some(seal),
        })
    }
}
