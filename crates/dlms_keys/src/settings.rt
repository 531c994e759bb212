//! The settings of a file.

ghost use Rattle.std.specs.Prelude.{◌≡◌, ◌≢◌, MatchResult, OnErr, OnOk, IfErr, string_bytes, length};
ghost use Rattle.toml.specs.View.{table_view};
ghost use Rattle.dlms_keys.specs.Settings.{IsRefused, IsRefusedFor, ReadAs, Says, shows_key};
ghost use Rattle.dlms_keys.specs.declared.fault.SettingsFault.TheVariants.{Memory};

use crate::fault::SettingsFault;
use crate::members::{form_of, has_others, is_dedicated, key_of, policy_of, text_of, title_of};
use crate::setting::Setting;
use dlms_security::{Form, Policy};
use std::alloc::Global;
use std::marker::Model;
use toml::Table;

/// Every setting.
const SETTINGS: [Setting; 7] = [
    Setting::Title,
    Setting::EncryptionKey,
    Setting::AuthenticationKey,
    Setting::Policy,
    Setting::Messages,
    Setting::Dedicated,
    Setting::Counters,
];

/// The settings of a client that protects its messages. They have no `Debug` form, so that no key is printed by mistake. Dropping
/// them does not wipe the keys.
#[derive(Drop)]
pub struct Settings {
    /// The client's system title.
    pub title: [u8; 8],
    /// The global unicast encryption key.
    pub encryption_key: [u8; 16],
    /// The authentication key.
    pub authentication_key: [u8; 16],
    /// The protection of every message.
    pub policy: Policy,
    /// The ciphered form of messages.
    pub messages: Form,
    /// Whether each association has an encryption key of its own. Not with `Policy::Authenticated`, which would show it.
    pub dedicated: bool,
    /// The path of the file of frame counters, as it was written.
    pub counters: String,
}

impl Model for Settings {
    ghost use Rattle.std.specs.Prelude.{string_bytes};
    ghost use Rattle.dlms_keys.specs.Settings.{SettingsValue};

    ghost Value = { SettingsValue };

    ghost view = { λ s. record {
      title = s.title;
      encryption_key = s.encryption_key;
      authentication_key = s.authentication_key;
      policy = s.policy;
      messages = s.messages;
      dedicated = s.dedicated;
      counters = string_bytes s.counters;
    } };
}

/// A copy of a path.
fn copy_of(alloc: Global, path: &str) -> Result<String, SettingsFault>
    ensures { MatchResult result (λ copy. string_bytes copy ≡ path.now) (λ fault. fault ≡ Memory) }
{
    String::from_str(alloc, path).map_err(|_| SettingsFault::Memory)
}

/// Whether authentication alone would show a dedicated key.
fn shows_key(policy: Policy, dedicated: bool) -> bool
    ensures { result ≡ shows_key policy dedicated }
{
    match policy {
        Policy::Authenticated => dedicated,
        _ => false,
    }
}

/// The settings of a table.
fn settings_of(alloc: Global, table: &Table) -> Result<Settings, SettingsFault>
    ensures { MatchResult result (λ s. Says (table_view table.now) s)
        (λ fault. (fault ≢ Memory) → IsRefusedFor (table_view table.now) fault) }
{
    if has_others(table, &SETTINGS) {
        return Err(SettingsFault::Unknown);
    }
    let title = title_of(table)?;
    let encryption_key = key_of(table, Setting::EncryptionKey)?;
    let authentication_key = key_of(table, Setting::AuthenticationKey)?;
    let policy = policy_of(table)?;
    let messages = form_of(table)?;
    let dedicated = is_dedicated(table)?;
    if shows_key(policy, dedicated) {
        return Err(SettingsFault::Invalid(Setting::Dedicated));
    }
    let path = text_of(table, Setting::Counters)?;
    let counters = copy_of(alloc, path)?;
    Ok(Settings {
        title,
        encryption_key,
        authentication_key,
        policy,
        messages,
        dedicated,
        counters,
    })
}

impl Settings {
    /// Reads the settings of a TOML text. Each of them is required, and there is nothing else. A dedicated key under authentication alone
    /// is `Invalid`.
    pub fn read(alloc: Global, text: &str) -> Result<Settings, SettingsFault>
        ensures { MatchResult result (λ s. ReadAs text.now s) (λ fault. IsRefused text.now fault) }
    {
        match toml::table_from_str(alloc, text) {
            Ok(table) => settings_of(alloc, &table),
            Err(fault) if fault.is_memory() => Err(SettingsFault::Memory),
            Err(_) => Err(SettingsFault::Toml),
        }
    }
}
