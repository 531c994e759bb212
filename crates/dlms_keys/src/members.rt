//! The values of a table's members, as settings.

ghost use Rattle.std.specs.Prelude.{true, false, ◌≡◌, ◌≢◌, ◌⊎◌, ◌≤◌, IfNone, IfSome, MatchResult, Some, None, length, option_map};
ghost use Rattle.toml.specs.Data.{string, boolean};
ghost use Rattle.toml.specs.View.{table_view, view};
ghost use Rattle.dlms_keys.specs.Settings.{Has, HasOthers, IsHex, Lacks, MayHaveKey, form_word, known, policy_word, size_of, value_at};
ghost use Rattle.dlms_keys.specs.declared.setting.Setting.TheVariants.{AuthenticationKey, Dedicated, EncryptionKey, Messages, Policy as PolicyOf, Title};

use crate::fault::SettingsFault;
use crate::setting::Setting;
use dlms_security::{Form, Policy};
use hex::FromHex;
use toml::{Table, Value};

/// The value of a setting.
fn value_of(table: &Table, setting: Setting) -> Option<&Value>
    ensures { option_map (λ v. view v.now) result ≡ value_at setting (table_view table.now) }
{
    table.get(setting.name())
}

/// The text of a setting that has one.
pub(crate) fn text_of(table: &Table, setting: Setting) -> Result<&str, SettingsFault>
    requires { setting ≢ Dedicated }
    ensures { MatchResult result
        (λ text. Has setting (λ value. value ≡ string text.now) (table_view table.now))
        (λ fault. Lacks setting (table_view table.now) fault) }
{
    match value_of(table, setting) {
        None => Err(SettingsFault::Missing(setting)),
        Some(value) => match value.as_str() {
            Some(text) => Ok(text),
            None => Err(SettingsFault::Invalid(setting)),
        },
    }
}

/// The system title.
pub(crate) fn title_of(table: &Table) -> Result<[u8; 8], SettingsFault>
    ensures { MatchResult result
        (λ title. Has Title (λ value. IsHex 8 value title) (table_view table.now))
        (λ fault. Lacks Title (table_view table.now) fault) }
{
    let text = text_of(table, Setting::Title)?;
    match <[u8; 8] as FromHex>::from_hex(text) {
        Ok(title) => Ok(title),
        Err(_) => Err(SettingsFault::Invalid(Setting::Title)),
    }
}

/// A key.
pub(crate) fn key_of(table: &Table, setting: Setting) -> Result<[u8; 16], SettingsFault>
    requires { (setting ≡ EncryptionKey) ⊎ (setting ≡ AuthenticationKey) }
    ensures { MatchResult result
        (λ key. Has setting (λ value. IsHex 16 value key) (table_view table.now))
        (λ fault. Lacks setting (table_view table.now) fault) }
{
    let text = text_of(table, setting)?;
    match <[u8; 16] as FromHex>::from_hex(text) {
        Ok(key) => Ok(key),
        Err(_) => Err(SettingsFault::Invalid(setting)),
    }
}

/// The policy that a word names.
fn policy_named(word: &str) -> Option<Policy>
    ensures some { IfSome result (λ policy. word.now ≡ policy_word policy) }
    ensures none { IfNone result ((policy : Policy) → word.now ≡ policy_word policy → ⊥) }
{
    match word {
        "authenticated" => Some(Policy::Authenticated),
        "encrypted" => Some(Policy::Encrypted),
        "authenticated-encrypted" => Some(Policy::AuthenticatedEncrypted),
        _ => None,
    }
}

/// The policy.
pub(crate) fn policy_of(table: &Table) -> Result<Policy, SettingsFault>
    ensures { MatchResult result
        (λ policy. Has PolicyOf (λ value. value ≡ string (policy_word policy))
        (table_view table.now))
        (λ fault. Lacks PolicyOf (table_view table.now) fault) }
{
    let text = text_of(table, Setting::Policy)?;
    policy_named(text).ok_or(SettingsFault::Invalid(Setting::Policy))
}

/// The ciphered form that a word names.
fn form_named(word: &str) -> Option<Form>
    ensures some { IfSome result (λ form. word.now ≡ form_word form) }
    ensures none { IfNone result ((form : Form) → word.now ≡ form_word form → ⊥) }
{
    match word {
        "service" => Some(Form::Service),
        "general" => Some(Form::General),
        _ => None,
    }
}

/// The ciphered form.
pub(crate) fn form_of(table: &Table) -> Result<Form, SettingsFault>
    ensures { MatchResult result
        (λ form. Has Messages (λ value. value ≡ string (form_word form)) (table_view table.now))
        (λ fault. Lacks Messages (table_view table.now) fault) }
{
    let text = text_of(table, Setting::Messages)?;
    form_named(text).ok_or(SettingsFault::Invalid(Setting::Messages))
}

/// Whether associations have dedicated keys.
pub(crate) fn is_dedicated(table: &Table) -> Result<bool, SettingsFault>
    ensures { MatchResult result
        (λ flag. Has Dedicated (λ value. value ≡ boolean flag) (table_view table.now))
        (λ fault. Lacks Dedicated (table_view table.now) fault) }
{
    match value_of(table, Setting::Dedicated) {
        None => Err(SettingsFault::Missing(Setting::Dedicated)),
        Some(value) => match value.as_bool() {
            Some(flag) => Ok(flag),
            None => Err(SettingsFault::Invalid(Setting::Dedicated)),
        },
    }
}

/// How many of these settings a table has.
pub(crate) fn known(table: &Table, settings: &[Setting]) -> usize
    ensures count { result ≡ known settings.now (table_view table.now) }
    ensures most { result ≤ length settings.now }
{
    match settings {
        [] => 0,
        [first, rest @ ..] => {
            let others = known(table, rest);
            if value_of(table, *first).is_some() {
                others + 1
            } else {
                others
            }
        }
    }
}

/// Whether a table has a name that is not one of these settings'.
pub(crate) fn has_others(table: &Table, settings: &[Setting]) -> bool
    ensures yes { result ≡ true → HasOthers settings.now (table_view table.now) }
    ensures no { result ≡ false
        → size_of (table_view table.now) ≡ known settings.now (table_view table.now) }
{
    table.len() != known(table, settings)
}

/// The authentication key, if there is one.
pub(crate) fn optional_key_of(table: &Table) -> Result<Option<[u8; 16]>, SettingsFault>
    ensures { MatchResult result (λ key. MayHaveKey key (table_view table.now))
        (λ fault. Lacks AuthenticationKey (table_view table.now) fault) }
{
    match value_of(table, Setting::AuthenticationKey) {
        None => Ok(None),
        Some(_) => Ok(Some(key_of(table, Setting::AuthenticationKey)?)),
    }
}
