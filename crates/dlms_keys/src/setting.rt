//! The names of the settings.

ghost use Rattle.std.specs.Prelude.{◌≡◌};
ghost use Rattle.dlms_keys.specs.Names.{name_of};

/// A setting of the file.
#[derive(Clone, Copy, Debug, PartialEq, Eq)]
pub enum Setting {
    /// `title`: the client's system title, 8 octets in hex.
    Title,
    /// `encryption-key`: the global unicast encryption key, 16 octets in hex.
    EncryptionKey,
    /// `authentication-key`: the authentication key, 16 octets in hex.
    AuthenticationKey,
    /// `policy`: `authenticated`, `encrypted` or `authenticated-encrypted`.
    Policy,
    /// `messages`: `service` (such as glo-get-request) or `general` (general-glo-ciphering).
    Messages,
    /// `dedicated`: whether each association has an encryption key of its own; not with `authenticated`, which would show it.
    Dedicated,
    /// `counters`: the path of the file of frame counters.
    Counters,
}

impl Setting {
    /// Its name in the file.
    pub fn name(self) -> &'static str
        ensures { result.now ≡ name_of self }
    {
        match self {
            Setting::Title => "title",
            Setting::EncryptionKey => "encryption-key",
            Setting::AuthenticationKey => "authentication-key",
            Setting::Policy => "policy",
            Setting::Messages => "messages",
            Setting::Dedicated => "dedicated",
            Setting::Counters => "counters",
        }
    }

    /// The values that it may have, for a message.
    pub fn meaning(self) -> &'static str {
        match self {
            Setting::Title => "a text of 16 hexadecimal digits",
            Setting::EncryptionKey | Setting::AuthenticationKey => {
                "a text of 32 hexadecimal digits"
            }
            Setting::Policy => "\"authenticated\", \"encrypted\" or \"authenticated-encrypted\"",
            Setting::Messages => "\"service\" or \"general\"",
            Setting::Dedicated => "true or false, and false with policy \"authenticated\"",
            Setting::Counters => "the path of a file",
        }
    }
}
