//! The secrecy of a value, and so how much of it is reported.

ghost use Rattle.std.specs.Prelude.{◌≡◌};
ghost use Rattle.dlms_dissect.specs.Secrets.{secrecy_at, secrecy_of, told_as};
ghost use Rattle.dlms_dissect.specs.Survey.{secrecy_of_named};

use crate::named::{Asked, Named};

/// The secrecy of a value.
#[derive(Clone, Copy)]
pub enum Secrecy {
    /// It is no secret: it is shown.
    Open,
    /// It may be a secret or contain one: the lengths of its strings are shown.
    Unknown,
    /// It is a secret: nothing of it is shown.
    Secret,
}

/// The secrecy of a value with this name.
pub fn secrecy_at(named: Named) -> Secrecy
    ensures { result ≡ secrecy_at named }
{
    if named.is_secret() {
        Secrecy::Secret
    } else if named.holds_secret() {
        Secrecy::Unknown
    } else {
        Secrecy::Open
    }
}

/// The secrecy of the answer to such a request, or of the value in blocks that it began; none means an unknown request.
pub fn secrecy_of(asked: Option<Asked>) -> Secrecy
    ensures { result ≡ secrecy_of asked }
{
    match asked {
        Some(asked) => secrecy_at(asked.named),
        None => Secrecy::Unknown,
    }
}

/// How a value is reported: if strings are wanted as they are, an unknown one is shown as it is.
pub fn told_as(raw: bool, secrecy: Secrecy) -> Secrecy
    ensures { result ≡ told_as raw secrecy }
{
    match secrecy {
        Secrecy::Unknown if raw => Secrecy::Open,
        other => other,
    }
}

/// The secrecy of the values of an APDU, by the most secret object that it names.
pub fn secrecy_of_named(named: Option<Named>) -> Secrecy
    ensures { result ≡ secrecy_of_named named }
{
    let Some(named) = named else {
        return Secrecy::Unknown;
    };
    secrecy_at(named)
}
