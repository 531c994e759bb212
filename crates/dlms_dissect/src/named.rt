//! The object that a service names, and whether it is a secret.

ghost use Rattle.std.specs.Prelude.{◌≡◌};
ghost use Rattle.dlms_dissect.specs.Secrets.{holds_secret, is_association, is_of_association, is_secret};
ghost use Rattle.dlms_dissect.specs.Asked.{of_invoke, of_service};

use dlms_data::Descriptor;

/// An attribute or a method of an object.
#[derive(Clone, Copy)]
pub struct Named {
    pub descriptor: Descriptor,
    /// Whether a method is named, and not an attribute.
    pub method: bool,
}

/// The object that a request named, with its invoke-id-and-priority.
#[derive(Clone, Copy)]
pub struct Asked {
    pub invoke: u8,
    pub named: Named,
}

/// The class Association LN.
const ASSOCIATION: u16 = 15;

/// Its attribute that is a secret.
const SECRET: u8 = 7;

/// Its method that takes the client's answer of high-level security, and returns the meter's.
const REPLY: u8 = 1;

/// Its method that takes a new secret.
const CHANGE_SECRET: u8 = 2;

/// What names all attributes of an object.
const ALL: u8 = 0;

/// The value group C of an association's logical name.
const ASSOCIATIONS: u8 = 40;

/// The value group F of a name that has no billing period.
const NO_PERIOD: u8 = 0xff;

/// Whether the logical name is one of an association.
fn is_association(name: [u8; 6]) -> bool
    ensures { result ≡ is_association name }
{
    let [medium, _, group, kind, _, period] = name;
    medium == 0 && group == ASSOCIATIONS && kind == 0 && period == NO_PERIOD
}

impl Named {
    /// Whether the object is an Association LN, by its class or by its name.
    fn is_of_association(self) -> bool
        ensures { result ≡ is_of_association self.descriptor }
    {
        self.descriptor.class == ASSOCIATION || is_association(self.descriptor.name)
    }

    /// Whether it is a secret: the attribute or the methods of an Association LN.
    pub fn is_secret(self) -> bool
        ensures { result ≡ is_secret self.descriptor self.method }
    {
        let id = self.descriptor.id;
        let secret = if self.method {
            id == REPLY || id == CHANGE_SECRET
        } else {
            id == SECRET
        };
        self.is_of_association() && secret
    }

    /// Whether it contains a secret among others: all attributes of an Association LN.
    pub fn holds_secret(self) -> bool
        ensures { result ≡ holds_secret self.descriptor self.method }
    {
        self.is_of_association() && !self.method && self.descriptor.id == ALL
    }
}

/// The requested object, if a further APDU with this invoke-id-and-priority continues it.
pub fn of_invoke(asked: Option<Asked>, invoke: u8) -> Option<Asked>
    ensures { result ≡ of_invoke asked invoke }
{
    match asked {
        Some(asked) if asked.invoke == invoke => Some(asked),
        _ => None,
    }
}

/// The same of a further block of a parameter, or of a value to set.
pub fn of_service(asked: Option<Asked>, invoke: u8, method: bool) -> Option<Asked>
    ensures { result ≡ of_service asked invoke method }
{
    match of_invoke(asked, invoke) {
        Some(asked) if asked.named.method == method => Some(asked),
        _ => None,
    }
}
