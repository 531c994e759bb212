//! The purpose of a value that comes in blocks.

ghost use Rattle.std.specs.Prelude.{◌≡◌};
ghost use Rattle.dlms_service.specs.Blocks.{same_service};

use dlms_data::Descriptor;

/// A service that changes something.
#[derive(Clone, Copy, Debug, PartialEq, Eq)]
pub enum Service {
    /// SET of an attribute.
    Set,
    /// ACTION, a method with its parameter.
    Action,
}

/// The purpose of a value: the attribute that it sets, or the method whose parameter it is.
#[derive(Clone, Copy, Debug, PartialEq, Eq)]
pub struct Target {
    pub service: Service,
    pub descriptor: Descriptor,
    /// Whether a selector came with it.
    pub selected: bool,
}

/// Whether two services are the same.
pub fn is_same(one: Service, other: Service) -> bool
    ensures { result ≡ same_service one other }
{
    match (one, other) {
        (Service::Set, Service::Set) | (Service::Action, Service::Action) => true,
        (Service::Set, Service::Action) | (Service::Action, Service::Set) => false,
    }
}
