//! Why a service on an object is refused.

ghost use Rattle.std.specs.Prelude.{◌≡◌};
ghost use Rattle.dlms_classes.specs.declared.access.AccessResult.TheVariants.{TemporaryFailure};
ghost use Rattle.dlms_classes.specs.Access.{number_of};

use std::alloc::AllocError;
use thiserror::Error;

/// Why a service on an object is refused: the Data-Access-Result and Action-Result of IEC 62056-5-3, whose names these
/// are. Where several fit, the first of this order is given: the name, the class, the attribute or method, the right, the
/// selector, the type, the value, want of memory.
#[derive(Clone, Copy, Debug, PartialEq, Eq, Error)]
pub enum AccessResult {
    /// Want of memory, and nothing else.
    #[error("out of memory")]
    TemporaryFailure,
    /// This client has no right to it.
    #[error("this client may not do that")]
    ReadWriteDenied,
    /// No object has the name, or its class no such attribute or method.
    #[error("there is no such object, attribute or method")]
    ObjectUndefined,
    /// The name is an object's, and the class is not its.
    #[error("the object is of another class")]
    ObjectClassInconsistent,
    /// The value, or what the selector holds, is of another type.
    #[error("the value is of another type")]
    TypeUnmatched,
    /// The attribute takes no such selector.
    #[error("the attribute takes no such selector")]
    ScopeOfAccessViolated,
    /// The value is of the right type, and the meter refuses it.
    #[error("the value is refused")]
    OtherReason,
}

impl AccessResult {
    /// The result's number in a response.
    pub fn number(self) -> u8
        ensures { result ≡ number_of self }
    {
        match self {
            AccessResult::TemporaryFailure => 2,
            AccessResult::ReadWriteDenied => 3,
            AccessResult::ObjectUndefined => 4,
            AccessResult::ObjectClassInconsistent => 9,
            AccessResult::TypeUnmatched => 12,
            AccessResult::ScopeOfAccessViolated => 13,
            AccessResult::OtherReason => 250,
        }
    }
}

impl From<AllocError> for AccessResult {
    ghost from_gives = { λ _ r. r ≡ TemporaryFailure };

    fn from(_e: AllocError) -> AccessResult {
        AccessResult::TemporaryFailure
    }
}
