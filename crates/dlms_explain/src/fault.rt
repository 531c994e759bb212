//! Why an explanation ended early.

use std::alloc::AllocError;
use thiserror::Error;

/// Why an explanation ended early. What was written before stays.
#[derive(Clone, Copy, Debug, Error)]
pub enum ExplainFault {
    /// A growth was refused.
    #[error("memory")]
    Memory,
    /// The input failed.
    #[error("io")]
    Input,
    /// The output failed.
    #[error("io")]
    Output,
}

impl From<AllocError> for ExplainFault {
    ghost use Rattle.std.specs.Prelude.{◌≡◌};
    ghost use Rattle.dlms_explain.specs.declared.fault.ExplainFault.TheVariants.{Memory};

    ghost from_gives = { λ _ e. e ≡ Memory };

    fn from(_error: AllocError) -> ExplainFault {
        ExplainFault::Memory
    }
}
