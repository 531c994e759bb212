//! Requests that a meter gets one after another, each chosen by the answers before it.

use dlms_client::Answer;
use dlms_data::{Data, Descriptor};
use std::alloc::{AllocError, Global};

/// A request to a meter.
#[derive(Drop)]
pub enum Question {
    /// An attribute.
    Get(Descriptor),
    /// An attribute is set to this value.
    Set(Descriptor, Data<Global>),
    /// A method is called, with this parameter if it has one.
    Act(Descriptor, Option<Data<Global>>),
}

/// The requests that a meter gets, each chosen by the answers before it. It reads no clock and no socket.
pub trait Script {
    ghost use Rattle.std.specs.Prelude.{List, ℕ, Option, Result};
    ghost use Rattle.std.specs.declared.alloc.AllocError.{AllocError};
    ghost use Rattle.dlms_association.specs.declared.answer.Answer.{Answer};
    ghost use Rattle.dlms_inquiries.specs.declared.script.Question.{Question};

    /// The script before an answer, the answer, the encoding that came with it, the request that follows, and the script after it. It is
    /// a relation: memory may be refused.
    ghost follows: { Self → Option Answer → List ℕ → Result (Option Question) AllocError → Self
        → Type 0 };

    /// Takes the answer to the request before, and the encoding of the value if it is one. Returns the next request, or none if there is
    /// no more. At first there is no answer.
    fn next(&mut self, answer: Option<Answer>, value: &[u8]) -> Result<Option<Question>, AllocError>
        ensures { follows self.old answer value.now result self.new };
}
