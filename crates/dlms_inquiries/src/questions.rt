//! A list of requests, and the reply to each.

ghost use Rattle.std.specs.Prelude.{◌≡◌, IfOk, OnOk, Some};
ghost use Rattle.dlms_association.specs.declared.answer.Answer.TheVariants.{Value as ValueCame};
ghost use Rattle.dlms_inquiries.specs.Questions.{Keeps};

use crate::script::{Question, Script};
use dlms_client::Answer;
use std::alloc::{AllocError, Global};
use std::collections::VecDeque;

/// The reply to a request: the answer, and the encoding of the value if it is one.
#[derive(Drop)]
pub struct Reply {
    pub answer: Answer,
    pub value: Vec<u8>,
}

/// A list of requests, which are made in their order whatever the answers are, and the replies to those that were made.
#[derive(Drop)]
pub struct Questions {
    alloc: Global,
    left: VecDeque<Question>,
    replies: Vec<Reply>,
}

/// The encoding that came with an answer, if it is a value.
fn value_in(alloc: Global, answer: Answer, value: &[u8]) -> Result<Vec<u8>, AllocError>
    ensures { IfOk result (λ kept. answer ≡ ValueCame → kept.items ≡ value.now) }
{
    match answer {
        Answer::Value => Vec::from_slice(alloc, value),
        _ => Ok(Vec::new(alloc)),
    }
}

impl Questions {
    /// No request.
    pub fn new(alloc: Global) -> Self {
        Questions {
            alloc,
            left: VecDeque::new(alloc),
            replies: Vec::new(alloc),
        }
    }

    /// Adds a request after the others.
    pub fn add(&mut self, question: Question) -> Result<(), AllocError> {
        self.left.push_back(question)?;
        Ok(())
    }

    /// The replies to the requests that were made, in their order.
    pub fn replies(&self) -> &[Reply]
        ensures { result.now ≡ self.now.replies.items }
    {
        self.replies.as_slice()
    }

    /// Keeps the reply to the last request.
    fn keep(&mut self, answer: Answer, value: &[u8]) -> Result<(), AllocError>
        ensures kept { OnOk result (Keeps (Some answer) value.now self.old.replies.items
            self.new.replies.items) }
        ensures left { self.new.left ≡ self.old.left }
    {
        let value = value_in(self.alloc, answer, value)?;
        self.replies.push(Reply { answer, value })?;
        Ok(())
    }

    /// Keeps the reply to the last request, if there was one.
    fn take(&mut self, answer: Option<Answer>, value: &[u8]) -> Result<(), AllocError>
        ensures kept { OnOk result (Keeps answer value.now self.old.replies.items
            self.new.replies.items) }
        ensures left { self.new.left ≡ self.old.left }
    {
        match answer {
            Some(answer) => self.keep(answer, value),
            None => Ok(()),
        }
    }
}

impl Script for Questions {
    ghost use Rattle.dlms_inquiries.specs.Questions.{QuestionsFollow};

    ghost follows = { QuestionsFollow };

    fn next(
        &mut self,
        answer: Option<Answer>,
        value: &[u8],
    ) -> Result<Option<Question>, AllocError> {
        self.take(answer, value)?;
        Ok(self.left.pop_front())
    }
}
