//! A line, with an explanation of the bytes that pass over it.

use crate::explained_messages::Messages;
use dlms_explain::{Explainer, Form, Side};
use dlms_text::append_pairs;
use std::alloc::{AllocError, Global};
use std::io;
use std::io::{ErrorKind, Read, Write};

/// What passes over a line, if it is explained.
#[derive(Clone, Copy)]
pub enum Explanation {
    Nothing,
    Frames,
    Messages,
}

/// What explains the bytes of a line.
#[derive(Drop)]
enum Explaining {
    Nothing,
    Frames(Box<Explainer<Global>>),
    Messages(Messages),
}

/// A stream whose bytes are explained if that is asked for.
#[derive(Drop)]
pub struct ExplainedStream<'e, S: Drop, E> {
    pub stream: S,
    alloc: Global,
    explaining: Explaining,
    errors: &'e mut E,
}

/// A line of a transcript.
fn transcript(alloc: Global, side: Side, bytes: &[u8]) -> Result<Vec<u8>, AllocError> {
    let mark: &[u8] = if side == Side::Client { b"> " } else { b"< " };
    let mut line = Vec::from_slice(alloc, mark)?;
    append_pairs(&mut line, bytes)?;
    Ok(line)
}

/// What explains the bytes.
#[inline(never)]
fn explainer(alloc: Global) -> Result<Box<Explainer<Global>>, AllocError> {
    Ok(Box::new(alloc, Explainer::new(alloc, Form::full()))?)
}

impl<'e, S: Drop, E: Write> ExplainedStream<'e, S, E> {
    /// A stream, explained among the errors.
    pub fn new(
        alloc: Global,
        stream: S,
        explanation: Explanation,
        errors: &'e mut E,
    ) -> Result<Self, AllocError> {
        let explaining = match explanation {
            Explanation::Nothing => Explaining::Nothing,
            Explanation::Frames => Explaining::Frames(explainer(alloc)?),
            Explanation::Messages => Explaining::Messages(Messages::new(alloc)),
        };
        Ok(ExplainedStream {
            stream,
            alloc,
            explaining,
            errors,
        })
    }

    /// Appends to the text the explanation of the bytes of this side.
    fn explain(&mut self, side: Side, bytes: &[u8], text: &mut String) -> Result<(), AllocError> {
        match &mut self.explaining {
            Explaining::Nothing => Ok(()),
            Explaining::Frames(explainer) => {
                let line = transcript(self.alloc, side, bytes)?;
                explainer.line(line.as_slice(), text)
            }
            Explaining::Messages(messages) => messages.explain(side, bytes, text),
        }
    }

    /// Explains bytes of this side.
    fn tell(&mut self, side: Side, bytes: &[u8]) -> io::Result<()> {
        let mut text = String::new(self.alloc);
        match self.explain(side, bytes, &mut text) {
            Ok(()) => self.errors.write_all(text.as_bytes()),
            Err(error) => Err(error.into()),
        }
    }
}

impl<S: Read + Drop, E: Write> Read for ExplainedStream<'_, S, E> {
    fn read(&mut self, buf: &mut [u8]) -> io::Result<usize> {
        let count = self.stream.read(buf)?;
        match buf.get(..count) {
            Some(bytes) => self.tell(Side::Meter, bytes)?,
            None => {}
        }
        Ok(count)
    }
}

impl<S: Write + Drop, E: Write> Write for ExplainedStream<'_, S, E> {
    fn write(&mut self, buf: &[u8]) -> io::Result<usize> {
        let count = self.stream.write(buf)?;
        match buf.get(..count) {
            Some(bytes) => self.tell(Side::Client, bytes)?,
            None => {}
        }
        Ok(count)
    }

    fn flush(&mut self) -> io::Result<()> {
        self.stream.flush()
    }
}
