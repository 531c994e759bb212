//! The messages of the wrapper in an input, kept in memory of their own from the first line on that may be one: they are large, and
//! most inputs have none.

ghost use Rattle.std.specs.Prelude.{◌≡◌};

use crate::session::Form;
use crate::words::Text;
use crate::wrapper::Wrapped;
use dlms_dissect::Side;
use dlms_security::Opener;
use std::alloc::{AllocError, Allocator};

/// The messages of the wrapper, or what they begin with.
#[derive(Drop)]
pub struct Messages<A: Allocator, O> {
    alloc: A,
    form: Form,
    opener: O,
    wrapped: Option<Box<Wrapped<A, O>, A>>,
}

impl<A: Allocator + Copy, O: Opener> Messages<A, O> {
    /// Before the first octet. No memory is taken here.
    pub fn new(alloc: A, form: Form, opener: O) -> Self
        ensures { result.form ≡ form }
    {
        Messages {
            alloc,
            form,
            opener,
            wrapped: None,
        }
    }

    /// The messages, which begin with the first call.
    #[inline(never)]
    fn begun(&mut self) -> Result<&mut Wrapped<A, O>, AllocError> {
        if self.wrapped.is_none() {
            let wrapped = Wrapped::new(self.alloc, self.form, self.opener);
            self.wrapped = Some(Box::new(self.alloc, wrapped)?);
        }
        match &mut self.wrapped {
            Some(wrapped) => Ok(wrapped),
            None => Err(AllocError),
        }
    }

    /// When octets came: a line, or in front of each APDU's.
    pub fn stamp(&mut self, words: &str, text: &mut Text<A>) {
        match self.begun() {
            Ok(wrapped) => wrapped.stamp(words, text),
            Err(_) => text.refuse(),
        }
    }

    /// Takes octets of one end, or of either, and appends the explanation of the APDUs that are then complete.
    pub fn octets(&mut self, said: Option<Side>, octets: &[u8], text: &mut Text<A>) {
        match self.begun() {
            Ok(wrapped) => wrapped.octets(said, octets, text),
            Err(_) => text.refuse(),
        }
    }

    /// Takes the octets of a line as `Wrapped::take_line` does. Whether they are those of a message or an APDU.
    pub fn take_line(
        &mut self,
        said: Option<Side>,
        octets: &[u8],
        stamp: &str,
        text: &mut Text<A>,
    ) -> bool {
        match self.begun() {
            Ok(wrapped) => wrapped.take_line(said, octets, stamp, text),
            Err(_) => {
                text.refuse();
                true
            }
        }
    }

    /// No more octets come.
    pub fn end(&mut self, text: &mut Text<A>) {
        if let Some(wrapped) = &mut self.wrapped {
            wrapped.end(text);
        }
    }
}
