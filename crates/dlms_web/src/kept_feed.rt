//! An explanation under way.
ghost use Rattle.std.specs.Prelude.{◌≡◌, ◌≢◌, ◌⊎◌, ℕ, List};
ghost use Rattle.std.specs.Str.{IsUtf8};
ghost use Rattle.dlms_web.specs.Text.{Puts};
ghost use Rattle.dlms_web.specs.declared.codes.TheConstants.{DONE, MEMORY, SHORT};

use crate::codes::{DONE, MEMORY};
use crate::keys::PageKeys;
use crate::putting::put;
use dlms_explain::{Feed, Form};
use dlms_room::RoomHeap;

/// An explanation under way, in a heap that is never given back.
#[derive(Drop)]
pub struct KeptFeed {
    feed: Feed<&'static RoomHeap, PageKeys>,
}

impl KeptFeed {
    /// Before the first octet of an input that begins with these.
    pub fn new(heap: &'static RoomHeap, form: Form, keys: PageKeys, front: &[u8]) -> KeptFeed {
        KeptFeed {
            feed: Feed::new(heap, form, keys, front),
        }
    }

    /// Takes octets of the input.
    pub fn feed(&mut self, octets: &[u8]) {
        self.feed.take(octets);
    }

    /// The input is at its end.
    pub fn end(&mut self) {
        self.feed.end();
    }

    /// Moves the text to a buffer. If it is too short the text stays.
    pub fn take(&mut self, text: &mut [u8], size: &mut usize) -> u32
        ensures code { (result ≡ DONE) ⊎ (result ≡ SHORT) ⊎ (result ≡ MEMORY) }
        ensures memory { result ≡ MEMORY → (size.new ≡ 0) × (text.new ≡ text.old) }
        ensures told { result ≢ MEMORY
            → (told : List ℕ) × ∥ IsUtf8 told ∥₁ × Puts told text.old result size.new text.new }
    {
        let Ok(told) = self.feed.text() else {
            *size = 0;
            return MEMORY;
        };
        let code = put(told.as_bytes(), text, size);
        if code == DONE {
            self.feed.clear();
        }
        code
    }
}
