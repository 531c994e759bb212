//! Texts in the page's buffer.
ghost use Rattle.std.specs.Prelude.{◌≡◌, ◌⊎◌};
ghost use Rattle.dlms_web.specs.Text.{Puts};
ghost use Rattle.dlms_web.specs.declared.codes.TheConstants.{DONE, SHORT};

use crate::codes::{DONE, SHORT};

/// Writes octets to the page's buffer: all of them, or none if it is too short.
pub fn put(told: &[u8], text: &mut [u8], size: &mut usize) -> u32
    ensures puts { Puts told.now text.old result size.new text.new }
    ensures code { (result ≡ DONE) ⊎ (result ≡ SHORT) }
{
    let len = told.len();
    *size = len;
    if text.len() < len {
        return SHORT;
    }
    text[..len].copy_from_slice(told);
    DONE
}
