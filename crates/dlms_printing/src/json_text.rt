//! Members of JSON objects (RFC 8259).

use dlms_text::append_quoted;
use std::alloc::AllocError;

/// Appends a text in quotes after a label.
pub fn append_member(text: &mut Vec<u8>, label: &[u8], words: &str) -> Result<(), AllocError> {
    text.extend_from_slice(label)?;
    append_quoted(text, words.as_bytes())
}
