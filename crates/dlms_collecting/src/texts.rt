//! The text that a meter shows.

use crate::fault::MeterFault;
use dlms_client::Answer;
use dlms_identity::Expected;
use dlms_inquiries::Reply;
use dlms_values::{OctetsKind, Value, is_value, read};

/// The octets of the string that an encoding spells; none if it spells another value, or no value (Blue Book, common data types).
fn text_in(encoding: &[u8]) -> Option<&[u8]> {
    if !is_value(encoding) {
        return None;
    }
    match read(encoding) {
        Ok(
            (
                Value::Octets(
                    OctetsKind::OctetString | OctetsKind::VisibleString | OctetsKind::Utf8String,
                    octets,
                ),
                _,
            ),
        ) => Some(octets),
        _ => None,
    }
}

/// Whether the replies are one, with the text that is expected.
pub fn judge_text(replies: &[Reply], expected: &Expected<'_>) -> Result<(), MeterFault> {
    let [reply] = replies else {
        return Err(MeterFault::Stranger);
    };
    if reply.answer != Answer::Value {
        return Err(MeterFault::Stranger);
    }
    match text_in(reply.value.as_slice()) {
        Some(text) if text == expected.text.as_bytes() => Ok(()),
        _ => Err(MeterFault::Stranger),
    }
}
