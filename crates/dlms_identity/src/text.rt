//! The text in the encoding of a value.

ghost use Rattle.std.specs.Prelude.{◌≡◌, IfOk, OnErr};
ghost use Rattle.dlms_data.specs.Value.{Value};
ghost use Rattle.dlms_data.specs.Spelling.{IsSpelling};
ghost use Rattle.dlms_data.specs.View.{value_of};
ghost use Rattle.dlms_identity.specs.Text.{IsText, text_of};

use dlms_data::{Bytes, Data, is_value, read};
use std::alloc::{AllocError, Global};

/// The octets of a string; none of any other value.
fn octets_of(value: Data<Global>) -> Option<Bytes<Global>>
    ensures { result ≡ text_of (value_of value) }
{
    match value {
        Data::OctetString(octets) => Some(octets),
        Data::VisibleString(octets) => Some(octets),
        Data::Utf8String(octets) => Some(octets),
        other => {
            drop(other);
            None
        }
    }
}

/// The octets of the string that an encoding spells: an octet-string, a visible-string or a utf8-string (Blue Book, common data
/// types). None if it spells another value, or no value. Out of memory is reported only if it spells a value.
pub fn text_in(alloc: Global, encoding: &[u8]) -> Result<Option<Bytes<Global>>, AllocError>
    ensures text { IfOk result (IsText encoding.now) }
    ensures lacks { OnErr result ((v : Value) × IsSpelling encoding.now v) }
{
    if !is_value(encoding) {
        return Ok(None);
    }
    match read(alloc, encoding) {
        Ok((value, _)) => Ok(octets_of(value)),
        Err(_) => Err(AllocError),
    }
}
