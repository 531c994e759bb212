//! The layouts by which bodies were written, and bytes of each in the present one.
ghost use Rattle.std.specs.Prelude.{◌≡◌, ◌≤◌, ◌+◌, length};
ghost use Rattle.dlms_checkpoint.specs.Layouts.{as_present, first_settings, head_length, missing, number_of, version_named};
ghost use Rattle.dlms_checkpoint.specs.declared.fields.TheConstants.{HEAD_BYTES, SETTINGS_PLACE};
ghost use Rattle.dlms_checkpoint.specs.declared.writing.TheConstants.{MOST_BYTES};

use crate::fields::{HEAD_BYTES, SETTINGS_BYTES, SETTINGS_PLACE, append};
use crate::writing::MOST_BYTES;
use arrayvec::ArrayVec;

/// By which layout bodies were written.
#[derive(Clone, Copy, Debug, PartialEq, Eq)]
pub enum Version {
    /// Rows of the clock and the three registers; nothing is said of columns and of the reader's secret.
    Rings,
    /// Rows of the columns that are said, and both secrets: the layout that is written.
    Columns,
}

impl Version {
    /// The number by which the heads of pages say a version, 1 or 2.
    pub fn number(self) -> u8
        ensures { result ≡ number_of self }
    {
        match self {
            Version::Rings => 1,
            Version::Columns => 2,
        }
    }

    /// The version of this number.
    pub fn of_number(number: u8) -> Option<Version>
        ensures { result ≡ version_named number }
    {
        match number {
            1 => Some(Version::Rings),
            2 => Some(Version::Columns),
            _ => None,
        }
    }

    /// How many bytes fewer the version has than the present one.
    pub(crate) fn missing(self) -> usize
        ensures value { result ≡ missing self }
        ensures few { result ≤ 22 }
    {
        match self {
            Version::Rings => SETTINGS_BYTES,
            Version::Columns => 0,
        }
    }

    /// The number of bytes before the rows.
    pub(crate) fn head_length(self) -> usize
        ensures { result ≡ head_length self }
    {
        HEAD_BYTES - self.missing()
    }
}

/// What version 1 does not say and means: four columns, and the reader's first secret.
#[tactic(auto, unfolding(crate::specs::Layouts::first_settings, crate::specs::Checkpoint::field))]
fn first_settings() -> [u8; SETTINGS_BYTES]
    ensures { result ≡ first_settings }
{
    *b"\x04\x00\x01\x02\x03\x0823456789\0\0\0\0\0\0\0\0"
}

/// Bytes of a version in the present layout.
pub(crate) fn present_of(version: Version, bytes: &[u8]) -> ArrayVec<u8, MOST_BYTES>
    requires long { SETTINGS_PLACE ≤ length bytes.now }
    requires room { length bytes.now + missing version ≤ MOST_BYTES }
    ensures { result.items ≡ as_present version bytes.now }
{
    let mut present = ArrayVec::new();
    match version {
        Version::Rings => {
            let (front, behind) = bytes.split_at(SETTINGS_PLACE);
            append(&mut present, front);
            append(&mut present, &first_settings());
            append(&mut present, behind);
        }
        Version::Columns => append(&mut present, bytes),
    }
    present
}
