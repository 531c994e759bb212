//! The values in an array or a structure.

ghost use Rattle.std.specs.Prelude.{◌≡◌, ◌≤◌, IsTrue};
ghost use Rattle.dlms_values.specs.Reading.{values_at, is_read};

use crate::reading::value_with;
use crate::value::Value;

/// The values in an array or a structure, read one after the other.
#[derive(Clone, Copy)]
pub struct Items<'a> {
    pub(crate) levels: u8,
    pub(crate) count: u32,
    pub(crate) bytes: &'a [u8],
    ghost spelled: { IsTrue (is_read (values_at levels count bytes.now)) },
}

impl<'a> Items<'a> {
    ghost use Rattle.std.specs.Option.{option_map};
    ghost use Rattle.dlms_values.specs.Value.{count};
    ghost use Rattle.dlms_values.specs.View.{values_in, value_of, IsNext};

    /// How many values there are.
    pub fn len(&self) -> u32
        ensures { result ≡ count (values_in self.now) }
    {
        self.count
    }

    /// The first value, which is then no longer among them.
    pub fn next_value(&mut self) -> Option<Value<'a>>
        ensures { IsNext (values_in self.old) result (values_in self.new) }
    {
        if self.count == 0 {
            return None;
        }
        let Ok((value, rest)) = value_with(self.levels, self.bytes) else {
            unreachable!()
        };
        *self = Items {
            levels: self.levels,
            count: self.count - 1,
            bytes: rest,
        };
        Some(value)
    }
}
