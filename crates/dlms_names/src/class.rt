//! A class of objects.

ghost use Rattle.std.specs.Prelude.{◌≡◌, map};
ghost use Rattle.std.specs.Option.{option_copied};
ghost use Rattle.dlms_names.specs.Rows.{numbered};
ghost use Rattle.dlms_names.specs.ClassView.{names_of};

/// A class of objects (the Blue Book, IEC 62056-6-2), by its names. Attributes and methods are numbered from 1, in this order.
#[derive(Clone, Copy, Debug, PartialEq, Eq)]
pub struct Class {
    pub name: &'static str,
    pub attributes: &'static [&'static str],
    pub methods: &'static [&'static str],
}

/// The name with this number, counted from 1.
fn numbered(names: &'static [&'static str], number: u8) -> Option<&'static str>
    ensures { option_copied result ≡ numbered (map (λ name. name.now) names.now) number }
{
    if number == 0 {
        return None;
    }
    names.get(usize::from(number) - 1).copied()
}

impl Class {
    /// The name of the attribute with this number; none if the class has no such attribute.
    pub fn attribute(self, number: u8) -> Option<&'static str>
        ensures { option_copied result ≡ numbered (names_of self).attributes number }
    {
        numbered(self.attributes, number)
    }

    /// The name of the method with this number; none if the class has no such method.
    pub fn method(self, number: u8) -> Option<&'static str>
        ensures { option_copied result ≡ numbered (names_of self).methods number }
    {
        numbered(self.methods, number)
    }
}
