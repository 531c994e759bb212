//! A value that may be a secret, or contain one: the lengths of its strings are reported, and no octet.

ghost use Rattle.std.specs.Prelude.{◌≡◌};
ghost use Rattle.dlms_dissect.specs.Veiled.{IsPart};

use dlms_data::Data;
use std::alloc::Allocator;

/// The reported content of such a value.
#[derive(Drop)]
pub enum Part<'a, A: Allocator> {
    /// A value that is no string and holds no others.
    Plain(&'a Data<A>),
    /// An octet-string of this many octets.
    OctetString(usize),
    /// A visible-string of this many.
    VisibleString(usize),
    /// A utf8-string of this many.
    Utf8String(usize),
    /// A bit-string of this many bits.
    BitString(usize),
    /// An array of this many values.
    Array(usize),
    /// A structure of this many.
    Structure(usize),
}

/// Such a value. Nobody gets at its strings.
#[derive(Drop)]
pub struct Veiled<'a, A: Allocator> {
    value: &'a Data<A>,
}

impl<'a, A: Allocator> Veiled<'a, A> {
    /// Only the report of this value is accessible from now on.
    pub fn new(value: &'a Data<A>) -> Veiled<'a, A>
        ensures { result.value.now ≡ value.now }
    {
        Veiled { value }
    }

    /// The reported content of the value; the inner values of an array or a structure are reported by themselves.
    pub fn part(&self) -> Part<'a, A>
        ensures { IsPart self.now.value.now result }
    {
        match self.value {
            Data::OctetString(octets) => Part::OctetString(octets.as_slice().len()),
            Data::VisibleString(octets) => Part::VisibleString(octets.as_slice().len()),
            Data::Utf8String(octets) => Part::Utf8String(octets.as_slice().len()),
            Data::BitString(bits) => Part::BitString(bits.len()),
            Data::Array(items) => Part::Array(items.len()),
            Data::Structure(items) => Part::Structure(items.len()),
            _ => Part::Plain(self.value),
        }
    }

    /// The value at this place, counted from 0, in an array or a structure.
    pub fn item(&self, at: usize) -> Option<Veiled<'a, A>> {
        let items = match self.value {
            Data::Array(items) | Data::Structure(items) => items.as_slice(),
            _ => return None,
        };
        let value = items.get(at)?;
        Some(Veiled { value })
    }
}

/// Such a value that was joined of its blocks.
#[derive(Drop)]
pub struct Covered<A: Allocator> {
    value: Data<A>,
}

impl<A: Allocator> Covered<A> {
    /// Only the report of this value is accessible from now on.
    pub fn new(value: Data<A>) -> Covered<A>
        ensures { result.value ≡ value }
    {
        Covered { value }
    }

    /// Its report.
    pub fn report(&self) -> Veiled<'_, A>
        ensures { result.value.now ≡ self.now.value }
    {
        Veiled { value: &self.value }
    }
}
