//! The reported content of a field: it has no octet of a secret, of a block or of ciphered content.

ghost use Rattle.std.specs.Prelude.{◌≡◌, ◌≤◌, drop};
ghost use Rattle.dlms_dissect.specs.Items.{Ciphers, IsItem, IsShown, block_of, has_block, is_string, number_behind, tag_of};

use crate::fields::Field;
use crate::nodes::length_at;
use crate::secrecy::Secrecy;
use crate::walk::Event;

/// The reported content of a value, without its inner values.
#[derive(Clone, Copy)]
pub enum Shown<'a> {
    /// It is a secret.
    Secret,
    /// It may be one, and is a string: its type and its length.
    Veiled { tag: u8, count: u32 },
    /// Its octets.
    Open(&'a [u8]),
}

/// The reported content of a field.
#[derive(Clone, Copy)]
pub enum Item<'a> {
    /// Its octets.
    Plain(Field, &'a [u8]),
    /// A list of this many.
    List(Field, u32),
    /// A value.
    Value(Shown<'a>),
    /// A block: whether it is the last one, its number, and how many octets it has.
    Block {
        last: bool,
        number: u32,
        len: u32,
    },
    /// So many octets.
    Length(Field, u32),
    /// Ciphered content: the security control, the invocation counter, and the number of octets.
    Ciphered {
        control: u8,
        counter: u32,
        len: usize,
    },
}

/// The tag of a value; 0 of no octets.
pub fn tag_of(octets: &[u8]) -> u8
    ensures { result ≡ tag_of octets.now }
{
    match octets {
        [tag, ..] => *tag,
        [] => 0,
    }
}

/// Whether values with this tag are strings: bit-string, octet-string, visible-string, utf8-string, compact-array.
pub fn is_string(tag: u8) -> bool
    ensures { result ≡ is_string tag }
{
    matches!(tag, 4 | 9 | 10 | 12 | 19)
}

/// The number of the length after this many octets; 0 if there is none.
fn number_behind(before: usize, octets: &[u8]) -> u32
    ensures { result ≡ number_behind before octets.now }
{
    if before > octets.len() {
        return 0;
    }
    match length_at(&octets[before..]) {
        Some(length) => length.number,
        None => 0,
    }
}

/// The reported content of a value.
fn show(secrecy: Secrecy, octets: &[u8]) -> Shown<'_>
    ensures { IsShown secrecy octets.now result }
{
    match secrecy {
        Secrecy::Secret => Shown::Secret,
        Secrecy::Open => Shown::Open(octets),
        Secrecy::Unknown => {
            let tag = tag_of(octets);
            if is_string(tag) {
                Shown::Veiled {
                    tag,
                    count: number_behind(1, octets),
                }
            } else {
                Shown::Open(octets)
            }
        }
    }
}

/// A block whose octets come after this many others.
fn block_of<'a>(octets: &[u8], before: usize) -> Item<'a>
    ensures { result ≡ block_of octets.now before }
{
    match octets {
        [last, a, b, c, d, ..] => Item::Block {
            last: *last != 0,
            number: ((u32::from(*a) * 256 + u32::from(*b)) * 256 + u32::from(*c)) * 256
                + u32::from(*d),
            len: number_behind(before, octets),
        },
        _ => Item::Length(Field::Block, 0),
    }
}

/// Ciphered content, after its length and its security header.
fn ciphered_item<'a>(octets: &[u8]) -> Item<'a>
    ensures { Ciphers octets.now result }
{
    let behind = match length_at(octets) {
        Some(length) => length.octets.min(octets.len()),
        None => 0,
    };
    match &octets[behind..] {
        [control, a, b, c, d, text @ ..] => Item::Ciphered {
            control: *control,
            counter: ((u32::from(*a) * 256 + u32::from(*b)) * 256 + u32::from(*c)) * 256
                + u32::from(*d),
            len: text.len(),
        },
        _ => Item::Length(Field::Ciphered, number_behind(0, octets)),
    }
}

/// Whether a field contains a block, and not a result.
pub fn has_block(octets: &[u8]) -> bool
    ensures { result ≡ has_block octets.now }
{
    match octets {
        [_, _, _, _, _, choice, ..] => *choice == 0,
        _ => false,
    }
}

/// The reported content of a field, given this secrecy of the values of its APDU.
pub fn item_of<'a>(secrecy: Secrecy, event: Event<'a>) -> Item<'a>
    ensures { IsItem secrecy event.entry result }
{
    match event {
        Event::List(field, count) => Item::List(field, count),
        Event::Field(Field::Value, octets) => Item::Value(show(secrecy, octets)),
        Event::Field(Field::Block, octets) => block_of(octets, 5),
        Event::Field(Field::BlockResult, octets) if has_block(octets) => block_of(octets, 6),
        Event::Field(Field::Octets, octets) => {
            Item::Length(Field::Octets, number_behind(0, octets))
        }
        Event::Field(Field::Key, octets) => Item::Length(Field::Key, number_behind(3, octets)),
        Event::Field(Field::ShortData, octets) if tag_of(octets) == 2 => {
            Item::Length(Field::ShortData, number_behind(4, octets))
        }
        Event::Field(Field::Ciphered, octets) => ciphered_item(octets),
        Event::Field(field, octets) => Item::Plain(field, octets),
    }
}
