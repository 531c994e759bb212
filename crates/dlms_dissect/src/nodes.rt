//! The element at the front of octets: a length, a value.

ghost use Rattle.std.specs.Prelude.{◌≡◌, ◌≤◌, ◌<◌, ◌^◌, IfSome};
ghost use Rattle.std.specs.List.{list_all};
ghost use Rattle.dlms_dissect.specs.Nodes.{are_simple, compact, counted, fixed_of, flat_type, is_simple, length_at, long_length, node_at, of_four, of_one, of_three, of_two, spells, structure_type, text_behind, type_at};

/// A length, and how many octets spell it.
#[derive(Clone, Copy)]
pub struct Length {
    pub number: u32,
    pub octets: usize,
}

/// A length that is spelled by these many octets.
fn spells(number: u32, octets: usize) -> Option<Length>
    ensures { result ≡ spells number octets }
{
    Some(Length { number, octets })
}

/// A length after 0x81.
fn of_one(bytes: &[u8]) -> Option<Length>
    ensures { result ≡ of_one bytes.now }
{
    match bytes {
        [a, ..] => spells(u32::from(*a), 2),
        _ => None,
    }
}

/// A length after 0x82.
fn of_two(bytes: &[u8]) -> Option<Length>
    ensures { result ≡ of_two bytes.now }
{
    match bytes {
        [a, b, ..] => spells(u32::from(*a) * 256 + u32::from(*b), 3),
        _ => None,
    }
}

/// A length after 0x83.
fn of_three(bytes: &[u8]) -> Option<Length>
    ensures { result ≡ of_three bytes.now }
{
    match bytes {
        [a, b, c, ..] => spells(
            (u32::from(*a) * 256 + u32::from(*b)) * 256 + u32::from(*c),
            4,
        ),
        _ => None,
    }
}

/// A length after 0x84.
fn of_four(bytes: &[u8]) -> Option<Length>
    ensures { result ≡ of_four bytes.now }
{
    match bytes {
        [a, b, c, d, ..] => spells(
            ((u32::from(*a) * 256 + u32::from(*b)) * 256 + u32::from(*c)) * 256 + u32::from(*d),
            5,
        ),
        _ => None,
    }
}

/// A length of more than one octet, after its first one.
fn long_length(first: u8, bytes: &[u8]) -> Option<Length>
    ensures { result ≡ long_length first bytes.now }
{
    match first {
        0x81 => of_one(bytes),
        0x82 => of_two(bytes),
        0x83 => of_three(bytes),
        0x84 => of_four(bytes),
        _ => None,
    }
}

/// The length at the front (A-XDR, IEC 61334-6): an octet below 0x80, or 0x81 to 0x84 and that many octets.
pub fn length_at(bytes: &[u8]) -> Option<Length>
    ensures exact { result ≡ length_at bytes.now }
    ensures few { IfSome result (λ l. l.octets ≤ 5) }
    ensures small { IfSome result (λ l. l.number < 2 ^ 32) }
{
    let (first, rest) = bytes.split_first()?;
    if *first < 0x80 {
        return Some(Length {
            number: u32::from(*first),
            octets: 1,
        });
    }
    long_length(*first, rest)
}

/// The element at the front: the number of its own octets, and the number of values after these in it.
#[derive(Clone, Copy)]
pub struct Front {
    pub own: usize,
    pub values: usize,
}

/// Octets without values.
fn alone(own: usize) -> Option<Front>
    ensures { result ≡ Some (record { own = own; values = 0 }) }
{
    Some(Front { own, values: 0 })
}

/// A text after this many octets: a length, and that many octets.
pub fn text_behind(before: usize, bytes: &[u8]) -> Option<Front>
    requires { before ≤ 64 }
    ensures exact { result ≡ text_behind before bytes.now }
    ensures few { IfSome result (λ front. front.own < 2 ^ 33) }
{
    if before > bytes.len() {
        return None;
    }
    let length = length_at(&bytes[before..])?;
    alone(before + length.octets + length.number as usize)
}

/// The number of octets that a value of this type has after its tag, if it is always the same.
fn fixed_of(tag: u8) -> Option<usize>
    ensures exact { result ≡ fixed_of tag }
    ensures few { IfSome result (λ n. n ≤ 12) }
{
    match tag {
        0 | 255 => Some(0),
        3 | 13 | 15 | 17 | 22 | 28 | 31 => Some(1),
        16 | 18 | 29 | 32 => Some(2),
        5 | 6 | 23 | 27 | 30 | 33 => Some(4),
        26 => Some(5),
        20 | 21 | 24 => Some(8),
        25 => Some(12),
        _ => None,
    }
}

/// Whether a type that this tag names describes itself.
fn is_simple(tag: u8) -> bool
    ensures { result ≡ is_simple tag }
{
    fixed_of(tag).is_some() || tag == 4 || tag == 9 || tag == 10 || tag == 12
}

/// Whether all of these are types that describe themselves.
fn all_simple(tags: &[u8]) -> bool
    ensures { result ≡ list_all is_simple tags.now }
{
    tags.iter().all(|tag| is_simple(*tag))
}

/// Whether the first `count` octets are such types.
fn are_simple(count: usize, bytes: &[u8]) -> bool
    ensures { result ≡ are_simple count bytes.now }
{
    if count > bytes.len() {
        return false;
    }
    all_simple(&bytes[..count])
}

/// How many octets describe a structure of such types.
fn structure_type(bytes: &[u8]) -> Option<usize>
    ensures exact { result ≡ structure_type bytes.now }
    ensures few { IfSome result (λ n. n < 2 ^ 33) }
{
    let length = length_at(bytes)?;
    let count = length.number as usize;
    if are_simple(count, &bytes[length.octets.min(bytes.len())..]) {
        Some(1 + length.octets + count)
    } else {
        None
    }
}

/// How many octets describe a type that is no array.
fn flat_type(bytes: &[u8]) -> Option<usize>
    ensures exact { result ≡ flat_type bytes.now }
    ensures few { IfSome result (λ n. n < 2 ^ 33) }
{
    let (tag, rest) = bytes.split_first()?;
    if *tag == 2 {
        structure_type(rest)
    } else if is_simple(*tag) {
        Some(1)
    } else {
        None
    }
}

/// How many octets describe the type of a compact-array's values (IEC 62056-5-3, TypeDescription).
fn type_at(bytes: &[u8]) -> Option<usize>
    ensures exact { result ≡ type_at bytes.now }
    ensures few { IfSome result (λ n. n < 2 ^ 34) }
{
    match bytes {
        [1, _, _, rest @ ..] => Some(3 + flat_type(rest)?),
        _ => flat_type(bytes),
    }
}

/// A compact-array after its tag: its description, and its contents.
fn compact(bytes: &[u8]) -> Option<Front>
    ensures { result ≡ compact bytes.now }
{
    let described = type_at(bytes)?;
    if described > bytes.len() {
        return None;
    }
    let length = length_at(&bytes[described..])?;
    alone(1 + described + length.octets + length.number as usize)
}

/// The element with a length after its tag.
fn element_front(tag: u8, length: Length) -> Front
    requires { length.octets ≤ 5 }
    ensures { result ≡ counted tag length }
{
    let number = length.number as usize;
    match tag {
        1 | 2 => Front {
            own: 1 + length.octets,
            values: number,
        },
        4 => Front {
            own: 1 + length.octets + (number + 7) / 8,
            values: 0,
        },
        _ => Front {
            own: 1 + length.octets + number,
            values: 0,
        },
    }
}

/// A value at the front (the CHOICE Data of IEC 62056-5-3): its tag with its own octets, and the number of its inner values.
pub fn node_at(bytes: &[u8]) -> Option<Front>
    ensures { result ≡ node_at bytes.now }
{
    let (tag, rest) = bytes.split_first()?;
    match *tag {
        1 | 2 | 4 | 9 | 10 | 12 => Some(element_front(*tag, length_at(rest)?)),
        19 => compact(rest),
        other => alone(1 + fixed_of(other)?),
    }
}
