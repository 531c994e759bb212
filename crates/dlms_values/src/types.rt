//! The types of Data and their tags.

ghost use Rattle.std.specs.Prelude.{◌≡◌};
ghost use Rattle.dlms_values.specs.Types.{type_of, plain_tag, is_plain_tag};

/// The integers with a sign.
#[derive(Clone, Copy, Debug, PartialEq, Eq)]
pub enum SignedKind {
    Integer,
    Long,
    DoubleLong,
    Long64,
    DeltaInteger,
    DeltaLong,
    DeltaDoubleLong,
}

/// The integers without a sign, and the numbers that name something.
#[derive(Clone, Copy, Debug, PartialEq, Eq)]
pub enum UnsignedKind {
    Bcd,
    Enum,
    Unsigned,
    LongUnsigned,
    DoubleLongUnsigned,
    Long64Unsigned,
    DeltaUnsigned,
    DeltaLongUnsigned,
    DeltaDoubleLongUnsigned,
}

/// The types whose values are octets.
#[derive(Clone, Copy, Debug, PartialEq, Eq)]
pub enum OctetsKind {
    OctetString,
    VisibleString,
    Utf8String,
    DateTime,
    Date,
    Time,
}

/// A type that contains no other values.
#[derive(Clone, Copy, Debug, PartialEq, Eq)]
pub enum Plain {
    Null,
    DontCare,
    Boolean,
    BitString,
    Float32,
    Float64,
    Signed(SignedKind),
    Unsigned(UnsignedKind),
    Octets(OctetsKind),
}

/// The type of a value, by its tag.
#[derive(Clone, Copy, Debug, PartialEq, Eq)]
pub enum Tag {
    Array,
    Structure,
    CompactArray,
    Plain(Plain),
}

/// The type with this tag.
pub fn type_of(byte: u8) -> Option<Tag>
    ensures { result ≡ type_of byte }
{
    let plain = match byte {
        0 => Plain::Null,
        1 => return Some(Tag::Array),
        2 => return Some(Tag::Structure),
        3 => Plain::Boolean,
        4 => Plain::BitString,
        5 => Plain::Signed(SignedKind::DoubleLong),
        6 => Plain::Unsigned(UnsignedKind::DoubleLongUnsigned),
        9 => Plain::Octets(OctetsKind::OctetString),
        10 => Plain::Octets(OctetsKind::VisibleString),
        12 => Plain::Octets(OctetsKind::Utf8String),
        13 => Plain::Unsigned(UnsignedKind::Bcd),
        15 => Plain::Signed(SignedKind::Integer),
        16 => Plain::Signed(SignedKind::Long),
        17 => Plain::Unsigned(UnsignedKind::Unsigned),
        18 => Plain::Unsigned(UnsignedKind::LongUnsigned),
        19 => return Some(Tag::CompactArray),
        20 => Plain::Signed(SignedKind::Long64),
        21 => Plain::Unsigned(UnsignedKind::Long64Unsigned),
        22 => Plain::Unsigned(UnsignedKind::Enum),
        23 => Plain::Float32,
        24 => Plain::Float64,
        25 => Plain::Octets(OctetsKind::DateTime),
        26 => Plain::Octets(OctetsKind::Date),
        27 => Plain::Octets(OctetsKind::Time),
        28 => Plain::Signed(SignedKind::DeltaInteger),
        29 => Plain::Signed(SignedKind::DeltaLong),
        30 => Plain::Signed(SignedKind::DeltaDoubleLong),
        31 => Plain::Unsigned(UnsignedKind::DeltaUnsigned),
        32 => Plain::Unsigned(UnsignedKind::DeltaLongUnsigned),
        33 => Plain::Unsigned(UnsignedKind::DeltaDoubleLongUnsigned),
        255 => Plain::DontCare,
        _ => return None,
    };
    Some(Tag::Plain(plain))
}

/// Whether it is the tag of a type that contains no other values.
pub fn is_plain_tag(byte: u8) -> bool
    ensures { result ≡ is_plain_tag byte }
{
    match type_of(byte) {
        Some(Tag::Plain(_)) => true,
        Some(Tag::Array) | Some(Tag::Structure) | Some(Tag::CompactArray) | None => false,
    }
}
