//! How a value is written.

ghost use Rattle.std.specs.Prelude.{◌≡◌, IfNone, IfSome};
ghost use Rattle.dlms_text.specs.Kinds.{word_of};

/// How the text after a word and a colon writes a value.
#[derive(Clone, Copy, Debug, PartialEq, Eq)]
pub enum Kind {
    /// `u8:`, a number as unsigned.
    Unsigned,
    /// `u16:`, a number as long-unsigned.
    LongUnsigned,
    /// `u32:`, a number as double-long-unsigned.
    DoubleLongUnsigned,
    /// `u64:`, a number as long64-unsigned.
    Long64Unsigned,
    /// `i8:`, a number as integer.
    Integer,
    /// `i16:`, a number as long.
    Long,
    /// `i32:`, a number as double-long.
    DoubleLong,
    /// `i64:`, a number as long64.
    Long64,
    /// `enum:`, a number as enum.
    Enum,
    /// `bool:`, true or false.
    Bool,
    /// `text:`, a text as octet-string.
    Text,
    /// `visible:`, a text as visible-string.
    Visible,
    /// `utf8:`, a text as utf8-string.
    Utf8,
    /// `hex:`, pairs of hexadecimal digits as octet-string.
    Hex,
    /// `raw:`, the encoding of any value in pairs of hexadecimal digits.
    Raw,
}

/// The kind that a word names.
pub fn kind_of(word: &str) -> Option<Kind>
    ensures some { IfSome result (λ kind. word.now ≡ word_of kind) }
    ensures none { IfNone result ((kind : Kind) → word.now ≡ word_of kind → ⊥) }
{
    match word {
        "u8" => Some(Kind::Unsigned),
        "u16" => Some(Kind::LongUnsigned),
        "u32" => Some(Kind::DoubleLongUnsigned),
        "u64" => Some(Kind::Long64Unsigned),
        "i8" => Some(Kind::Integer),
        "i16" => Some(Kind::Long),
        "i32" => Some(Kind::DoubleLong),
        "i64" => Some(Kind::Long64),
        "enum" => Some(Kind::Enum),
        "bool" => Some(Kind::Bool),
        "text" => Some(Kind::Text),
        "visible" => Some(Kind::Visible),
        "utf8" => Some(Kind::Utf8),
        "hex" => Some(Kind::Hex),
        "raw" => Some(Kind::Raw),
        _ => None,
    }
}

/// The kind in which a value with this tag is written (A-XDR, IEC 62056-6-2, common data types); none for other types.
pub fn kind_of_tag(tag: u8) -> Option<Kind> {
    match tag {
        3 => Some(Kind::Bool),
        5 => Some(Kind::DoubleLong),
        6 => Some(Kind::DoubleLongUnsigned),
        9 => Some(Kind::Text),
        10 => Some(Kind::Visible),
        12 => Some(Kind::Utf8),
        15 => Some(Kind::Integer),
        16 => Some(Kind::Long),
        17 => Some(Kind::Unsigned),
        18 => Some(Kind::LongUnsigned),
        20 => Some(Kind::Long64),
        21 => Some(Kind::Long64Unsigned),
        22 => Some(Kind::Enum),
        _ => None,
    }
}

impl Kind {
    /// What is written in this kind, for a message.
    pub fn meaning(self) -> &'static str {
        match self {
            Kind::Unsigned => "a number of 0 to 255 (u8)",
            Kind::LongUnsigned => "a number of 0 to 65535 (u16)",
            Kind::DoubleLongUnsigned => "a number of 0 to 4294967295 (u32)",
            Kind::Long64Unsigned => "a number of 0 to 18446744073709551615 (u64)",
            Kind::Integer => "a number of -128 to 127 (i8)",
            Kind::Long => "a number of -32768 to 32767 (i16)",
            Kind::DoubleLong => "a number of -2147483648 to 2147483647 (i32)",
            Kind::Long64 => "a number of -9223372036854775808 to 9223372036854775807 (i64)",
            Kind::Enum => "a number of 0 to 255 (enum)",
            Kind::Bool => "true or false (bool)",
            Kind::Text => "a text (text)",
            Kind::Visible => "a text (visible)",
            Kind::Utf8 => "a text (utf8)",
            Kind::Hex | Kind::Raw => "pairs of hexadecimal digits",
        }
    }
}
