//! Bit strings.

ghost use Rattle.std.specs.Prelude.{◌≡◌, ◌↔◌, length, IsTrue};
ghost use Rattle.dlms_data.specs.Bits.{bytes_for};

/// Bits in borrowed octets. The first bit is the highest of the first octet.
#[derive(Clone, Copy)]
pub struct Bits<'a> {
    pub(crate) bytes: &'a [u8],
    pub(crate) count: usize,
    ghost enough: { length bytes.now ≡ bytes_for count },
}

impl<'a> Bits<'a> {
    ghost use Rattle.std.specs.Prelude.{length, IsTrue};
    ghost use Rattle.dlms_data.specs.Bits.{HoldsBits};
    ghost use Rattle.dlms_values.specs.View.{bits_in};

    /// How many bits there are.
    pub fn len(&self) -> usize
        ensures { result ≡ length (bits_in self.now) }
    {
        self.count
    }

    /// Whether there are no bits.
    pub fn is_empty(&self) -> bool
        ensures { IsTrue result ↔ (length (bits_in self.now) ≡ 0) }
    {
        self.len() == 0
    }

    /// The octets that hold the bits. The bits after the last one can have any value.
    pub fn as_bytes(&self) -> &'a [u8]
        ensures { HoldsBits result.now (bits_in self.now) }
    {
        self.bytes
    }
}
