//! The services that a client and the meter agree on.

ghost use Rattle.std.specs.Prelude.{⊤, ◌≡◌, [], ◌∷◌, codes};

use bitflags::{Flag, Flags, bitflag_items};

/// The conformance block (IEC 62056-5-3, the type Conformance): 24 bits, of which bit 0 is the highest of the first byte.
/// The number here is that of the three bytes, the first one highest, so bit 23 has the value 1. What is written is its lower 24 bits.
#[derive(Clone, Copy, PartialEq, Eq, Debug)]
pub struct Conformance(pub u32);

bitflag_items! {
    impl Conformance: u32 {
        const GENERAL_PROTECTION = 0x40_0000;
        const GENERAL_BLOCK_TRANSFER = 0x20_0000;
        const READ = 0x10_0000;
        const WRITE = 0x08_0000;
        const UNCONFIRMED_WRITE = 0x04_0000;
        const DELTA_VALUE_ENCODING = 0x02_0000;
        const ATTRIBUTE_0_WITH_SET = 0x8000;
        const PRIORITY_MANAGEMENT = 0x4000;
        const ATTRIBUTE_0_WITH_GET = 0x2000;
        const BLOCKS_WITH_GET = 0x1000;
        const BLOCKS_WITH_SET = 0x0800;
        const BLOCKS_WITH_ACTION = 0x0400;
        const MULTIPLE_REFERENCES = 0x0200;
        const INFORMATION_REPORT = 0x0100;
        const DATA_NOTIFICATION = 0x80;
        const ACCESS = 0x40;
        const PARAMETERIZED_ACCESS = 0x20;
        const GET = 0x10;
        const SET = 0x08;
        const SELECTIVE_ACCESS = 0x04;
        const EVENT_NOTIFICATION = 0x02;
        const ACTION = 0x01;
    }
}

impl Conformance {
    /// The services that the meter offers: blocks with get, set and action, get, set, selective access, and action.
    pub const OFFERED: Conformance = Conformance(0x1c1d);
}

impl Flags for Conformance {
    type Bits = u32;

    ghost exact = { ⊤ };

    ghost table = { (codes "GENERAL_PROTECTION", 0x400000) ∷ (codes "GENERAL_BLOCK_TRANSFER", 0x200000)
        ∷ (codes "READ", 0x100000) ∷ (codes "WRITE", 0x080000) ∷ (codes "UNCONFIRMED_WRITE", 0x040000)
        ∷ (codes "DELTA_VALUE_ENCODING", 0x020000) ∷ (codes "ATTRIBUTE_0_WITH_SET", 0x8000)
        ∷ (codes "PRIORITY_MANAGEMENT", 0x4000) ∷ (codes "ATTRIBUTE_0_WITH_GET", 0x2000)
        ∷ (codes "BLOCKS_WITH_GET", 0x1000) ∷ (codes "BLOCKS_WITH_SET", 0x0800)
        ∷ (codes "BLOCKS_WITH_ACTION", 0x0400) ∷ (codes "MULTIPLE_REFERENCES", 0x0200)
        ∷ (codes "INFORMATION_REPORT", 0x0100) ∷ (codes "DATA_NOTIFICATION", 0x80) ∷ (codes "ACCESS", 0x40)
        ∷ (codes "PARAMETERIZED_ACCESS", 0x20) ∷ (codes "GET", 0x10) ∷ (codes "SET", 0x08)
        ∷ (codes "SELECTIVE_ACCESS", 0x04) ∷ (codes "EVENT_NOTIFICATION", 0x02) ∷ (codes "ACTION", 0x01) ∷ [] };

    ghost set_of = { λ c. c.0 };

    fn flags<'a>() -> &'a [Flag<Conformance>] {
        Conformance::FLAGS
    }

    fn bits(&self) -> u32 {
        self.0
    }

    fn from_bits_retain(bits: u32) -> Conformance {
        Conformance(bits)
    }
}
