//! One block: its tag, its control octet, its number, the number that it acknowledges, and its octets.

ghost use Rattle.std.specs.Prelude.{◌≡◌, option_map};
ghost use Rattle.dlms_axdr.specs.Reading.{octets_at};
ghost use Rattle.dlms_transfer.specs.Blocks.{block_in, part_of, string_in};

use dlms_axdr::counted;

/// The tag of a general block transfer.
const BLOCK: u8 = 0xe0;

/// Control octets from this on have the bit of the last block.
const LAST: u8 = 0x80;

/// A block of an APDU.
#[derive(Clone, Copy)]
pub struct Block<'a> {
    /// No further block follows.
    pub is_last: bool,
    /// Its number, from 1 on.
    pub number: u16,
    /// Its part of the APDU; none if it only acknowledges blocks.
    pub octets: &'a [u8],
}

/// The octets of a string that is all of these, after its length in A-XDR.
fn string_in(octets: &[u8]) -> Option<&[u8]>
    ensures { option_map (λ r. r.now) result ≡ string_in (octets_at octets.now) }
{
    match counted(octets) {
        Ok((string, rest)) if rest.is_empty() => Some(string),
        _ => None,
    }
}

/// The block that is all of an APDU; nothing if the APDU is another, or has octets before or after it.
pub fn block_in(apdu: &[u8]) -> Option<Block<'_>>
    ensures { option_map part_of result ≡ block_in apdu.now }
{
    match apdu {
        [BLOCK, control, high, low, _, _, rest @ ..] => Some(Block {
            is_last: *control >= LAST,
            number: u16::from_be_bytes([*high, *low]),
            octets: string_in(rest)?,
        }),
        _ => None,
    }
}
