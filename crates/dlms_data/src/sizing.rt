//! How long a spelling is going to be, so that its memory is asked for at once.

ghost use Rattle.std.specs.Prelude.{◌≡◌, ◌+◌, ◌-◌, ◌^◌, length, min};
ghost use Rattle.dlms_data.specs.Value.{bit_string};
ghost use Rattle.dlms_data.specs.View.{value_of, values_of};
ghost use Rattle.dlms_data.specs.Writing.{canonical, all_canonical, short_length, InRange, AllInRange};

use crate::bits::Bits;
use crate::data::Data;
use crate::source::{Source, Sources};
use std::alloc::Allocator;

/// How many bytes a tag and a length take.
#[tactic(auto, unfolding(crate::specs::Writing::short_length))]
fn head_size(len: usize) -> usize
    ensures { result ≡ length (short_length len) + 1 }
{
    if len < 128 {
        2
    } else if len < 256 {
        3
    } else if len < 65536 {
        4
    } else if len < 16777216 {
        5
    } else {
        6
    }
}

/// How many bytes a tag, a length and that many octets take.
fn counted_size(len: usize) -> usize
    ensures { result ≡ min (length (short_length len) + 1 + len) (2 ^ 64 - 1) }
{
    head_size(len).saturating_add(len)
}

/// How many bytes a bit string takes.
fn bits_size<B: Allocator>(bits: &Bits<B>) -> usize
    ensures { result ≡ min (length (canonical (bit_string bits.now))) (2 ^ 64 - 1) }
{
    head_size(bits.len()).saturating_add(bits.as_bytes().len())
}

/// How many bytes the canonical spelling takes, or the largest `usize` if it takes more.
#[cycle(sizing)]
#[tactic(auto, using(crate::proofs::Sizes::length_counted))]
pub fn size<B: Allocator>(source: Source<'_, B>) -> usize
    requires { InRange (value_of source.value.now) }
    ensures { result ≡ min (length (canonical (value_of source.entry.value.now))) (2 ^ 64 - 1) }
{
    match source.value {
        Data::Array(items) => head_size(items.len()).saturating_add(size_all(Sources {
            values: items.as_slice(),
        })),
        Data::Structure(items) => head_size(items.len()).saturating_add(size_all(Sources {
            values: items.as_slice(),
        })),
        Data::BitString(bits) => bits_size(bits),
        Data::OctetString(octets) => counted_size(octets.as_slice().len()),
        Data::VisibleString(octets) => counted_size(octets.as_slice().len()),
        Data::Utf8String(octets) => counted_size(octets.as_slice().len()),
        Data::Null => 1,
        Data::Boolean(_) | Data::Bcd(_) | Data::Integer(_) | Data::Unsigned(_) | Data::Enum(_) => 2,
        Data::Long(_) | Data::LongUnsigned(_) => 3,
        Data::DoubleLong(_) | Data::DoubleLongUnsigned(_) | Data::Time(_) => 5,
        Data::Date(_) => 6,
        Data::Long64(_) | Data::Long64Unsigned(_) => 9,
        Data::DateTime(_) => 13,
    }
}

/// How many bytes the canonical spellings take together.
#[cycle(sizing)]
#[tactic(auto, using(crate::proofs::Walk::depth_at, crate::proofs::Walk::in_range_at, crate::proofs::Sizes::size_at))]
fn size_all<B: Allocator>(sources: Sources<'_, B>) -> usize
    requires { AllInRange (values_of sources.values.now) }
    ensures { result ≡ min (length (all_canonical (values_of sources.entry.values.now)))
        (2 ^ 64 - 1) }
{
    let mut total = 0usize;
    let items = sources.values;
    for item in items {
        total = total.saturating_add(size(Source { value: item }));
    }
    total
}
