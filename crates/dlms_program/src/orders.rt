//! The meaning of a line of a transcript.
ghost use Rattle.std.specs.Prelude.{◌≡◌, ◌≤◌, ℕ, List, ◌++◌, ◌∷◌, [], length, codes, IfSome, IfNone};
ghost use Rattle.dlms_program.specs.declared.orders.Order.{Order as OrderOf};
ghost use Rattle.dlms_program.specs.Orders.{HasNoSpace, Spells, SpellsPulses};

use crate::pairs::Pairs;
use dlms_words::number;

/// The order of a line.
#[derive(Clone, Copy, PartialEq, Eq)]
pub enum Order {
    /// An empty line or a comment.
    Skip,
    /// Bytes come in.
    Feed,
    /// Pulses on a channel.
    Pulses { channel: u8, count: u32 },
    /// The meter's running second.
    Moment(u32),
    /// Silence on the line.
    Silence,
    /// The meter is closed and recovered.
    Open,
    /// The state is asked for.
    Show,
}

/// Splits the fields at the first space.
fn split_fields(fields: &[u8]) -> Option<(&[u8], &[u8])>
    ensures found { IfSome result (λ parts. (fields.now ≡ parts.0.now ++ 32 ∷ parts.1.now)
        × HasNoSpace parts.0.now) }
    ensures none { IfNone result (HasNoSpace fields.now) }
{
    for (at, byte) in fields.iter().enumerate() {
        if *byte == b' ' {
            return Some((&fields[..at], &fields[at + 1..]));
        }
    }
    None
}

/// The order of a channel and a count, parted by one space.
fn pulses_of(fields: &[u8]) -> Option<Order>
    ensures some { IfSome result (Spells (codes "P " ++ fields.now) []) }
    ensures none { IfNone result ((channel count : ℕ)
        → SpellsPulses (codes "P " ++ fields.now) channel count → ⊥) }
{
    let (before, behind) = split_fields(fields)?;
    let channel = number(before)?;
    let count = number(behind)?;
    if channel > 255 {
        return None;
    }
    Some(Order::Pulses {
        channel: channel as u8,
        count,
    })
}

/// The order of a line, if it has one; its bytes are left in `bytes`.
pub fn order_of(line: &[u8], bytes: &mut Pairs) -> Option<Order>
    requires { length line.now ≤ 8192 }
    ensures some { IfSome result (Spells line.now bytes.new) }
    ensures none { IfNone result ((brought : List ℕ) (order : OrderOf)
        → Spells line.now brought order → ⊥) }
{
    match line {
        [] | [b'#', ..] => Some(Order::Skip),
        [b'I'] => Some(Order::Silence),
        [b'O'] => Some(Order::Open),
        [b'S'] => Some(Order::Show),
        [b'>', b' ', ..] => {
            if bytes.take(&line[2..]) {
                Some(Order::Feed)
            } else {
                None
            }
        }
        [b'P', b' ', ..] => pulses_of(&line[2..]),
        [b'M', b' ', ..] => Some(Order::Moment(number(&line[2..])?)),
        _ => None,
    }
}
