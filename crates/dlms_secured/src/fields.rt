//! The fields of an ACSE APDU (BER, tags of one octet, definite lengths), as `dlms_acse` reads them.

ghost use Rattle.std.specs.Prelude.{◌≡◌, ◌≤◌, length, option_map, IfSome};
ghost use Rattle.dlms_acse.specs.Reading.{ok_of, is_longer, octets_at, find_at, inner_at};
ghost use Rattle.dlms_secured.specs.Response.{value_in, inside};

/// Whether a length begins here that has more than three octets.
fn is_longer(octets: &[u8]) -> bool
    ensures { result ≡ is_longer 2 octets.now }
{
    match octets {
        [] => false,
        [first, ..] => 0x82 < *first,
    }
}

/// A length and its content, and the octets after that.
fn take_content(octets: &[u8]) -> Option<(&[u8], &[u8])>
    ensures exact { option_map (λ x. (x.0.now, x.1.now)) result ≡ ok_of (octets_at 2 octets.now) }
    ensures within { IfSome result (λ x. length x.1.now ≤ length octets.now) }
{
    if is_longer(octets) {
        return None;
    }
    match dlms_data::counted(octets) {
        Ok(parts) => Some(parts),
        Err(_) => None,
    }
}

/// The value of the one field with this tag that these octets are.
#[tactic(auto, unfolding(dlms_acse::specs::Reading::inner_at))]
pub(crate) fn inner(tag: u8, octets: &[u8]) -> Option<&[u8]>
    ensures { option_map (λ x. x.now) result ≡ inner_at tag octets.now }
{
    match octets {
        [first, rest @ ..] if *first == tag => {
            let (value, behind) = take_content(rest)?;
            if behind.is_empty() { Some(value) } else { None }
        }
        _ => None,
    }
}

/// The value of the first field with this tag.
pub(crate) fn value_in(tag: u8, fields: &[u8]) -> Option<&[u8]>
    ensures { option_map (λ x. x.now) result ≡ value_in tag fields.now }
{
    let mut rest = fields;
    while let Some((first, behind)) = rest.split_first() {
        let (value, after) = take_content(behind)?;
        if *first == tag {
            return Some(value);
        }
        rest = after;
    }
    None
}

/// The value of the field with the second tag in the field with the first.
pub(crate) fn inside(tag: u8, inner_tag: u8, fields: &[u8]) -> Option<&[u8]>
    ensures { option_map (λ x. x.now) result ≡ inside tag inner_tag fields.now }
{
    inner(inner_tag, value_in(tag, fields)?)
}
