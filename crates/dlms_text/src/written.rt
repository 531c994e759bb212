//! Names as the trade writes them.

ghost use Rattle.std.specs.Prelude.{◌<◌, ℕ, IfNone, IfSome};
ghost use Rattle.dlms_text.specs.Written.{EndsCode, IsShort};

use crate::name::{Name, code, group};
use crate::texts::{cut, octet};
use dlms_names::{code_name, code_of};

/// The value group F of a code without a billing period.
const NO_PERIOD: u8 = 255;

/// The value groups A and B of electricity, and of what every meter has.
const ELECTRICITY: [u8; 2] = [1, 0];

const ABSTRACT: [u8; 2] = [0, 0];

/// The value groups E and F, as `E*F`, `E.F`, or `E` alone for a code without a billing period.
fn ending(text: &str) -> Option<(u8, u8)>
    ensures some { IfSome result (λ x. EndsCode text.now x.0 x.1) }
    ensures none { IfNone result ((e f : ℕ) → EndsCode text.now e f → ⊥) }
{
    if let Some((e, f)) = cut(text, '*') {
        return Some((octet(e)?, octet(f)?));
    }
    if let Some((e, f)) = cut(text, '.') {
        return Some((octet(e)?, octet(f)?));
    }
    Some((octet(text)?, NO_PERIOD))
}

/// The value groups C to F, as `1.8.0`, `1.8.0*255` or `1.8.0.255`.
fn short(text: &str) -> Option<[u8; 4]>
    ensures { IfSome result (IsShort text.now) }
{
    let (c, rest) = group(text)?;
    let (d, rest) = group(rest)?;
    let (e, f) = ending(rest)?;
    Some([c, d, e, f])
}

/// The code of these value groups.
fn joined(front: [u8; 2], rest: [u8; 4]) -> [u8; 6] {
    let [a, b] = front;
    let [c, d, e, f] = rest;
    [a, b, c, d, e, f]
}

/// The code whose value groups C to F are written: of electricity, unless the standard's table knows only the object that every meter
/// has.
fn code_by_short(rest: [u8; 4]) -> [u8; 6] {
    let electric = joined(ELECTRICITY, rest);
    let common = joined(ABSTRACT, rest);
    if code_name(electric).is_none() && code_name(common).is_some() {
        common
    } else {
        electric
    }
}

/// The value groups A and B, as `1-0`.
fn front(text: &str) -> Option<[u8; 2]> {
    let (a, b) = cut(text, '-')?;
    Some([octet(a)?, octet(b)?])
}

/// The code that a text writes in the trade's form.
fn trade_code(text: &str) -> Option<[u8; 6]> {
    match cut(text, ':') {
        Some((groups, rest)) => Some(joined(front(groups)?, short(rest)?)),
        None => Some(code_by_short(short(text)?)),
    }
}

/// The code that a text writes: with points alone, in the trade's form, or by its short name.
fn any_code(text: &str) -> Option<[u8; 6]> {
    code(text).or(trade_code(text)).or(code_of(text))
}

/// The name that a text writes as a user does: a code with points alone, `1.0.1.8.0.255`; in the trade's form, `1-0:1.8.0*255`,
/// `1-0:1.8.0.255`, `1-0:1.8.0` or `1.8.0`; or the short name of an object, `clock`. After a slash, if there is one, it has the number
/// of an attribute or a method, 1 to 255.
pub fn written_name(text: &str) -> Option<Name>
    ensures number { IfSome result (λ name. IfSome name.number (λ n. 0 < n)) }
{
    let Some((object, digits)) = cut(text, '/') else {
        return Some(Name {
            code: any_code(text)?,
            number: None,
        });
    };
    let number = octet(digits)?;
    if number == 0 {
        return None;
    }
    Some(Name {
        code: any_code(object)?,
        number: Some(number),
    })
}
