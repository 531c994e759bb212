//! The rows that the buffer's value holds.

ghost use Rattle.std.specs.Prelude.{◌≡◌, List, IfOk, IfErr, IfSome, IfNone, MatchBool, option_map};
ghost use Rattle.dlms_data.specs.Spelling.{IsSpelling};
ghost use Rattle.dlms_data.specs.Value.{Value};
ghost use Rattle.dlms_data.specs.View.{value_of, values_of};
ghost use Rattle.dlms_headend.specs.Rows.{four_in, octets_in, register_in, fields_in, IsRow, AreRows, IsProfile, NoProfile, IsEncoded, NoEncoding, NoRows, NoValue, IsReading, AreReadings};
ghost use Rattle.dlms_headend.specs.declared.row.Row.{Row as RowOf};

use crate::form::is_profile;
use crate::poll_fault::PollFault;
use crate::row::{Row, keep};
use dlms_data::{Data, is_value, read, secs};
use std::alloc::Allocator;

/// The values of a structure of four.
#[tactic(auto, using(crate::proofs::Values::four_in_others, crate::proofs::Values::four_in_parts))]
fn four<A: Allocator>(value: &Data<A>) -> Option<(&Data<A>, &Data<A>, &Data<A>, &Data<A>)>
    ensures { option_map
        (λ x. (value_of x.0.now, value_of x.1.now, value_of x.2.now, value_of x.3.now)) result
        ≡ four_in
        (value_of value.now) }
{
    let Data::Structure(items) = value else {
        return None;
    };
    let parts = items.as_slice();
    if parts.len() != 4 {
        return None;
    }
    Some((&parts[0], &parts[1], &parts[2], &parts[3]))
}

fn octet_string<A: Allocator>(value: &Data<A>) -> Option<&[u8]>
    ensures { option_map (λ bytes. bytes.now) result ≡ octets_in (value_of value.now) }
{
    match value {
        Data::OctetString(bytes) => Some(bytes.as_slice()),
        _ => None,
    }
}

fn register<A: Allocator>(value: &Data<A>) -> Option<u32>
    ensures { result ≡ register_in (value_of value.now) }
{
    match value {
        Data::DoubleLongUnsigned(number) => Some(*number),
        _ => None,
    }
}

/// The octets of a row's time, and its registers.
fn fields<A: Allocator>(value: &Data<A>) -> Option<(&[u8], [u32; 3])>
    ensures { option_map (λ x. (x.0.now, x.1)) result ≡ fields_in (value_of value.now) }
{
    let (time, first, second, third) = four(value)?;
    let time = octet_string(time)?;
    let first = register(first)?;
    let second = register(second)?;
    let third = register(third)?;
    Some((time, [first, second, third]))
}

/// The row of a structure.
fn row<A: Allocator>(value: &Data<A>) -> Option<Row>
    ensures some { IfSome result (IsRow (value_of value.now)) }
    ensures reading { IfSome result IsReading }
    ensures none { IfNone result ((row : RowOf) → IsRow (value_of value.now) row → ⊥) }
{
    let (time, registers) = fields(value)?;
    let clock = secs(time)?;
    Some(Row { clock, registers })
}

/// Whether each value is a row's.
fn are_rows<A: Allocator>(values: &[Data<A>]) -> bool
    ensures { MatchBool result ((rows : List RowOf)
        × AreRows (values_of values.now) rows) ((rows : List RowOf)
        → AreRows (values_of values.now) rows → ⊥) }
{
    for value in values {
        let Some(_) = row(value) else {
            return false;
        };
    }
    true
}

/// The rows of values. That each is a row's is looked at before memory is asked for.
fn collect_rows<A: Allocator>(alloc: A, values: &[Data<A>]) -> Result<Vec<Row, A>, PollFault>
    ensures ok { IfOk result (λ rows. AreRows (values_of values.now) rows.items) }
    ensures readings { IfOk result (λ rows. AreReadings rows.items) }
    ensures err { IfErr result (NoRows (values_of values.now)) }
{
    if !are_rows(values) {
        return Err(PollFault::Protocol);
    }
    let mut rows = Vec::with_capacity(alloc, values.len())?;
    for value in values {
        let Some(row) = row(value) else {
            return Err(PollFault::Protocol);
        };
        keep(&mut rows, row)?;
    }
    Ok(rows)
}

/// The rows of the buffer's value.
pub fn rows<A: Allocator>(alloc: A, value: &Data<A>) -> Result<Vec<Row, A>, PollFault>
    ensures ok { IfOk result (λ rows. IsProfile (value_of value.now) rows.items) }
    ensures readings { IfOk result (λ rows. AreReadings rows.items) }
    ensures err { IfErr result (NoProfile (value_of value.now)) }
{
    match value {
        Data::Array(items) => collect_rows(alloc, items.as_slice()),
        _ => Err(PollFault::Protocol),
    }
}

/// The value that all of the bytes spell.
fn whole_value<A: Allocator + Copy>(alloc: A, bytes: &[u8]) -> Result<Data<A>, PollFault>
    ensures ok { IfOk result (λ v. IsSpelling bytes.now (value_of v)) }
    ensures one { IfOk result (λ v. (w : Value) → IsSpelling bytes.now w → w ≡ value_of v) }
    ensures err { IfErr result (NoValue bytes.now) }
{
    if !is_value(bytes) {
        return Err(PollFault::Protocol);
    }
    match read(alloc, bytes) {
        Ok((value, _)) => Ok(value),
        Err(_) => Err(PollFault::Memory),
    }
}

/// The rows of the buffer's encoding. That it is one is looked at before memory is asked for.
pub fn read_rows<A: Allocator + Copy>(alloc: A, bytes: &[u8]) -> Result<Vec<Row, A>, PollFault>
    ensures ok { IfOk result (λ rows. IsEncoded bytes.now rows.items) }
    ensures readings { IfOk result (λ rows. AreReadings rows.items) }
    ensures err { IfErr result (NoEncoding bytes.now) }
{
    if !is_profile(bytes) {
        return Err(PollFault::Protocol);
    }
    let value = whole_value(alloc, bytes)?;
    rows(alloc, &value)
}
