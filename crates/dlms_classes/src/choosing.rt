//! Which part of the buffer a selector wants.

ghost use Rattle.std.specs.Prelude.{◌≡◌, Ok, IfOk, option_map};
ghost use Rattle.dlms_data.specs.View.{value_of};
ghost use Rattle.dlms_classes.specs.Choice.{selection_of, double_long_unsigned_of, is_empty_array as empty_array, range_of, cut_of, part_named, part_of, IsChoice, IsProper};
ghost use Rattle.dlms_classes.specs.Listing.{is_selective as selective};
ghost use Rattle.dlms_classes.specs.Shown.{last_column as last_of, clock_place as place_of_clock, between as between_times};

use crate::access::AccessResult;
use crate::column::{column_named, four, long_unsigned};
use crate::planning::time_octets;
use crate::table::Content;
use dlms_data::{Data, Selector, secs};
use std::alloc::Allocator;

/// Selective access by range, and by entry.
pub const BY_RANGE: u8 = 1;

pub const BY_ENTRY: u8 = 2;

/// The id of the clock's column.
pub const CLOCK_ID: u8 = 0;

/// The part of the buffer that is wanted.
#[derive(Clone, Copy)]
pub enum Choice {
    Whole,
    /// The rows from a second of the clock to another, both included, and before them the clock's place in a row, counted
    /// from 0.
    Between(usize, u32, u32),
    /// From one entry to another, and from one column to another, counted from 1; 0 means the last one.
    Cut(u32, u32, u16, u16),
}

/// Whether an attribute takes a selector.
pub fn is_selective(content: Content) -> bool
    ensures { result ≡ selective content }
{
    matches!(content, Content::Buffer)
}

fn double_long_unsigned<A: Allocator>(value: &Data<A>) -> Result<u32, AccessResult>
    ensures { result ≡ double_long_unsigned_of (value_of value.now) }
{
    match value {
        Data::DoubleLongUnsigned(number) => Ok(*number),
        _ => Err(AccessResult::TypeUnmatched),
    }
}

/// Whether an array holds nothing.
fn is_empty_array<A: Allocator>(value: &Data<A>) -> Result<bool, AccessResult>
    ensures { result ≡ empty_array (value_of value.now) }
{
    match value {
        Data::Array(items) => Ok(items.is_empty()),
        _ => Err(AccessResult::TypeUnmatched),
    }
}

/// The place of the clock among the columns, counted from 0.
fn clock_place(columns: &[u8]) -> Option<usize>
    ensures { result ≡ place_of_clock columns.now }
{
    for (place, id) in columns.iter().enumerate() {
        if *id == CLOCK_ID {
            return Some(place);
        }
    }
    None
}

/// The choice of the rows between two date-times.
fn between(columns: &[u8], first: &[u8], last: &[u8]) -> Result<Choice, AccessResult>
    ensures choice { IsChoice columns.now (Ok (between_times first.now last.now)) result }
    ensures proper { IfOk result (IsProper columns.now) }
{
    let Some(from) = secs(first) else {
        return Err(AccessResult::OtherReason);
    };
    let Some(to) = secs(last) else {
        return Err(AccessResult::OtherReason);
    };
    let Some(place) = clock_place(columns) else {
        return Err(AccessResult::OtherReason);
    };
    Ok(Choice::Between(place, from, to))
}

/// The choice by range.
fn range<A: Allocator>(columns: &[u8], value: &Data<A>) -> Result<Choice, AccessResult>
    ensures choice { IsChoice columns.now (range_of (value_of value.now)) result }
    ensures proper { IfOk result (IsProper columns.now) }
{
    let (column, first, last, selected) = four(value)?;
    let column = column_named(column)?;
    let first = time_octets(first)?;
    let last = time_octets(last)?;
    let all_columns = is_empty_array(selected)?;
    if column != Some(CLOCK_ID) || !all_columns {
        return Err(AccessResult::OtherReason);
    }
    between(columns, first, last)
}

/// The last of `count` columns; 0 or a number past the end means the last column, too.
pub fn last_column(count: usize, last: u16) -> usize
    ensures { result ≡ last_of count last }
{
    let last = usize::from(last);
    if last == 0 || count < last {
        count
    } else {
        last
    }
}

/// The choice by entry.
fn cut<A: Allocator>(columns: &[u8], value: &Data<A>) -> Result<Choice, AccessResult>
    ensures choice { IsChoice columns.now (cut_of (value_of value.now)) result }
    ensures proper { IfOk result (IsProper columns.now) }
{
    let (first, last, first_col, last_col) = four(value)?;
    let first = double_long_unsigned(first)?;
    let last = double_long_unsigned(last)?;
    let first_col = long_unsigned(first_col)?;
    let last_col = long_unsigned(last_col)?;
    if first == 0 || first_col == 0 {
        return Err(AccessResult::OtherReason);
    }
    if last_column(columns.len(), last_col) < usize::from(first_col) {
        return Err(AccessResult::OtherReason);
    }
    Ok(Choice::Cut(first, last, first_col, last_col))
}

/// The choice of a selector.
fn named<A: Allocator>(columns: &[u8], selector: &Selector<A>) -> Result<Choice, AccessResult>
    ensures choice { IsChoice columns.now (part_named (selection_of selector.now)) result }
    ensures proper { IfOk result (IsProper columns.now) }
{
    match selector.number {
        BY_RANGE => range(columns, &selector.value),
        BY_ENTRY => cut(columns, &selector.value),
        _ => Err(AccessResult::ScopeOfAccessViolated),
    }
}

/// The part that is wanted of an attribute, of a buffer with these columns.
pub fn chosen<A: Allocator>(
    columns: &[u8],
    content: Content,
    selector: Option<&Selector<A>>,
) -> Result<Choice, AccessResult>
    ensures choice { IsChoice columns.now
        (part_of content (option_map (λ s. selection_of s.now) selector.entry)) result }
    ensures proper { IfOk result (IsProper columns.now) }
{
    let Some(selector) = selector else {
        return Ok(Choice::Whole);
    };
    if !is_selective(content) {
        return Err(AccessResult::ScopeOfAccessViolated);
    }
    named(columns, selector)
}
