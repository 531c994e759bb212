//! The clocks of polled rows, judged.

ghost use Rattle.std.specs.Prelude.{◌≡◌, ◌↔◌, IsTrue, IfSome, IfNone, MatchResult, length};
ghost use Rattle.dlms_polling.specs.Clocks.{Rise, IsFirstFallen, IsAhead, AreInTime, IsFirstAhead, AreInLimit, IsBeyond, IsOutOfOrder, RisesIf, Refuses, Takes};

use dlms_headend::Row;
use dlms_lines::ClockFault;

/// The second at which the meter's clock begins, 2000-01-01 00:00:00 UTC, of the system's, which counts from 1970.
const YEAR_2000: u64 = 946_684_800;

/// How far a row may be past a second of the system's clock. The meter's clock counts its own seconds from 2000-01-01 00:00:00,
/// and is taken for UTC.
#[derive(Clone, Copy, PartialEq, Eq)]
pub struct Limit {
    /// The second of the system's clock, counted from 1970-01-01 00:00:00 UTC.
    pub now: u64,
    /// So many seconds more are borne.
    pub margin: u32,
}

/// The number of the first row, counted from 1, that is not later than the one before it.
fn first_fallen(rows: &[Row]) -> Option<usize>
    ensures some { IfSome result (IsFirstFallen rows.now) }
    ensures none { IfNone result (Rise rows.now (length rows.now)) }
{
    for at in 1..rows.len() {
        if rows[at].clock <= rows[at - 1].clock {
            return Some(at + 1);
        }
    }
    None
}

/// Whether a second of the meter's clock is more than this many seconds past a second of the system's.
fn is_ahead(now: u64, margin: u32, clock: u32) -> bool
    ensures { IsTrue result ↔ IsAhead now margin clock }
{
    match now.checked_add(u64::from(margin)) {
        Some(latest) => latest < u64::from(clock) + YEAR_2000,
        None => false,
    }
}

/// The number of the first row, counted from 1, that is more than this many seconds past a second of the system's clock.
pub fn first_ahead(now: u64, margin: u32, rows: &[Row]) -> Option<usize>
    ensures some { IfSome result (IsFirstAhead now margin rows.now) }
    ensures none { IfNone result (AreInTime now margin rows.now (length rows.now)) }
{
    for at in 0..rows.len() {
        if is_ahead(now, margin, rows[at].clock) {
            return Some(at + 1);
        }
    }
    None
}

/// Judges the order of an answer's rows: if it is to be strict, each row has to be later than the one before it.
fn judge_order(rows: &[Row], strict: bool) -> Result<(), ClockFault>
    ensures { MatchResult result (λ _. RisesIf strict rows.now) (IsOutOfOrder strict rows.now) }
{
    if !strict {
        return Ok(());
    }
    match first_fallen(rows) {
        Some(number) => Err(ClockFault::Fallen(number)),
        None => Ok(()),
    }
}

/// Judges the clocks of an answer's rows by the limit, if there is one: none may be past it.
fn judge_limit(rows: &[Row], limit: Option<Limit>) -> Result<(), ClockFault>
    ensures { MatchResult result (λ _. AreInLimit limit rows.now) (IsBeyond limit rows.now) }
{
    let Some(limit) = limit else {
        return Ok(());
    };
    match first_ahead(limit.now, limit.margin, rows) {
        Some(number) => Err(ClockFault::Ahead(number)),
        None => Ok(()),
    }
}

/// Judges the clocks of an answer's rows: with `strict` each is later than the row before it, and none is past the limit, if there is
/// one. The order is judged first.
pub fn judge(rows: &[Row], limit: Option<Limit>, strict: bool) -> Result<(), ClockFault>
    ensures { MatchResult result (λ _. Takes strict limit rows.now)
        (Refuses strict limit rows.now) }
{
    match judge_order(rows, strict) {
        Ok(()) => judge_limit(rows, limit),
        Err(fault) => Err(fault),
    }
}
