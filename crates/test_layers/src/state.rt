//! Rows of `dlms_state`; other crates prepare their states by them.

ghost use Rattle.std.specs.Prelude.{IsTrue};
ghost use Rattle.dlms_state.specs.Columns.{IsRowOf};

use crate::answers::{put_number, put_number_and, put_signed, put_text, put_wide};
use crate::bench::Bench;
use crate::events::{event_of, in_place, put_refused};
use crate::fault::RowFault;
use crate::hexadecimal::put_hex;
use crate::rows::{put_entries, put_range, put_row};
use crate::words::{NUMBERS_END, Words};
use arrayvec::ArrayVec;
use dlms_profile::{CAPACITY, MOST_VALUES, Row};
use dlms_state::{Event, LAST_SECOND, Outlook, Parts, PartsFault, SecretOf, State};
use linked_list_allocator::LocalHeap;

/// A state that takes its memory from a heap, and the result of an outlook on it.
#[derive(Drop)]
pub struct StateBench<'h> {
    heap: &'h LocalHeap,
    state: Option<State<&'h LocalHeap>>,
    outlook: Option<Outlook>,
}

/// A row of these values, of which the first four are taken.
pub fn row_with(numbers: &[u32]) -> Row {
    let mut values = ArrayVec::new();
    for number in numbers.iter().take(MOST_VALUES) {
        let _fits = values.try_push(*number);
    }
    Row { values }
}

/// A row: its values, up to the end of the line.
pub fn row_of(words: &mut Words<'_>) -> Result<Row, RowFault> {
    let mut values = ArrayVec::new();
    for _ in 0..MOST_VALUES {
        if !words.is_empty() {
            let _fits = values.try_push(words.number()?);
        }
    }
    Ok(Row { values })
}

/// The bytes of the next word; these if no word is left.
fn bytes_or<const MOST: usize>(
    words: &mut Words<'_>,
    first: &[u8],
) -> Result<ArrayVec<u8, MOST>, RowFault> {
    if words.is_empty() {
        return in_place(first);
    }
    in_place(&words.bytes()?)
}

/// Registers, last moment, offset, period, text, secret, followed by the reader's secret and the columns; a new state's if they are
/// missing.
fn parts_of(words: &mut Words<'_>) -> Result<Parts, RowFault> {
    Ok(Parts {
        registers: [words.number()?, words.number()?, words.number()?],
        last: words.number()?,
        offset: words.signed()?,
        period: words.number()?,
        text: in_place(&words.bytes()?)?,
        secret: in_place(&words.bytes()?)?,
        reader_secret: bytes_or(words, b"23456789")?,
        columns: bytes_or(words, &[0, 1, 2, 3])?,
    })
}

/// Makes a state apply an event, if a number is left for a row.
fn take(state: &mut State<&LocalHeap>, event: Event, answer: &mut String) -> Result<(), RowFault> {
    match state.check(&event) {
        Ok(()) if state.next_number() < NUMBERS_END => {
            state.apply(event);
            Ok(())
        }
        Ok(()) => Err(RowFault::Form),
        Err(refused) => put_refused(answer, refused),
    }
}

/// Whether a row has a value a column, and the clock's in its range.
fn is_row_of(columns: &[u8], row: &Row) -> bool
    ensures { IsTrue result → IsRowOf columns.now row.now }
{
    let values = row.values.as_slice();
    if values.len() != columns.len() {
        return false;
    }
    for nth in 0..columns.len() {
        if columns[nth] == 0 && values[nth] > LAST_SECOND {
            return false;
        }
    }
    true
}

/// Restores a row, if it is one of the state's columns, there is space and a number is left for it.
fn restore_row(state: &mut State<&LocalHeap>, row: Row) -> Result<(), RowFault> {
    if state.rows().len() >= CAPACITY || state.next_number() >= NUMBERS_END {
        return Err(RowFault::Form);
    }
    if !is_row_of(state.columns(), &row) {
        return Err(RowFault::Form);
    }
    state.restore_row(row);
    Ok(())
}

/// The three registers of a state.
fn put_registers(state: &State<&LocalHeap>, answer: &mut String) -> Result<(), RowFault> {
    let [first, second, third] = state.registers();
    put_number_and(answer, u64::from(first), ' ')?;
    put_number_and(answer, u64::from(second), ' ')?;
    put_number(answer, u64::from(third))
}

/// The calls that show a state.
const VIEWS: [&str; 15] = [
    "range",
    "entries",
    "row",
    "registers",
    "text",
    "secret",
    "reader-secret",
    "columns",
    "clock",
    "last",
    "offset",
    "period",
    "count",
    "first",
    "next",
];

/// The numbers of a state.
fn put_view_number(
    state: &State<&LocalHeap>,
    call: &str,
    answer: &mut String,
) -> Result<(), RowFault> {
    match call {
        "clock" => put_number(answer, u64::from(state.clock())),
        "last" => put_number(answer, u64::from(state.last())),
        "offset" => put_signed(answer, state.offset()),
        "period" => put_number(answer, u64::from(state.period())),
        "count" => put_number(answer, state.rows().len() as u64),
        "first" => put_wide(answer, state.first_number()),
        "next" => put_wide(answer, state.next_number()),
        _ => Err(RowFault::Form),
    }
}

/// The result of a call of `VIEWS`.
fn put_view(
    state: &State<&LocalHeap>,
    call: &str,
    words: &mut Words<'_>,
    answer: &mut String,
) -> Result<(), RowFault> {
    match call {
        "range" => put_range(state.rows(), 0, words, answer),
        "entries" => put_entries(state.rows(), words, answer),
        "row" => put_row(state.rows(), words.number()?, answer),
        "registers" => put_registers(state, answer),
        "text" => put_hex(answer, state.text()),
        "secret" => put_hex(answer, state.secret(SecretOf::Management)),
        "reader-secret" => put_hex(answer, state.secret(SecretOf::Reader)),
        "columns" => put_hex(answer, state.columns()),
        _ => put_view_number(state, call, answer),
    }
}

/// The row of a clock and of the registers 1, 2, 3.
fn numbered(columns: &[u8], clock: u32) -> Row {
    let mut values = ArrayVec::new();
    for id in columns {
        let value = if *id == 0 { clock } else { u32::from(*id) };
        let _fits = values.try_push(value);
    }
    Row { values }
}

impl<'h> StateBench<'h> {
    pub fn new(heap: &'h LocalHeap) -> Self {
        StateBench {
            heap,
            state: None,
            outlook: None,
        }
    }

    /// The state that was made.
    pub fn state(&self) -> Result<&State<&'h LocalHeap>, RowFault> {
        self.state.as_ref().ok_or(RowFault::Missing)
    }

    /// The same, to change it.
    pub fn state_mut(&mut self) -> Result<&mut State<&'h LocalHeap>, RowFault> {
        self.state.as_mut().ok_or(RowFault::Missing)
    }

    /// Another state in its place.
    pub fn set(&mut self, state: State<&'h LocalHeap>) {
        self.state = Some(state);
    }

    /// A new state.
    fn begin(&mut self, answer: &mut String) -> Result<(), RowFault> {
        self.state = None;
        match State::new(self.heap) {
            Ok(state) => {
                self.state = Some(state);
                Ok(())
            }
            Err(_) => Ok(answer.push_str("memory")?),
        }
    }

    /// A state of its parts, whose first row gets this number.
    fn restore(
        &mut self,
        first: u128,
        words: &mut Words<'_>,
        answer: &mut String,
    ) -> Result<(), RowFault> {
        self.state = None;
        if first > NUMBERS_END {
            return Err(RowFault::Form);
        }
        match State::restore(self.heap, parts_of(words)?, first) {
            Ok(state) => {
                self.state = Some(state);
                Ok(())
            }
            Err(PartsFault::Limits) => Ok(answer.push_str("limits")?),
            Err(PartsFault::Memory) => Ok(answer.push_str("memory")?),
        }
    }

    /// Takes an event.
    fn event(
        &mut self,
        call: &str,
        words: &mut Words<'_>,
        answer: &mut String,
    ) -> Result<(), RowFault> {
        let event = event_of(call, words)?;
        take(self.state_mut()?, event, answer)
    }

    /// Moments 900, 1800 .., so many.
    fn periods(&mut self, count: u32, answer: &mut String) -> Result<(), RowFault> {
        let state = self.state_mut()?;
        for period in 1..=count {
            take(state, Event::Moment(period.saturating_mul(900)), answer)?;
        }
        Ok(())
    }

    /// So many restored rows, with the clocks 0, 1, 2 .. and the registers 1, 2, 3, in the order of the columns.
    fn restore_rows(&mut self, count: u32) -> Result<(), RowFault> {
        let state = self.state_mut()?;
        for clock in 0..count {
            let row = numbered(state.columns(), clock);
            restore_row(state, row)?;
        }
        Ok(())
    }

    /// The refusal of an event, in words.
    fn refusal(&mut self, words: &mut Words<'_>, answer: &mut String) -> Result<(), RowFault> {
        let call = words.word()?;
        let event = event_of(call, words)?;
        match self.state()?.check(&event) {
            Ok(()) => Ok(()),
            Err(refused) => {
                put_number_and(answer, u64::from(refused.number()), ' ')?;
                put_text(answer, &refused)
            }
        }
    }

    /// The outlook goes on by an event.
    fn after(&mut self, words: &mut Words<'_>, answer: &mut String) -> Result<(), RowFault> {
        let call = words.word()?;
        let event = event_of(call, words)?;
        let Some(outlook) = &self.outlook else {
            return Err(RowFault::Missing);
        };
        match outlook.after(&event) {
            Ok(next) => {
                self.outlook = Some(next);
                Ok(())
            }
            Err(refused) => put_refused(answer, refused),
        }
    }

    /// How many rows the outlook has come to.
    fn put_outlook(&self, answer: &mut String) -> Result<(), RowFault> {
        match &self.outlook {
            Some(outlook) => put_number(answer, outlook.rows() as u64),
            None => Err(RowFault::Missing),
        }
    }

    /// The calls of a state; any other word is an event.
    pub fn call(
        &mut self,
        call: &str,
        words: &mut Words<'_>,
        answer: &mut String,
    ) -> Result<(), RowFault> {
        match call {
            "state" => self.begin(answer),
            "restore" => self.restore(0, words, answer),
            "restore-from" => {
                let first = words.row_number()?;
                self.restore(first, words, answer)
            }
            "restore-row" => {
                let row = row_of(words)?;
                restore_row(self.state_mut()?, row)
            }
            "restore-rows" => self.restore_rows(words.number()?),
            "periods" => self.periods(words.number()?, answer),
            "refusal" => self.refusal(words, answer),
            "outlook" => {
                self.outlook = Some(self.state()?.outlook());
                Ok(())
            }
            "after" => self.after(words, answer),
            "outlook-rows" => self.put_outlook(answer),
            _ if VIEWS.contains(&call) => put_view(self.state()?, call, words, answer),
            _ => self.event(call, words, answer),
        }
    }
}

impl Bench for StateBench<'_> {
    fn step(&mut self, words: &mut Words<'_>, answer: &mut String) -> Result<(), RowFault> {
        let call = words.word()?;
        self.call(call, words, answer)
    }
}
