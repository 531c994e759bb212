//! Rows of `dlms_headend`.

ghost use Rattle.std.specs.Prelude.{◌≤◌, IfOk, IfSome};
ghost use Rattle.dlms_headend.specs.Rows.{IsReading};

use crate::answers::{put_number, put_with_number};
use crate::bench::{Bench, Room};
use crate::events::in_place;
use crate::fault::RowFault;
use crate::frame::{deframer_of, put_frame};
use crate::rows::put_values;
use crate::words::{Words, client_of, put_truth};
use dlms_data::LAST_SECOND;
use dlms_frame::SentFrame;
use dlms_headend::{Columns, Plan, PollFault, PollStep, Poller, Readings, ReadingsFault, Row};
use linked_list_allocator::LocalHeap;

/// A poll and a readings file.
#[derive(Drop)]
pub struct HeadendBench<'h> {
    heap: &'h LocalHeap,
    poller: Option<Poller<&'h LocalHeap>>,
    readings: Option<Readings<&'h LocalHeap>>,
}

fn put_poll_fault(answer: &mut String, fault: PollFault) -> Result<(), RowFault> {
    put_with_number(answer, "fault ", u64::from(fault.number()))?;
    match fault {
        PollFault::Refused(number) | PollFault::Result(number) => {
            put_with_number(answer, " ", u64::from(number))
        }
        PollFault::Columns => Ok(answer.push_str(" columns")?),
        _ => Ok(()),
    }
}

fn put_readings_fault(answer: &mut String, fault: ReadingsFault) -> Result<(), RowFault> {
    match fault {
        ReadingsFault::Line(number) => put_with_number(answer, "line ", number as u64),
        ReadingsFault::Memory => Ok(answer.push_str("memory")?),
    }
}

/// A row: `clock,register,register,register`.
fn put_row(answer: &mut String, row: &Row) -> Result<(), RowFault> {
    let [first, second, third] = row.registers;
    put_values(answer, &[row.clock, first, second, third])
}

/// How many rows there are, and the rows.
fn put_rows(answer: &mut String, rows: &[Row]) -> Result<(), RowFault> {
    put_number(answer, rows.len() as u64)?;
    for row in rows {
        put_row(answer, row)?;
    }
    Ok(())
}

/// A second after which to poll, or `-`.
fn after_of(word: &str) -> Result<Option<u32>, RowFault>
    ensures { IfOk result (λ after. IfSome after (λ second. second ≤ LAST_SECOND)) }
{
    if word == "-" {
        return Ok(None);
    }
    match word.parse::<u32>() {
        Ok(second) if second <= LAST_SECOND => Ok(Some(second)),
        _ => Err(RowFault::Form),
    }
}

/// A text of lines: `/` means the end of a line, `_` a blank and `~` a carriage return.
fn text_of(heap: &mut String, word: &str) -> Result<(), RowFault> {
    for sign in word.chars() {
        heap.push(match sign {
            '/' => '\n',
            '_' => ' ',
            '~' => '\r',
            other => other,
        })?;
    }
    Ok(())
}

/// How a poll handles a frame.
fn put_step(answer: &mut String, step: Result<PollStep, PollFault>) -> Result<(), RowFault> {
    match step {
        Ok(PollStep::Nothing) => Ok(answer.push_str("nothing")?),
        Ok(PollStep::Send(frame)) => put_frame(answer, &frame),
        Ok(PollStep::Done) => Ok(answer.push_str("done")?),
        Err(fault) => put_poll_fault(answer, fault),
    }
}

/// A frame that goes out.
fn put_sent(answer: &mut String, sent: Result<SentFrame, PollFault>) -> Result<(), RowFault> {
    match sent {
        Ok(frame) => put_frame(answer, &frame),
        Err(fault) => put_poll_fault(answer, fault),
    }
}

/// The calls of a poll.
fn poll_step(
    poller: &mut Poller<&LocalHeap>,
    call: &str,
    words: &mut Words<'_>,
    answer: &mut String,
) -> Result<(), RowFault> {
    match call {
        "next" => match poller.next() {
            Some(frame) => put_frame(answer, &frame),
            None => Ok(answer.push_str("nothing")?),
        },
        "on" => {
            let deframer = deframer_of(&words.bytes()?);
            match deframer.frame() {
                Some(frame) => put_step(answer, poller.on(&frame)),
                None => Err(RowFault::Form),
            }
        }
        "timeout" if poller.is_waiting() => put_sent(answer, poller.timeout()),
        "is-waiting" => put_truth(answer, poller.is_waiting()),
        "polled" => put_rows(answer, poller.rows()),
        _ => Err(RowFault::Missing),
    }
}

/// A row from the words: its clock and its registers.
fn row_of(words: &mut Words<'_>) -> Result<Row, RowFault>
    ensures { IfOk result IsReading }
{
    let clock = words.number()?;
    if clock > LAST_SECOND {
        return Err(RowFault::Form);
    }
    Ok(Row {
        clock,
        registers: [words.number()?, words.number()?, words.number()?],
    })
}

/// Appends the rows of the words that come later.
fn put_merged(
    readings: &mut Readings<&LocalHeap>,
    words: &mut Words<'_>,
    answer: &mut String,
) -> Result<(), RowFault> {
    let mut rows = Vec::new(*answer.allocator());
    'rows: for _ in 0..u32::MAX {
        if words.is_empty() {
            break 'rows;
        }
        rows.push(row_of(words)?)?;
    }
    match readings.merge(&rows) {
        Ok(count) => put_number(answer, count as u64),
        Err(_) => Ok(answer.push_str("memory")?),
    }
}

/// The text of a readings file, as `text_of` reads it.
fn put_text(readings: &Readings<&LocalHeap>, answer: &mut String) -> Result<(), RowFault> {
    match readings.text() {
        Ok(text) => {
            for line in text.as_str().lines() {
                answer.push_str(line)?;
                answer.push('/')?;
            }
            Ok(())
        }
        Err(_) => Ok(answer.push_str("memory")?),
    }
}

/// The calls of a readings file.
fn readings_step(
    readings: &mut Readings<&LocalHeap>,
    call: &str,
    words: &mut Words<'_>,
    answer: &mut String,
) -> Result<(), RowFault> {
    match call {
        "merge" => put_merged(readings, words, answer),
        "text" => put_text(readings, answer),
        "last" => match readings.last() {
            Some(clock) => put_number(answer, u64::from(clock)),
            None => Ok(answer.push_str("no")?),
        },
        _ => Err(RowFault::Form),
    }
}

impl<'h> HeadendBench<'h> {
    pub fn new(room: Room<'h>) -> Self {
        HeadendBench {
            heap: room.heap,
            poller: None,
            readings: None,
        }
    }

    /// A poll by a client, with its secret, after a second, that asks for the columns or not.
    fn poll(&mut self, columns: Columns, words: &mut Words<'_>) -> Result<(), RowFault> {
        let client = client_of(words.word()?)?;
        let secret = in_place(&words.bytes()?)?;
        let after = after_of(words.word()?)?;
        let plan = Plan {
            client,
            secret,
            after,
            until: None,
            columns,
        };
        self.poller = Some(Poller::new(self.heap, plan));
        Ok(())
    }

    /// Opens a readings file.
    fn open(&mut self, words: &mut Words<'_>, answer: &mut String) -> Result<(), RowFault> {
        self.readings = None;
        let mut text = String::new(*answer.allocator());
        if !words.is_empty() {
            text_of(&mut text, words.word()?)?;
        }
        match Readings::open(self.heap, text.as_str()) {
            Ok(readings) => {
                self.readings = Some(readings);
                Ok(())
            }
            Err(fault) => put_readings_fault(answer, fault),
        }
    }
}

impl Bench for HeadendBench<'_> {
    fn step(&mut self, words: &mut Words<'_>, answer: &mut String) -> Result<(), RowFault> {
        let call = words.word()?;
        match call {
            "poll" => self.poll(Columns::Trusted, words),
            "ask" => self.poll(Columns::Asked, words),
            "open" => self.open(words, answer),
            "merge" | "text" | "last" => match &mut self.readings {
                Some(readings) => readings_step(readings, call, words, answer),
                None => Err(RowFault::Missing),
            },
            _ => match &mut self.poller {
                Some(poller) => poll_step(poller, call, words, answer),
                None => Err(RowFault::Missing),
            },
        }
    }
}
