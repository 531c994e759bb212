//! The output of a replay.
ghost use Rattle.std.specs.Prelude.{◌≡◌, ◌≤◌, ◌+◌, ◌*◌, ◌++◌, length, option_map};
ghost use Rattle.std.specs.Fmt.{decimal};
ghost use Rattle.arrayvec.specs.ArrayString.{array_string_len};
ghost use Rattle.dlms_program.specs.Calls.{Called};
ghost use Rattle.dlms_program.specs.Written.{Writes};
ghost use Rattle.dlms_program.specs.Printed.{reply_line, reply_lines, refusal_line, fault_line, open_line, open_fault_line, open_fault_number, registers_text, clock_text, state_line};
ghost use Rattle.dlms_meter.specs.Run.{listed};

use crate::streams::{Sink, is_interrupted};
use arrayvec::ArrayString;
use dlms_meter::Reply;
use dlms_state::{Refused, State};
use dlms_store::OpenFault;
use itoa::Buffer;
use std::alloc::Allocator;
use std::io;

/// The most hexadecimal digits of a reply.
const MOST_DIGITS: usize = 320;

/// The most bytes of a line but a reply's.
const MOST_LINE: usize = 128;

/// The most decimal digits of a number.
const MOST_NUMBER: usize = 20;

/// The most bytes of the three registers: their word, three numbers and two spaces.
const MOST_REGISTERS: usize = 68;

/// The most bytes of the clock and the count of rows: two numbers, two spaces and a line feed.
const MOST_CLOCK: usize = 43;

/// A line that is put together before it is written.
pub type Line = ArrayString<MOST_LINE>;

/// Writes these bytes. Where the writer fails, some of them may have been written, but not all. A call that a signal
/// interrupts is made again.
pub fn put<W: Sink>(bytes: &[u8], writer: &mut W) -> io::Result<()>
    ensures bytes { Writes (W.contents writer.old) (W.contents writer.new) bytes.now result }
    ensures calls { Called 0 (W.calls writer.old) (W.calls writer.new) result }
{
    let mut rest = bytes;
    let mut tries = u64::MAX;
    'writing: while !rest.is_empty() {
        match writer.take_some(rest) {
            Ok(count) => rest = &rest[count..],
            Err(e) if tries > 0 && is_interrupted(&e) => tries -= 1,
            Err(e) => return Err(e),
        }
    }
    Ok(())
}

/// Writes a reply frame in hexadecimal digits, as `< 7ea0..`, through a buffer of `ROOM` digits.
fn write_digits<const ROOM: usize, W: Sink>(bytes: &[u8], writer: &mut W) -> io::Result<()>
    requires fits { 2 * length bytes.now ≤ ROOM }
    requires small { ROOM ≤ 320 }
    ensures bytes { Writes (W.contents writer.old) (W.contents writer.new)
        (reply_line bytes.now) result }
    ensures calls { Called 0 (W.calls writer.old) (W.calls writer.new) result }
{
    let mut room = [0u8; ROOM];
    let digits = &mut room[..2 * bytes.len()];
    let _fits = hex::encode_to_slice(bytes, digits);
    put(b"< ", writer)?;
    put(digits, writer)?;
    put(b"\n", writer)
}

/// Writes a reply frame.
fn write_reply<W: Sink>(reply: &Reply, writer: &mut W) -> io::Result<()>
    ensures bytes { Writes (W.contents writer.old) (W.contents writer.new)
        (reply_line reply.now.items) result }
    ensures calls { Called 0 (W.calls writer.old) (W.calls writer.new) result }
{
    let bytes = reply.as_slice();
    write_digits::<MOST_DIGITS, W>(bytes, writer)
}

/// Writes the reply, if there is one.
pub fn write_answer<W: Sink>(reply: &Option<Reply>, writer: &mut W) -> io::Result<()>
    ensures bytes { Writes (W.contents writer.old) (W.contents writer.new)
        (reply_lines (listed (option_map (λ reply. reply.items) reply.now))) result }
    ensures calls { Called 0 (W.calls writer.old) (W.calls writer.new) result }
{
    match reply {
        Some(reply) => write_reply(reply, writer),
        None => Ok(()),
    }
}

/// Writes that the meter was closed and recovered.
pub fn write_open<W: Sink>(writer: &mut W) -> io::Result<()>
    ensures bytes { Writes (W.contents writer.old) (W.contents writer.new) open_line result }
    ensures calls { Called 0 (W.calls writer.old) (W.calls writer.new) result }
{
    put(b"open\n", writer)
}

/// Appends a number's decimal digits. The line must have room for `MOST_NUMBER`.
fn push_number(line: &mut Line, number: u64)
    requires { array_string_len line.old + MOST_NUMBER ≤ MOST_LINE }
    ensures text { line.new.bytes ≡ line.old.bytes ++ decimal number }
    ensures short { array_string_len line.new ≤ array_string_len line.old + MOST_NUMBER }
{
    let mut digits = Buffer::new();
    line.push_str(digits.format(number));
}

/// Why an event was refused, by its number in the table of refusals; a moment that went back with the last.
pub fn refusal_text(refused: Refused) -> Line
    ensures { result.bytes ≡ refusal_line refused }
{
    let mut line = Line::new();
    match refused {
        Refused::MomentBack(last) => {
            line.push_str("refused 1 ");
            push_number(&mut line, u64::from(last));
            line.push_str("\n");
        }
        Refused::Range => line.push_str("refused 2\n"),
        Refused::Channel => line.push_str("refused 3\n"),
        Refused::Period => line.push_str("refused 4\n"),
        Refused::Length => line.push_str("refused 5\n"),
        Refused::Columns => line.push_str("refused 6\n"),
    }
    line
}

/// By which number of the faults an event was not taken.
pub fn fault_text(number: u32) -> Line
    ensures { result.bytes ≡ fault_line number }
{
    let mut line = Line::new();
    line.push_str("fault ");
    push_number(&mut line, u64::from(number));
    line.push_str("\n");
    line
}

/// The number of a fault of a recovery.
fn open_fault_number(fault: OpenFault) -> u32
    ensures { result ≡ open_fault_number fault }
{
    match fault {
        OpenFault::Device => 1,
        OpenFault::NoCheckpoint => 2,
        OpenFault::Corrupt(_) => 3,
        OpenFault::Memory => 4,
        OpenFault::Exhausted => 5,
        OpenFault::Size => 6,
    }
}

/// By its number why the meter was not recovered.
pub fn open_fault_text(fault: OpenFault) -> Line
    ensures { result.bytes ≡ open_fault_line fault }
{
    let mut line = Line::new();
    line.push_str("fault open ");
    push_number(&mut line, u64::from(open_fault_number(fault)));
    line.push_str("\n");
    line
}

/// Appends the three registers. The line must have room for `MOST_REGISTERS` bytes.
fn push_registers(line: &mut Line, registers: &[u32; 3])
    requires { array_string_len line.old + MOST_REGISTERS ≤ MOST_LINE }
    ensures text { line.new.bytes ≡ line.old.bytes ++ registers_text registers.now }
    ensures short { array_string_len line.new ≤ array_string_len line.old + MOST_REGISTERS }
{
    let [first, second, third] = *registers;
    line.push_str("state ");
    push_number(line, u64::from(first));
    line.push_str(" ");
    push_number(line, u64::from(second));
    line.push_str(" ");
    push_number(line, u64::from(third));
}

/// Appends the clock and the count of rows. The line must have room for `MOST_CLOCK` bytes.
fn push_clock(line: &mut Line, clock: u32, rows: usize)
    requires { array_string_len line.old + MOST_CLOCK ≤ MOST_LINE }
    ensures { line.new.bytes ≡ line.old.bytes ++ clock_text clock rows }
{
    line.push_str(" ");
    push_number(line, u64::from(clock));
    line.push_str(" ");
    push_number(line, rows as u64);
    line.push_str("\n");
}

/// The registers, the clock and the count of rows, as `state 42 0 0 900 1`.
pub fn state_text<A: Allocator + Copy>(state: &State<A>) -> Line
    ensures { result.bytes ≡ state_line state.now }
{
    let mut line = Line::new();
    push_registers(&mut line, &state.registers());
    push_clock(&mut line, state.clock(), state.rows().len());
    line
}
