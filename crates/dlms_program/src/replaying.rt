//! The replay of a transcript on a meter.
ghost use Rattle.std.specs.Prelude.{◌≡◌, ◌≢◌, ◌≤◌, Bool, List, ℕ, MatchResult, Some, true, OnOk, is_some};
ghost use Rattle.dlms_state.specs.declared.event.Event.{Event};
ghost use Rattle.dlms_program.specs.Calls.{Called, Told};
ghost use Rattle.dlms_program.specs.Replay.{Followed, IsAt, IsLeft, Obeyed, WroteReplay, outcome_line};
ghost use Rattle.dlms_program.specs.Written.{Writes};
ghost use Rattle.dlms_meter.specs.Run.{MeterWorld, Stands, Judges};

use crate::fault::ReplayFault;
use crate::lines::{Taken, take_line};
use crate::orders::{Order, order_of};
use crate::pairs::Pairs;
use crate::printing::{
    Line, fault_text, open_fault_text, put, refusal_text, state_text, write_answer, write_open,
};
use crate::streams::{Sink, Source};
use arrayvec::ArrayVec;
use dlms_meter::Meter;
use dlms_pages::Pages;
use dlms_state::State;
use dlms_store::{AddFault, OpenFault};
use std::alloc::Allocator;
use std::io;

/// Feeds bytes, and writes each reply. If a reply cannot be written, the bytes after its frame are not fed.
fn feed<W: Sink, P: Pages, A: Allocator + Copy>(
    meter: &mut Meter<P, A>,
    bytes: &[u8],
    writer: &mut W,
) -> io::Result<()>
    ensures lines { (honest : Bool) (w : MeterWorld) → IsAt honest meter.old w
        → Obeyed honest (W.contents writer.old)
        (W.contents writer.new) w bytes.now Order.Feed result (Some meter.old) (Some meter.new) }
    ensures calls { Called 0 (W.calls writer.old) (W.calls writer.new) result }
{
    let mut rest = bytes;
    'frames: while !rest.is_empty() {
        let (taken, reply) = meter.feed(rest);
        write_answer(&reply, writer)?;
        rest = &rest[taken..];
    }
    Ok(())
}

/// The refusal or the number of the fault.
fn text_of(fault: AddFault) -> Line
    ensures { result.bytes ≡ outcome_line (Err fault) }
{
    match fault {
        AddFault::Refused(refused) => refusal_text(refused),
        AddFault::Device => fault_text(2),
        AddFault::Stopped => fault_text(3),
        AddFault::Exhausted => fault_text(4),
    }
}

/// Writes a line.
fn tell<W: Sink>(line: &Line, writer: &mut W) -> io::Result<()>
    ensures bytes { Writes (W.contents writer.old) (W.contents writer.new) line.now.bytes result }
    ensures calls { Called 0 (W.calls writer.old) (W.calls writer.new) result }
{
    put(line.as_str().as_bytes(), writer)
}

/// Writes the refusal or the number of the fault, if there is one.
fn answer<W: Sink>(outcome: Result<(), AddFault>, writer: &mut W) -> io::Result<()>
    ensures bytes { Writes (W.contents writer.old) (W.contents writer.new)
        (outcome_line outcome) result }
    ensures calls { Called 0 (W.calls writer.old) (W.calls writer.new) result }
{
    match outcome {
        Ok(()) => Ok(()),
        Err(fault) => tell(&text_of(fault), writer),
    }
}

/// Closes the meter and recovers it from its device, and writes that, or why it could not be recovered: then it is gone.
#[inline(never)]
fn reopen<W: Sink, P: Pages + Drop, A: Allocator + Copy>(
    alloc: A,
    meter: &mut Option<Meter<P, A>>,
    writer: &mut W,
) -> Result<(), ReplayFault>
    requires { is_some meter.old ≡ true }
    ensures there { OnOk result (is_some meter.new ≡ true) }
    ensures lines { (honest : Bool) (w : MeterWorld) (bytes : List ℕ)
        → IsLeft honest meter.old (Some w)
        → Followed honest (W.contents writer.old)
        (W.contents writer.new) w bytes Order.Open result meter.old meter.new }
    ensures calls { Told (W.calls writer.old) (W.calls writer.new) result }
{
    let Some(running) = meter.take() else {
        return Err(ReplayFault::Recovery);
    };
    match Meter::recover(alloc, running.close()) {
        Ok(recovered) => {
            *meter = Some(recovered);
            write_open(writer)?;
            Ok(())
        }
        Err((_, fault)) => {
            tell(&open_fault_text(fault), writer)?;
            Err(ReplayFault::Recovery)
        }
    }
}

/// Does what a line asks for, but for closing and recovering.
fn obey<W: Sink, P: Pages, A: Allocator + Copy>(
    order: Order,
    bytes: &Pairs,
    meter: &mut Meter<P, A>,
    writer: &mut W,
) -> io::Result<()>
    requires { order ≢ Order.Open }
    ensures lines { (honest : Bool) (w : MeterWorld) → IsAt honest meter.old w
        → Obeyed honest (W.contents writer.old)
        (W.contents writer.new) w bytes.now order result (Some meter.old) (Some meter.new) }
    ensures calls { Called 0 (W.calls writer.old) (W.calls writer.new) result }
{
    match order {
        Order::Skip => Ok(()),
        Order::Feed => feed(meter, bytes.as_slice(), writer),
        Order::Pulses { channel, count } => answer(meter.pulses(channel, count), writer),
        Order::Moment(second) => answer(meter.moment(second), writer),
        Order::Silence => {
            meter.idle();
            Ok(())
        }
        Order::Open => Ok(()),
        Order::Show => tell(&state_text(meter.state()), writer),
    }
}

/// Does what a line asks for.
fn follow<W: Sink, P: Pages + Drop, A: Allocator + Copy>(
    alloc: A,
    order: Order,
    bytes: &Pairs,
    meter: &mut Option<Meter<P, A>>,
    writer: &mut W,
) -> Result<(), ReplayFault>
    requires { is_some meter.old ≡ true }
    ensures there { OnOk result (is_some meter.new ≡ true) }
    ensures lines { (honest : Bool) (w : MeterWorld) → IsLeft honest meter.old (Some w)
        → Followed honest (W.contents writer.old)
        (W.contents writer.new) w bytes.now order result meter.old meter.new }
    ensures calls { Told (W.calls writer.old) (W.calls writer.new) result }
{
    if order == Order::Open {
        return reopen(alloc, meter, writer);
    }
    match meter {
        Some(running) => Ok(obey(order, bytes, running, writer)?),
        None => Err(ReplayFault::Recovery),
    }
}

/// Does what the lines of `reader` ask of the meter, and writes what comes of them, up to the first line that is of no
/// known form or too long. The meter is there when it is called, and afterwards but for one case: a line `O` closes it and
/// cannot recover it. Then that is written, the answer is `ReplayFault::Recovery`, and the meter is gone.
///
/// It ends with `ReplayFault::Io` if the reader's or the writer's last call failed, and after 2^32 - 1 lines: then the meter has
/// carried out the lines before that, and a line whose answer could not be written, up to that answer. A call that a signal
/// interrupts is repeated, up to 2^64 - 1 times. A `Read` is a `Source`, and a `Write` is a `Sink`; a `BufRead` in `Buffered` is
/// read in whole lines.
///
/// Where the store runs and no call of the meter meets a fault of its device, and no checkpoint is wanting, no line is a fault
/// 2 to 4 and no frame is answered with the device's result; a line `O` finds every accepted event, and ends the replay for
/// want of memory alone. In any replay a line reports a fault only for a cause in that line's own calls.
pub fn replay<R: Source, W: Sink, P: Pages + Drop, A: Allocator + Copy>(
    alloc: A,
    reader: &mut R,
    writer: &mut W,
    meter: &mut Option<Meter<P, A>>,
) -> Result<(), ReplayFault>
    requires { is_some meter.old ≡ true }
    ensures { (honest : Bool) (w : MeterWorld) → IsLeft honest meter.old (Some w)
        → WroteReplay honest (R.calls reader.old) (R.calls reader.new) (W.calls writer.old)
        (W.calls writer.new) (W.contents writer.old)
        (W.contents writer.new) w (R.remaining reader.old)
        (R.remaining reader.new) result meter.old meter.new }
{
    let mut line = ArrayVec::new();
    let mut bytes = Pairs::new();
    'lines: for number in 1..=u32::MAX {
        match take_line(reader, &mut line)? {
            Taken::End => return Ok(()),
            Taken::Long => return Err(ReplayFault::Line(number)),
            Taken::Whole => {}
        }
        let Some(order) = order_of(line.as_slice(), &mut bytes) else {
            return Err(ReplayFault::Line(number));
        };
        follow(alloc, order, &bytes, meter, writer)?;
    }
    Err(ReplayFault::Io)
}
