//! A meter that serves a serial line, whose other end neither comes nor goes.

ghost use Rattle.std.specs.Prelude.{◌≡◌, ◌↔◌, IsTrue, List};
ghost use Rattle.dlms_meter.specs.Steps.{Call, Calls};
ghost use Rattle.dlms_serving.specs.Carrying.{Made};
ghost use Rattle.dlms_serving.specs.declared.carrier.Carrier.TheVariants as CarrierOf;
ghost use Rattle.dlms_serving.specs.Connection.{log, timed};
ghost use Rattle.dlms_serving.specs.ServingLine.{AllTurns, IsSlow, ServesLine, ServesTurn, TellsGone, rests};
ghost use Rattle.dlms_lines.specs.Watching.{Sees};

use crate::carrier::Carrier;
use crate::hanging_up::hang_up;
use crate::serial_watch::SerialWatch;
use crate::serving::{Serving, is_refused, log_of, tell_end};
use crate::talking::{Ending, Rules, Server};
use crate::ticks::Ticks;
use crate::turns::{LINE_REFUSALS, Over};
use crate::watch::Watch;
use dlms_ends::{End, RunFault};
use dlms_lines::{FieldFault, Serial};
use dlms_meter::Meter;
use dlms_pages::Pages;
use std::fs::{File, Files};
use std::io;
use std::io::{ErrorKind, Write};
use std::net::Net;
use std::time::{Clock, Duration, Instant};

/// For how many seconds a read or a write of the line waits.
const WAKE_SECONDS: u64 = 1;

/// Whether what was to go out was not taken in time: the line is there all the same.
fn is_slow(error: io::Error) -> bool
    ensures { IsTrue result ↔ IsSlow error }
{
    match error.kind() {
        ErrorKind::TimedOut | ErrorKind::WouldBlock => true,
        _ => false,
    }
}

/// The error to report for the line after a turn; `None` if the line goes on.
fn fault_of_line(device: &str, ending: Ending) -> Option<FieldFault<'_>>
    ensures { TellsGone device.now ending result }
{
    match ending {
        Ending::Over(_) | Ending::BadMessage => None,
        Ending::Closed => Some(FieldFault::System(device, ErrorKind::UnexpectedEof.into())),
        Ending::Failed(error) => {
            if is_slow(error) {
                None
            } else {
                Some(FieldFault::System(device, error))
            }
        }
    }
}

/// Lets a while go by where association requests were refused too often.
fn rest<W: Watch>(watch: &mut W, ending: Ending)
    ensures { Sees (W.seen watch.old) (W.seen watch.new) (rests ending) }
{
    if is_refused(ending) {
        watch.pause();
    }
}

/// Whether the end of a turn is reported: for a time without frames only if an association was open.
fn is_told(ending: Ending, was_associated: bool) -> bool {
    match ending {
        Ending::Over(Over::Inactive) => was_associated,
        _ => true,
    }
}

/// Tells how a turn ended.
fn tell<W: Watch + Drop, E: Write>(
    server: &mut Server<'_, W, E>,
    rules: Rules,
    device: &str,
    ending: Ending,
    was_associated: bool,
)
    ensures ticks { server.new.ticks ≡ server.old.ticks }
    ensures watch { server.new.watch ≡ server.old.watch }
{
    if is_told(ending, was_associated) && server.log.takes_line(server.errors) {
        tell_end(server.errors, device, rules, ending);
    }
}

/// Serves one turn. No client's link is up when it begins, and none after its end.
fn serve_turn<'f, W: Watch + Drop, T: End, P: Pages, E: Write>(
    server: &mut Server<'_, W, E>,
    rules: Rules,
    meter: &mut Meter<P>,
    line: &mut T,
    device: &'f str,
) -> Result<(), FieldFault<'f>>
    ensures serves { ServesTurn device.now rules (log (T.past line.old) (W.seen server.old.watch))
        (log (T.past line.new) (W.seen server.new.watch)) (timed meter.old server.old.ticks) result
        (timed meter.new server.new.ticks) }
    ensures calls { Made rules.carrier meter.old meter.new }
{
    hang_up(meter);
    let ending = match server.talk(rules, meter, line) {
        Ok(ending) => ending,
        Err(fault) => return Err(FieldFault::Other(fault)),
    };
    let was_associated = meter.is_associated();
    hang_up(meter);
    match fault_of_line(device, ending) {
        Some(fault) => Err(fault),
        None => {
            tell(server, rules, device, ending, was_associated);
            rest(&mut server.watch, ending);
            Ok(())
        }
    }
}

/// Serves one turn of a line after another, until it is gone.
pub fn serve_turns<'f, W: Watch + Drop, T: End, P: Pages, E: Write>(
    server: &mut Server<'_, W, E>,
    rules: Rules,
    meter: &mut Meter<P>,
    line: &mut T,
    device: &'f str,
) -> Result<(), FieldFault<'f>>
    ensures serves { AllTurns device.now rules (log (T.past line.old) (W.seen server.old.watch))
        (log (T.past line.new) (W.seen server.new.watch)) (timed meter.old server.old.ticks) result
        (timed meter.new server.new.ticks) }
    ensures calls { Made rules.carrier meter.old meter.new }
{
    'turns: for _turn in 0..u64::MAX {
        match serve_turn(server, rules, meter, line, device) {
            Ok(()) => {}
            Err(fault) => return Err(fault),
        }
    }
    Ok(())
}

/// The line of a device, each call on which waits for a second at most.
fn open_line<R: Net + Files<File = File> + AllocGlobal>(
    rt: &R,
    device: &str,
) -> io::Result<Serial> {
    let mut line = Serial::open(rt, device)?;
    line.waits(Duration::from_secs(WAKE_SECONDS));
    Ok(line)
}

/// Says which line it serves.
fn announce<W: Write>(device: &str, output: &mut W) -> io::Result<()> {
    writeln!(output, "listening on {device}")?;
    output.flush()
}

/// Serves the meter on the serial line of a device, the address of `serving`, until a fault, as `serve` does on a TCP port.
/// `listening on DEVICE` is printed once it is open. A turn is like a connection there, but nobody else waits: when it is over, or
/// a reply is not taken within a second, the links end, and the line goes on; after refused associations only after a while. A
/// device that is gone is a fault of the system.
pub fn serve_line<
    'a,
    R: Net + Files<File = File> + Clock + AllocGlobal,
    P: Pages,
    W: Write,
    E: Write,
>(
    rt: &R,
    meter: &mut Meter<P>,
    serving: &Serving<'a>,
    output: &mut W,
    errors: &mut E,
) -> Result<(), FieldFault<'a>>
    ensures serves { ServesLine serving.now.address.now (record {
      tick = serving.now.tick;
      times = serving.now.times;
      refusals = LINE_REFUSALS;
      carrier = CarrierOf.Hdlc;
    }) serving.now.load meter.old result meter.new }
    ensures calls { (calls : List Call) × Calls meter.old calls meter.new }
{
    let start = match Instant::now(rt) {
        Ok(start) => start,
        Err(error) => return Err(FieldFault::Other(RunFault::from(error))),
    };
    let mut line = match open_line(rt, serving.address) {
        Ok(line) => line,
        Err(error) => return Err(FieldFault::System(serving.address, error)),
    };
    if let Err(error) = announce(serving.address, output) {
        return Err(FieldFault::Other(RunFault::from(error)));
    }
    let ticks = Ticks::new(meter.state().last(), serving.load);
    let log = log_of(rt, serving);
    let rules = Rules {
        tick: serving.tick,
        times: serving.times,
        refusals: LINE_REFUSALS,
        carrier: Carrier::Hdlc,
    };
    let mut server = Server::new(SerialWatch::new(rt, rt.alloc(), start), ticks, log, errors);
    serve_turns(&mut server, rules, meter, &mut line, serving.address)
}
