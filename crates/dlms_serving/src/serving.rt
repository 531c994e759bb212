//! A meter that serves a TCP port, one client after another.

ghost use Rattle.std.specs.Prelude.{◌≡◌, ◌↔◌, IsTrue};
ghost use Rattle.dlms_serving.specs.Carrying.{Made};
ghost use Rattle.dlms_serving.specs.Connection.{timed};
ghost use Rattle.dlms_serving.specs.Serving.{Closes, Passes, Serves, ServesAll, ServesNext, ServesOne, Visits, is_refused};

use crate::carrier::Carrier;
use crate::gauge::Gauge;
use crate::hanging_up::hang_up;
use crate::log::Log;
use crate::port_watch::PortWatch;
use crate::talking::{Ending, Rules, Server};
use crate::ticks::Ticks;
use crate::turns::{Over, PORT_REFUSALS, Times};
use crate::watch::{Peer, Watch};
use dlms_ends::RunFault;
use dlms_lines::FieldFault;
use dlms_meter::Meter;
use dlms_pages::{Pages, refuse_standard};
use mio::Interest;
use std::alloc::Global;
use std::fmt::Display;
use std::io;
use std::io::{ErrorKind, Write};
use std::net::{Net, OpenListener, SocketAddr, TcpListener};
use std::os::fd::{AsRawFd, RawFd};
use std::time::{Clock, Instant};

/// The numbers of Linux for errors of accept that pass: those of the connection that was to come (EPROTO, ENOPROTOOPT, EOPNOTSUPP,
/// ENETDOWN, ENETUNREACH, ENONET, EHOSTDOWN, EHOSTUNREACH, EPERM of a firewall), and want of files or memory (ENFILE, EMFILE, ENOBUFS,
/// ENOMEM).
const PASSING: [i32; 13] = [71, 92, 95, 100, 101, 64, 112, 113, 1, 23, 24, 105, 12];

/// How a meter is served.
#[derive(Clone, Copy)]
pub struct Serving<'a> {
    /// The address and port to listen on; for port 0 the system chooses one. For a serial line its device.
    pub address: &'a str,
    /// The load in watts, which gives pulses on channel 0.
    pub load: u32,
    /// The meter gets the seconds of the clock in steps of this many.
    pub tick: u32,
    /// After how many seconds a connection's turn is over.
    pub times: Times,
    /// What brings the APDUs of a connection; a serial line has HDLC alone.
    pub carrier: Carrier,
    /// Whether nothing is said of connections, of seconds that are refused, and of errors that pass.
    pub quiet: bool,
    /// The descriptor of the errors, if there is one: a line that it does not take at once is dropped.
    pub errors: Option<RawFd>,
}

/// Whether the port is asked again after this error.
fn passes(error: io::Error) -> bool
    ensures { IsTrue result ↔ Passes error }
{
    match error.kind() {
        ErrorKind::WouldBlock
        | ErrorKind::Interrupted
        | ErrorKind::ConnectionAborted
        | ErrorKind::ConnectionReset => true,
        _ => match error.raw_os_error() {
            Some(number) => PASSING.contains(&number),
            None => false,
        },
    }
}

/// Reports how a connection with an address, or a turn of a serial line, ended. It does not matter if the line cannot be written.
pub fn tell_end<E: Write, D: Display + Drop>(
    errors: &mut E,
    address: D,
    rules: Rules,
    ending: Ending,
) {
    let Times {
        inactivity,
        idle,
        longest,
    } = rules.times;
    let refusals = rules.refusals;
    let _said = match ending {
        Ending::Closed => writeln!(errors, "closed {address}"),
        Ending::Over(Over::Refused) if refusals == 1 => {
            writeln!(errors, "closed {address}: an association was refused")
        }
        Ending::Over(Over::Refused) => writeln!(
            errors,
            "closed {address}: {refusals} associations were refused"
        ),
        Ending::Over(Over::Inactive) => writeln!(
            errors,
            "closed {address}: no frame for {inactivity} seconds"
        ),
        Ending::Over(Over::Idle) => writeln!(
            errors,
            "closed {address}: another waits, and no frame of an association for {idle} seconds"
        ),
        Ending::Over(Over::Long) => writeln!(
            errors,
            "closed {address}: another has waited for {longest} seconds"
        ),
        Ending::BadMessage => writeln!(
            errors,
            "closed {address}: not a message of version 1 with 1 to 1024 octets"
        ),
        Ending::Failed(error) => writeln!(errors, "closed {address}: {error}"),
    };
}

/// Makes a connection ready, and talks with its client.
fn visit<W: Watch + Drop, P: Pages, E: Write>(
    server: &mut Server<'_, W, E>,
    rules: Rules,
    meter: &mut Meter<P>,
    stream: &mut W::Stream,
) -> Result<Ending, RunFault>
    ensures { Visits rules (W.seen server.old.watch) (W.seen server.new.watch)
        (timed meter.old server.old.ticks) result (timed meter.new server.new.ticks) }
{
    match server.watch.prepare(stream) {
        Ok(()) => server.talk(rules, meter, stream),
        Err(error) => Ok(Ending::Failed(error)),
    }
}

/// Whether an association request was refused so often that the turn was over.
pub fn is_refused(ending: Ending) -> bool
    ensures { result ≡ is_refused ending }
{
    match ending {
        Ending::Over(over) => match over {
            Over::Refused => true,
            Over::Inactive | Over::Idle | Over::Long => false,
        },
        Ending::Closed | Ending::BadMessage | Ending::Failed(_) => false,
    }
}

/// Tells the watch whose association request was refused.
fn ban<W: Watch>(watch: &mut W, address: SocketAddr, ending: Ending) -> Result<(), RunFault>
    ensures { Closes address ending (W.seen watch.old) (W.seen watch.new) result }
{
    if !is_refused(ending) {
        return Ok(());
    }
    let now = watch.seconds()?;
    watch.bar(address, now);
    Ok(())
}

/// Tells the watch whose association request was refused, and says how the connection ended.
fn close<W: Watch + Drop, E: Write>(
    server: &mut Server<'_, W, E>,
    rules: Rules,
    address: SocketAddr,
    ending: Ending,
) -> Result<(), RunFault>
    ensures closes { Closes address ending (W.seen server.old.watch)
        (W.seen server.new.watch) result }
    ensures ticks { server.new.ticks ≡ server.old.ticks }
{
    ban(&mut server.watch, address, ending)?;
    if server.log.takes_line(server.errors) {
        tell_end(server.errors, address, rules, ending);
    }
    Ok(())
}

/// Serves one connection. No client's link is up when it begins, and none after its end.
fn serve_one<W: Watch + Drop, P: Pages, E: Write>(
    server: &mut Server<'_, W, E>,
    rules: Rules,
    meter: &mut Meter<P>,
    peer: Peer<W::Stream>,
) -> Result<(), RunFault>
    ensures serves { ServesOne rules peer.address (W.seen server.old.watch)
        (W.seen server.new.watch)
        (timed meter.old server.old.ticks) result (timed meter.new server.new.ticks) }
    ensures calls { Made rules.carrier meter.old meter.new }
{
    let Peer { stream, address } = peer;
    let mut stream = stream;
    hang_up(meter);
    let ending = match visit(server, rules, meter, &mut stream) {
        Ok(ending) => ending,
        Err(fault) => return Err(fault),
    };
    hang_up(meter);
    close(server, rules, address, ending)
}

/// Tells of an error of the port that passes, once until a connection is taken again. That none waits is no error.
fn stumble<W: Watch + Drop, E: Write>(server: &mut Server<'_, W, E>, error: io::Error)
    ensures ticks { server.new.ticks ≡ server.old.ticks }
    ensures watch { server.new.watch ≡ server.old.watch }
{
    if error.kind() == ErrorKind::WouldBlock || server.stumbled {
        return;
    }
    if server.log.takes_line(server.errors) {
        let _said = writeln!(server.errors, "no connection: {error}");
    }
    server.stumbled = true;
}

/// Listens; a client that asks for a connection is never waited for.
#[inline(never)]
fn listening<R: Net>(rt: &R, address: &str) -> io::Result<R::Listener> {
    let listener = TcpListener::bind(rt, address)?;
    refuse_standard(listener.as_raw_fd())?;
    listener.set_nonblocking(true)?;
    Ok(listener)
}

/// The lines among the errors, or none.
pub fn log_of<R: Net + AllocGlobal>(rt: &R, serving: &Serving<'_>) -> Log<Global> {
    if serving.quiet {
        Log::quiet()
    } else {
        Log::new(rt, rt.alloc(), serving.errors)
    }
}

/// Prints the address where it listens.
fn announce<L: OpenListener, W: Write>(listener: &L, output: &mut W) -> io::Result<()> {
    let place = listener.local_addr()?;
    writeln!(output, "listening on {place}")?;
    output.flush()
}

/// Looks at the clock, and serves a connection if there is one. If there is none, the watch pauses.
fn serve_next<'f, W: Watch + Drop, P: Pages, E: Write>(
    server: &mut Server<'_, W, E>,
    rules: Rules,
    meter: &mut Meter<P>,
    address: &'f str,
) -> Result<(), FieldFault<'f>>
    ensures serves { ServesNext rules (W.seen server.old.watch) (W.seen server.new.watch)
        (timed meter.old server.old.ticks) result (timed meter.new server.new.ticks) }
    ensures calls { Made rules.carrier meter.old meter.new }
{
    let now = match server.look(rules.tick, meter) {
        Ok(now) => now,
        Err(fault) => return Err(FieldFault::Other(fault)),
    };
    match server.watch.next(now) {
        Ok(Some(peer)) => {
            server.stumbled = false;
            match serve_one(server, rules, meter, peer) {
                Ok(()) => Ok(()),
                Err(fault) => Err(FieldFault::Other(fault)),
            }
        }
        Ok(None) => Ok(()),
        Err(error) => {
            if !passes(error) {
                return Err(FieldFault::System(address, error));
            }
            stumble(server, error);
            server.watch.pause();
            Ok(())
        }
    }
}

/// Serves one connection after another, which the server's watch gives.
#[inline(never)]
pub fn serve_all<'f, W: Watch + Drop, P: Pages, E: Write>(
    server: &mut Server<'_, W, E>,
    rules: Rules,
    meter: &mut Meter<P>,
    address: &'f str,
) -> Result<(), FieldFault<'f>>
    ensures serves { ServesAll rules (W.seen server.old.watch) (W.seen server.new.watch)
        (timed meter.old server.old.ticks) result (timed meter.new server.new.ticks) }
    ensures calls { Made rules.carrier meter.old meter.new }
{
    'connections: for _next in 0..u64::MAX {
        match serve_next(server, rules, meter, address) {
            Ok(()) => {}
            Err(fault) => return Err(fault),
        }
    }
    Ok(())
}

/// Serves the meter on a TCP port, until a fault. Its running second goes on from its last one, by one second for each second of
/// the system's steady clock, and its load makes pulses. `listening on ADDRESS:PORT` is printed once the port is open; a line on
/// the errors reports the end of each connection, and a moment that is refused. An error in writing those lines does not matter. A
/// store that is stopped gives `Device`. Each connection has a turn (`Turn`), which is checked after each frame, and `hang_up` is
/// called before it and after it.
pub fn serve<'a, R: Net + Clock + AllocGlobal, P: Pages, W: Write, E: Write>(
    rt: &R,
    meter: &mut Meter<P>,
    serving: &Serving<'a>,
    output: &mut W,
    errors: &mut E,
) -> Result<(), FieldFault<'a>>
    ensures serves { Serves (record {
      tick = serving.now.tick;
      times = serving.now.times;
      refusals = PORT_REFUSALS;
      carrier = serving.now.carrier;
    }) serving.now.load meter.old result meter.new }
    ensures calls { Made serving.now.carrier meter.old meter.new }
{
    let start = match Instant::now(rt) {
        Ok(start) => start,
        Err(error) => return Err(FieldFault::Other(RunFault::from(error))),
    };
    let listener = match listening(rt, serving.address) {
        Ok(listener) => listener,
        Err(error) => return Err(FieldFault::System(serving.address, error)),
    };
    if let Err(error) = announce(&listener, output) {
        return Err(FieldFault::Other(RunFault::from(error)));
    }
    let gauge = Gauge::new(rt, rt.alloc(), listener.as_raw_fd(), Interest::READABLE);
    let ticks = Ticks::new(meter.state().last(), serving.load);
    let log = log_of(rt, serving);
    let rules = Rules {
        tick: serving.tick,
        times: serving.times,
        refusals: PORT_REFUSALS,
        carrier: serving.carrier,
    };
    let mut server = Server::new(
        PortWatch::new(rt, rt.alloc(), start, listener, gauge),
        ticks,
        log,
        errors,
    );
    serve_all(&mut server, rules, meter, serving.address)
}
