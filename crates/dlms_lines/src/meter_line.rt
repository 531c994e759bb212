//! A head end's end of a line, which is connected to the meter at an address.

ghost use Rattle.std.specs.Prelude.{◌≡◌, Some, None, IfOk, IsTrue, MatchOption, [], ◌∷◌, if◌then◌else◌};
ghost use Rattle.dlms_ends.specs.Moments.{Adds};
ghost use Rattle.dlms_ends.specs.Moments.Moment.{Connects};
ghost use Rattle.dlms_lines.specs.Deadline.{IsUntil, wait_within};

use crate::deadline::Deadline;
use crate::line::{Line, WAIT_SECONDS};
use crate::place::host_and_port;
use crate::serial::{Serial, is_device};
use crate::steady::HostClock;
use crate::wire::Wire;
use dlms_ends::{End, Heard, PIECE};
use dlms_pages::refuse_standard;
use std::fs::{File, Files};
use std::io;
use std::io::{ErrorKind, Read, Write};
use std::net::{Net, OpenStream, TcpStream, ToSocketAddrs};
use std::os::fd::AsRawFd;
use std::time::{Clock, Duration, Instant};

/// For how many seconds a connection is waited for.
pub const CONNECT_SECONDS: u64 = 8;

/// For how many milliseconds nothing has to arrive on a serial line before it is used.
const QUIET_MILLISECONDS: u64 = 50;

/// The most reads of a serial line before it is used.
const QUIET_READS: u32 = 64;

/// An end that can be connected to an address, or is a device.
pub trait Dialling: End {
    /// Connects to this address within this many seconds, and returns whether that was done in time. Then nothing is left on the
    /// line. Before that nothing comes at the end, and nothing goes out.
    fn connect(&mut self, address: &str, seconds: u32) -> io::Result<bool>
        ensures { Adds (Self.past self.old) (Self.past self.new)
            (Connects address.now result ∷ []) };

    /// The system's error, if the line failed.
    fn failure(&self) -> Option<io::Error>;
}

/// Drops the bytes on the line: until nothing comes for as long as it waits, or so much has come that it does not wait for silence.
#[inline(never)]
fn quiet<S: Read + Write>(stream: &mut S) -> io::Result<()> {
    let mut piece = [0u8; PIECE];
    for _ in 0..QUIET_READS {
        match stream.hear(&mut piece) {
            Ok(Heard::Bytes(_)) => {}
            Ok(Heard::Silence) => break,
            // The end of the stream is there for the next read too.
            Err(error) if error.kind() == ErrorKind::UnexpectedEof => break,
            Err(error) => return Err(error),
        }
    }
    Ok(())
}

/// The stream gives up after a while, and sends bytes at once. Nothing of an earlier connection is on it.
fn prepare<S: OpenStream>(stream: &mut S, wait: u64) -> io::Result<()> {
    stream.set_nodelay(true)?;
    stream.set_read_timeout(Some(Duration::from_secs(wait)))?;
    stream.set_write_timeout(Some(Duration::from_secs(wait)))
}

/// A connection that is no standard stream, and is ready.
fn make_ready<S: OpenStream + AsRawFd + Drop>(stream: S, wait: u64) -> io::Result<S> {
    refuse_standard(stream.as_raw_fd())?;
    let mut stream = stream;
    prepare(&mut stream, wait)?;
    Ok(stream)
}

/// The seconds to wait for a connection if this many are left; `None` if none are.
fn wait_within(left: u64) -> Option<u64>
    ensures { result ≡ wait_within left }
{
    if left == 0 {
        return None;
    }
    Some(left.min(CONNECT_SECONDS))
}

/// Until when to wait for a line, if it has a deadline.
fn until_of(has_deadline: bool, deadline: Deadline) -> Option<Deadline>
    ensures { result ≡ if has_deadline then Some deadline else None }
{
    if has_deadline { Some(deadline) } else { None }
}

/// A connection to the first address that answers; `None` if the deadline is over.
#[inline(never)]
fn connect_first<R: Net + Clock>(
    rt: &R,
    address: &str,
    deadline: Deadline,
) -> io::Result<Option<R::Stream>> {
    let Some(place) = host_and_port(address) else {
        return Err(ErrorKind::InvalidInput.into());
    };
    let mut last = io::Error::from(ErrorKind::AddrNotAvailable);
    for place in place.to_socket_addrs(rt)? {
        let Some(seconds) = wait_within(deadline.left(Instant::now(rt)?)) else {
            return Ok(None);
        };
        match TcpStream::connect_timeout(rt, &place, Duration::from_secs(seconds)) {
            Ok(stream) => return Ok(Some(stream)),
            Err(error) => last = error,
        }
    }
    Err(last)
}

/// The serial line of a device, on which nothing stands.
#[inline(never)]
fn open_device<R: Net + Files<File = File> + AllocGlobal>(
    rt: &R,
    device: &str,
    wait: u64,
) -> io::Result<Serial> {
    let mut line = Serial::open(rt, device)?;
    line.waits(Duration::from_millis(QUIET_MILLISECONDS));
    quiet(&mut line)?;
    line.waits(Duration::from_secs(wait));
    Ok(line)
}

/// An end of a TCP connection or of a serial line, once it is connected.
#[derive(Drop)]
pub struct MeterLine<'r, R: Net + Clock> {
    rt: &'r R,
    line: Option<Line<HostClock<'r, R>, Wire<R::Stream>>>,
    wait: u64,
    has_deadline: bool,
}

impl<'r, R: Net + Clock> MeterLine<'r, R> {
    /// It is connected to nothing.
    pub fn new(rt: &'r R) -> Self {
        MeterLine {
            rt,
            line: None,
            wait: WAIT_SECONDS,
            has_deadline: false,
        }
    }

    /// It is connected to nothing. Once it is connected, nothing more comes after the seconds within which it had to be.
    pub fn until(rt: &'r R) -> Self {
        MeterLine {
            rt,
            line: None,
            wait: WAIT_SECONDS,
            has_deadline: true,
        }
    }

    /// The same line, which waits this many seconds for an answer, and for a write.
    pub fn waiting(self, seconds: u32) -> Self
        ensures wait { result.wait ≡ seconds }
        ensures deadline { result.has_deadline ≡ self.entry.has_deadline }
    {
        let mut line = self;
        line.wait = u64::from(seconds);
        line
    }
}

impl<R: Net + Clock> Read for MeterLine<'_, R> {
    fn read(&mut self, buf: &mut [u8]) -> io::Result<usize> {
        match &mut self.line {
            Some(line) => line.read(buf),
            None => Err(ErrorKind::NotConnected.into()),
        }
    }
}

impl<R: Net + Clock> Write for MeterLine<'_, R> {
    fn write(&mut self, buf: &[u8]) -> io::Result<usize> {
        match &mut self.line {
            Some(line) => line.write(buf),
            None => Err(ErrorKind::NotConnected.into()),
        }
    }

    fn flush(&mut self) -> io::Result<()> {
        match &mut self.line {
            Some(line) => line.flush(),
            None => Err(ErrorKind::NotConnected.into()),
        }
    }
}

impl<R: Net + Files<File = File> + Clock + AllocGlobal> Dialling for MeterLine<'_, R> {
    /// A path that begins at the root is the serial line of that device. Bytes go out at once, and no call waits for longer than the
    /// line does.
    fn connect(&mut self, address: &str, seconds: u32) -> io::Result<bool>
        ensures { IfOk result (λ is_connected. IsTrue is_connected
            → MatchOption self.new.line ⊥ (λ line. IsUntil self.old.has_deadline seconds line.until
            × (line.wait ≡ self.old.wait))) }
    {
        // A meter may serve one connection at a time: the one before is closed first.
        self.line = None;
        let deadline = Deadline::new(Instant::now(self.rt)?, seconds);
        let wire = if is_device(address) {
            Wire::Serial(open_device(self.rt, address, self.wait)?)
        } else {
            let Some(stream) = connect_first(self.rt, address, deadline)? else {
                return Ok(false);
            };
            Wire::Socket(make_ready(stream, self.wait)?)
        };
        let now = Instant::now(self.rt)?;
        let until = until_of(self.has_deadline, deadline);
        self.line = Some(Line::new(HostClock::new(self.rt), wire, now, self.wait, until));
        Ok(true)
    }

    fn failure(&self) -> Option<io::Error> {
        match &self.line {
            Some(line) => line.failure(),
            None => None,
        }
    }
}
