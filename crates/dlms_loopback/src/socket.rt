//! A line of this machine with itself.

ghost use Rattle.std.specs.Prelude.{◌≡◌, ◌≢◌, [], ◌∷◌, MatchOption};
ghost use Rattle.dlms_filing.specs.Filing.{error_in};
ghost use Rattle.dlms_ends.specs.Moments.{Adds};
ghost use Rattle.dlms_ends.specs.Moments.Moment.{Joins};

use dlms_ends::End;
use dlms_pages::refuse_standard;
use std::io;
use std::io::{ErrorKind, Read, Write};
use std::net::{Ipv4Addr, Net, OpenListener, OpenStream, SocketAddr, TcpListener, TcpStream};
use std::os::fd::AsRawFd;
use std::time::Duration;

/// For how long an end waits for bytes before it takes the line for silent.
const WAIT_MILLISECONDS: u64 = 500;

/// How many strangers may come first.
const STRANGERS: u8 = 16;

/// Bytes go out at once, and a read does not wait for ever.
fn prepare<S: OpenStream>(end: &S) -> io::Result<()> {
    end.set_read_timeout(Some(Duration::from_millis(WAIT_MILLISECONDS)))?;
    end.set_nodelay(true)
}

/// The two ends of a line.
#[derive(Drop)]
pub struct Line<S> {
    /// The head end's.
    pub head: S,
    /// The meter's.
    pub tail: S,
}

/// An end that is to be joined to another one.
pub trait Joining: End {
    /// Joins two ends to one line. Before that nothing comes at them, and nothing goes out.
    fn join(head: &mut Self, tail: &mut Self) -> io::Result<()>
        ensures head { Adds (Self.past head.old) (Self.past head.new)
            (Joins (error_in result) ∷ []) }
        ensures tail { Adds (Self.past tail.old) (Self.past tail.new)
            (Joins (error_in result) ∷ []) };
}

/// An end of a TCP connection of this program with itself, once it is joined to the other one.
#[derive(Drop)]
pub struct Socket<'r, R: Net> {
    rt: &'r R,
    stream: Option<R::Stream>,
}

/// Two ends that are to be joined.
pub fn sockets<R: Net>(rt: &R) -> Line<Socket<'_, R>> {
    Line {
        head: Socket { rt, stream: None },
        tail: Socket { rt, stream: None },
    }
}

impl<R: Net> Read for Socket<'_, R> {
    fn read(&mut self, buf: &mut [u8]) -> io::Result<usize> {
        match &mut self.stream {
            Some(stream) => stream.read(buf),
            None => Err(ErrorKind::NotConnected.into()),
        }
    }
}

impl<R: Net> Write for Socket<'_, R> {
    fn write(&mut self, buf: &[u8]) -> io::Result<usize> {
        match &mut self.stream {
            Some(stream) => stream.write(buf),
            None => Err(ErrorKind::NotConnected.into()),
        }
    }

    fn flush(&mut self) -> io::Result<()> {
        match &mut self.stream {
            Some(stream) => stream.flush(),
            None => Err(ErrorKind::NotConnected.into()),
        }
    }
}

impl<R: Net> Joining for Socket<'_, R> {
    fn join(head: &mut Self, tail: &mut Self) -> io::Result<()> {
        let line = ends(head.rt)?;
        head.stream = Some(line.head);
        tail.stream = Some(line.tail);
        Ok(())
    }
}

/// The end that was accepted, if it is the one whose own address this is. Any other connection is closed.
fn own_end<S: Drop>(accepted: (S, SocketAddr), own: SocketAddr) -> Option<S>
    ensures { MatchOption result (accepted.1 ≢ own) (λ tail. (accepted.1 ≡ own)
        × (tail ≡ accepted.0)) }
{
    let (tail, peer) = accepted;
    if peer == own { Some(tail) } else { None }
}

/// Both ends of one TCP connection of this program with itself, over a port of the loopback that the system chooses; the
/// port is closed again when this returns. Whoever else connects there is sent away.
pub fn ends<R: Net>(rt: &R) -> io::Result<Line<R::Stream>> {
    let listener = TcpListener::bind(rt, SocketAddr::from((Ipv4Addr::LOCALHOST, 0u16)))?;
    refuse_standard(listener.as_raw_fd())?;
    let head = TcpStream::connect(rt, listener.local_addr()?)?;
    let own = head.local_addr()?;
    for _ in 0..STRANGERS {
        if let Some(tail) = own_end(listener.accept()?, own) {
            refuse_standard(head.as_raw_fd())?;
            refuse_standard(tail.as_raw_fd())?;
            prepare(&head)?;
            prepare(&tail)?;
            return Ok(Line { head, tail });
        }
    }
    Err(io::Error::other("other programs connect to this one's port"))
}
