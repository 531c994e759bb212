//! A UDP port at which meters push. A datagram is a message or a frame of its own (IEC 62056-47).

ghost use Rattle.dlms_pushes.specs.declared.port.TheConstants.{PIECE};

use crate::port::PIECE;
use dlms_pages::refuse_standard;
use mio::net::UdpSocket;
use mio::{Events, Interest, Poll, Token};
use std::io;
use std::io::ErrorKind;
use std::net::{Net, SocketAddr, ToSocketAddrs};
use std::os::fd::AsRawFd;
use std::time::Duration;

/// The most events of one look, and for how many seconds one waits.
const MOST_EVENTS: usize = 8;

const WAIT_SECONDS: u64 = 1;

const SOCKET: Token = Token(0);

/// A UDP port.
#[derive(Drop)]
pub struct DatagramPort {
    poll: Poll,
    events: Events,
    socket: UdpSocket,
}

/// Binds the first address of a place that the system allows.
fn bind<R: Net + AllocGlobal>(rt: &R, place: &str) -> io::Result<UdpSocket> {
    let mut last = io::Error::from(ErrorKind::InvalidInput);
    for address in place.to_socket_addrs(rt)? {
        match UdpSocket::bind(rt, address) {
            Ok(socket) => return Ok(socket),
            Err(error) => last = error,
        }
    }
    Err(last)
}

impl DatagramPort {
    ghost use Rattle.std.specs.Prelude.{◌≤◌, IfOk};

    /// Listens at a place HOST:PORT.
    pub fn open<R: Net + AllocGlobal>(rt: &R, place: &str) -> io::Result<Self> {
        let mut socket = bind(rt, place)?;
        refuse_standard(socket.as_raw_fd())?;
        let poll = Poll::new(rt)?;
        poll.registry()
            .register(&mut socket, SOCKET, Interest::READABLE)?;
        Ok(DatagramPort {
            poll,
            events: Events::with_capacity(rt.alloc(), MOST_EVENTS)?,
            socket,
        })
    }

    /// The address of the port.
    pub fn address(&self) -> io::Result<SocketAddr> {
        self.socket.local_addr()
    }

    /// The next datagram, whose octets are the first ones of the piece, and its sender. It waits until there is one. Octets for
    /// which the piece has no room are lost.
    pub fn next(&mut self, piece: &mut [u8; PIECE]) -> io::Result<(usize, SocketAddr)>
        ensures { IfOk result (λ r. r.0 ≤ PIECE) }
    {
        for _ in 0..u64::MAX {
            match self.socket.recv_from(piece) {
                Ok(datagram) => return Ok(datagram),
                Err(error) => match error.kind() {
                    ErrorKind::WouldBlock => {
                        self.poll
                            .poll(&mut self.events, Some(Duration::from_secs(WAIT_SECONDS)))?;
                    }
                    ErrorKind::Interrupted => {}
                    _ => return Err(error),
                },
            }
        }
        Err(ErrorKind::TimedOut.into())
    }
}
