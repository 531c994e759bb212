//! The port, and the connections of the meters.

ghost use Rattle.std.specs.Prelude.{◌≡◌, ◌<◌, ◌≤◌, IfOk, IfSome, length};
ghost use Rattle.dlms_pushes.specs.Port.{IsWithin};
ghost use Rattle.dlms_pushes.specs.declared.port.Arrival.TheVariants.{Closed};
ghost use Rattle.dlms_pushes.specs.declared.port.TheConstants.{MOST_SEATS, PIECE};

use dlms_pages::refuse_standard;
use mio::net::{TcpListener, TcpStream};
use mio::{Events, Interest, Poll, Token};
use std::alloc::Global;
use std::io;
use std::io::{ErrorKind, Read};
use std::net::{Net, SocketAddr, ToSocketAddrs};
use std::os::fd::AsRawFd;
use std::time::Duration;

/// How many octets are read at once.
pub const PIECE: usize = 4096;

/// The most connections. Another one ends the one that was silent longest.
const MOST_SEATS: usize = 256;

/// The most events of one look, and for how many seconds one waits.
const MOST_EVENTS: usize = 256;

const WAIT_SECONDS: u64 = 1;

/// The token of the port, which no seat has.
const PORT: Token = Token(MOST_SEATS);

/// What happened at the port.
#[derive(Clone, Copy)]
pub enum Arrival {
    /// A meter connected: its seat.
    Opened(usize, SocketAddr),
    /// This many octets came from a seat.
    Octets(usize, usize),
    /// The connection of a seat is over.
    Closed(usize),
}

/// The connection of a meter, and when it was heard last.
#[derive(Drop)]
struct Seat {
    stream: TcpStream,
    heard: u64,
}

/// The port, and the connections of the meters.
#[derive(Drop)]
pub struct PushPort {
    poll: Poll,
    events: Events,
    listener: TcpListener,
    seats: Vec<Option<Seat>>,
    /// The seat that is read next.
    at: usize,
    /// The number of this round over the seats.
    round: u64,
    /// Whether something came in this round.
    is_busy: bool,
    ghost few: { length seats.items ≤ MOST_SEATS },
}

/// Listens at the first address of a place that the system allows.
fn bind<R: Net + AllocGlobal>(rt: &R, place: &str) -> io::Result<TcpListener> {
    let mut last = io::Error::from(ErrorKind::InvalidInput);
    for address in place.to_socket_addrs(rt)? {
        match TcpListener::bind(rt, address) {
            Ok(listener) => return Ok(listener),
            Err(error) => last = error,
        }
    }
    Err(last)
}

/// Reads from a connection in this round.
fn read_in(seat: &mut Seat, round: u64, piece: &mut [u8; PIECE]) -> io::Result<usize>
    ensures { IfOk result (λ count. count ≤ PIECE) }
{
    let count = seat.stream.read(piece)?;
    seat.heard = round;
    Ok(count)
}

/// Reads from a seat in this round; a free one has nothing.
fn read_from(seat: &mut Option<Seat>, round: u64, piece: &mut [u8; PIECE]) -> io::Result<usize>
    ensures { IfOk result (λ count. count ≤ PIECE) }
{
    match seat {
        Some(seat) => read_in(seat, round, piece),
        None => Err(ErrorKind::WouldBlock.into()),
    }
}

impl PushPort {
    /// Listens at a place HOST:PORT.
    pub fn open<R: Net + AllocGlobal>(rt: &R, place: &str) -> io::Result<Self> {
        let mut listener = bind(rt, place)?;
        refuse_standard(listener.as_raw_fd())?;
        let poll = Poll::new(rt)?;
        poll.registry()
            .register(&mut listener, PORT, Interest::READABLE)?;
        Ok(PushPort {
            poll,
            events: Events::with_capacity(rt.alloc(), MOST_EVENTS)?,
            listener,
            seats: Vec::new(rt.alloc()),
            at: 0,
            round: 0,
            is_busy: false,
        })
    }

    /// The address of the port.
    pub fn address(&self) -> io::Result<SocketAddr> {
        self.listener.local_addr()
    }

    /// The first seat that is free.
    fn free_seat(&self) -> Option<usize>
        ensures { IfSome result (λ at. at < length self.now.seats.items) }
    {
        self.seats.iter().position(|seat| seat.is_none())
    }

    /// The seat that was silent longest.
    fn oldest_seat(&self) -> usize
        ensures { result < MOST_SEATS }
    {
        let mut oldest = 0;
        let mut heard = u64::MAX;
        for (at, seat) in self.seats.iter().enumerate() {
            if let Some(seat) = seat
                && seat.heard < heard
            {
                oldest = at;
                heard = seat.heard;
            }
        }
        oldest
    }

    /// Ends the connection of a seat.
    fn close(&mut self, at: usize) -> Arrival
        ensures { result ≡ Closed at }
    {
        if let Some(seat) = self.seats.get_mut(at) {
            *seat = None;
        }
        Arrival::Closed(at)
    }

    /// Gives a connection a seat.
    fn seat(&mut self, at: usize, stream: TcpStream) -> io::Result<()>
        requires most { at < MOST_SEATS }
        requires next { at ≤ length self.old.seats.items }
    {
        let mut stream = stream;
        refuse_standard(stream.as_raw_fd())?;
        self.poll
            .registry()
            .register(&mut stream, Token(at), Interest::READABLE)?;
        let seat = Some(Seat {
            stream,
            heard: self.round,
        });
        match self.seats.get_mut(at) {
            Some(free) => *free = seat,
            None => self.seats.push(seat)?,
        }
        Ok(())
    }

    /// Takes the next connection that waits, if there is one, or first ends another one for it.
    fn admit(&mut self) -> io::Result<Option<Arrival>>
        ensures { IfOk result (λ arrival. IfSome arrival IsWithin) }
    {
        let at = match self.free_seat() {
            Some(at) => at,
            None if self.seats.len() < MOST_SEATS => self.seats.len(),
            None => {
                let oldest = self.oldest_seat();
                return Ok(Some(self.close(oldest)));
            }
        };
        match self.listener.accept() {
            Ok((stream, address)) => {
                self.seat(at, stream)?;
                Ok(Some(Arrival::Opened(at, address)))
            }
            Err(error) if error.kind() == ErrorKind::WouldBlock => Ok(None),
            Err(_) => Ok(None),
        }
    }

    /// Reads from a seat, if octets wait there.
    fn read(&mut self, at: usize, piece: &mut [u8; PIECE]) -> Option<Arrival>
        requires { at < MOST_SEATS }
        ensures { IfSome result IsWithin }
    {
        let round = self.round;
        let read = match self.seats.get_mut(at) {
            Some(seat) => read_from(seat, round, piece),
            None => return None,
        };
        match read {
            Ok(0) => Some(self.close(at)),
            Ok(count) => Some(Arrival::Octets(at, count)),
            Err(error) => match error.kind() {
                ErrorKind::WouldBlock | ErrorKind::Interrupted => None,
                _ => Some(self.close(at)),
            },
        }
    }

    /// Begins a new round over the seats, and waits first if nothing came in the last one.
    fn begin_round(&mut self, is_busy: bool) -> io::Result<()> {
        if !is_busy {
            self.poll
                .poll(&mut self.events, Some(Duration::from_secs(WAIT_SECONDS)))?;
        }
        self.at = 0;
        self.round = self.round.saturating_add(1);
        self.is_busy = false;
        Ok(())
    }

    /// The next thing that happens; its octets are the first ones of the piece. It waits until there is one.
    pub fn next(&mut self, piece: &mut [u8; PIECE]) -> io::Result<Arrival>
        ensures { IfOk result IsWithin }
    {
        for _ in 0..u64::MAX {
            let arrival = if self.at < self.seats.len() {
                let at = self.at;
                self.at += 1;
                self.read(at, piece)
            } else {
                // One connection a round: a flood of them keeps no seat from being read.
                let arrival = self.admit()?;
                self.begin_round(self.is_busy || arrival.is_some())?;
                arrival
            };
            if let Some(arrival) = arrival {
                self.is_busy = true;
                return Ok(arrival);
            }
        }
        Err(ErrorKind::TimedOut.into())
    }
}
