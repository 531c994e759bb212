//! The connections of the seats, over one event loop.

ghost use Rattle.std.specs.Prelude.{◌≡◌, ⊤};

use crate::pace::TICKS_A_SECOND;
use dlms_fleet::{Job, LineEvent, Lines, Outcome, PIECE, SeatEvent};
use dlms_inquiries::JobFault;
use dlms_pages::refuse_standard;
use mio::net::TcpStream;
use mio::{Events, Interest, Poll, Token};
use std::alloc::{AllocError, Global};
use std::collections::VecDeque;
use std::io::{ErrorKind, Read, Write};
use std::net::{Net, SocketAddr};
use std::os::fd::AsRawFd;
use std::time::Duration;
use std::{io, mem};

/// The most events of one look.
const MOST_EVENTS: usize = 1_024;

/// The most pieces that are read from a connection in one look.
const MOST_PIECES: u32 = 8;

/// The most writes of a message before the rest of it waits.
const MOST_WRITES: u32 = 64;

/// For how many ticks a connection is waited for: 8 seconds, as in `poll`.
const CONNECT_TICKS: u32 = 8 * TICKS_A_SECOND;

/// The connection of a seat, the bytes that wait to be written, and what the seat's poll is for.
#[derive(Drop)]
struct Wire<C> {
    stream: TcpStream,
    is_connected: bool,
    /// The ticks since the connection was begun, until it is there.
    waited: u32,
    out: Vec<u8>,
    /// How many of these bytes were written.
    sent: usize,
    failure: Option<io::Error>,
    /// Its place among the running seats.
    rank: usize,
    /// The second of the round in which its last message was sent.
    sent_at: u64,
    cargo: C,
}

/// Seconds of the system's clock, counted from 1970 on: those of the rounds in which a poll sent its last message, and ended. What a poll
/// does at an answer it does in the round in which the answer came.
#[derive(Clone, Copy)]
pub struct Seconds {
    pub sent: u64,
    pub ended: u64,
}

/// A poll that ended.
#[derive(Drop)]
pub struct EndedPoll<C, T> {
    /// What it was for.
    pub cargo: C,
    pub outcome: Outcome<JobFault>,
    pub job: T,
    /// Why its connection failed, if it did.
    pub failure: Option<io::Error>,
    /// Whether it was connected.
    pub was_connected: bool,
    pub seconds: Seconds,
}

/// A seat: nothing, a running poll, or one that ended and was not taken yet.
#[derive(Drop)]
enum Seat<C, T> {
    Free,
    Running(Box<Wire<C>>),
    Ended(Box<EndedPoll<C, T>>),
}

/// What was reported of a seat's connection, and how many pieces may still be read there.
#[derive(Clone, Copy)]
struct Report {
    number: usize,
    is_writable: bool,
    is_readable: bool,
    is_closed: bool,
    pieces: u32,
}

/// What comes of a report.
#[derive(Clone, Copy)]
enum Heard {
    /// This happened.
    Event(LineEvent),
    /// Nothing more comes of it.
    Over,
    /// It has to be looked at again.
    Again,
}

/// The connections of the seats, over one event loop.
#[derive(Drop)]
pub struct Wires<C, T> {
    alloc: Global,
    poll: Poll,
    events: Events,
    seats: Vec<Seat<C, T>>,
    free: Vec<usize>,
    running: Vec<usize>,
    ended: VecDeque<usize>,
    /// The seats whose connection failed in a write.
    lost: Vec<usize>,
    reports: Vec<Report>,
    /// How many of the running seats have not had the tick yet.
    ticking: usize,
    /// Whether memory ran out.
    is_short: bool,
    /// The second of the system's clock in this round.
    second: u64,
}

/// Writes the bytes after those that were written.
fn write_rest(stream: &mut TcpStream, out: &[u8], sent: usize) -> io::Result<usize> {
    stream.write(out.get(sent..).unwrap_or(&[]))
}

/// Writes the bytes that wait, as many as the system accepts.
fn write_on<C>(wire: &mut Wire<C>) -> io::Result<()> {
    for _ in 0..MOST_WRITES {
        if wire.sent >= wire.out.len() {
            wire.out.clear();
            wire.sent = 0;
            return Ok(());
        }
        match write_rest(&mut wire.stream, wire.out.as_slice(), wire.sent) {
            Ok(count) => wire.sent = wire.sent.saturating_add(count),
            Err(error) if error.kind() == ErrorKind::WouldBlock => return Ok(()),
            Err(error) if error.kind() == ErrorKind::Interrupted => {}
            Err(error) => return Err(error),
        }
    }
    Ok(())
}

/// Appends a message to the bytes that wait, and writes as many as the system accepts.
fn send_on<C>(wire: &mut Wire<C>, message: &[u8]) -> io::Result<()> {
    wire.out.extend_from_slice(message)?;
    write_on(wire)
}

/// Whether a connection that was begun is there. An error says why there will be none.
fn look_at<C>(wire: &Wire<C>) -> io::Result<bool> {
    if let Some(error) = wire.stream.take_error()? {
        return Err(error);
    }
    Ok(wire.stream.peer_addr().is_ok())
}

/// The connection is writable: it may be there now, or takes more bytes.
fn take_writable<C>(wire: &mut Wire<C>) -> io::Result<Heard> {
    if wire.is_connected {
        write_on(wire)?;
        return Ok(Heard::Again);
    }
    if !look_at(wire)? {
        return Ok(Heard::Over);
    }
    wire.is_connected = true;
    Ok(Heard::Event(LineEvent::Connected))
}

/// Reads a piece of what arrived.
fn take_readable<C>(
    wire: &mut Wire<C>,
    report: &mut Report,
    piece: &mut [u8; PIECE],
) -> io::Result<Heard> {
    match wire.stream.read(piece) {
        Ok(0) => Err(io::Error::new(ErrorKind::UnexpectedEof, "closed by the other end")),
        Ok(count) => {
            // Less than was asked for: nothing more is there, unless the other end has closed the connection.
            report.is_readable = count == PIECE || report.is_closed;
            Ok(Heard::Event(LineEvent::Bytes(count)))
        }
        Err(error) if error.kind() == ErrorKind::WouldBlock => Ok(Heard::Over),
        Err(error) if error.kind() == ErrorKind::Interrupted => Ok(Heard::Again),
        Err(error) => Err(error),
    }
}

/// Takes the next thing that a report is about.
fn take_report<C>(
    wire: &mut Wire<C>,
    report: &mut Report,
    piece: &mut [u8; PIECE],
) -> io::Result<Heard> {
    if report.is_writable {
        report.is_writable = false;
        return take_writable(wire);
    }
    if !report.is_readable || !wire.is_connected || report.pieces == 0 {
        return Ok(Heard::Over);
    }
    report.pieces = report.pieces.saturating_sub(1);
    take_readable(wire, report, piece)
}

/// The event of a seat whose connection failed.
fn lose<C>(wire: &mut Wire<C>, error: io::Error) -> LineEvent {
    wire.failure = Some(error);
    LineEvent::Lost
}

impl<C: Drop, T: Drop> Wires<C, T> {
    /// This many seats, all of them free.
    pub fn new<R: Net>(rt: &R, alloc: Global, seats: usize) -> io::Result<Self> {
        let mut free = Vec::with_capacity(alloc, seats)?;
        let mut all = Vec::with_capacity(alloc, seats)?;
        for number in 0..seats {
            free.push(number)?;
            all.push(Seat::Free)?;
        }
        Ok(Wires {
            alloc,
            poll: Poll::new(rt)?,
            events: Events::with_capacity(alloc, MOST_EVENTS)?,
            seats: all,
            free,
            running: Vec::with_capacity(alloc, seats)?,
            ended: VecDeque::with_capacity(alloc, seats)?,
            lost: Vec::new(alloc),
            reports: Vec::with_capacity(alloc, MOST_EVENTS)?,
            ticking: 0,
            is_short: false,
            second: 0,
        })
    }

    /// The second of the system's clock in this round, counted from 1970 on.
    pub fn second(&self) -> u64
        ensures { result ≡ self.now.second }
    {
        self.second
    }

    /// How many polls run.
    pub fn running(&self) -> usize {
        self.running.len()
    }

    /// Whether a poll ended that was not taken yet.
    pub fn has_ended(&self) -> bool {
        !self.ended.is_empty()
    }

    /// Whether memory ran out, so that a poll may have been dropped.
    pub fn is_short(&self) -> bool {
        self.is_short
    }

    /// The number of a free seat, which is the one that `connect` takes next.
    pub fn free_seat(&self) -> Option<usize> {
        self.free.last().copied()
    }

    /// Begins to connect the next free seat to this address. If that fails, the seat stays free.
    pub fn connect<R: Net>(&mut self, rt: &R, address: SocketAddr, cargo: C) -> io::Result<()> {
        let stream = self.begin(rt, address)?;
        let Some(number) = self.free.pop() else {
            return Err(io::Error::other("no seat is free"));
        };
        let wire = Wire {
            stream,
            is_connected: false,
            waited: 0,
            out: Vec::new(self.alloc),
            sent: 0,
            failure: None,
            rank: self.running.len(),
            sent_at: self.second,
            cargo,
        };
        self.seat(number, wire)?;
        Ok(())
    }

    /// Puts a connection on a seat.
    fn seat(&mut self, number: usize, wire: Wire<C>) -> Result<(), AllocError> {
        let wire = Box::new(self.alloc, wire)?;
        self.running.push(number)?;
        if let Some(seat) = self.seats.get_mut(number) {
            *seat = Seat::Running(wire);
        }
        Ok(())
    }

    /// A connection to this address that is begun, and whose events are reported for the next free seat.
    fn begin<R: Net>(&self, rt: &R, address: SocketAddr) -> io::Result<TcpStream> {
        let mut stream = TcpStream::connect(rt, address)?;
        refuse_standard(stream.as_raw_fd())?;
        stream.set_nodelay(true)?;
        self.poll.registry().register(
            &mut stream,
            Token(self.free_seat().unwrap_or(0)),
            Interest::READABLE | Interest::WRITABLE,
        )?;
        Ok(stream)
    }

    /// Waits for events of the connections, for this long at most. The reports of the last look have been taken.
    pub fn look(&mut self, wait: Duration) -> io::Result<()> {
        self.poll.poll(&mut self.events, Some(wait))?;
        self.reports.clear();
        for event in self.events.iter() {
            self.reports.push(Report {
                number: event.token().0,
                is_writable: event.is_writable(),
                is_readable: event.is_readable() || event.is_read_closed() || event.is_error(),
                is_closed: event.is_read_closed(),
                pieces: MOST_PIECES,
            })?;
        }
        Ok(())
    }

    /// A round begins at this second of the system's clock.
    pub fn set_second(&mut self, second: u64)
        ensures { self.new.second ≡ second }
    {
        self.second = second;
    }

    /// A tick of the clock: each running seat gets it.
    pub fn tick(&mut self) {
        self.ticking = self.running.len();
    }

    /// Takes the poll that ended first. Its seat is free.
    pub fn take_ended(&mut self) -> Option<EndedPoll<C, T>> {
        let number = self.ended.pop_front()?;
        let seat = self.seats.get_mut(number)?;
        match mem::replace(seat, Seat::Free) {
            Seat::Ended(ended) => {
                self.is_short = self.free.push(number).is_err() || self.is_short;
                Some(Box::into_inner(ended))
            }
            _ => None,
        }
    }

    /// The connection of a seat whose poll runs.
    fn wire(&mut self, number: usize) -> Option<&mut Wire<C>> {
        match self.seats.get_mut(number)? {
            Seat::Running(wire) => Some(&mut **wire),
            _ => None,
        }
    }

    /// Registers a connection again of which not all was read, so that the system reports it again.
    fn ask_again(&mut self, number: usize) -> io::Result<()> {
        let Some(Seat::Running(wire)) = self.seats.get_mut(number) else {
            return Ok(());
        };
        self.poll.registry().reregister(
            &mut wire.stream,
            Token(number),
            Interest::READABLE | Interest::WRITABLE,
        )
    }

    /// Takes the next thing that a report is about.
    fn hear(&mut self, report: &mut Report, piece: &mut [u8; PIECE]) -> Heard {
        let Some(wire) = self.wire(report.number) else {
            return Heard::Over;
        };
        let heard = match take_report(wire, report, piece) {
            Ok(heard) => heard,
            Err(error) => return Heard::Event(lose(wire, error)),
        };
        match heard {
            Heard::Over if report.is_readable && report.pieces == 0 => {
                self.hear_again(report.number)
            }
            heard => heard,
        }
    }

    /// Leaves what is still to be read on a connection to the next look.
    fn hear_again(&mut self, number: usize) -> Heard {
        match self.ask_again(number) {
            Ok(()) => Heard::Over,
            Err(error) => match self.wire(number) {
                Some(wire) => Heard::Event(lose(wire, error)),
                None => Heard::Over,
            },
        }
    }

    /// The next event among the reports.
    fn next_report(&mut self, piece: &mut [u8; PIECE]) -> Option<SeatEvent> {
        for _ in 0..u64::MAX {
            let mut report = self.reports.pop()?;
            let number = report.number;
            let heard = self.hear(&mut report, piece);
            let is_over = matches!(heard, Heard::Over);
            if !is_over && self.reports.push(report).is_err() {
                self.is_short = true;
            }
            if let Heard::Event(event) = heard {
                return Some(SeatEvent { number, event });
            }
        }
        None
    }

    /// A tick on a seat: a connection that is waited for too long is lost.
    fn tick_on(&mut self, number: usize) -> LineEvent {
        let Some(wire) = self.wire(number) else {
            return LineEvent::Tick;
        };
        if wire.is_connected {
            return LineEvent::Tick;
        }
        wire.waited = wire.waited.saturating_add(1);
        if wire.waited < CONNECT_TICKS {
            return LineEvent::Tick;
        }
        lose(wire, ErrorKind::TimedOut.into())
    }

    /// The tick of the next running seat.
    fn next_tick(&mut self) -> Option<SeatEvent> {
        for _ in 0..u64::MAX {
            self.ticking = self.ticking.checked_sub(1)?;
            if let Some(number) = self.running.get(self.ticking).copied() {
                let event = self.tick_on(number);
                return Some(SeatEvent { number, event });
            }
        }
        None
    }

    /// Takes a seat from the running ones.
    fn unrank(&mut self, rank: usize) {
        if rank >= self.running.len() {
            return;
        }
        let _number = self.running.swap_remove(rank);
        let Some(moved) = self.running.get(rank).copied() else {
            return;
        };
        if let Some(wire) = self.wire(moved) {
            wire.rank = rank;
        }
    }

    /// Keeps how the poll of a seat ended.
    fn keep(
        &mut self,
        number: usize,
        wire: Wire<C>,
        outcome: Outcome<JobFault>,
        job: T,
    ) -> Result<(), AllocError> {
        let Wire {
            stream,
            cargo,
            failure,
            is_connected,
            sent_at,
            ..
        } = wire;
        drop(stream);
        let seconds = Seconds {
            sent: sent_at,
            ended: self.second,
        };
        let ended = Box::new(
            self.alloc,
            EndedPoll {
                cargo,
                outcome,
                job,
                failure,
                was_connected: is_connected,
                seconds,
            },
        )?;
        self.ended.push_back(number)?;
        if let Some(seat) = self.seats.get_mut(number) {
            *seat = Seat::Ended(ended);
        }
        Ok(())
    }
}

impl<C: Drop, T: Job<Message = Vec<u8>, Fault = JobFault> + Drop> Lines<T> for Wires<C, T> {
    fn next(&mut self, piece: &mut [u8; PIECE]) -> Option<SeatEvent> {
        if let Some(number) = self.lost.pop() {
            return Some(SeatEvent {
                number,
                event: LineEvent::Lost,
            });
        }
        match self.next_report(piece) {
            Some(event) => Some(event),
            None => self.next_tick(),
        }
    }

    fn send(&mut self, number: usize, message: Vec<u8>) {
        let second = self.second;
        let Some(wire) = self.wire(number) else {
            return;
        };
        wire.sent_at = second;
        if let Err(error) = send_on(wire, message.as_slice()) {
            wire.failure = Some(error);
            self.is_short = self.lost.push(number).is_err() || self.is_short;
        }
    }

    fn close(&mut self, number: usize, outcome: Outcome<JobFault>, job: T)
        ensures { ⊤ }
    {
        let Some(seat) = self.seats.get_mut(number) else {
            return;
        };
        if let Seat::Running(wire) = mem::replace(seat, Seat::Free) {
            self.unrank(wire.rank);
            let kept = self.keep(number, Box::into_inner(wire), outcome, job);
            self.is_short = kept.is_err() || self.is_short;
        }
    }
}
