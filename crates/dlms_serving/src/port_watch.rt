//! The system's clock and a TCP port of it, as a meter that serves watches them.

use crate::gauge::Gauge;
use crate::guesses::{Guesses, Origin};
use crate::queue::{MOST_WAITING, Place, giving_way, next_of, round_of};
use crate::watch::{Peer, Watch};
use std::alloc::Global;
use std::io::{ErrorKind, Read, Write};
use std::net::{OpenListener, OpenStream, SocketAddr};
use std::time::{Clock, Duration, Instant};
use std::{io, thread};

/// For how many seconds a read or a write of a connection waits.
const WAKE_SECONDS: u64 = 1;

/// The milliseconds of a pause if the system does not report connections.
const PAUSE_MILLISECONDS: u64 = 10;

/// The milliseconds of a second.
const SECOND: u64 = 1_000;

/// So many connections are taken from the system at once.
const MOST_TAKEN: usize = 1_024;

/// A port, the clock since the beginning, and the connections that wait. `peers` and `places` have one entry for each of these.
#[derive(Drop)]
pub struct PortWatch<'r, R: Clock, L: OpenListener> {
    rt: &'r R,
    start: Instant,
    listener: L,
    /// Reports a connection, if the system does.
    gauge: Option<Gauge<Global>>,
    peers: Vec<Peer<L::Stream>>,
    places: Vec<Place>,
    guesses: Guesses,
    /// The latest round that was served.
    round: u64,
    /// Whether addresses that have proved a secret go before the others at the next turn.
    prefers_known: bool,
    /// The address whose turn it is.
    served: Option<Origin>,
}

impl<'r, R: Clock, L: OpenListener> PortWatch<'r, R, L> {
    /// Nobody waits, and nobody was refused.
    #[inline(never)]
    pub fn new(
        rt: &'r R,
        alloc: Global,
        start: Instant,
        listener: L,
        gauge: Option<Gauge<Global>>,
    ) -> Self {
        PortWatch {
            rt,
            start,
            listener,
            gauge,
            peers: Vec::new(alloc),
            places: Vec::new(alloc),
            guesses: Guesses::none(alloc),
            round: 0,
            prefers_known: true,
            served: None,
        }
    }

    /// How long the clock's second lasts; no time if the clock fails.
    fn left_of_second(&self) -> Duration {
        match self.start.elapsed(self.rt) {
            Ok(passed) => {
                let passed = u64::from(passed.subsec_millis());
                Duration::from_millis(SECOND.saturating_sub(passed))
            }
            Err(_) => Duration::ZERO,
        }
    }

    /// Takes one of those that wait out of the queue.
    fn leave(&mut self, index: usize) -> Option<(Peer<L::Stream>, Place)> {
        if index >= self.peers.len() || index >= self.places.len() {
            return None;
        }
        let place = self.places.remove(index);
        Some((self.peers.remove(index), place))
    }

    /// Whether there is room for a connection from there, where need be because another one gives way.
    fn makes_room(&mut self, origin: Origin, round: u64, now: u64) -> bool {
        if self.places.len() < MOST_WAITING {
            return true;
        }
        match giving_way(self.places.as_slice(), origin, round, &self.guesses, now) {
            Some(index) => self.leave(index).is_some(),
            None => false,
        }
    }

    /// A connection waits from now on, or is closed if there is no room or no memory for it.
    fn admit(&mut self, peer: Peer<L::Stream>, now: u64) {
        let origin = Origin::of(peer.address.ip());
        let round = round_of(self.places.as_slice(), origin, self.round);
        if !self.makes_room(origin, round, now) {
            return;
        }
        let place = Place {
            origin,
            since: now,
            round,
        };
        if self.places.push(place).is_err() {
            return;
        }
        if self.peers.push(peer).is_err() {
            let _place = self.places.pop();
        }
    }

    /// Takes all connections that have come. The error is why there is no further one.
    fn admit_all(&mut self, now: u64) -> io::Error {
        for _taken in 0..MOST_TAKEN {
            match self.listener.accept() {
                Ok((stream, address)) => self.admit(Peer { stream, address }, now),
                Err(error) => return error,
            }
        }
        ErrorKind::WouldBlock.into()
    }

    /// Which connection is served next. Those of addresses that have proved a secret go before the others, unless such a one was served
    /// last.
    fn choose(&self, now: u64) -> Option<usize> {
        let known = next_of(
            self.places.as_slice(),
            &self.guesses,
            self.prefers_known,
            now,
        );
        if known.is_some() {
            return known;
        }
        next_of(self.places.as_slice(), &self.guesses, false, now)
    }
}

impl<R: Clock, L: OpenListener> Watch for PortWatch<'_, R, L>
where
    L::Stream: Read + Write + OpenStream,
{
    type Stream = L::Stream;

    fn seconds(&mut self) -> io::Result<u64> {
        Ok(self.start.elapsed(self.rt)?.as_secs())
    }

    fn another_waits(&mut self, now: u64) -> bool {
        let _error = self.admit_all(now);
        self.choose(now).is_some()
    }

    fn next(&mut self, now: u64) -> io::Result<Option<Peer<L::Stream>>> {
        let error = self.admit_all(now);
        let Some(index) = self.choose(now) else {
            return Err(error);
        };
        match self.leave(index) {
            Some((peer, place)) => {
                self.round = self.round.max(place.round);
                self.prefers_known = !self.guesses.is_known(place.origin, now);
                self.served = Some(place.origin);
                Ok(Some(peer))
            }
            None => Err(error),
        }
    }

    /// Bytes go out at once, and no call waits for more than a second.
    fn prepare(&mut self, stream: &mut L::Stream) -> io::Result<()> {
        stream.set_read_timeout(Some(Duration::from_secs(WAKE_SECONDS)))?;
        stream.set_write_timeout(Some(Duration::from_secs(WAKE_SECONDS)))?;
        stream.set_nodelay(true)
    }

    fn bar(&mut self, address: SocketAddr, now: u64) {
        let _kept = self.guesses.refuse(Origin::of(address.ip()), now);
    }

    fn trust(&mut self, now: u64) {
        if let Some(origin) = self.served {
            let _kept = self.guesses.prove(origin, now);
        }
    }

    /// Waits for a connection, at most until the clock's next second: then the meter learns of it, and an address that had to wait may have
    /// its turn.
    fn pause(&mut self) {
        let left = self.left_of_second();
        let waited = match &mut self.gauge {
            Some(gauge) => gauge.wait(left).is_ok(),
            None => false,
        };
        if !waited {
            thread::sleep(self.rt, Duration::from_millis(PAUSE_MILLISECONDS));
        }
    }
}
