//! Whether a descriptor is ready, as the system reports it.

use mio::unix::SourceFd;
use mio::{Events, Interest, Poll, Token};
use std::alloc::Allocator;
use std::io;
use std::net::Net;
use std::os::fd::RawFd;
use std::time::Duration;

/// The one descriptor that is asked about.
const ASKED: Token = Token(0);

/// Whether a descriptor is ready.
#[derive(Drop)]
pub struct Gauge<A: Allocator> {
    poll: Poll,
    events: Events<A>,
    descriptor: RawFd,
    interest: Interest,
}

impl<A: Allocator + Copy> Gauge<A> {
    /// `None` if the system has no message about the descriptor, as for a file, which is always ready.
    pub fn new<R: Net>(rt: &R, alloc: A, descriptor: RawFd, interest: Interest) -> Option<Self> {
        let poll = Poll::new(rt).ok()?;
        let events = Events::with_capacity(alloc, 1).ok()?;
        let mut source = SourceFd(&descriptor);
        poll.registry().register(&mut source, ASKED, interest).ok()?;
        Some(Gauge {
            poll,
            events,
            descriptor,
            interest,
        })
    }

    /// Asks without waiting. If the system has no answer, the descriptor counts as ready.
    pub fn is_ready(&mut self) -> bool {
        let mut source = SourceFd(&self.descriptor);
        let asked = self
            .poll
            .registry()
            .reregister(&mut source, ASKED, self.interest);
        if asked.is_err() {
            return true;
        }
        match self.poll.poll(&mut self.events, Some(Duration::ZERO)) {
            Ok(()) => !self.events.is_empty(),
            Err(_) => true,
        }
    }

    /// Waits until the descriptor becomes ready again, at most for this long. One that is ready, and was not used since, is not reported
    /// again.
    pub fn wait(&mut self, longest: Duration) -> io::Result<()> {
        self.poll.poll(&mut self.events, Some(longest))
    }
}
