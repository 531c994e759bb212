//! The system's clock, as a meter that serves a serial line watches it.

use crate::guesses::{Guesses, Origin, most_wait};
use crate::watch::{Peer, Watch};
use dlms_lines::Serial;
use std::alloc::Global;
use std::net::SocketAddr;
use std::time::{Clock, Duration, Instant};
use std::{io, thread};

/// The clock since the beginning, beside a line that has one other end: no connection comes.
#[derive(Drop)]
pub struct SerialWatch<'r, R: Clock> {
    rt: &'r R,
    start: Instant,
    guesses: Guesses,
}

impl<'r, R: Clock> SerialWatch<'r, R> {
    /// A clock that began then, beside a line over which nobody was refused.
    pub fn new(rt: &'r R, alloc: Global, start: Instant) -> Self {
        SerialWatch {
            rt,
            start,
            guesses: Guesses::none(alloc),
        }
    }

    /// The whole seconds that have passed, or the last second that there is if the clock fails.
    fn now(&self) -> u64 {
        match self.start.elapsed(self.rt) {
            Ok(elapsed) => elapsed.as_secs(),
            Err(_) => u64::MAX,
        }
    }
}

impl<R: Clock> Watch for SerialWatch<'_, R> {
    type Stream = Serial;

    fn seconds(&mut self) -> io::Result<u64> {
        Ok(self.start.elapsed(self.rt)?.as_secs())
    }

    fn another_waits(&mut self, _now: u64) -> bool {
        false
    }

    fn next(&mut self, _now: u64) -> io::Result<Option<Peer<Serial>>> {
        Ok(None)
    }

    fn prepare(&mut self, _stream: &mut Serial) -> io::Result<()> {
        Ok(())
    }

    fn bar(&mut self, _address: SocketAddr, _now: u64) {}

    fn trust(&mut self, now: u64) {
        let _kept = self.guesses.prove(Origin::Line, now);
    }

    /// As long as an address would wait after one more refusal.
    fn pause(&mut self) {
        let now = self.now();
        let most = most_wait(self.guesses.is_known(Origin::Line, now), false);
        let wait = self.guesses.wait_behind(Origin::Line, now).min(most);
        let _kept = self.guesses.refuse(Origin::Line, now);
        thread::sleep(self.rt, Duration::from_secs(u64::from(wait)));
    }
}
