//! Lines about a meter that serves, which never keep it waiting.

use crate::gauge::Gauge;
use mio::Interest;
use std::alloc::Allocator;
use std::io::Write;
use std::net::Net;
use std::os::fd::RawFd;

/// How many lines were dropped, and whether the next one would have to wait; or that none is wanted.
#[derive(Drop)]
pub struct Log<A: Allocator> {
    is_quiet: bool,
    gauge: Option<Gauge<A>>,
    dropped: u64,
}

impl<A: Allocator + Copy> Log<A> {
    /// Lines for a writer to this descriptor, if one is given.
    pub fn new<R: Net>(rt: &R, alloc: A, descriptor: Option<RawFd>) -> Self {
        let gauge = match descriptor {
            Some(descriptor) => Gauge::new(rt, alloc, descriptor, Interest::WRITABLE),
            None => None,
        };
        Log {
            is_quiet: false,
            gauge,
            dropped: 0,
        }
    }

    /// No line is written.
    pub fn quiet() -> Self {
        Log {
            is_quiet: true,
            gauge: None,
            dropped: 0,
        }
    }

    /// Whether the next line is to be written. A line that would have to wait is dropped: a pipe that is ready takes 4,096 bytes (pipe(7)),
    /// which is more than a line has. The number of dropped lines is reported
    /// before the next line that is not.
    pub fn takes_line<E: Write>(&mut self, errors: &mut E) -> bool {
        if self.is_quiet {
            return false;
        }
        let is_ready = match &mut self.gauge {
            Some(gauge) => gauge.is_ready(),
            None => true,
        };
        if !is_ready {
            self.dropped = self.dropped.saturating_add(1);
            return false;
        }
        if self.dropped > 0 {
            let dropped = self.dropped;
            let _said = writeln!(errors, "{dropped} lines dropped");
            self.dropped = 0;
        }
        true
    }
}
