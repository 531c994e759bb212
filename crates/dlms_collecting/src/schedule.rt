//! Which meter is polled next, and at which of its addresses.

use std::alloc::{AllocError, Global};
use std::net::SocketAddr;

/// The addresses of a meter that were not tried yet, and how often it was tried again.
#[derive(Clone, Copy)]
struct Attempts {
    next: usize,
    end: usize,
    retries: u32,
}

/// The meters that wait for a poll, in order, and their addresses.
#[derive(Drop)]
pub struct Schedule {
    addresses: Vec<SocketAddr>,
    attempts: Vec<Attempts>,
    /// The numbers of the meters in the order of their polls.
    queue: Vec<usize>,
    /// How many of these were taken.
    taken: usize,
}

impl Schedule {
    /// Without a meter.
    pub fn new(alloc: Global) -> Self {
        Schedule {
            addresses: Vec::new(alloc),
            attempts: Vec::new(alloc),
            queue: Vec::new(alloc),
            taken: 0,
        }
    }

    /// Appends an address of the meter that is added next.
    pub fn add_address(&mut self, address: SocketAddr) -> Result<(), AllocError> {
        self.addresses.push(address)?;
        Ok(())
    }

    /// Adds the next meter, with the addresses that were appended for it. One without an address is not polled. Returns whether it has
    /// one.
    pub fn add_meter(&mut self) -> Result<bool, AllocError> {
        let first = match self.attempts.last() {
            Some(attempts) => attempts.end,
            None => 0,
        };
        let end = self.addresses.len();
        let number = self.attempts.len();
        self.attempts.push(Attempts {
            next: first,
            end,
            retries: 0,
        })?;
        if first < end {
            self.queue.push(number)?;
        }
        Ok(first < end)
    }

    /// How many meters wait.
    pub fn waiting(&self) -> usize {
        self.queue.len().saturating_sub(self.taken)
    }

    /// Takes the next meter: its number, and the address to connect to.
    pub fn take(&mut self) -> Option<(usize, SocketAddr)> {
        let number = self.queue.get(self.taken).copied()?;
        self.taken = self.taken.saturating_add(1);
        let attempts = self.attempts.get(number)?;
        let address = self.addresses.get(attempts.next).copied()?;
        Some((number, address))
    }

    /// Has the meter of this number wait again, for its next address. Returns whether it has one.
    pub fn try_next_address(&mut self, number: usize) -> Result<bool, AllocError> {
        let Some(attempts) = self.attempts.get_mut(number) else {
            return Ok(false);
        };
        let next = attempts.next.saturating_add(1);
        if next >= attempts.end {
            return Ok(false);
        }
        attempts.next = next;
        self.queue.push(number)?;
        Ok(true)
    }

    /// Has the meter of this number wait for what comes next, at the same address.
    pub fn go_on(&mut self, number: usize) -> Result<(), AllocError> {
        self.queue.push(number)?;
        Ok(())
    }

    /// Has the meter of this number wait again, unless it was tried again this many times. Returns whether it does.
    pub fn try_again(&mut self, number: usize, most: u32) -> Result<bool, AllocError> {
        let Some(attempts) = self.attempts.get_mut(number) else {
            return Ok(false);
        };
        if attempts.retries >= most {
            return Ok(false);
        }
        attempts.retries = attempts.retries.saturating_add(1);
        self.queue.push(number)?;
        Ok(true)
    }
}
