//! A serial line of the system.

use dlms_pages::LockFile;
use mio::unix::SourceFd;
use mio::{Events, Interest, Poll, Token};
use std::alloc::Global;
use std::fs::{File, Files, OpenOptions};
use std::io;
use std::io::{ErrorKind, IsTerminal, Read, Write};
use std::net::Net;
use std::os::fd::AsRawFd;
use std::time::Duration;

/// The one descriptor that is asked about.
const LINE: Token = Token(0);

/// Whether a place is the device of a serial line: a path from the root on.
pub fn is_device(place: &str) -> bool {
    place.starts_with('/')
}

/// A serial line with the speed and the parity of its settings (stty(1)), which are raw. A read or a write waits so long and no
/// longer until something has come or is taken, whatever they say of that.
#[derive(Drop)]
pub struct Serial {
    file: File,
    poll: Poll,
    events: Events<Global>,
    wait: Duration,
}

impl Serial {
    /// The line of a device. What is no terminal, or is in use by another program, is refused, and nothing is written.
    pub fn open<R: Net + Files<File = File> + AllocGlobal>(
        rt: &R,
        device: &str,
    ) -> io::Result<Self> {
        let file = OpenOptions::new().read(true).write(true).open(rt, device)?;
        if !file.is_terminal() {
            return Err(io::Error::other("no serial line"));
        }
        file.lock_alone()?;
        let poll = Poll::new(rt)?;
        let descriptor = file.as_raw_fd();
        let mut source = SourceFd(&descriptor);
        poll.registry()
            .register(&mut source, LINE, Interest::READABLE)?;
        Ok(Serial {
            file,
            poll,
            events: Events::with_capacity(rt.alloc(), 1)?,
            wait: Duration::ZERO,
        })
    }

    /// A read or a write waits so long from now on.
    pub fn waits(&mut self, wait: Duration) {
        self.wait = wait;
    }

    /// Whether the line is ready before the time is up.
    fn is_ready(&mut self, interest: Interest) -> io::Result<bool> {
        let descriptor = self.file.as_raw_fd();
        let mut source = SourceFd(&descriptor);
        self.poll
            .registry()
            .reregister(&mut source, LINE, interest)?;
        self.poll.poll(&mut self.events, Some(self.wait))?;
        Ok(!self.events.is_empty())
    }
}

impl Read for Serial {
    /// A line that is ready and has nothing is gone (termios(3), hangup).
    fn read(&mut self, buf: &mut [u8]) -> io::Result<usize> {
        if !self.is_ready(Interest::READABLE)? {
            return Err(ErrorKind::TimedOut.into());
        }
        match self.file.read(buf) {
            Ok(0) => Err(io::Error::other("the device is gone")),
            came => came,
        }
    }
}

impl Write for Serial {
    fn write(&mut self, buf: &[u8]) -> io::Result<usize> {
        if !self.is_ready(Interest::WRITABLE)? {
            return Err(ErrorKind::TimedOut.into());
        }
        self.file.write(buf)
    }

    fn flush(&mut self) -> io::Result<()> {
        self.file.flush()
    }
}
