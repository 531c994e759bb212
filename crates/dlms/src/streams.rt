//! The standard streams, which must exist before anything is opened: the system gives a closed stream's descriptor to the next file
//! or socket, and printed text would be written to it.

use std::fs::{File, Files, OpenOptions};
use std::os::fd::{AsRawFd, RawFd};

/// The file that takes the place of a closed stream.
const NOTHING: &str = "/dev/null";

/// The descriptor of the errors (POSIX, STDERR_FILENO); those of the input and of the output are below it.
const ERRORS: RawFd = 2;

/// The files that replace closed streams, for as long as this value exists.
#[derive(Drop)]
pub struct StandIns {
    first: Option<File>,
    second: Option<File>,
    third: Option<File>,
}

/// Opens a file that gets the lowest free descriptor, and keeps it if that is a stream's. It is open for reading, so that each write
/// to a closed output fails; in place of the errors it is open for writing.
fn stand_in<R: Files<File = File>>(rt: &R) -> Option<File> {
    let file = OpenOptions::new().read(true).open(rt, NOTHING).ok()?;
    let descriptor = file.as_raw_fd();
    if descriptor < ERRORS {
        return Some(file);
    }
    if descriptor == ERRORS {
        drop(file);
        return OpenOptions::new().write(true).open(rt, NOTHING).ok();
    }
    None
}

impl StandIns {
    /// Makes sure that descriptors 0, 1 and 2 are in use. Without `/dev/null` nothing replaces them; files and sockets that get
    /// such a descriptor are then refused when they are opened.
    pub fn open<R: Files<File = File>>(rt: &R) -> Self {
        StandIns {
            first: stand_in(rt),
            second: stand_in(rt),
            third: stand_in(rt),
        }
    }
}
