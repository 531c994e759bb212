//! The lock of a file, which keeps a second program out.
use crate::descriptor::refuse_standard;
use std::fs::{File, TryLockError};
use std::io;
use std::io::ErrorKind;
use std::os::fd::AsRawFd;

/// A file that one opening at a time can have for itself.
pub trait LockFile {
    /// Takes the file's exclusive advisory lock without waiting: if another opening holds it, of this program or of another, the
    /// error's kind is `WouldBlock`, and its text says that the file is in use. The lock is held until the file is closed, also if
    /// the program is killed. A file that got the descriptor of a closed standard stream is refused, because printed text would be
    /// written to it.
    fn lock_alone(&self) -> io::Result<()>;
}

impl LockFile for File {
    fn lock_alone(&self) -> io::Result<()> {
        refuse_standard(self.as_raw_fd())?;
        match self.try_lock() {
            Ok(()) => Ok(()),
            Err(TryLockError::WouldBlock) => Err(io::Error::new(
                ErrorKind::WouldBlock,
                "in use by another program",
            )),
            Err(TryLockError::Error(e)) => Err(e),
        }
    }
}
