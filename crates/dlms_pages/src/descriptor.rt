//! Descriptors of files and sockets, kept apart from those of the standard streams.
ghost use Rattle.std.specs.Prelude.{◌↔◌, ◌<ℤ◌, IsErr};
ghost use Rattle.dlms_pages.specs.declared.descriptor.TheConstants.{FIRST_OWN};

use std::io;
use std::os::fd::RawFd;

/// The first descriptor that is not a standard stream: 0, 1 and 2 are input, output and errors (POSIX.1).
const FIRST_OWN: RawFd = 3;

/// Refuses the descriptor of a standard stream. A program that is started with a closed stream gets that stream's descriptor
/// for the next file or socket that it opens, and whatever it prints then goes there.
pub fn refuse_standard(descriptor: RawFd) -> io::Result<()>
    ensures { IsErr result ↔ (descriptor <ℤ FIRST_OWN) }
{
    if descriptor < FIRST_OWN {
        return Err(io::Error::other("a standard stream is closed"));
    }
    Ok(())
}
