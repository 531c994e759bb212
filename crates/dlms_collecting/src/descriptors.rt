//! The open files that the system allows.

ghost use Rattle.std.specs.Prelude.{◌<◌};

use libc::RLIMIT_NOFILE;
use libc::types::rlimit;

/// The files of a running poll: its connection, and the lock of its readings file.
const FILES_OF_A_POLL: u64 = 2;

/// The files that a collection has open besides: the standard streams, the event loop, and those that it opens for a moment.
const OTHER_FILES: u64 = 32;

/// The most files that this process may have open; `None` if the system does not say.
pub fn open_files() -> Option<u64> {
    let mut limit = rlimit {
        rlim_cur: 0,
        rlim_max: 0,
    };
    if libc::getrlimit(RLIMIT_NOFILE, &mut limit) == 0 {
        Some(limit.rlim_cur)
    } else {
        None
    }
}

/// How many polls may run at once if this many files may be open: at least one.
pub fn polls_within(files: u64) -> usize
    ensures { 0 < result }
{
    let polls = files.saturating_sub(OTHER_FILES) / FILES_OF_A_POLL;
    usize::try_from(polls.max(1)).unwrap_or(usize::MAX)
}
