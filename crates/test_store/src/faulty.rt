//! Real files of which so many reads, writes and syncs fail, from the beginning or from the first sync on.

use dlms_pages::LockFile;
use std::alloc::{Allocator, Global};
use std::cell::Cell;
use std::fs::{File, Metadata, OpenFile, OpenOptions};
use std::io;
use std::io::{ErrorKind, Read, Seek, SeekFrom, Write};
use std::rt::Files;

/// From when on calls fail.
#[derive(Clone, Copy, PartialEq, Eq)]
pub enum Since {
    /// From the file's first call on.
    Opening,
    /// Behind the file's first sync, with which its opening as pages ends.
    FirstSync,
}

/// The system's files, where some of the calls of each fail.
#[derive(Drop)]
pub struct FaultyFiles<'r> {
    pub rt: &'r HostRuntime,
    pub since: Since,
    pub reads: u32,
    pub writes: u32,
    pub syncs: u32,
}

/// A real file of which so many reads, writes and syncs fail.
#[derive(Drop)]
pub struct Faulty {
    file: File,
    since: Cell<Since>,
    reads: u32,
    writes: u32,
    syncs: Cell<u32>,
}

impl Faulty {
    /// Whether calls may fail yet.
    fn is_due(&self) -> bool {
        self.since.get() == Since::Opening
    }
}

/// The error of a call that is set to fail.
fn refused() -> io::Error {
    io::Error::from(ErrorKind::Other)
}

impl Read for Faulty {
    fn read(&mut self, buf: &mut [u8]) -> io::Result<usize> {
        if self.is_due() && 0 < self.reads {
            self.reads -= 1;
            return Err(refused());
        }
        self.file.read(buf)
    }
}

impl Write for Faulty {
    // Half of the bytes, and then the fault.
    fn write(&mut self, buf: &[u8]) -> io::Result<usize> {
        let is_due = self.is_due() && 0 < self.writes;
        if is_due && buf.len() < 544 {
            self.writes -= 1;
            return Err(refused());
        }
        let end = if is_due { buf.len() / 2 } else { buf.len() };
        self.file.write(&buf[..end])
    }

    fn flush(&mut self) -> io::Result<()> {
        self.file.flush()
    }
}

impl Seek for Faulty {
    fn seek(&mut self, to: SeekFrom) -> io::Result<u64> {
        self.file.seek(to)
    }
}

impl OpenFile for Faulty {
    fn metadata(&self) -> io::Result<Metadata> {
        self.file.metadata()
    }

    fn set_len(&self, size: u64) -> io::Result<()> {
        self.file.set_len(size)
    }

    fn sync_all(&self) -> io::Result<()> {
        if !self.is_due() {
            self.since.set(Since::Opening);
            return self.file.sync_all();
        }
        let left = self.syncs.get();
        if 0 < left {
            self.syncs.set(left - 1);
            return Err(refused());
        }
        self.file.sync_all()
    }

    fn sync_data(&self) -> io::Result<()> {
        self.file.sync_data()
    }
}

impl LockFile for Faulty {
    fn lock_alone(&self) -> io::Result<()> {
        self.file.lock_alone()
    }
}

impl Alloc for FaultyFiles<'_> {
    type A = Global;

    fn alloc(&self) -> Global {
        self.rt.alloc()
    }
}

// Pages in a file open it, and ask nothing else of the folders.
impl Files for FaultyFiles<'_> {
    type File = Faulty;

    type Dir = <HostRuntime as Files>::Dir;

    fn open_file(&self, how: &OpenOptions, path: &str) -> io::Result<Faulty> {
        Ok(Faulty {
            file: self.rt.open_file(how, path)?,
            since: Cell::new(self.since),
            reads: self.reads,
            writes: self.writes,
            syncs: Cell::new(self.syncs),
        })
    }

    fn open_dir(&self, path: &str) -> io::Result<<HostRuntime as Files>::Dir> {
        self.rt.open_dir(path)
    }

    fn metadata(&self, path: &str) -> io::Result<Metadata> {
        Files::metadata(self.rt, path)
    }

    fn symlink_metadata(&self, path: &str) -> io::Result<Metadata> {
        self.rt.symlink_metadata(path)
    }

    fn copy(&self, from: &str, to: &str) -> io::Result<u64> {
        self.rt.copy(from, to)
    }

    fn rename(&self, from: &str, to: &str) -> io::Result<()> {
        self.rt.rename(from, to)
    }

    fn remove_file(&self, path: &str) -> io::Result<()> {
        self.rt.remove_file(path)
    }

    fn create_dir(&self, path: &str) -> io::Result<()> {
        self.rt.create_dir(path)
    }

    fn remove_dir(&self, path: &str) -> io::Result<()> {
        self.rt.remove_dir(path)
    }

    fn remove_dir_all<B: Allocator>(&self, alloc: B, path: &str) -> io::Result<()> {
        self.rt.remove_dir_all(alloc, path)
    }
}
