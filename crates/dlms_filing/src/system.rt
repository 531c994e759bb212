//! The single calls of the system that a readings file is made of.

ghost use Rattle.std.specs.Prelude.{List, Option, None, [], ◌∷◌, string_bytes};
ghost use Rattle.dlms_filing.specs.Disk.{Called, found_in};
ghost use Rattle.dlms_filing.specs.Filing.{error_in};
ghost use Rattle.dlms_filing.specs.System.{SystemCall};
ghost use Rattle.dlms_filing.specs.System.SystemCall.{Checks, Creates, Draws, GivesGroup, GivesOwner, Locks, Looks, LooksAtName, Opens, Permits, Reads, Removes, Renames, Resolves, Syncs, SyncsFolder};

use dlms_pages::{LockFile, refuse_standard, sync_folder};
use std::alloc::Global;
use std::fs::{File, Files, Metadata, OpenOptions, Permissions};
use std::io::{ErrorKind, Read, Write};
use std::os::fd::{AsFd, AsRawFd};
use std::os::unix::fs::{MetadataExt, OpenOptionsExt, PermissionsExt, fchown};
use std::{fs, io};

/// The status of a path: whether it is a plain file, its owner and group, and its permissions.
#[derive(Clone, Copy, PartialEq, Eq)]
pub struct Status {
    pub is_plain: bool,
    pub owner: u32,
    pub group: u32,
    pub permissions: u32,
}

/// The calls of the system. Each asks it for one thing, and returns what it answers.
pub trait System {
    /// An open file. It is closed when it is dropped.
    type File: Write + Drop;

    /// The calls, in order, each with its outcome, if these are known. For the system itself they are not; a theorem about code
    /// that takes any system also holds for systems whose calls are known.
    ghost made: { Self → Option (List (SystemCall Self.File)) } = { λ _. None };

    /// The memory of names and texts.
    fn alloc(&self) -> Global;

    /// The path at the end of the links of a name: realpath(3).
    fn real_path(&mut self, name: &str) -> io::Result<String>
        ensures { Called (made self.old) (made self.new)
            (Resolves name.now (found_in result string_bytes) ∷ []) };

    /// The status of a path: stat(2).
    fn status(&mut self, path: &str) -> io::Result<Status>
        ensures { Called (made self.old) (made self.new) (Looks path.now result ∷ []) };

    /// The status of a name itself, which may be a link: lstat(2).
    fn name_status(&mut self, name: &str) -> io::Result<Status>
        ensures { Called (made self.old) (made self.new) (LooksAtName name.now result ∷ []) };

    /// Makes a file that is not there, to be written, with these permissions: open(2) with `O_WRONLY`, `O_CREAT` and `O_EXCL`, which
    /// follows no link.
    fn create_new(&mut self, path: &str, permissions: u32) -> io::Result<Self::File>
        ensures { Called (made self.old) (made self.new)
            (Creates path.now permissions result ∷ []) };

    /// Opens a file that is there, to be written: open(2) with `O_WRONLY`.
    fn open(&mut self, path: &str) -> io::Result<Self::File>
        ensures { Called (made self.old) (made self.new) (Opens path.now result ∷ []) };

    /// Refuses a file that was given the descriptor of a closed standard stream.
    fn check(&mut self, file: &Self::File) -> io::Result<()>
        ensures { Called (made self.old) (made self.new) (Checks file.now (error_in result) ∷ []) };

    /// Takes the lock of a file, and does not wait for it: flock(2). A file without a name is refused: whoever held its lock removed
    /// it, and another file may have its name now.
    fn lock(&mut self, file: &Self::File) -> io::Result<()>
        ensures { Called (made self.old) (made self.new) (Locks file.now (error_in result) ∷ []) };

    /// The text of a file. One that is no UTF-8 is an error.
    fn text(&mut self, path: &str) -> io::Result<String>
        ensures { Called (made self.old) (made self.new)
            (Reads path.now (found_in result string_bytes) ∷ []) };

    /// A number that nobody can predict, if the system gives random octets.
    fn number(&mut self) -> u64
        ensures { Called (made self.old) (made self.new) (Draws result ∷ []) };

    /// Gives a file a group: fchown(2).
    fn give_group(&mut self, file: &Self::File, group: u32) -> io::Result<()>
        ensures { Called (made self.old) (made self.new)
            (GivesGroup file.now group (error_in result) ∷ []) };

    /// Gives a file an owner: fchown(2).
    fn give_owner(&mut self, file: &Self::File, owner: u32) -> io::Result<()>
        ensures { Called (made self.old) (made self.new)
            (GivesOwner file.now owner (error_in result) ∷ []) };

    /// Gives a file permissions: fchmod(2).
    fn permit(&mut self, file: &Self::File, permissions: u32) -> io::Result<()>
        ensures { Called (made self.old) (made self.new)
            (Permits file.now permissions (error_in result) ∷ []) };

    /// Makes what was written to a file outlast a stop: fsync(2).
    fn sync(&mut self, file: &Self::File) -> io::Result<()>
        ensures { Called (made self.old) (made self.new) (Syncs file.now (error_in result) ∷ []) };

    /// Gives a file another path: rename(2).
    fn rename(&mut self, from: &str, to: &str) -> io::Result<()>
        ensures { Called (made self.old) (made self.new)
            (Renames from.now to.now (error_in result) ∷ []) };

    /// Makes the names in the folder of a path outlast a stop: fsync(2) of the folder.
    fn sync_folder(&mut self, path: &str) -> io::Result<()>
        ensures { Called (made self.old) (made self.new)
            (SyncsFolder path.now (error_in result) ∷ []) };

    /// Removes a file: unlink(2).
    fn remove(&mut self, path: &str) -> io::Result<()>
        ensures { Called (made self.old) (made self.new)
            (Removes path.now (error_in result) ∷ []) };
}

/// The system itself.
#[derive(Drop)]
pub struct HostSystem<'r, R> {
    rt: &'r R,
}

impl<'r, R> HostSystem<'r, R> {
    pub fn new(rt: &'r R) -> Self {
        HostSystem { rt }
    }
}

/// Where the system gives random octets.
const RANDOM: &str = "/dev/urandom";

/// A number of random octets, or 0 if the system gives none.
fn number<R: Files>(rt: &R) -> u64 {
    let mut octets = [0u8; 8];
    if let Ok(mut random) = fs::open(rt, RANDOM) {
        let _filled = random.read_exact(&mut octets);
    }
    u64::from_be_bytes(octets)
}

/// The status of a file that the system reports.
fn status_of(metadata: &Metadata) -> Status {
    Status {
        is_plain: metadata.is_file(),
        owner: metadata.uid(),
        group: metadata.gid(),
        permissions: metadata.permissions().mode(),
    }
}

impl<R: Files<File = File> + AllocGlobal> System for HostSystem<'_, R> {
    type File = File;

    fn alloc(&self) -> Global {
        self.rt.alloc()
    }

    fn real_path(&mut self, name: &str) -> io::Result<String> {
        Ok(fs::canonicalize(self.rt, name)?.into_string())
    }

    fn status(&mut self, path: &str) -> io::Result<Status> {
        Ok(status_of(&fs::metadata(self.rt, path)?))
    }

    fn name_status(&mut self, name: &str) -> io::Result<Status> {
        Ok(status_of(&fs::symlink_metadata(self.rt, name)?))
    }

    fn create_new(&mut self, path: &str, permissions: u32) -> io::Result<File> {
        OpenOptions::new()
            .write(true)
            .create_new(true)
            .mode(permissions)
            .open(self.rt, path)
    }

    fn open(&mut self, path: &str) -> io::Result<File> {
        OpenOptions::new().write(true).open(self.rt, path)
    }

    fn check(&mut self, file: &File) -> io::Result<()> {
        refuse_standard(file.as_raw_fd())
    }

    fn lock(&mut self, file: &File) -> io::Result<()> {
        file.lock_alone()?;
        if file.metadata()?.nlink() == 0 {
            return Err(io::Error::new(ErrorKind::WouldBlock, "in use by another program"));
        }
        Ok(())
    }

    fn text(&mut self, path: &str) -> io::Result<String> {
        fs::read_to_string(self.rt, path)
    }

    fn number(&mut self) -> u64 {
        number(self.rt)
    }

    fn give_group(&mut self, file: &File, group: u32) -> io::Result<()> {
        fchown(file.as_fd(), None, Some(group))
    }

    fn give_owner(&mut self, file: &File, owner: u32) -> io::Result<()> {
        fchown(file.as_fd(), Some(owner), None)
    }

    fn permit(&mut self, file: &File, permissions: u32) -> io::Result<()> {
        file.set_permissions(Permissions::from_mode(permissions))
    }

    fn sync(&mut self, file: &File) -> io::Result<()> {
        file.sync_all()
    }

    fn rename(&mut self, from: &str, to: &str) -> io::Result<()> {
        fs::rename(self.rt, from, to)
    }

    fn sync_folder(&mut self, path: &str) -> io::Result<()> {
        sync_folder(self.rt, path)
    }

    fn remove(&mut self, path: &str) -> io::Result<()> {
        fs::remove_file(self.rt, path)
    }
}
