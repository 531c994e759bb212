//! The files of a machine, over the calls of its system.

ghost use Rattle.std.specs.Prelude.{◌≡◌, IfOk, [], ◌∷◌, string_bytes};
ghost use Rattle.std.specs.IoError.{error_kind};
ghost use Rattle.dlms_filing.specs.Disk.{Called, found_in, read_in};
ghost use Rattle.dlms_filing.specs.Filing.{error_in};
ghost use Rattle.dlms_filing.specs.HostDisk.{CreatesBeside, Dresses, FindsFile, FindsFolder, FindsNothing, FindsPlain, HoldsLock, IsThere, KeepsLock, MakesBeside, MakesFile, MakesLike, MakesNew, MakesOne, OpensFile, OpensLock, ReadsText, SyncsCreated, TakesAfter, TakesAway, WritesText, hexadecimal, path_beside, permissions_beside};
ghost use Rattle.dlms_filing.specs.System.SystemCall.{Renames, SyncsFolder};

use crate::disk::Disk;
use crate::system::{HostSystem, Status, System};
use dlms_ends::put;
use std::alloc::{AllocError, Global};
use std::fs::File;
use std::io;
use std::io::ErrorKind;

/// The permissions of a lock, and of a new text that takes the place of an old one: its owner alone has it. Who may open a
/// lock may keep others out.
pub const OWNER_ALONE: u32 = 0o600;

/// The permissions of a new text if there was none, less those that the system's mask removes.
pub const EVERYONE: u32 = 0o666;

/// How many names are tried for a new text.
pub const NAMES: u64 = 16;

/// The fault of a name that is no plain file's.
fn no_plain_file() -> io::Error
    ensures { error_kind result ≡ ErrorKind.InvalidInput }
{
    io::Error::new(ErrorKind::InvalidInput, "no plain file")
}

/// The path of a plain file.
fn plain<S: System>(system: &mut S, path: String) -> io::Result<String>
    ensures { FindsPlain (S.made system.old) (S.made system.new) (string_bytes path)
        (found_in result string_bytes) }
{
    if system.status(path.as_str())?.is_plain {
        Ok(path)
    } else {
        Err(no_plain_file())
    }
}

/// The path of a name without a file, if its folder exists.
fn in_folder<S: System>(system: &mut S, name: &str) -> io::Result<String>
    ensures { FindsFolder (S.made system.old)
        (S.made system.new) name.now (found_in result string_bytes) }
{
    system.sync_folder(name)?;
    Ok(String::from_str(system.alloc(), name)?)
}

/// The path of a name that leads to no file: the name itself, if its folder exists. A link that leads nowhere is a fault.
fn absent<S: System>(system: &mut S, name: &str, missing: io::Error) -> io::Result<String>
    ensures { FindsNothing (S.made system.old)
        (S.made system.new) name.now missing (found_in result string_bytes) }
{
    match system.name_status(name) {
        Ok(_link) => Err(missing),
        Err(_) => in_folder(system, name),
    }
}

/// The path of the file at the end of the links that begin at this name.
fn end_of<S: System>(system: &mut S, name: &str) -> io::Result<String>
    ensures { FindsFile (S.made system.old)
        (S.made system.new) name.now (found_in result string_bytes) }
{
    match system.real_path(name) {
        Ok(path) => plain(system, path),
        Err(e) if e.kind() == ErrorKind::NotFound => absent(system, name, e),
        Err(e) => Err(e),
    }
}

/// Makes a file that was not there, of these permissions. No link is followed. A file that gets the descriptor of a closed standard
/// stream is refused, since what the program prints would be written into it.
fn create_file<S: System>(system: &mut S, path: &str, permissions: u32) -> io::Result<S::File>
    ensures { MakesFile (S.made system.old) (S.made system.new) path.now permissions result }
{
    let file = system.create_new(path, permissions)?;
    system.check(&file)?;
    Ok(file)
}

/// The file of a lock that is there. A link is refused.
fn open_lock<S: System>(system: &mut S, path: &str) -> io::Result<S::File>
    ensures { OpensFile (S.made system.old) (S.made system.new) path.now result }
{
    if system.name_status(path)?.is_plain {
        system.open(path)
    } else {
        Err(no_plain_file())
    }
}

/// The file of a lock, created if it does not exist. No link is followed.
fn lock_file<S: System>(system: &mut S, path: &str) -> io::Result<S::File>
    ensures { OpensLock (S.made system.old) (S.made system.new) path.now result }
{
    match create_file(system, path, OWNER_ALONE) {
        Ok(file) => Ok(file),
        Err(e) if e.kind() == ErrorKind::AlreadyExists => open_lock(system, path),
        Err(e) => Err(e),
    }
}

/// The lock beside a file, held.
fn lock_beside<S: System>(system: &mut S, path: &str) -> io::Result<S::File>
    ensures { HoldsLock (S.made system.old) (S.made system.new) path.now result }
{
    let beside = format!(in system.alloc(); "{path}.lock")?;
    let lock = lock_file(system, beside.as_str())?;
    system.lock(&lock)?;
    Ok(lock)
}

/// The text of a file that was read, or `None` if it does not exist. Any other error is passed on.
fn if_there(read: io::Result<String>) -> io::Result<Option<String>>
    ensures { IsThere read string_bytes (read_in result string_bytes) }
{
    match read {
        Ok(text) => Ok(Some(text)),
        Err(e) if e.kind() == ErrorKind::NotFound => Ok(None),
        Err(e) => Err(e),
    }
}

/// The text of the file, if it is there.
fn text_of<S: System>(system: &mut S, path: &str) -> io::Result<Option<String>>
    ensures { ReadsText (S.made system.old)
        (S.made system.new) path.now (read_in result string_bytes) }
{
    if_there(system.text(path))
}

/// A file that was made beside another, and its path.
#[derive(Drop)]
struct Beside<F> {
    name: String,
    file: F,
}

/// A number in 16 hexadecimal digits.
fn hexadecimal(alloc: Global, number: u64) -> Result<String, AllocError>
    ensures { IfOk result (λ digits. string_bytes digits ≡ hexadecimal number) }
{
    format!(in alloc; "{number:016x}")
}

/// The path of a file beside another, which has this number.
fn name_beside(alloc: Global, path: &str, number: u64) -> Result<String, AllocError>
    ensures { IfOk result (λ name. string_bytes name ≡ path_beside path.now number) }
{
    let digits = hexadecimal(alloc, number)?;
    format!(in alloc; "{path}.{digits}.new")
}

/// Makes a file beside this one, with this number in its name.
fn made_one<S: System>(
    system: &mut S,
    path: &str,
    permissions: u32,
    number: u64,
) -> io::Result<Beside<S::File>>
    ensures { MakesOne (S.made system.old) (S.made system.new) path.now permissions number result }
{
    let name = name_beside(system.alloc(), path, number)?;
    let file = create_file(system, name.as_str(), permissions)?;
    Ok(Beside { name, file })
}

/// Makes a file beside this one that was not there, with this number in its name, or one of those that follow it.
fn made_beside<S: System>(
    system: &mut S,
    path: &str,
    permissions: u32,
    first: u64,
) -> io::Result<Beside<S::File>>
    ensures { MakesBeside (S.made system.old)
        (S.made system.new) path.now permissions first result }
{
    let mut taken = io::Error::from(ErrorKind::AlreadyExists);
    'names: for further in 0..NAMES {
        match made_one(system, path, permissions, first.wrapping_add(further)) {
            Ok(made) => return Ok(made),
            Err(e) if e.kind() == ErrorKind::AlreadyExists => taken = e,
            Err(e) => return Err(e),
        }
    }
    Err(taken)
}

/// Gives a file the group and the owner of an old one, if the system allows it, and its permissions.
fn take_after<S: System>(system: &mut S, file: &S::File, old: Status) -> io::Result<()>
    ensures { TakesAfter (S.made system.old) (S.made system.new) file.now old result }
{
    let _group = system.give_group(file, old.group);
    let _owner = system.give_owner(file, old.owner);
    system.permit(file, old.permissions)
}

/// Makes a new file like the old one, if there is one. If that fails, the new file is removed.
fn dress<S: System>(
    system: &mut S,
    name: &str,
    file: &S::File,
    old: io::Result<Status>,
) -> io::Result<()>
    ensures { Dresses (S.made system.old) (S.made system.new) name.now file.now old result }
{
    match old {
        Ok(old) => match take_after(system, file, old) {
            Ok(()) => Ok(()),
            Err(e) => {
                let _removed = system.remove(name);
                Err(e)
            }
        },
        Err(_) => Ok(()),
    }
}

/// The permissions of a new text.
fn permissions_beside(old: io::Result<Status>) -> u32
    ensures { result ≡ permissions_beside old }
{
    match old {
        Ok(_old) => OWNER_ALONE,
        Err(_) => EVERYONE,
    }
}

/// Makes a file beside this one, like the present one.
fn made_like<S: System>(
    system: &mut S,
    path: &str,
    old: io::Result<Status>,
    number: u64,
) -> io::Result<Beside<S::File>>
    ensures { MakesLike (S.made system.old) (S.made system.new) path.now old number result }
{
    let made = match made_beside(system, path, permissions_beside(old), number) {
        Ok(made) => made,
        Err(e) => return Err(e),
    };
    match dress(system, made.name.as_str(), &made.file, old) {
        Ok(()) => Ok(made),
        Err(e) => Err(e),
    }
}

/// Makes a file beside this one.
fn made_new<S: System>(system: &mut S, path: &str) -> io::Result<Beside<S::File>>
    ensures { MakesNew (S.made system.old) (S.made system.new) path.now result }
{
    let old = system.status(path);
    let number = system.number();
    made_like(system, path, old, number)
}

/// The fault of a file that was not made.
fn not_created() -> io::Error {
    io::Error::other("no file was made")
}

/// The files of a machine, over the calls of its system.
#[derive(Drop)]
pub struct SystemDisk<S, F> {
    system: S,
    lock: Option<F>,
    created: Option<F>,
}

/// The files of this machine.
pub type HostDisk<'r, R> = SystemDisk<HostSystem<'r, R>, File>;

impl<S, F> SystemDisk<S, F> {
    /// Nothing is locked.
    pub fn new(system: S) -> Self
        ensures { result ≡ record { system = system; lock = None; created = None } }
    {
        SystemDisk {
            system,
            lock: None,
            created: None,
        }
    }
}

impl<S: System> Disk for SystemDisk<S, S::File> {
    /// A link that leads nowhere, a name of no plain file, and a folder that is not there are faults.
    fn find(&mut self, name: &str) -> io::Result<String>
        ensures calls { FindsFile (S.made self.old.system)
            (S.made self.new.system) name.now (found_in result string_bytes) }
        ensures lock { self.new.lock ≡ self.old.lock }
        ensures created { self.new.created ≡ self.old.created }
    {
        end_of(&mut self.system, name)
    }

    /// Another program that has it is a fault.
    fn lock(&mut self, path: &str) -> io::Result<()>
        ensures calls { KeepsLock (S.made self.old.system)
            (S.made self.new.system) path.now self.old.lock result self.new.lock }
        ensures created { self.new.created ≡ self.old.created }
    {
        match lock_beside(&mut self.system, path) {
            Ok(lock) => {
                self.lock = Some(lock);
                Ok(())
            }
            Err(e) => Err(e),
        }
    }

    /// A file that is no UTF-8 is a fault.
    fn read(&mut self, _alloc: Global, path: &str) -> io::Result<Option<String>>
        ensures calls { ReadsText (S.made self.old.system)
            (S.made self.new.system) path.now (read_in result string_bytes) }
        ensures lock { self.new.lock ≡ self.old.lock }
        ensures created { self.new.created ≡ self.old.created }
    {
        text_of(&mut self.system, path)
    }

    fn create(&mut self, path: &str) -> io::Result<String>
        ensures calls { CreatesBeside (S.made self.old.system)
            (S.made self.new.system) path.now self.old.created
            (found_in result string_bytes) self.new.created }
        ensures lock { self.new.lock ≡ self.old.lock }
    {
        match made_new(&mut self.system, path) {
            Ok(Beside { name, file }) => {
                self.created = Some(file);
                Ok(name)
            }
            Err(e) => Err(e),
        }
    }

    fn write(&mut self, _path: &str, text: &str) -> io::Result<()>
        ensures writes { WritesText S.File.contents self.old.created text.now result self.new.created }
        ensures calls { Called (S.made self.old.system) (S.made self.new.system) [] }
        ensures lock { self.new.lock ≡ self.old.lock }
    {
        match &mut self.created {
            Some(file) => put(file, text.as_bytes()),
            None => Err(not_created()),
        }
    }

    fn sync(&mut self, _path: &str) -> io::Result<()>
        ensures calls { SyncsCreated (S.made self.old.system)
            (S.made self.new.system) self.old.created result }
        ensures closed { self.new.created ≡ None }
        ensures lock { self.new.lock ≡ self.old.lock }
    {
        match self.created.take() {
            Some(file) => self.system.sync(&file),
            None => Err(not_created()),
        }
    }

    fn rename(&mut self, from: &str, to: &str) -> io::Result<()>
        ensures calls { Called (S.made self.old.system) (S.made self.new.system)
            (Renames from.now to.now (error_in result) ∷ []) }
        ensures lock { self.new.lock ≡ self.old.lock }
        ensures created { self.new.created ≡ self.old.created }
    {
        self.system.rename(from, to)
    }

    fn sync_folder(&mut self, path: &str) -> io::Result<()>
        ensures calls { Called (S.made self.old.system) (S.made self.new.system)
            (SyncsFolder path.now (error_in result) ∷ []) }
        ensures lock { self.new.lock ≡ self.old.lock }
        ensures created { self.new.created ≡ self.old.created }
    {
        self.system.sync_folder(path)
    }

    fn remove(&mut self, path: &str)
        ensures calls { TakesAway (S.made self.old.system) (S.made self.new.system) path.now }
        ensures lock { self.new.lock ≡ self.old.lock }
        ensures created { self.new.created ≡ self.old.created }
    {
        let _removed = self.system.remove(path);
    }
}
