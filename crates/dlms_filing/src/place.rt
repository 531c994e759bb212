//! A readings file as the place of a text: one program at a time has it, and it contains a whole text, or none.

ghost use Rattle.std.specs.Prelude.{◌≡◌, None, string_bytes};
ghost use Rattle.dlms_filing.specs.Disk.{ComesToHold, Filled, GivesText, Laid, LaysBeside, LaysHeld, Locked, Puts, PutsHeld, Replaced, Stands, TakesAway, Unlays, file_in, file_of, found_in};

use crate::disk::Disk;
use crate::filing::{Filing, Holding};
use crate::host_disk::{HostDisk, SystemDisk};
use crate::system::HostSystem;
use std::alloc::Global;
use std::io;

/// A readings file, once it is held: the file that its name stands for at the end of all links, whether it exists or not. It is
/// locked as long as this value exists, also if the program is killed: the lock is on a file beside it, with its name and `.lock`,
/// which is created, and stays.
#[derive(Drop)]
pub struct FilePlace<D> {
    disk: D,
    held: Option<Held>,
}

/// The path of the file that is held, and that of the text that was laid beside it.
#[derive(Drop)]
struct Held {
    path: String,
    laid: Option<String>,
}

/// Holds the file of a name: its path.
fn hold<D: Disk>(disk: &mut D, name: &str) -> io::Result<String>
    ensures { Locked (D.made disk.old) (D.made disk.new) name.now (found_in result string_bytes) }
{
    let path = match disk.find(name) {
        Ok(path) => path,
        Err(error) => return Err(error),
    };
    match disk.lock(path.as_str()) {
        Ok(()) => Ok(path),
        Err(error) => Err(error),
    }
}

/// The text of the file of this path. If it does not exist, the text is empty.
fn standing<D: Disk>(disk: &mut D, alloc: Global, path: &str) -> io::Result<String>
    ensures { Stands (D.made disk.old) (D.made disk.new) path.now (found_in result string_bytes) }
{
    match disk.read(alloc, path) {
        Ok(Some(text)) => Ok(text),
        Ok(None) => Ok(String::new(alloc)),
        Err(error) => Err(error),
    }
}

/// Writes a text to a file, and makes it outlast a stop.
fn fill<D: Disk>(disk: &mut D, path: &str, text: &str) -> io::Result<()>
    ensures { Filled (D.made disk.old) (D.made disk.new) path.now text.now result }
{
    match disk.write(path, text) {
        Ok(()) => disk.sync(path),
        Err(error) => Err(error),
    }
}

/// Lays a new text beside the file of this path, and returns its path. The file stays as it is; if a call fails, nothing is left
/// beside it.
fn lay<D: Disk>(disk: &mut D, path: &str, text: &str) -> io::Result<String>
    ensures { Laid (D.made disk.old)
        (D.made disk.new) path.now text.now (found_in result string_bytes) }
{
    let beside = match disk.create(path) {
        Ok(beside) => beside,
        Err(error) => return Err(error),
    };
    match fill(disk, beside.as_str(), text) {
        Ok(()) => Ok(beside),
        Err(error) => {
            disk.remove(beside.as_str());
            Err(error)
        }
    }
}

/// Puts a text from beside a file in its place, and makes that survive a power failure.
fn replace<D: Disk>(disk: &mut D, beside: &str, path: &str) -> io::Result<()>
    ensures { Replaced (D.made disk.old) (D.made disk.new) beside.now path.now result }
{
    match disk.rename(beside, path) {
        Ok(()) => disk.sync_folder(path),
        Err(error) => {
            disk.remove(beside);
            Err(error)
        }
    }
}

/// Takes away what was laid beside the file.
fn take_away<D: Disk>(disk: &mut D, held: &mut Held)
    ensures away { TakesAway (D.made disk.old) (D.made disk.new) (file_of held.old).laid }
    ensures held { file_of held.new ≡ record { path = (file_of held.old).path; laid = None } }
{
    if let Some(beside) = held.laid.take() {
        disk.remove(beside.as_str());
    }
}

/// Lays a text beside the file, instead of the one laid before.
fn lay_beside<D: Disk>(disk: &mut D, held: &mut Held, text: &str) -> io::Result<()>
    ensures { LaysBeside (D.made disk.old)
        (D.made disk.new) text.now (file_of held.old) result (file_of held.new) }
{
    take_away(disk, held);
    match lay(disk, held.path.as_str(), text) {
        Ok(beside) => {
            held.laid = Some(beside);
            Ok(())
        }
        Err(error) => Err(error),
    }
}

/// Puts what was laid in the file's place.
fn put_laid<D: Disk>(disk: &mut D, held: &mut Held) -> io::Result<()>
    ensures puts { Puts (D.made disk.old) (D.made disk.new)
        (file_of held.old).path (file_of held.old).laid result }
    ensures held { file_of held.new ≡ record { path = (file_of held.old).path; laid = None } }
{
    match held.laid.take() {
        Some(beside) => replace(disk, beside.as_str(), held.path.as_str()),
        None => Err(io::Error::other("no text was laid")),
    }
}

impl<'r, R> FilePlace<HostDisk<'r, R>> {
    /// Over the system's files; none is held.
    pub fn of(rt: &'r R) -> Self {
        FilePlace::new(SystemDisk::new(HostSystem::new(rt)))
    }
}

impl<D> FilePlace<D> {
    /// No file is held.
    pub fn new(disk: D) -> Self
        ensures { result.disk ≡ disk }
    {
        FilePlace { disk, held: None }
    }

    /// The files.
    pub fn disk(&self) -> &D
        ensures { result.now ≡ self.now.disk }
    {
        &self.disk
    }
}

impl<D: Disk> Holding for FilePlace<D> {
    fn hold(&mut self, file: &str) -> io::Result<()>
        ensures { ComesToHold (D.made self.old.disk)
            (D.made self.new.disk) file.now (file_in self.old.held) result (file_in self.new.held) }
    {
        match hold(&mut self.disk, file) {
            Ok(path) => {
                self.held = Some(Held { path, laid: None });
                Ok(())
            }
            Err(error) => Err(error),
        }
    }
}

impl<D: Disk> Filing for FilePlace<D> {
    fn text(&mut self, alloc: Global) -> io::Result<String>
        ensures held { self.new.held ≡ self.old.held }
        ensures text { GivesText (D.made self.old.disk) (D.made self.new.disk)
            (file_in self.old.held) (found_in result string_bytes) }
    {
        match &self.held {
            Some(held) => standing(&mut self.disk, alloc, held.path.as_str()),
            None => Ok(String::new(alloc)),
        }
    }

    /// If a call fails, nothing is left beside the file.
    fn lay(&mut self, text: &str) -> io::Result<()>
        ensures { LaysHeld (D.made self.old.disk)
            (D.made self.new.disk) text.now (file_in self.old.held) result (file_in self.new.held) }
    {
        let Some(held) = self.held.take() else {
            return Ok(());
        };
        let mut held = held;
        let outcome = lay_beside(&mut self.disk, &mut held, text);
        self.held = Some(held);
        outcome
    }

    /// A stop at any moment leaves the old text or the new one, whole.
    fn put(&mut self) -> io::Result<()>
        ensures { PutsHeld (D.made self.old.disk) (D.made self.new.disk)
            (file_in self.old.held) result (file_in self.new.held) }
    {
        let Some(held) = self.held.take() else {
            return Ok(());
        };
        let mut held = held;
        let outcome = put_laid(&mut self.disk, &mut held);
        self.held = Some(held);
        outcome
    }

    fn drop_laid(&mut self)
        ensures { Unlays (D.made self.old.disk) (D.made self.new.disk) (file_in self.old.held)
            (file_in self.new.held) }
    {
        let Some(held) = self.held.take() else {
            return;
        };
        let mut held = held;
        take_away(&mut self.disk, &mut held);
        self.held = Some(held);
    }
}
