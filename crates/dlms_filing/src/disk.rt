//! The files of a machine, as a readings file asks for them.

ghost use Rattle.std.specs.Prelude.{List, Option, None, [], ◌∷◌, string_bytes};
ghost use Rattle.dlms_filing.specs.Disk.{FileCall, Called, found_in, read_in};
ghost use Rattle.dlms_filing.specs.Disk.FileCall.{Finds, Locks, Reads, Creates, Writes, Syncs, Renames, SyncsFolder, Removes};
ghost use Rattle.dlms_filing.specs.Filing.{error_in};

use std::alloc::Global;
use std::io;

/// The files of a machine, one of which is a readings file.
pub trait Disk {
    /// The calls, in order, each with its outcome, if these are known. For the system's files they are not; a theorem about code
    /// that takes any files also holds for files whose calls are known.
    ghost made: { Self → Option (List FileCall) } = { λ _. None };

    /// The path of the file that a name stands for at the end of all links, whether it exists or not.
    fn find(&mut self, name: &str) -> io::Result<String>
        ensures { Called (made self.old) (made self.new)
            (Finds name.now (found_in result string_bytes) ∷ []) };

    /// Holds the lock beside the file of this path (the lock file is created if it does not exist), as long as this value exists.
    fn lock(&mut self, path: &str) -> io::Result<()>
        ensures { Called (made self.old) (made self.new) (Locks path.now (error_in result) ∷ []) };

    /// The text of the file, if it is there.
    fn read(&mut self, alloc: Global, path: &str) -> io::Result<Option<String>>
        ensures { Called (made self.old) (made self.new)
            (Reads path.now (read_in result string_bytes) ∷ []) };

    /// Makes an empty file beside the one of this path, with a name that nobody can predict, and gives it the permissions of that
    /// file, if it exists; also its owner and group, if the system allows it.
    fn create(&mut self, path: &str) -> io::Result<String>
        ensures { Called (made self.old) (made self.new)
            (Creates path.now (found_in result string_bytes) ∷ []) };

    /// Writes a text to the file that was made last, whose path is this.
    fn write(&mut self, path: &str, text: &str) -> io::Result<()>
        ensures { Called (made self.old) (made self.new)
            (Writes path.now text.now (error_in result) ∷ []) };

    /// Makes what was written to the file that was made last outlast a stop.
    fn sync(&mut self, path: &str) -> io::Result<()>
        ensures { Called (made self.old) (made self.new) (Syncs path.now (error_in result) ∷ []) };

    /// Gives a file the path of another, whose place it takes, whole.
    fn rename(&mut self, from: &str, to: &str) -> io::Result<()>
        ensures { Called (made self.old) (made self.new)
            (Renames from.now to.now (error_in result) ∷ []) };

    /// Makes what was renamed in the folder of this path outlast a stop.
    fn sync_folder(&mut self, path: &str) -> io::Result<()>
        ensures { Called (made self.old) (made self.new)
            (SyncsFolder path.now (error_in result) ∷ []) };

    /// Takes a file away, if the system lets it.
    fn remove(&mut self, path: &str)
        ensures { Called (made self.old) (made self.new) (Removes path.now ∷ []) };
}
