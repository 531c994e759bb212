//! A system that leaves the syncs of folders to the end of a group.

ghost use Rattle.std.specs.Prelude.{[], ◌∷◌, string_bytes};
ghost use Rattle.dlms_filing.specs.Disk.{Called, found_in};
ghost use Rattle.dlms_filing.specs.Filing.{error_in};
ghost use Rattle.dlms_filing.specs.System.SystemCall.{Locks, Reads, Renames, Syncs};

use dlms_filing::{FilePlace, HostSystem, Status, System, SystemDisk};
use std::alloc::Global;
use std::fs::File;
use std::io;

/// The calls of a system, without the syncs of folders: a program that puts many files into a folder syncs it once for all of them. The
/// folder exists, and is synced when the program begins.
#[derive(Drop)]
pub struct GroupSystem<S> {
    system: S,
}

/// A readings file of a group.
pub type GroupPlace<'r, R> = FilePlace<SystemDisk<GroupSystem<HostSystem<'r, R>>, File>>;

/// A place for a readings file of a group; no file is held.
pub fn group_place<'r, R>(rt: &'r R) -> GroupPlace<'r, R> {
    FilePlace::new(SystemDisk::new(GroupSystem::new(HostSystem::new(rt))))
}

impl<S> GroupSystem<S> {
    /// Over this system.
    pub fn new(system: S) -> Self {
        GroupSystem { system }
    }
}

impl<S: System> System for GroupSystem<S> {
    type File = S::File;

    fn alloc(&self) -> Global {
        self.system.alloc()
    }

    fn real_path(&mut self, name: &str) -> io::Result<String> {
        self.system.real_path(name)
    }

    fn status(&mut self, path: &str) -> io::Result<Status> {
        self.system.status(path)
    }

    fn name_status(&mut self, name: &str) -> io::Result<Status> {
        self.system.name_status(name)
    }

    fn create_new(&mut self, path: &str, permissions: u32) -> io::Result<S::File> {
        self.system.create_new(path, permissions)
    }

    fn open(&mut self, path: &str) -> io::Result<S::File> {
        self.system.open(path)
    }

    fn check(&mut self, file: &S::File) -> io::Result<()> {
        self.system.check(file)
    }

    fn lock(&mut self, file: &S::File) -> io::Result<()>
        ensures { Called (S.made self.old.system) (S.made self.new.system)
            (Locks file.now (error_in result) ∷ []) }
    {
        self.system.lock(file)
    }

    fn text(&mut self, path: &str) -> io::Result<String>
        ensures { Called (S.made self.old.system) (S.made self.new.system)
            (Reads path.now (found_in result string_bytes) ∷ []) }
    {
        self.system.text(path)
    }

    fn number(&mut self) -> u64 {
        self.system.number()
    }

    fn give_group(&mut self, file: &S::File, group: u32) -> io::Result<()> {
        self.system.give_group(file, group)
    }

    fn give_owner(&mut self, file: &S::File, owner: u32) -> io::Result<()> {
        self.system.give_owner(file, owner)
    }

    fn permit(&mut self, file: &S::File, permissions: u32) -> io::Result<()> {
        self.system.permit(file, permissions)
    }

    fn sync(&mut self, file: &S::File) -> io::Result<()>
        ensures { Called (S.made self.old.system) (S.made self.new.system)
            (Syncs file.now (error_in result) ∷ []) }
    {
        self.system.sync(file)
    }

    fn rename(&mut self, from: &str, to: &str) -> io::Result<()>
        ensures { Called (S.made self.old.system) (S.made self.new.system)
            (Renames from.now to.now (error_in result) ∷ []) }
    {
        self.system.rename(from, to)
    }

    /// Nothing: the folder is synced at the end of the group.
    fn sync_folder(&mut self, _path: &str) -> io::Result<()>
        ensures { Called (S.made self.old.system) (S.made self.new.system) [] }
    {
        Ok(())
    }

    fn remove(&mut self, path: &str) -> io::Result<()> {
        self.system.remove(path)
    }
}
