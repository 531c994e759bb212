//! Pages in a file, each under a seal.
ghost use Rattle.std.specs.Prelude.{◌≡◌, ◌<◌, ◌≤◌, ◌^◌, ℕ, true, false, length, replicate, slice_index_or, slice_set, IfOk, IfSome, MatchResult, OnErr, OnOk, Ok, Err};
ghost use Rattle.dlms_pages.specs.SlotCalls.{AsksAll, IsRenewed, IsSlotRenewed, IsSlotTouched, Reopens, SparesSlot, sync_calls, written_again};

use crate::folder::sync_folder;
use crate::lock::LockFile;
use crate::seal::{SLOT_BYTES, open_slot, seal_slot};
use crate::slot_file::{FileSlots, SlotFile};
use crate::{DeviceFault, PAGE_BYTES, PageRead, Pages};
use std::alloc::{AllocError, Allocator, Global};
use std::fs::{File, Files, OpenFile, OpenOptions};
use std::io;
use std::io::{Read, Seek, Write};
use std::marker::Model;
use std::os::unix::fs::OpenOptionsExt;

/// The permissions of a file that is made: its owner alone reads and writes it, since it holds secrets.
const OWNER_ALONE: u32 = 0o600;

/// Pages in a file. Page `i` begins at byte `544 * i`: its 512 bytes, then the SHA-256 of `i` (two bytes, the high one first) and
/// those 512. A part that the file lacks, or whose seal does not match, reads as damaged.
///
/// Content written since the last successful sync is also kept in memory: reads return it from there, and if a write or a sync has
/// failed since, the next sync first writes all of it again. `create` and `open` allocate this memory; no other call allocates any.
///
/// The file's exclusive advisory lock is held as long as these pages are there, so no second program that asks for it
/// reads or writes them at the same time.
///
/// Over a file that keeps the rules of slots these pages keep the disk rules. What is asked of the file is said of every
/// file, call for call.
#[derive(Drop)]
pub struct FilePages<F: SlotFile = FileSlots<File>, A: Allocator = Global> {
    file: F,
    unsynced: Vec<Option<[u8; PAGE_BYTES]>, A>,
    behind: bool,
    faults: u64,
}

impl<F: SlotFile, A: Allocator> Model for FilePages<F, A> {
    ghost use Rattle.dlms_pages.specs.File.{FileValue, IsKeptBeside};

    ghost Value = { FileValue F };

    ghost view = { λ f. record {
      file = f.file;
      unsynced = f.unsynced.items;
      behind = f.behind;
      faults = f.faults;
    } };

    ghost invariant = { λ f. IsKeptBeside (F.slots f.file) f.unsynced.items f.behind };
}

impl<F: Read + Write + Seek + OpenFile + LockFile + Drop, A: Allocator> FilePages<FileSlots<F>, A> {
    ghost use Rattle.dlms_pages.specs.File.{IsFresh};

    /// Creates the file, or replaces the content of an existing one, with `count` pages that all read as damaged; its length and
    /// its name survive a stop. Only the owner may read and write a new file; an existing one keeps its permissions. The error is
    /// the system's. A file that is in use stays as it is.
    pub fn create<R: Files<File = F> + Alloc<A = A>>(
        rt: &R,
        path: &str,
        count: u16,
    ) -> io::Result<FilePages<FileSlots<F>, A>>
        ensures { IfOk result (IsFresh count) }
    {
        FilePages::make(
            rt,
            path,
            count,
            OpenOptions::new()
                .read(true)
                .write(true)
                .create(true)
                .mode(OWNER_ALONE),
        )
    }

    /// Creates the file with `count` pages, as `create` does, if there is none. A file that is there stays as it is, and the error's
    /// kind is `AlreadyExists`.
    pub fn create_new<R: Files<File = F> + Alloc<A = A>>(
        rt: &R,
        path: &str,
        count: u16,
    ) -> io::Result<FilePages<FileSlots<F>, A>>
        ensures { IfOk result (IsFresh count) }
    {
        FilePages::make(
            rt,
            path,
            count,
            OpenOptions::new()
                .read(true)
                .write(true)
                .create_new(true)
                .mode(OWNER_ALONE),
        )
    }

    // The file that these options open, with `count` pages and nothing else.
    fn make<R: Files<File = F> + Alloc<A = A>>(
        rt: &R,
        path: &str,
        count: u16,
        options: &OpenOptions,
    ) -> io::Result<FilePages<FileSlots<F>, A>>
        ensures { IfOk result (IsFresh count) }
    {
        let unsynced = room(rt.alloc(), count)?;
        let file = options.open(rt, path)?;
        // The old content is discarded only once the lock is held.
        file.lock_alone()?;
        file.set_len(0)?;
        file.set_len(u64::from(count) * SLOT_BYTES as u64)?;
        file.sync_all()?;
        sync_folder(rt, path)?;
        alone(FilePages::over_rewritten_slots(FileSlots::of(file), unsynced, count))
    }

    /// Opens a file that is there, and is not in use, by `over`. What it has past its pages stays. The fault is the system's.
    pub fn open<R: Files<File = F> + Alloc<A = A>>(
        rt: &R,
        path: &str,
        count: u16,
    ) -> io::Result<FilePages<FileSlots<F>, A>>
        ensures { IfOk result (IsFresh count) }
    {
        let file = OpenOptions::new().read(true).write(true).open(rt, path)?;
        file.lock_alone()?;
        alone(FilePages::over(rt.alloc(), FileSlots::of(file), count))
    }
}

impl<F: SlotFile + Drop, A: Allocator> FilePages<F, A> {
    ghost use Rattle.dlms_pages.specs.File.{faults_after, GivesPage, IsFresh, IsKeptBeside, KeepsPage, Settles};

    /// `count` pages over an existing file of slots. An earlier process may have written its content and seen the sync fail; a
    /// system may then drop the content and report the next sync as a success. So each slot of the file is read and written again,
    /// octet for octet, and the file is synced, before a page is read. The error is the file's, or out of memory; the file is
    /// returned with it.
    pub fn over(alloc: A, file: F, count: u16) -> Result<FilePages<F, A>, (F, io::Error)>
        ensures fresh { IfOk result (IsFresh count) }
        ensures renewed { IfOk result
            (λ pages. IsRenewed count (F.slots file) (F.slots pages.file)) }
        ensures reopened { IfOk result (λ pages. (F.slots file).keeps ≡ true
            → (k : ℕ) → k < count → Reopens (F.slots file) (F.slots pages.file) k) }
        ensures spared { (F.slots file).keeps ≡ true → (k : ℕ) → MatchResult result
            (λ pages. SparesSlot (F.slots file) (F.slots pages.file) k)
            (λ e. SparesSlot (F.slots file) (F.slots e.0) k) }
    {
        match room(alloc, count) {
            Ok(unsynced) => FilePages::over_rewritten_slots(file, unsynced, count),
            Err(fault) => Err((file, fault.into())),
        }
    }

    /// The file of slots. Content that was written and not synced is in it as it was written.
    pub fn into_slots(self) -> F
        ensures { result ≡ self.file }
    {
        let FilePages {
            file,
            unsynced: _,
            behind: _,
            faults: _,
        } = self;
        file
    }

    // `count` pages, with this memory for unsynced content, over a file whose slots are written again.
    fn over_rewritten_slots(
        file: F,
        unsynced: Vec<Option<[u8; PAGE_BYTES]>, A>,
        count: u16,
    ) -> Result<FilePages<F, A>, (F, io::Error)>
        requires { unsynced.items ≡ replicate count None }
        ensures fresh { IfOk result (IsFresh count) }
        ensures renewed { IfOk result
            (λ pages. IsRenewed count (F.slots file) (F.slots pages.file)) }
        ensures reopened { IfOk result (λ pages. (F.slots file).keeps ≡ true
            → (k : ℕ) → k < count → Reopens (F.slots file) (F.slots pages.file) k) }
        ensures spared { (F.slots file).keeps ≡ true → (k : ℕ) → MatchResult result
            (λ pages. SparesSlot (F.slots file) (F.slots pages.file) k)
            (λ e. SparesSlot (F.slots file) (F.slots e.0) k) }
    {
        let mut file = file;
        match renew(&mut file, count) {
            Ok(()) => Ok(FilePages::fresh(file, unsynced)),
            Err(fault) => Err((file, fault)),
        }
    }

    // Nothing is written yet, and nothing has failed.
    fn fresh(file: F, unsynced: Vec<Option<[u8; PAGE_BYTES]>, A>) -> FilePages<F, A>
        requires { IsKeptBeside (F.slots file) unsynced.items false }
        ensures { result ≡ record {
          file = file;
          unsynced = unsynced.items;
          behind = false;
          faults = 0;
        } }
    {
        FilePages {
            file,
            unsynced,
            behind: false,
            faults: 0,
        }
    }

    // One more fault.
    fn fail(&mut self) -> DeviceFault
        ensures counted { self.new ≡ record self.old { faults = faults_after self.old.faults } }
        ensures later { self.old.faults ≤ self.new.faults }
    {
        self.faults = self.faults.saturating_add(1);
        DeviceFault
    }

    // The content of a page.
    fn read_page(&mut self, index: u16) -> Result<PageRead, DeviceFault>
        requires { index < length self.old.unsynced }
        ensures file { GivesPage F.slots index self.old self.new result }
        ensures kept { IsKeptBeside (F.slots self.old.file) self.old.unsynced self.old.behind }
    {
        if let Some(content) = self.unsynced[index as usize] {
            return Ok(PageRead::Content(content));
        }
        let mut slot = [0u8; SLOT_BYTES];
        match self.file.read_slot(index, &mut slot) {
            Ok(true) => Ok(open_slot(index, &slot)),
            Ok(false) => Ok(PageRead::Damaged),
            Err(_) => Err(self.fail()),
        }
    }

    // Writes a page, and keeps what was written.
    fn write_page(&mut self, index: u16, bytes: &[u8; PAGE_BYTES]) -> Result<(), DeviceFault>
        requires { index < length self.old.unsynced }
        ensures { KeepsPage F.slots index bytes.now self.old self.new result }
    {
        self.unsynced[index as usize] = Some(*bytes);
        match self.file.write_slot(index, &seal_slot(index, bytes)) {
            Ok(()) => Ok(()),
            Err(_) => {
                self.behind = true;
                Err(self.fail())
            }
        }
    }

    // Makes all that was written outlast a stop.
    fn sync_pages(&mut self) -> Result<(), DeviceFault>
        ensures file { Settles F.slots self.old self.new result }
        ensures kept { IsKeptBeside (F.slots self.old.file) self.old.unsynced self.old.behind }
    {
        match settle(&mut self.file, &self.unsynced, self.behind) {
            Ok(()) => {
                forget(&mut self.unsynced);
                self.behind = false;
                Ok(())
            }
            Err(_) => {
                self.behind = true;
                Err(self.fail())
            }
        }
    }
}

impl<F: SlotFile + Drop, A: Allocator> Pages for FilePages<F, A> {
    ghost use Rattle.dlms_pages.specs.Device.{Goes, Reads, Writes, Syncs};
    ghost use Rattle.dlms_pages.specs.File.{file_view, GivesPage, KeepsPage, Settles};
    ghost use Rattle.dlms_pages.specs.SlotRules.{pages_rules};

    ghost view = { λ f. file_view F.slots f };

    ghost rules = { λ f honest. pages_rules (length f.unsynced) (F.slots f.file) f.faults };

    fn count(&self) -> u16 {
        self.unsynced.len() as u16
    }

    fn faults(&self) -> u64 {
        self.faults
    }

    fn read(&mut self, index: u16) -> Result<PageRead, DeviceFault>
        requires { index < length (file_view F.slots self.old).seen }
        ensures goes { Goes (file_view F.slots self.old) (file_view F.slots self.new) result }
        ensures page { (file_view F.slots self.old).honest ≡ true
            → Reads index (file_view F.slots self.old) (file_view F.slots self.new) result }
        ensures file { GivesPage F.slots index self.old self.new result }
    {
        self.read_page(index)
    }

    fn write(&mut self, index: u16, bytes: &[u8; PAGE_BYTES]) -> Result<(), DeviceFault>
        requires { index < length (file_view F.slots self.old).seen }
        ensures goes { Goes (file_view F.slots self.old) (file_view F.slots self.new) result }
        ensures written { (file_view F.slots self.old).honest ≡ true
            → Writes index bytes.now (file_view F.slots self.old)
            (file_view F.slots self.new) result }
        ensures file { KeepsPage F.slots index bytes.now self.old self.new result }
    {
        self.write_page(index, bytes)
    }

    fn sync(&mut self) -> Result<(), DeviceFault>
        ensures goes { Goes (file_view F.slots self.old) (file_view F.slots self.new) result }
        ensures synced { (file_view F.slots self.old).honest ≡ true
            → Syncs (file_view F.slots self.old) (file_view F.slots self.new) result }
        ensures file { Settles F.slots self.old self.new result }
    {
        self.sync_pages()
    }
}

/// The pages, or the fault alone: the file that is given back with it is closed.
fn alone<F: SlotFile + Drop, A: Allocator>(
    pages: Result<FilePages<F, A>, (F, io::Error)>,
) -> io::Result<FilePages<F, A>>
    ensures { MatchResult pages (λ over. result ≡ Ok over) (λ e. result ≡ Err e.1) }
{
    pages.map_err(|(_, fault)| fault)
}

/// Memory for the content that is written between two syncs.
fn room<A: Allocator>(alloc: A, count: u16) -> Result<Vec<Option<[u8; PAGE_BYTES]>, A>, AllocError>
    ensures { IfOk result (λ pages. pages.items ≡ replicate count None) }
{
    vec![in alloc; None; count as usize]
}

/// Writes each slot of the file again, unchanged, and syncs the file.
fn renew<F: SlotFile>(file: &mut F, count: u16) -> io::Result<()>
    ensures asks { IfOk result (λ _. IsRenewed count (F.slots file.old) (F.slots file.new)) }
    ensures reopens { IfOk result (λ _. (F.slots file.old).keeps ≡ true
        → (k : ℕ) → k < count → Reopens (F.slots file.old) (F.slots file.new) k) }
    ensures spares { (F.slots file.old).keeps ≡ true
        → (k : ℕ) → SparesSlot (F.slots file.old) (F.slots file.new) k }
{
    for index in 0..count {
        renew_slot(file, index)?;
    }
    file.sync()
}

/// Writes a slot again, unchanged, if the file has all of it.
fn renew_slot<F: SlotFile>(file: &mut F, index: u16) -> io::Result<()>
    ensures renewed { IfOk result (λ _. IsSlotRenewed index (F.slots file.old) (F.slots file.new)) }
    ensures touched { IsSlotTouched index (F.slots file.old) (F.slots file.new) }
{
    let mut slot = [0u8; SLOT_BYTES];
    match file.read_slot(index, &mut slot) {
        Ok(true) => file.write_slot(index, &slot),
        Ok(false) => Ok(()),
        Err(error) => Err(error),
    }
}

/// Makes what the file holds outlast a stop. Where a write or a sync has failed, all is written again first, since a
/// system may drop what a failed sync had before it, and call the next one a success.
fn settle<F: SlotFile>(
    file: &mut F,
    pages: &[Option<[u8; PAGE_BYTES]>],
    behind: bool,
) -> io::Result<()>
    requires { length pages.now < 2 ^ 16 }
    ensures { AsksAll (F.slots file.old) (F.slots file.new) (sync_calls behind pages.now) result }
{
    if behind {
        write_again(file, pages)?;
    }
    file.sync()
}

/// Writes again what was written.
fn write_again<F: SlotFile>(file: &mut F, pages: &[Option<[u8; PAGE_BYTES]>]) -> io::Result<()>
    requires { length pages.now < 2 ^ 16 }
    ensures { AsksAll (F.slots file.old) (F.slots file.new) (written_again 0 pages.now) result }
{
    for index in 0..pages.len() {
        if let Some(content) = &pages[index] {
            let index = index as u16;
            file.write_slot(index, &seal_slot(index, content))?;
        }
    }
    Ok(())
}

fn forget(pages: &mut [Option<[u8; PAGE_BYTES]>])
    ensures { pages.new ≡ replicate (length pages.old) None }
{
    pages.fill(None);
}
