//! Pages in memory. They keep what they held at the last sync that succeeded, and each write since; what came before is
//! kept for proofs alone.
ghost use Rattle.std.specs.Prelude.{◌≡◌, ◌<◌, ◌≤◌, ◌+◌, ◌-◌, ◌^◌, ◌⊎◌, ◌↔◌, ℕ, [], ◌∷◌, ◌++◌, min, true, false, length, nat_eq, nat_le, IfOk, IsErr, OnErr, OnOk};
ghost use Rattle.dlms_pages.specs.Device.{page_at};
ghost use Rattle.dlms_pages.specs.Disk.{Disk, after, at_first, disk_after};
ghost use Rattle.dlms_pages.specs.History.{IsHistory};
ghost use Rattle.dlms_pages.specs.Memory.{fails_at, Passes, Fails};
ghost use Rattle.dlms_pages.specs.Pick.{choice_at, page_left};

use crate::history::{History, history_of};
use crate::past::Past;
use crate::plan::{Plan, next_of};
use crate::{DeviceFault, PAGE_BYTES, PageChoice, PageRead, Pages, Pick};
use std::alloc::{AllocError, Allocator, Global};
use std::marker::Model;
use std::snapshot::Snapshot;

/// A call that a stop may undo.
#[derive(Clone, Copy, Debug, PartialEq, Eq)]
pub enum Call {
    /// These bytes were written to the page of this index.
    Write { index: u16, bytes: [u8; PAGE_BYTES] },
    /// A sync.
    Sync,
}

/// A device in memory that keeps the disk rules, and that can be made to fail or to lose power. It records each write until the
/// next successful sync, which allocates memory if the record grows; a write without memory fails. It never holds more than the
/// largest number of writes between two syncs.
#[derive(Drop)]
pub struct MemoryPages<A: Allocator = Global> {
    synced: Vec<PageRead, A>,
    since: Vec<Call, A>,
    pages: Vec<PageRead, A>,
    plan: Plan,
    faults: u64,
    // The initial content of each page, and every successful write and sync. Neither takes memory.
    first: Snapshot<Vec<PageRead, A>>,
    past: Past<Call>,
}

impl<A: Allocator> Model for MemoryPages<A> {
    ghost use Rattle.std.specs.Prelude.{◌-◌, vec_len, vec_capacity};
    ghost use Rattle.dlms_pages.specs.Memory.{Memory, IsKept};

    ghost Value = { Memory };

    ghost view = { λ m. record {
      first = m.first.value.items;
      calls = m.past.calls;
      plan = m.plan;
      room = vec_capacity m.since - vec_len m.since;
      faults = m.faults;
    } };

    ghost invariant = { λ m. IsKept m.first.value.items m.past.calls m.synced.items m.since.items m.pages.items };
}

impl<A: Allocator + Copy> MemoryPages<A> {
    ghost use Rattle.dlms_pages.specs.Memory.{IsNew, disk_of, view_of};
    ghost use Rattle.dlms_pages.specs.Stops.{IsFixed};

    /// So many pages of zeros, as after a sync.
    pub fn new(alloc: A, count: u16) -> Result<Self, AllocError>
        ensures { IfOk result (IsNew count) }
    {
        let page = PageRead::Content([0; PAGE_BYTES]);
        let synced = vec![in alloc; page; count as usize]?;
        let pages = vec![in alloc; page; count as usize]?;
        let first = Snapshot::of(&synced);
        Ok(MemoryPages {
            synced,
            since: Vec::new(alloc),
            pages,
            plan: Plan::Never,
            faults: 0,
            first,
            past: Past::new(),
        })
    }

    /// Lets this many calls succeed, and fails every later one.
    pub fn fuse(&mut self, calls: u64)
        ensures fails { (k : ℕ) → fails_at self.new.plan k ≡ nat_le calls k }
        ensures rest { self.new ≡ record self.old { plan = self.new.plan } }
    {
        self.plan = Plan::From(calls);
    }

    /// Lets this many calls succeed, fails the next one, and lets all later ones succeed.
    pub fn fail_once(&mut self, calls: u64)
        ensures fails { (k : ℕ) → fails_at self.new.plan k ≡ nat_eq k calls }
        ensures rest { self.new ≡ record self.old { plan = self.new.plan } }
    {
        self.plan = Plan::Once(calls);
    }

    /// Stops the power. The pages hold what was picked for them, nothing is unsynced, and no call is to fail.
    pub fn cut(self, pick: Pick<'_>) -> Self
        ensures pages { (k : ℕ) → k < length self.first
            → page_at result.first k ≡ page_left (disk_of self) (choice_at pick.entry k) k }
        ensures count { length result.first ≡ length self.first }
        ensures calls { result.calls ≡ [] }
        ensures plan { (k : ℕ) → fails_at result.plan k ≡ false }
        ensures faults { result.faults ≡ self.faults }

        // The power failure leaves one of the images that a stop may leave; afterwards it is the only one.
        ensures left { (view_of self).may_leave result.first }
        ensures fixed { IsFixed (view_of result) result.first }
    {
        let MemoryPages {
            synced,
            since,
            pages,
            plan: _,
            faults,
            first: _,
            past: _,
        } = self;
        let mut synced = synced;
        let mut writes = since;
        let mut pages = pages;
        choose(&synced, &writes, &mut pages, pick);
        synced.copy_from_slice(&pages);
        writes.clear();
        let first = Snapshot::of(&synced);
        MemoryPages {
            synced,
            since: writes,
            pages,
            plan: Plan::Never,
            faults,
            first,
            past: Past::new(),
        }
    }

    // One more fault.
    fn fail(&mut self) -> DeviceFault
        ensures counted { self.new
            ≡ record self.old { faults = min (self.old.faults + 1) (2 ^ 64 - 1) } }
        ensures later { self.old.faults ≤ self.new.faults }
    {
        self.faults = self.faults.saturating_add(1);
        DeviceFault
    }

    // Lets one more call succeed, or fails it if that was requested.
    fn pass(&mut self) -> Result<(), DeviceFault>
        ensures due { IsErr result ↔ (fails_at self.old.plan 0 ≡ true) }
        ensures passed { OnOk result (Passes self.old self.new self.old.calls) }
        ensures failed { OnErr result (Fails self.old self.new) }
        ensures room { self.new.room ≡ self.old.room }
    {
        let (due, later) = next_of(self.plan);
        self.plan = later;
        if due { Err(self.fail()) } else { Ok(()) }
    }

    // A write that is kept in the record.
    fn record_write(&mut self, index: u16, bytes: &[u8; PAGE_BYTES]) -> Result<(), DeviceFault>
        requires { index < length (disk_of self.old).seen }
        ensures due { fails_at self.old.plan 0 ≡ true → IsErr result }
        ensures cause { OnErr result ((fails_at self.old.plan 0 ≡ true) ⊎ (self.old.room ≡ 0)) }
        ensures passed { OnOk result (Passes self.old self.new
            (self.old.calls ++ Call.Write index bytes.now ∷ [])) }
        ensures failed { OnErr result (Fails self.old self.new) }
    {
        self.pass()?;
        let call = Call::Write {
            index,
            bytes: *bytes,
        };
        if self.since.push(call).is_err() {
            return Err(self.fail());
        }
        self.past = self.past.and(&call);
        self.pages[index as usize] = PageRead::Content(*bytes);
        Ok(())
    }

    // A sync, after which the record is empty.
    fn record_sync(&mut self) -> Result<(), DeviceFault>
        ensures due { IsErr result ↔ (fails_at self.old.plan 0 ≡ true) }
        ensures passed { OnOk result (Passes self.old self.new (self.old.calls ++ Call.Sync ∷ [])) }
        ensures room { OnOk result (self.old.room ≤ self.new.room) }
        ensures failed { OnErr result (Fails self.old self.new) }
    {
        self.pass()?;
        settle(&mut self.synced, &self.since);
        self.since.clear();
        self.past = self.past.and(&Call::Sync);
        Ok(())
    }
}

// A call is done on the pages.
fn settle_one(pages: &mut [PageRead], call: &Call)
    ensures { (disk : Disk) → disk.seen ≡ pages.old → pages.new ≡ (after disk call.now).seen }
{
    if let Call::Write { index, bytes } = call {
        let place = *index as usize;
        if place < pages.len() {
            pages[place] = PageRead::Content(*bytes);
        }
    }
}

// The calls are done on the pages: those that were written since hold what was written last, and no other is touched.
fn settle(pages: &mut [PageRead], calls: &[Call])
    ensures { pages.new ≡ (disk_after (at_first pages.old) calls.now).seen }
{
    for call in calls {
        settle_one(pages, call);
    }
}

// The content that a stop leaves in one page.
fn left(history: History, choice: PageChoice) -> PageRead
    ensures { (disk : Disk) (k : ℕ) → IsHistory disk k history → result ≡ page_left disk choice k }
{
    if !history.written {
        return history.stable;
    }
    match choice {
        PageChoice::Old => history.stable,
        PageChoice::New => history.seen,
        PageChoice::Torn => PageRead::Damaged,
    }
}

fn choose(first: &[PageRead], calls: &[Call], pages: &mut [PageRead], pick: Pick<'_>)
    requires same { length first.now ≡ length pages.old }
    requires small { length pages.old < 2 ^ 16 }
    ensures { (k : ℕ) → k < length pages.new
        → page_at pages.new k ≡ page_left (disk_after (at_first first.now) calls.now)
        (choice_at pick.entry k) k }
{
    for index in 0..pages.len() {
        let history = history_of(first[index], calls, index as u16);
        pages[index] = left(history, pick.choice(index));
    }
}

impl<A: Allocator + Copy> Pages for MemoryPages<A> {
    ghost use Rattle.dlms_pages.specs.Device.{Goes, Reads, Writes, Syncs};
    ghost use Rattle.dlms_pages.specs.Memory.{view_of};
    ghost use Rattle.dlms_pages.specs.MemoryRules.{memory_rules};

    ghost view = { λ m. view_of m };

    ghost rules = { λ m honest. memory_rules m };

    fn count(&self) -> u16 {
        self.pages.len() as u16
    }

    fn faults(&self) -> u64 {
        self.faults
    }

    fn read(&mut self, index: u16) -> Result<PageRead, DeviceFault>
        requires { index < length (view_of self.old).seen }
        ensures goes { Goes (view_of self.old) (view_of self.new) result }
        ensures page { (view_of self.old).honest ≡ true
            → Reads index (view_of self.old) (view_of self.new) result }
        ensures due { IsErr result ↔ (fails_at self.old.plan 0 ≡ true) }
        ensures passed { OnOk result (Passes self.old self.new self.old.calls) }
        ensures failed { OnErr result (Fails self.old self.new) }
    {
        self.pass()?;
        Ok(self.pages[index as usize])
    }

    fn write(&mut self, index: u16, bytes: &[u8; PAGE_BYTES]) -> Result<(), DeviceFault>
        requires { index < length (view_of self.old).seen }
        ensures goes { Goes (view_of self.old) (view_of self.new) result }
        ensures written { (view_of self.old).honest ≡ true
            → Writes index bytes.now (view_of self.old) (view_of self.new) result }
        ensures due { fails_at self.old.plan 0 ≡ true → IsErr result }
        ensures cause { OnErr result ((fails_at self.old.plan 0 ≡ true) ⊎ (self.old.room ≡ 0)) }
        ensures passed { OnOk result (Passes self.old self.new
            (self.old.calls ++ Call.Write index bytes.now ∷ [])) }
        ensures failed { OnErr result (Fails self.old self.new) }
    {
        self.record_write(index, bytes)
    }

    fn sync(&mut self) -> Result<(), DeviceFault>
        ensures goes { Goes (view_of self.old) (view_of self.new) result }
        ensures synced { (view_of self.old).honest ≡ true
            → Syncs (view_of self.old) (view_of self.new) result }
        ensures due { IsErr result ↔ (fails_at self.old.plan 0 ≡ true) }
        ensures passed { OnOk result (Passes self.old self.new (self.old.calls ++ Call.Sync ∷ [])) }
        ensures room { OnOk result (self.old.room ≤ self.new.room) }
        ensures failed { OnErr result (Fails self.old self.new) }
    {
        self.record_sync()
    }
}
