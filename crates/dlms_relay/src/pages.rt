//! Pages whose writes and syncs are queued.
ghost use Rattle.std.specs.Prelude.{◌≡◌, ◌<◌, ◌≤◌, ◌*◌, ◌++◌, ◌∷◌, [], true, IfOk, OnOk, OnErr, IsErr, length};
ghost use Rattle.rtrb.specs.Ring.{IsPair, SameProducer, known_free, known_items, received, sent};
ghost use Rattle.dlms_pages.specs.Device.{Goes, Reads, Writes, Syncs};
ghost use Rattle.dlms_pages.specs.Memory.{IsNew, fails_at, view_of};
ghost use Rattle.dlms_pages.specs.MemoryRules.{memory_rules};
ghost use Rattle.dlms_pages.specs.Stops.{IsFixed};
ghost use Rattle.dlms_relay.specs.Loaded.{IsLoaded};
ghost use Rattle.dlms_pages.specs.declared.memory.Call.TheVariants.{Write, Sync};

use crate::loading::load_pages;
use dlms_pages::{Call, DeviceFault, MemoryPages, PAGE_BYTES, PageRead, Pages};
use rtrb::{Consumer, Producer, RingBuffer};
use std::alloc::{AllocError, Allocator, Global};

/// The end from which the writes and syncs of `RelayedPages` are taken, each once, in the order in which they were made.
pub type Relay<A = Global> = Consumer<Call, A>;

/// A device in memory whose writes and syncs another program repeats on its own device. Each successful one is also in the queue.
/// If the queue is full the call fails, and so does every later one.
///
/// It keeps the disk rules: reads return what was written here. A stop leaves what those rules say about the calls that the other
/// program has carried out, if its device keeps them, and it carries out the calls in order.
#[derive(Drop)]
pub struct RelayedPages<A: Allocator + Copy = Global> {
    pages: MemoryPages<A>,
    queue: Producer<Call, A>,
    ghost in_order: { sent queue ≡ pages.calls },
}

impl<A: Allocator + Copy> RelayedPages<A> {
    /// So many pages of zeros, as after a sync, with room for so many writes and syncs that were not taken yet.
    pub fn new(alloc: A, count: u16, room: usize) -> Result<(RelayedPages<A>, Relay<A>), AllocError>
        ensures new { IfOk result (λ r. IsNew count r.0.pages) }
        ensures pair { IfOk result (λ r. IsPair r.0.queue r.1) }
        ensures nothing { IfOk result (λ r. (sent r.0.queue ≡ []) × (received r.1 ≡ [])) }
    {
        let pages = MemoryPages::new(alloc, count)?;
        let (queue, relay) = RingBuffer::new(alloc, room)?;
        Ok((RelayedPages { pages, queue }, relay))
    }

    /// The pages in these octets, 544 for each: its 512, and the seal that `FilePages` uses. A page whose seal does not match reads
    /// as damaged. A stop may leave nothing else of them, so a caller that reads them from a file must have written them there
    /// again and synced it.
    pub fn over(
        alloc: A,
        octets: &[u8],
        count: u16,
        room: usize,
    ) -> Result<(RelayedPages<A>, Relay<A>), AllocError>
        requires { 544 * count ≤ length octets.now }
        ensures image { IfOk result (λ r. IsLoaded octets.now count r.0.pages.first) }
        ensures fixed { IfOk result (λ r. IsFixed (view_of r.0.pages) r.0.pages.first) }
        ensures pair { IfOk result (λ r. IsPair r.0.queue r.1) }
        ensures nothing { IfOk result (λ r. (sent r.0.queue ≡ []) × (received r.1 ≡ [])) }
    {
        let pages = load_pages(alloc, octets, count)?;
        let (queue, relay) = RingBuffer::new(alloc, room)?;
        Ok((RelayedPages { pages, queue }, relay))
    }

    /// How many writes and syncs were not taken yet. What was taken is what the device did, in its order, up to those.
    pub fn waiting(&mut self, relay: &mut Relay<A>) -> usize
        requires { IsPair self.old.queue relay.old }
        ensures taken { received relay.new ≡ received relay.old }
        ensures in_order { received relay.new ++ known_items relay.new ≡ self.new.pages.calls }
        ensures count { result ≡ length (known_items relay.new) }
        ensures pages { self.new.pages ≡ self.old.pages }
        ensures pair { IsPair self.new.queue relay.new }
    {
        relay.slots_beside(&mut self.queue)
    }

    // Makes this call and every later one fail if the queue is full.
    fn check_room(&mut self)
        ensures pages { self.new.pages ≡ record self.old.pages { plan = self.new.pages.plan } }
        ensures queue { SameProducer self.old.queue self.new.queue
            × (sent self.new.queue ≡ sent self.old.queue) }
        ensures full { known_free self.new.queue ≡ 0 → fails_at self.new.pages.plan 0 ≡ true }
    {
        if self.queue.is_full() {
            self.pages.fuse(0);
        }
    }
}

impl<A: Allocator + Copy> Pages for RelayedPages<A> {
    ghost view = { λ d. view_of d.pages };

    ghost rules = { λ d honest. memory_rules d.pages };

    fn count(&self) -> u16 {
        self.pages.count()
    }

    fn faults(&self) -> u64 {
        self.pages.faults()
    }

    fn read(&mut self, index: u16) -> Result<PageRead, DeviceFault>
        requires { index < length (view_of self.old.pages).seen }
        ensures goes { Goes (view_of self.old.pages) (view_of self.new.pages) result }
        ensures page { (view_of self.old.pages).honest ≡ true
            → Reads index (view_of self.old.pages) (view_of self.new.pages) result }
        ensures queue { self.new.queue ≡ self.old.queue }
    {
        self.pages.read(index)
    }

    fn write(&mut self, index: u16, bytes: &[u8; PAGE_BYTES]) -> Result<(), DeviceFault>
        requires { index < length (view_of self.old.pages).seen }
        ensures goes { Goes (view_of self.old.pages) (view_of self.new.pages) result }
        ensures written { (view_of self.old.pages).honest ≡ true
            → Writes index bytes.now (view_of self.old.pages) (view_of self.new.pages) result }
        ensures ring { SameProducer self.old.queue self.new.queue }
        ensures queued { OnOk result (sent self.new.queue ≡ sent self.old.queue
            ++ Call.Write index bytes.now ∷ []) }
        ensures failed { OnErr result (sent self.new.queue ≡ sent self.old.queue) }
    {
        self.check_room();
        self.pages.write(index, bytes)?;
        self.queue.push_reserved(Call::Write {
            index,
            bytes: *bytes,
        });
        Ok(())
    }

    fn sync(&mut self) -> Result<(), DeviceFault>
        ensures goes { Goes (view_of self.old.pages) (view_of self.new.pages) result }
        ensures synced { (view_of self.old.pages).honest ≡ true
            → Syncs (view_of self.old.pages) (view_of self.new.pages) result }
        ensures ring { SameProducer self.old.queue self.new.queue }
        ensures queued { OnOk result (sent self.new.queue ≡ sent self.old.queue ++ Call.Sync ∷ []) }
        ensures failed { OnErr result (sent self.new.queue ≡ sent self.old.queue) }
    {
        self.check_room();
        self.pages.sync()?;
        self.queue.push_reserved(Call::Sync);
        Ok(())
    }
}
