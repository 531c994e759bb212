//! The store of events.
ghost use Rattle.std.specs.Prelude.{◌≡◌, ◌≢◌, ◌≤◌, ◌<◌, ◌+◌, ◌^◌, ◌++◌, ◌∷◌, [], ◌↔◌, ◌⊎◌, List, ℕ, length, true, false, Ok, Err, Some, None, IfOk, IfErr, OnOk, OnErr, MatchResult, IsOk};
ghost use Rattle.dlms_pages.specs.Device.{Rose, Image};
ghost use Rattle.dlms_pages.specs.Stops.{IsFixed};
ghost use Rattle.dlms_state.specs.declared.event.Event.{Event as EventOf};
ghost use Rattle.dlms_journal.specs.Record.{record_of};
ghost use Rattle.dlms_state.specs.StateValue.{IsStateOf, HasEvents, HasNumberFor};
ghost use Rattle.dlms_state.specs.declared.event.Refused.{Refused};
ghost use Rattle.dlms_store.specs.declared.layout.TheConstants.{PAGES, JOURNAL_PAGES};
ghost use Rattle.dlms_journal.specs.declared.page.TheConstants.{MOST_PAYLOAD};
ghost use Rattle.dlms_store.specs.declared.layout.TheConstants.{LAST_GENERATION, MOST_CAPTURED};

use crate::fault::{AddFault, OpenFault, StoreFault};
use crate::format::{begin, make_clear};
use crate::layout::{JOURNAL, JOURNAL_PAGES, LAST_GENERATION, MOST_CAPTURED, PAGES, Slot};
use crate::numbers::{apply_counted, has_number_for};
use crate::open::{Found, settle_and_find};
use crate::put::put;
use crate::renew::renew;
use crate::slot::write_slot;
use arrayvec::ArrayVec;
use dlms_checkpoint::checkpoint_of;
use dlms_journal::{MOST_PAYLOAD, PageKind, append_record, page_of, record_length};
use dlms_pages::{DeviceFault, Pages};
use dlms_state::{Event, State};
use std::alloc::{Allocator, Global};

/// Events on a device of pages. Committed events survive a power failure; the others are kept in memory until a page is full. Only
/// `format` and `open` allocate memory.
#[derive(Drop)]
pub struct Store<P: Pages, A: Allocator = Global> {
    device: P,
    state: State<A>,
    /// The records of the events that are not committed yet.
    pending: ArrayVec<u8, MOST_PAYLOAD>,
    /// The slot whose checkpoint counts.
    slot: Slot,
    generation: u64,
    /// How many journal pages of this generation are written.
    next: u16,
    /// How many rows were captured since the active checkpoint.
    captured: u16,
    stopped: bool,
    ghost enough: { PAGES ≤ length (P.view device).seen },
    ghost few: { next ≤ JOURNAL_PAGES },
    ghost kept: { captured ≤ MOST_CAPTURED },
    ghost order: { captured ≤ state.rows.next },
}

impl<P: Pages, A: Allocator + Copy> Store<P, A> {
    ghost use Rattle.dlms_store.specs.Store.{view_of, state_in, records_in, IsStopped, IsRunning, IsTooSmall, IsLast, refusal_in, HasRoom, JoinsPending, AddIsExhausted, CommitIsExhausted, RoomIsExhausted, Remembers, Settles, Joins, JoinsAlone, Fails, IsElsewhereSame, IsFull, IsRenewed, IsRingFull, MakesCheckpoint, TakesPage};
    ghost use Rattle.dlms_store.specs.Later.{GoesOn, IsLater, LeavesNoEarlier};
    ghost use Rattle.dlms_store.specs.World.{StoreWorld};
    ghost use Rattle.dlms_store.specs.World.StoreWorld.{Runs, Rests};
    ghost use Rattle.dlms_store.specs.Active.{IsFound, IsFresh, IsStale};
    ghost use Rattle.dlms_store.specs.Cause.{IsCause};
    ghost use Rattle.dlms_store.specs.Image.{Quiet, StandsFor, all_of};
    ghost use Rattle.dlms_store.specs.Steady.{Fixes, FixesNothing, HasCheckpoint, IsRenewable, IsSpared, StandsBetween, Steady};
    ghost use Rattle.dlms_store.specs.Writing.{HasGate, HasJournalPage, IsClear, IsFormatted, Leaves};
    ghost use Rattle.dlms_store.specs.Fitting.{StoreFits, DeviceFits, IsOpened, IsRefusal, OpensAs, GivesBack, LeftBy, Moves, AddMoves, GivesUp, commit_step};
    ghost use Rattle.dlms_store.specs.World.StoreStep.{Adds, Closes, ClosesInDoubt};

    /// Makes a device empty: every page zeros, and the checkpoint of no events in the first slot.
    pub fn format(alloc: A, device: P) -> Result<Self, (P, OpenFault)>
        ensures fits { (P.view device).honest ≡ true
            → IfOk result (λ store. StoreFits store (Runs [] [])) }
        ensures empty { IfOk result (Remembers [] []) }
        ensures runs { IfOk result (λ store. IsStopped store → ⊥) }
        ensures formatted { (P.view device).honest ≡ true
            → IfOk result (λ store. Leaves (view_of store) IsFormatted) }
        ensures size { IfErr result (λ e. (e.1 ≡ OpenFault.Size) ↔ IsTooSmall (P.view device)) }
        ensures small { IfErr result (λ e. e.1 ≡ OpenFault.Size → e.0 ≡ device) }
        ensures later { MatchResult result (λ store. GoesOn (P.view device) (view_of store))
            (λ e. GoesOn (P.view device) (P.view e.0)) }
        ensures device { IfErr result (λ e. e.1 ≡ OpenFault.Device
            → Rose (P.view device).faults (P.view e.0).faults) }
        ensures faults { IfErr result (λ e. (e.1 ≢ OpenFault.NoCheckpoint)
            × ((page : ℕ) → e.1 ≢ OpenFault.Corrupt page) × (e.1 ≢ OpenFault.Exhausted)) }
        ensures memory { (P.view device).honest ≡ true
            → IfErr result (λ e. e.1 ≡ OpenFault.Memory → Leaves (P.view e.0) IsClear) }
    {
        let mut device = device;
        if let Err(fault) = make_clear(&mut device) {
            return Err((device, fault));
        }
        let Ok(state) = State::new(alloc) else {
            return Err((device, OpenFault::Memory));
        };
        if let Err(fault) = begin(&mut device, &checkpoint_of(&state)) {
            return Err((device, fault.into()));
        }
        Ok(Store {
            device,
            state,
            pending: ArrayVec::new(),
            slot: Slot::First,
            generation: 1,
            next: 0,
            captured: 0,
            stopped: false,
        })
    }

    /// Opens a device: syncs it, finds the newest checkpoint, and reads the journal's records up to the first page that does not
    /// fit. It makes a checkpoint if there were records, if that page is damaged, or if the pages have an older version.
    pub fn open(alloc: A, device: P) -> Result<Self, (P, OpenFault)>
        ensures opens { (before : StoreWorld) → DeviceFits (P.view device) before
            → MatchResult result (OpensAs before (P.view device))
            (λ e. GivesBack before (P.view device) (P.view e.0) e.1) }
        ensures opened { IfOk result (λ store. (events : List EventOf)
            × Remembers events [] store) }
        ensures runs { IfOk result (λ store. IsStopped store → ⊥) }
        ensures size { IfErr result (λ e. (e.1 ≡ OpenFault.Size) ↔ IsTooSmall (P.view device)) }
        ensures device { IfErr result (λ e. e.1 ≡ OpenFault.Device
            → Rose (P.view device).faults (P.view e.0).faults) }
        ensures small { IfErr result (λ e. e.1 ≡ OpenFault.Size → e.0 ≡ device) }
        ensures later { MatchResult result (λ store. GoesOn (P.view device) (view_of store))
            (λ e. GoesOn (P.view device) (P.view e.0)) }
        ensures spared { (P.view device).honest ≡ true
            → IfErr result (λ e. IsSpared (P.view device) (P.view e.0) e.1) }
        ensures exact { (P.view device).honest ≡ true
            → MatchResult result (IsOpened (P.view device).seen)
            (λ e. IsCause e.1 (P.view device).seen) }
        ensures steady { (events : List EventOf) → (P.view device).honest ≡ true
            → ((image : Image) → (P.view device).may_leave image → StandsFor events image)
            → MatchResult result (λ store. Steady events (P.view device) (view_of store))
            (λ e. Steady events (P.view device) (P.view e.0)) }
        ensures fixes { (settled pending : List EventOf) → (P.view device).honest ≡ true
            → ((image : Image) → (P.view device).may_leave image
            → StandsBetween settled pending image)
            → MatchResult result (λ store. Fixes settled pending (P.view device) (view_of store))
            (λ e. Fixes settled pending (P.view device) (P.view e.0)
            ⊎ ((e.1 ≡ OpenFault.Device) × FixesNothing settled pending (P.view device)
            (P.view e.0))) }
        ensures stands { (events : List EventOf) → (P.view device).honest ≡ true
            → StandsFor events (P.view device).seen
            → MatchResult result (Remembers events []) (λ e. IsRefusal e.1) }
    {
        let mut device = device;
        match settle_and_find(alloc, &mut device) {
            Ok(found) => Store::recover_store(device, found),
            Err(refusal) => Err((device, refusal)),
        }
    }

    /// Returns a device as `open` does if it gets no memory: `Memory` is reported if everything else is right, and nothing is
    /// written.
    pub fn refuse_open(alloc: A, device: P) -> (P, OpenFault)
        ensures gives_back { (before : StoreWorld) → DeviceFits (P.view device) before
            → GivesBack before (P.view device) (P.view result.0) result.1 }
        ensures size { (result.1 ≡ OpenFault.Size) ↔ IsTooSmall (P.view device) }
        ensures device { result.1 ≡ OpenFault.Device
            → Rose (P.view device).faults (P.view result.0).faults }
        ensures small { result.1 ≡ OpenFault.Size → result.0 ≡ device }
        ensures later { GoesOn (P.view device) (P.view result.0) }
        ensures spared { (P.view device).honest ≡ true
            → IsSpared (P.view device) (P.view result.0) result.1 }
        ensures exact { (P.view device).honest ≡ true → IsCause result.1 (P.view device).seen }
        ensures steady { (events : List EventOf) → (P.view device).honest ≡ true
            → ((image : Image) → (P.view device).may_leave image → StandsFor events image)
            → Steady events (P.view device) (P.view result.0) }
        ensures fixes { (settled pending : List EventOf) → (P.view device).honest ≡ true
            → ((image : Image) → (P.view device).may_leave image
            → StandsBetween settled pending image)
            → Fixes settled pending (P.view device) (P.view result.0)
            ⊎ ((result.1 ≡ OpenFault.Device)
            × FixesNothing settled pending (P.view device) (P.view result.0)) }
        ensures stands { (events : List EventOf) → (P.view device).honest ≡ true
            → StandsFor events (P.view device).seen → IsRefusal result.1 }
    {
        let mut device = device;
        if let Err(refusal) = settle_and_find(alloc, &mut device) {
            return (device, refusal);
        }
        (device, OpenFault::Memory)
    }

    /// Gives a device back as `format` does that is refused memory: cleared, with Memory, where all else is right.
    pub fn refuse_format(device: P) -> (P, OpenFault)
        ensures memory { (P.view device).honest ≡ true → result.1 ≡ OpenFault.Memory
            → Leaves (P.view result.0) IsClear }
        ensures size { (result.1 ≡ OpenFault.Size) ↔ IsTooSmall (P.view device) }
        ensures small { result.1 ≡ OpenFault.Size → result.0 ≡ device }
        ensures device { result.1 ≡ OpenFault.Device
            → Rose (P.view device).faults (P.view result.0).faults }
        ensures later { GoesOn (P.view device) (P.view result.0) }
        ensures faults { (result.1 ≢ OpenFault.NoCheckpoint)
            × ((page : ℕ) → result.1 ≢ OpenFault.Corrupt page) × (result.1 ≢ OpenFault.Exhausted) }
    {
        let mut device = device;
        if let Err(fault) = make_clear(&mut device) {
            return (device, fault);
        }
        (device, OpenFault::Memory)
    }

    // The store of what was found, with a checkpoint if one is due.
    fn recover_store(device: P, found: Found<A>) -> Result<Self, (P, OpenFault)>
        requires room { PAGES ≤ length (P.view device).seen }
        requires few { found.journal.pages ≤ JOURNAL_PAGES }
        requires captured { found.journal.captured ≤ MOST_CAPTURED }
        requires order { found.journal.captured ≤ found.state.rows.next }
        requires events { HasEvents found.state }
        ensures opens { (image : Image) (base : List EventOf) (pages : List (List EventOf))
            (events : List EventOf) → IsFixed (P.view device) image → IsFound image base pages found
            → base ++ all_of pages ≡ events → Quiet found.edition.generation (length pages) image
            → MatchResult result (OpensAs (Rests events) (P.view device))
            (λ e. GivesBack (Rests events) (P.view device) (P.view e.0) e.1) }
        ensures remembers { (events : List EventOf) → IsStateOf events found.state
            → IfOk result (Remembers events []) }
        ensures fresh { IfOk result (IsFresh found) }
        ensures stands { (image : Image) (base : List EventOf) (pages : List (List EventOf))
            → IsFixed (P.view device) image → IsFound image base pages found
            → IfOk result (HasCheckpoint (base ++ all_of pages)) }
        ensures steady { (image : Image) (base : List EventOf) (pages : List (List EventOf))
            → IsFixed (P.view device) image → IsFound image base pages found
            → MatchResult result (λ store. Steady (base ++ all_of pages) (P.view device)
            (view_of store)) (λ e. Steady (base ++ all_of pages) (P.view device) (P.view e.0)) }
        ensures runs { IfOk result (λ store. IsStopped store → ⊥) }
        ensures device { IfErr result (λ e. e.1 ≡ OpenFault.Device
            → Rose (P.view device).faults (P.view e.0).faults) }
        ensures exhausted { IfErr result (λ e. e.1 ≡ OpenFault.Exhausted
            → (found.edition.generation ≡ LAST_GENERATION) × IsStale found) }
        ensures spares { IfErr result (λ e. e.1 ≡ OpenFault.Exhausted → e.0 ≡ device) }
        ensures later { MatchResult result (λ store. GoesOn (P.view device) (view_of store))
            (λ e. GoesOn (P.view device) (P.view e.0)) }
        ensures faults { IfErr result (λ e. (e.1 ≡ OpenFault.Device)
            ⊎ (e.1 ≡ OpenFault.Exhausted)) }
    {
        let mut device = device;
        if !found.is_due() {
            return Ok(Store::at(device, found.slot, found.edition.generation, found.state));
        }
        match renew(&mut device, &found) {
            Ok(()) => {
                let slot = found.slot.other();
                let generation = found.edition.generation + 1;
                Ok(Store::at(device, slot, generation, found.state))
            }
            Err(fault) => Err((device, fault)),
        }
    }

    // A running store with nothing pending and an empty journal.
    fn at(device: P, slot: Slot, generation: u64, state: State<A>) -> Self
        requires { PAGES ≤ length (P.view device).seen }
        ensures device { result.device ≡ device }
        ensures state { state_in result ≡ state }
        ensures slot { result.slot ≡ slot }
        ensures generation { result.generation ≡ generation }
        ensures runs { result.stopped ≡ false }
        ensures empty { records_in result ≡ [] }
        ensures next { result.next ≡ 0 }
        ensures captured { result.captured ≡ 0 }
    {
        Store {
            device,
            state,
            pending: ArrayVec::new(),
            slot,
            generation,
            next: 0,
            captured: 0,
            stopped: false,
        }
    }

    /// Accepts an event. If its record does not fit after the pending ones, those are committed first; if 240 rows were captured
    /// since the last checkpoint, a checkpoint is made. `Exhausted` is also reported if the event's row would have a number past 64
    /// bits.
    pub fn add(&mut self, event: Event) -> Result<(), AddFault>
        ensures run { (before : StoreWorld) → StoreFits self.old before
            → AddMoves result event before self.old self.new }
        ensures joins { OnOk result (JoinsPending self.old event → Joins event self.old self.new) }
        ensures joins_alone { OnOk result ((JoinsPending self.old event → ⊥)
            → JoinsAlone event self.old self.new) }
        ensures runs { OnOk result (IsStopped self.new → ⊥) }
        ensures stopped { (result ≡ Err AddFault.Stopped) ↔ IsStopped self.old }
        ensures refused { (cause : Refused) → (result ≡ Err (AddFault.Refused cause))
            ↔ (IsRunning self.old × (refusal_in self.old event ≡ Some cause)) }
        ensures device { result ≡ Err AddFault.Device → Fails self.old self.new }
        ensures answers { IsRunning self.old → refusal_in self.old event ≡ None
            → (Rose (view_of self.old).faults (view_of self.new).faults → ⊥)
            → (AddIsExhausted self.old event → ⊥) → IsOk result }
        ensures exhausted { (result ≡ Err AddFault.Exhausted)
            ↔ (IsRunning self.old × (refusal_in self.old event ≡ None)
            × AddIsExhausted self.old event) }
        ensures unchanged { OnErr result (result ≢ Err AddFault.Device → self.new ≡ self.old) }
        ensures page { OnOk result (length (records_in self.new) ≤ MOST_PAYLOAD) }
        ensures joins_in_memory { OnOk result (JoinsPending self.old event
            → IsElsewhereSame self.old self.new) }
        ensures takes_page { OnOk result ((JoinsPending self.old event → ⊥)
            → (IsRingFull self.old → ⊥) → (IsFull self.old → ⊥) → TakesPage self.old self.new) }
        ensures makes_checkpoint { OnOk result ((JoinsPending self.old event → ⊥)
            → IsRingFull self.old ⊎ IsFull self.old → MakesCheckpoint self.old self.new) }
        ensures later { IsLater self.old self.new }
    {
        if self.stopped {
            return Err(AddFault::Stopped);
        }
        if let Err(cause) = self.state.check(&event) {
            return Err(AddFault::Refused(cause));
        }
        if !has_number_for(&self.state, &event) {
            return Err(AddFault::Exhausted);
        }
        self.make_room(&event, record_length(&event))?;
        self.push(event);
        Ok(())
    }

    // Makes space for an event whose record has this many bytes: if it may not join the pending ones, those are settled.
    fn make_room(&mut self, event: &Event, bytes: usize) -> Result<(), StoreFault>
        requires running { IsRunning self.old }
        requires bytes { bytes ≡ length (record_of event.now) }
        requires short { bytes ≤ MOST_PAYLOAD }
        ensures kept { JoinsPending self.old event.now → (result ≡ Ok tt) × (self.new ≡ self.old) }
        ensures run { (JoinsPending self.old event.now → ⊥) → (before : StoreWorld)
            → StoreFits self.old before → Moves (commit_step result) before self.old self.new }
        ensures settles { OnOk result ((JoinsPending self.old event.now → ⊥)
            → Settles self.old self.new) }
        ensures room { OnOk result (JoinsPending self.new event.now) }
        ensures takes_page { OnOk result ((JoinsPending self.old event.now → ⊥)
            → (IsRingFull self.old → ⊥) → (IsFull self.old → ⊥) → TakesPage self.old self.new) }
        ensures makes_checkpoint { OnOk result ((JoinsPending self.old event.now → ⊥)
            → IsRingFull self.old ⊎ IsFull self.old → MakesCheckpoint self.old self.new) }
        ensures runs { OnOk result (IsRunning self.new) }
        ensures state { state_in self.new ≡ state_in self.old }
        ensures stopped { result ≢ Err StoreFault.Stopped }
        ensures device { result ≡ Err StoreFault.Device → Fails self.old self.new }
        ensures answers { (Rose (view_of self.old).faults (view_of self.new).faults → ⊥)
            → (RoomIsExhausted self.old event.now → ⊥) → IsOk result }
        ensures exhausted { (result ≡ Err StoreFault.Exhausted)
            ↔ RoomIsExhausted self.old event.now }
        ensures unchanged { OnErr result (result ≢ Err StoreFault.Device → self.new ≡ self.old) }
        ensures later { IsLater self.old self.new }
    {
        if self.captured == MOST_CAPTURED {
            return self.checkpoint();
        }
        if self.pending.len() + bytes <= MOST_PAYLOAD {
            return Ok(());
        }
        self.commit()
    }

    // Adds an event whose record fits, and states what that means for the events and the device.
    fn push(&mut self, event: Event)
        requires passes { refusal_in self.old event ≡ None }
        requires room { JoinsPending self.old event }
        requires number { HasNumberFor (state_in self.old) event }
        ensures run { (before : StoreWorld) → IsRunning self.old → StoreFits self.old before
            → Moves (Adds event) before self.old self.new }
        ensures joins { Joins event self.old self.new }
        ensures same { IsElsewhereSame self.old self.new }
        ensures number { (state_in self.old).rows.next ≤ (state_in self.new).rows.next }
        ensures page { length (records_in self.new) ≤ MOST_PAYLOAD }
    {
        self.join(event);
    }

    // Takes an event whose record fits.
    fn join(&mut self, event: Event)
        requires passes { refusal_in self.old event ≡ None }
        requires room { JoinsPending self.old event }
        requires number { HasNumberFor (state_in self.old) event }
        ensures joins { Joins event self.old self.new }
        ensures same { IsElsewhereSame self.old self.new }
        ensures number { (state_in self.old).rows.next ≤ (state_in self.new).rows.next }
        ensures captured { self.new.captured + (state_in self.old).rows.next ≡ self.old.captured + (state_in self.new).rows.next }
        ensures page { length (records_in self.new) ≤ MOST_PAYLOAD }
    {
        event.fits();
        append_record(&mut self.pending, &event);
        self.captured += apply_counted(&mut self.state, event);
    }

    /// Settles what is pending: in the next journal page or, where all are used, in a checkpoint. With nothing pending it
    /// does nothing. Once it is done, no more rows count as captured since the active checkpoint than before.
    pub fn commit(&mut self) -> Result<(), StoreFault>
        ensures run { (before : StoreWorld) → StoreFits self.old before
            → Moves (commit_step result) before self.old self.new }
        ensures settles { OnOk result (Settles self.old self.new) }
        ensures runs { OnOk result (IsStopped self.new → ⊥) }
        ensures empty { OnOk result (records_in self.new ≡ []) }
        ensures captured { OnOk result (self.new.captured ≤ self.old.captured) }
        ensures state { state_in self.new ≡ state_in self.old }
        ensures stopped { (result ≡ Err StoreFault.Stopped) ↔ IsStopped self.old }
        ensures device { result ≡ Err StoreFault.Device → Fails self.old self.new }
        ensures answers { IsRunning self.old
            → (Rose (view_of self.old).faults (view_of self.new).faults → ⊥)
            → (CommitIsExhausted self.old → ⊥) → IsOk result }
        ensures exhausted { (result ≡ Err StoreFault.Exhausted)
            ↔ (IsRunning self.old × CommitIsExhausted self.old) }
        ensures unchanged { OnErr result (result ≢ Err StoreFault.Device → self.new ≡ self.old) }
        ensures nothing { IsRunning self.old → records_in self.old ≡ []
            → (result ≡ Ok tt) × (self.new ≡ self.old) }
        ensures takes_page { OnOk result ((records_in self.old ≡ [] → ⊥) → (IsFull self.old → ⊥)
            → TakesPage self.old self.new) }
        ensures makes_checkpoint { OnOk result ((records_in self.old ≡ [] → ⊥) → IsFull self.old
            → MakesCheckpoint self.old self.new) }
        ensures page { (view_of self.old).honest ≡ true
            → OnOk result ((records_in self.old ≡ [] → ⊥) → (IsFull self.old → ⊥)
            → Leaves (view_of self.new) (HasJournalPage self.old.next self.old.generation
            (records_in self.old))) }
        ensures later { IsLater self.old self.new }
    {
        if self.stopped {
            return Err(StoreFault::Stopped);
        }
        if self.pending.is_empty() {
            return Ok(());
        }
        if self.next == JOURNAL_PAGES {
            return self.checkpoint();
        }
        let _numbers_fit = self.state.next_number();
        let page = page_of(
            PageKind::Journal,
            self.next,
            self.generation,
            self.pending.as_slice(),
        );
        if let Err(DeviceFault) = put(&mut self.device, JOURNAL + self.next, &page) {
            self.stopped = true;
            return Err(StoreFault::Device);
        }
        self.next += 1;
        self.pending.clear();
        Ok(())
    }

    /// Settles what is pending in a checkpoint: the other slot gets the state, and the journal begins again.
    pub fn checkpoint(&mut self) -> Result<(), StoreFault>
        ensures run { (before : StoreWorld) → StoreFits self.old before
            → Moves (commit_step result) before self.old self.new }
        ensures settles { OnOk result (Settles self.old self.new) }
        ensures runs { OnOk result (IsStopped self.new → ⊥) }
        ensures empty { OnOk result (records_in self.new ≡ []) }
        ensures state { state_in self.new ≡ state_in self.old }
        ensures stopped { (result ≡ Err StoreFault.Stopped) ↔ IsStopped self.old }
        ensures device { result ≡ Err StoreFault.Device → Fails self.old self.new }
        ensures renewed { OnOk result (IsRenewed self.old self.new) }
        ensures gate { (view_of self.old).honest ≡ true
            → OnOk result (Leaves (view_of self.new) (HasGate self.new.slot self.new.generation)) }
        ensures steady { (base : List EventOf) (pages : List (List EventOf))
            → IsRenewable base pages self.old
            → Steady (base ++ all_of pages) (view_of self.old) (view_of self.new) }
        ensures stands { (base : List EventOf) (pages : List (List EventOf))
            → IsRenewable base pages self.old
            → OnOk result (HasCheckpoint (base ++ all_of pages) self.new) }
        ensures answers { IsRunning self.old
            → (Rose (view_of self.old).faults (view_of self.new).faults → ⊥) → (IsLast self.old → ⊥)
            → IsOk result }
        ensures exhausted { (result ≡ Err StoreFault.Exhausted)
            ↔ (IsRunning self.old × IsLast self.old) }
        ensures unchanged { OnErr result (result ≢ Err StoreFault.Device → self.new ≡ self.old) }
        ensures later { IsLater self.old self.new }
    {
        if self.stopped {
            return Err(StoreFault::Stopped);
        }
        if self.generation == LAST_GENERATION {
            return Err(StoreFault::Exhausted);
        }
        let slot = self.slot.other();
        let checkpointed = self.state.next_number() - u128::from(self.captured);
        let generation = self.generation + 1;
        if let Err(DeviceFault) = write_slot(
            &mut self.device,
            slot,
            generation,
            &self.state,
            checkpointed,
        ) {
            self.stopped = true;
            return Err(StoreFault::Device);
        }
        self.slot = slot;
        self.generation = generation;
        self.next = 0;
        self.captured = 0;
        self.pending.clear();
        Ok(())
    }

    /// The state after every event that was accepted.
    pub fn state(&self) -> &State<A>
        ensures value { result.now ≡ state_in self.now }
        ensures after { (settled pending : List EventOf) → Remembers settled pending self.now
            → IsStateOf (settled ++ pending) result.now }
    {
        &self.state
    }

    /// How many bytes of records are not committed yet, at most 496.
    pub fn pending(&self) -> usize
        ensures bytes { result ≡ length (records_in self.now) }
        ensures page { result ≤ MOST_PAYLOAD }
    {
        self.pending.len()
    }

    /// Commits, and gives the device back. Where the commit fails, what was pending is in doubt.
    pub fn close(self) -> P
        ensures run { (before : StoreWorld) → StoreFits self before
            → GivesUp Closes before (view_of self) (P.view result)
            ⊎ GivesUp ClosesInDoubt before (view_of self) (P.view result) }
        ensures settles { (IsStopped self → ⊥)
            → (Rose (view_of self).faults (P.view result).faults → ⊥) → (CommitIsExhausted self → ⊥)
            → (before : StoreWorld) → StoreFits self before
            → GivesUp Closes before (view_of self) (P.view result) }
        ensures nothing { IsRunning self → records_in self ≡ [] → result ≡ self.device }
        ensures later { GoesOn (view_of self) (P.view result) }
        ensures from { IsRunning self → (Rose (view_of self).faults (P.view result).faults → ⊥)
            → (before : StoreWorld) → StoreFits self before → LeavesNoEarlier self (P.view result) }
    {
        let mut store = self;
        let _in_doubt = store.commit();
        store.device
    }
}
