//! Laws over whole runs. They make no call: the calls' own contracts cite the same definitions.

ghost use Rattle.std.specs.Prelude.{◌≡◌, ℕ, List, ◌++◌, length, map};
ghost use Rattle.dlms_pages.specs.File.{file_view};
ghost use Rattle.dlms_pages.specs.Slots.{Slots};
ghost use Rattle.dlms_pages.specs.Stops.{LeavesOnly};
ghost use Rattle.dlms_state.specs.declared.event.Event.{Event};
ghost use Rattle.dlms_store.specs.Fitting.{DeviceFits, StoreFits};
ghost use Rattle.dlms_store.specs.Going.{LeftDuring, StopsDuring};
ghost use Rattle.dlms_store.specs.Store.{view_of};
ghost use Rattle.dlms_store.specs.World.{StoreRun, StoreStep, StoreWorld};
ghost use Rattle.dlms_meter.specs.Run.{MeterWorld, Stands, Comes, FoundMemory, first_world, recovered};
ghost use Rattle.dlms_meter.specs.Alike.{IsAlike};
ghost use Rattle.dlms_meter.specs.Steps.{Step, Call, Calls, HasCauses, Run, step_of};
ghost use Rattle.dlms_meter.specs.Independence.{IsAlone, IsIndependent};
ghost use Rattle.dlms_meter.specs.Billing.{NothingIsTakenBack};
ghost use Rattle.dlms_meter.specs.Filed.{FindsInFile, IsBetween, IsOpenedBehind, IsOpenOf};
ghost use Rattle.dlms_meter.specs.Healthy.{HealthyCallsGoWell};
ghost use Rattle.dlms_meter.specs.Lives.{RecoversInLives, NoFurtherStopInLives};
ghost use Rattle.dlms_meter.specs.Own.{AreOwn, AreOwnInLives, StayOwn};
ghost use Rattle.dlms_meter.specs.Storing.{store_steps, RecoversInRuns};
ghost use Rattle.dlms_meter.specs.Transfers.{AreInTurn, BlocksJoin, NoBlockUnasked};

use crate::Meter;
use dlms_pages::{FilePages, Pages, SlotFile};
use std::alloc::Allocator;

/// The calls of a meter, one after another, are a run from each world that it stood for, and it then stands for the world that the
/// run leads to. Each fault in the run has its cause in its own call.
pub fn calls_are_a_run<P: Pages, A: Allocator + Copy>(_old: &Meter<P, A>, _new: &Meter<P, A>)
    ensures { (calls : List Call) (w : MeterWorld) (is : Calls _old.now calls _new.now)
        → Stands _old.now w
        → (w' : MeterWorld) × (run : Run w (map step_of calls) w')
        × HasCauses _old.now calls _new.now is w w' run × Stands _new.now w' }
{}

/// If each call met no device fault, the store was not stopped before it, and no checkpoint was missing, the calls are a run in
/// which no frame is answered with result 1 for the device, and no event meets a fault. Such a run has one outcome if memory is
/// found (`one_outcome`).
pub fn healthy_calls_are_served<P: Pages, A: Allocator + Copy>(
    _old: &Meter<P, A>,
    _new: &Meter<P, A>,
)
    ensures { HealthyCallsGoWell _old.now _new.now }
{}

/// A meter's record of each client is that client's own, initially and after a recovery, and no run makes it another's. This is
/// true of every meter that was formatted or recovered, whatever calls it had since, and over stops and recoveries.
pub fn records_stay_own<P: Pages, A: Allocator + Copy>(_old: &Meter<P, A>, _new: &Meter<P, A>)
    ensures begins { AreOwn first_world × ((events : List Event) → AreOwn (recovered events)) }
    ensures runs { StayOwn }
    ensures lives { AreOwnInLives }
    ensures calls { (calls : List Call) (w : MeterWorld) → Calls _old.now calls _new.now
        → Stands _old.now w → AreOwn w
        → (w' : MeterWorld) × Run w (map step_of calls) w' × Stands _new.now w' × AreOwn w' }
{}

/// However a piece of bytes is cut in two, its frames, its replies and its events are the same.
pub fn pieces_join()
    ensures { (w m w' : MeterWorld) (front back : List ℕ) (first second : List (List ℕ))
        → Comes w front first m → Comes m back second w'
        → Comes w (front ++ back) (first ++ second) w' }
{}

/// A piece of bytes has one outcome if memory is found and the device fails at none of its frames: the replies and the world that
/// it leads to. If more was settled in one of two worlds, the replies are still the same.
pub fn one_outcome()
    ensures equal { (w u v : MeterWorld) (bytes : List ℕ) (first second : List (List ℕ))
        (a : Comes w bytes first u) (b : Comes w bytes second v)
        → FoundMemory a.turns → FoundMemory b.turns → (first ≡ second) × (u ≡ v) }
    ensures alike { (w w' u v : MeterWorld) (bytes : List ℕ) (first second : List (List ℕ))
        → IsAlike w w' → (a : Comes w bytes first u) (b : Comes w' bytes second v)
        → FoundMemory a.turns → FoundMemory b.turns → (first ≡ second) × IsAlike u v }
{}

/// The steps of the store in a run of the meter are a run of the store: the laws of the store's runs apply to it.
pub fn stores_in_turn()
    ensures { (w w' : MeterWorld) (steps : List Step) (run : Run w steps w')
        → StoreRun w.store (store_steps w steps w' run) w'.store }
{}

/// The clients are independent: a client's replies come of its own frames, its own record and the events accepted before each
/// of them, and of nothing else. Pieces, silences, other clients' frames, pulses and moments between them matter by these
/// alone.
pub fn independence()
    ensures alone { IsAlone }
    ensures equal { IsIndependent }
{}

/// Whatever came to a formatted meter, a recovery after a stop finds a beginning of the accepted events. It has every event that
/// was settled before an answer, and lacks at most one page of records.
pub fn recovers_in_runs()
    ensures { RecoversInRuns }
{}

/// So it is over stops and recoveries, wherever the power stopped: in a call, in a recovery or between them.
pub fn recovers_in_lives()
    ensures { RecoversInLives }
{}

/// What was answered is never taken back: after an answer of success, or with data, in any run of a meter, every later recovery
/// finds all events that were accepted before that answer, wherever the power stopped: in a call, in a recovery or between them.
pub fn nothing_is_taken_back()
    ensures { NothingIsTakenBack }
{}

/// The same for a meter in a file that keeps the rules of slots (`dlms_pages`): if the machine stopped at any moment of its calls,
/// the pages opened over the remaining slots are a device that fits the world after that stop; and a recovery over them finds what
/// `recovers_in_runs` states, from which the runs and lives of these laws continue.
pub fn recovers_in_a_file<F: SlotFile + Drop, A: Allocator, B: Allocator + Copy>(
    _old: &Meter<FilePages<F, A>, B>,
    _new: &Meter<FilePages<F, A>, B>,
    _pages: &FilePages<F, A>,
    _again: &Meter<FilePages<F, A>, B>,
)
    ensures stops { (before : StoreWorld) (steps : List StoreStep)
        → LeavesOnly (view_of _old.now.store) (view_of _new.now.store) (LeftDuring before steps)
        → (at : Slots) → IsBetween (F.slots _old.now.store.device.file)
        (F.slots _new.now.store.device.file) at
        → IsOpenedBehind F.slots (length _new.now.store.device.unsynced) at _pages.now
        → (now : StoreWorld) × StopsDuring before steps now
        × DeviceFits (file_view F.slots _pages.now) now }
    ensures recovers { (w : MeterWorld) (steps : List Step) (run : Run first_world steps w)
        → StoreFits _new.now.store w.store
        → IsOpenedBehind F.slots (length _new.now.store.device.unsynced)
        (F.slots _new.now.store.device.file) _pages.now
        → IsOpenOf F.slots _pages.now _again.now.store
        → FindsInFile w steps run _again.now.store }
{}

/// The first stop fixes what every later recovery finds.
pub fn no_further_stop_matters()
    ensures { NoFurtherStopInLives }
{}

/// A client's APDUs in a run are answered one after another, each from its association and transfers as the one before left them.
/// The blocks of one GET are blocks of the attribute's encoding at its request, whatever comes between them: joined, they are a
/// prefix of it, and all of it once the last is returned. A client without a transfer gets no block before a GET of its own.
pub fn blocks_join()
    ensures turns { AreInTurn }
    ensures joined { BlocksJoin }
    ensures unasked { NoBlockUnasked }
{}
