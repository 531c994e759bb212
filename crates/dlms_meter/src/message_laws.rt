//! The laws of whole runs (`laws`), over both carriers: frames of links and messages without a link, in any order. They make no
//! call: the calls' own contracts cite the same definitions.

ghost use Rattle.std.specs.Prelude.{◌≡◌, ℕ, List, map};
ghost use Rattle.dlms_frame.specs.declared.client.Client.{Client};
ghost use Rattle.dlms_service.specs.Serves.{FindsMemory};
ghost use Rattle.dlms_meter.specs.Histories.{AnyCall, AnyCalls, AllBlocksJoin, AllGoWell, AllHealthy, AllInTurn, AllOnTheirOwn, AreCaused, AreIndependent, AreOwnInEras, History, NoneIsTakenBack, NoneUnasked, RecoversInEras, act_of};
ghost use Rattle.dlms_meter.specs.Messages.{IsRequest};
ghost use Rattle.dlms_meter.specs.Run.{MeterWorld, Served, Stands};

use crate::Meter;
use dlms_pages::Pages;
use std::alloc::Allocator;

/// The calls of a meter, one after another, are a history from each world that it stood for, and it then stands for the world that
/// the history leads to. Each fault in it has its cause in its own call; if each call was healthy, none is answered with a fault.
pub fn calls_are_a_history<P: Pages, A: Allocator + Copy>(_old: &Meter<P, A>, _new: &Meter<P, A>)
    ensures caused { (calls : List AnyCall) (w : MeterWorld)
        (is : AnyCalls _old.now calls _new.now) → Stands _old.now w
        → (w' : MeterWorld) × (history : History w (map act_of calls) w')
        × AreCaused _old.now calls _new.now is w w' history × Stands _new.now w' }
    ensures healthy { (calls : List AnyCall) (w : MeterWorld)
        (is : AnyCalls _old.now calls _new.now) → AllHealthy _old.now calls _new.now is
        → Stands _old.now w
        → (w' : MeterWorld) × (history : History w (map act_of calls) w')
        × AllGoWell w (map act_of calls) w' history × Stands _new.now w' }
{}

/// An APDU in a message has one answer, and leads to one world, if memory is found and the device does not fail.
pub fn one_outcome()
    ensures { (w u v : MeterWorld) (who : Client) (apdu first second : List ℕ)
        (a : IsRequest w who apdu first u) (b : IsRequest w who apdu second v)
        → a.choice ≡ Served FindsMemory → b.choice ≡ Served FindsMemory
        → (first ≡ second) × (u ≡ v) }
{}

/// A meter's record of each client is that client's own in every history of a formatted meter, over stops and recoveries.
pub fn records_stay_own()
    ensures { AreOwnInEras }
{}

/// Whatever came to a formatted meter over either carrier, a recovery after a stop finds a beginning of the accepted events. It has
/// every event that was settled before an answer, and lacks at most one page of records.
pub fn recovers()
    ensures { RecoversInEras }
{}

/// What was answered over either carrier is never taken back: after an answer of success, or with data, every later recovery finds
/// all events that were accepted before that answer.
pub fn nothing_is_taken_back()
    ensures { NoneIsTakenBack }
{}

/// The clients are independent over both carriers: a client's replies come of its own frames, messages and lost connections, its
/// own record, and the events accepted before each of them.
pub fn independence()
    ensures alone { AllOnTheirOwn }
    ensures equal { AreIndependent }
{}

/// A client's APDUs are answered one after another over both carriers, and the blocks of one GET, joined, are a prefix of the
/// encoding that the attribute had at the request.
pub fn blocks_join()
    ensures turns { AllInTurn }
    ensures joined { AllBlocksJoin }
    ensures unasked { NoneUnasked }
{}
