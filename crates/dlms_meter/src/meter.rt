//! The meter: the clients' links and services over the store.

ghost use Rattle.std.specs.Prelude.{◌≡◌, ◌≤◌, ◌<◌, ◌≢◌, ◌⊎◌, ◌++◌, ◌↔◌, [], ℕ, List, None, Some, length, take, IfOk, IfErr, IsSome, IsTrue, MatchResult, option_map, true};
ghost use Rattle.dlms_frame.specs.Stream.{Fits};
ghost use Rattle.dlms_frame.specs.declared.client.Client.{Client};
ghost use Rattle.dlms_frame.specs.declared.client.Client.TheVariants as ClientOf;
ghost use Rattle.dlms_meter.specs.ClientRecord.{fresh_record};
ghost use Rattle.dlms_pages.specs.Device.{Image, Rose};
ghost use Rattle.dlms_state.specs.declared.event.Event.{Event};
ghost use Rattle.dlms_state.specs.StateValue.{IsStateOf};
ghost use Rattle.dlms_store.specs.Cause.{IsCause};
ghost use Rattle.dlms_store.specs.Fitting.{StoreFits, DeviceFits, IsOpened, IsRefusal, OpensAs, GivesBack, GivesUp};
ghost use Rattle.dlms_store.specs.Later.{GoesOn, IsLater, LeavesNoEarlier};
ghost use Rattle.dlms_store.specs.Steady.{Fixes, FixesNothing, IsSpared, StandsBetween, Steady};
ghost use Rattle.dlms_store.specs.Image.{StandsFor};
ghost use Rattle.dlms_store.specs.Store.{records_in, state_in, view_of, IsRunning, IsStopped, IsTooSmall, CommitIsExhausted, Remembers};
ghost use Rattle.dlms_store.specs.Writing.{IsClear, IsFormatted, Leaves};
ghost use Rattle.dlms_store.specs.World.{StoreWorld};
ghost use Rattle.dlms_store.specs.World.StoreWorld.{Runs};
ghost use Rattle.dlms_store.specs.World.StoreStep.{Closes, ClosesInDoubt};
ghost use Rattle.dlms_meter.specs.Run.{Stands, Feeds, EndsFrame, Judges, MeterWorld, first_world, recovered, silent, client_at, Replies, events_of, record_for};
ghost use Rattle.dlms_meter.specs.Messages.{KeepsOthers, Requests, disconnected};
ghost use Rattle.dlms_meter.specs.Sparing.{SparesSlots};

use crate::connection::Reply;
use crate::kept::{KeptConnection, KeptDeframer, Lines};
use dlms_frame::{Address, Client};
use dlms_pages::Pages;
use dlms_service::Answer;
use dlms_state::{Event, State};
use dlms_store::{AddFault, OpenFault, Store};
use std::alloc::{Allocator, Global};

/// A meter with its registers, its clock and its load profile, which its clients read and set over one line, each with a link,
/// an association and transfers of its own. What an answer of success, or with data, speaks of outlasts a stop of the power.
/// The line and the connections, some 29 KB, are on the heap: `format` and `recover` take memory for them, and no other call does.
#[derive(Drop)]
pub struct Meter<P: Pages, A: Allocator + Copy = Global> {
    alloc: A,
    deframer: KeptDeframer<A>,
    public: KeptConnection<A>,
    management: KeptConnection<A>,
    reader: KeptConnection<A>,
    store: Store<P, A>,
}

/// The client whose frames come from an address.
fn client_at(address: Address) -> Option<Client>
    ensures { result ≡ client_at address }
{
    match address {
        Address::One(sap) => Client::of_sap(sap),
        _ => None,
    }
}

impl<P: Pages, A: Allocator + Copy> Meter<P, A> {
    /// A meter in which nothing has happened, on a device that is made empty.
    pub fn format(alloc: A, device: P) -> Result<Self, (P, OpenFault)>
        ensures stands { IfOk result (λ meter. Stands meter first_world) }
        ensures fits { (P.view device).honest ≡ true
            → IfOk result (λ meter. StoreFits meter.store first_world.store) }
        ensures formatted { (P.view device).honest ≡ true
            → IfOk result (λ meter. Leaves (view_of meter.store) IsFormatted) }
        ensures size { IfErr result (λ e. (e.1 ≡ OpenFault.Size) ↔ IsTooSmall (P.view device)) }
        ensures small { IfErr result (λ e. e.1 ≡ OpenFault.Size → e.0 ≡ device) }
        ensures device { IfErr result (λ e. e.1 ≡ OpenFault.Device
            → Rose (P.view device).faults (P.view e.0).faults) }
        ensures later { MatchResult result (λ meter. GoesOn (P.view device) (view_of meter.store))
            (λ e. GoesOn (P.view device) (P.view e.0)) }
        ensures faults { IfErr result (λ e. (e.1 ≢ OpenFault.NoCheckpoint)
            × ((page : ℕ) → e.1 ≢ OpenFault.Corrupt page) × (e.1 ≢ OpenFault.Exhausted)) }
        ensures memory { (P.view device).honest ≡ true
            → IfErr result (λ e. e.1 ≡ OpenFault.Memory → Leaves (P.view e.0) IsClear) }
    {
        let Ok(lines) = Lines::new(alloc) else {
            return Err(Store::<P, A>::refuse_format(device));
        };
        let store = Store::format(alloc, device)?;
        Ok(Meter::over(alloc, lines, store))
    }

    /// A meter with every event that its device held, its links down.
    pub fn recover(alloc: A, device: P) -> Result<Self, (P, OpenFault)>
        ensures opens { (before : StoreWorld) → DeviceFits (P.view device) before
            → IfOk result (λ meter. OpensAs before (P.view device) meter.store) }
        ensures opened { IfOk result (λ meter. (events : List Event)
            × Remembers events [] meter.store) }
        ensures stands { IfOk result (λ meter. (events : List Event)
            → Remembers events [] meter.store → Stands meter (recovered events)) }
        ensures gives_back { (before : StoreWorld) → DeviceFits (P.view device) before
            → IfErr result (λ e. GivesBack before (P.view device) (P.view e.0) e.1) }
        ensures exact { (P.view device).honest ≡ true
            → MatchResult result (λ meter. IsOpened (P.view device).seen meter.store)
            (λ e. IsCause e.1 (P.view device).seen) }
        ensures spared { (P.view device).honest ≡ true
            → IfErr result (λ e. IsSpared (P.view device) (P.view e.0) e.1) }
        ensures size { IfErr result (λ e. (e.1 ≡ OpenFault.Size) ↔ IsTooSmall (P.view device)) }
        ensures small { IfErr result (λ e. e.1 ≡ OpenFault.Size → e.0 ≡ device) }
        ensures device { IfErr result (λ e. e.1 ≡ OpenFault.Device
            → Rose (P.view device).faults (P.view e.0).faults) }
        ensures later { MatchResult result (λ meter. GoesOn (P.view device) (view_of meter.store))
            (λ e. GoesOn (P.view device) (P.view e.0)) }
        // At any stop while the meter is recovered, the device represents the events that every image of it represented before.
        ensures steady { (events : List Event) → (P.view device).honest ≡ true
            → ((image : Image) → (P.view device).may_leave image → StandsFor events image)
            → MatchResult result (λ meter. Steady events (P.view device) (view_of meter.store))
            (λ e. Steady events (P.view device) (P.view e.0)) }
        ensures fixes { (settled pending : List Event) → (P.view device).honest ≡ true
            → ((image : Image) → (P.view device).may_leave image
            → StandsBetween settled pending image)
            → MatchResult result (λ meter. Fixes settled pending (P.view device)
            (view_of meter.store))
            (λ e. Fixes settled pending (P.view device) (P.view e.0)
            ⊎ ((e.1 ≡ OpenFault.Device) × FixesNothing settled pending (P.view device)
            (P.view e.0))) }
        ensures finds { (events : List Event) → (P.view device).honest ≡ true
            → StandsFor events (P.view device).seen
            → MatchResult result (λ meter. Remembers events [] meter.store) (λ e. IsRefusal e.1) }
    {
        let Ok(lines) = Lines::new(alloc) else {
            return Err(Store::refuse_open(alloc, device));
        };
        let store = Store::open(alloc, device)?;
        Ok(Meter::over(alloc, lines, store))
    }

    /// New links over a store.
    fn over(alloc: A, lines: Lines<A>, store: Store<P, A>) -> Self
        requires line { Fits lines.deframer.bytes [] 0 }
        requires public { lines.public ≡ fresh_record ClientOf.Public }
        requires management { lines.management ≡ fresh_record ClientOf.Management }
        requires reader { lines.reader ≡ fresh_record ClientOf.Reader }
        ensures store { result.store ≡ store }
        ensures line { Fits result.deframer.bytes [] 0 }
        ensures own { (who : Client) → fresh_record who ≡ record_for result who }
    {
        Meter {
            alloc,
            deframer: lines.deframer,
            public: lines.public,
            management: lines.management,
            reader: lines.reader,
            store,
        }
    }

    /// Pulses on a channel.
    pub fn pulses(&mut self, channel: u8, count: u32) -> Result<(), AddFault>
        ensures judges { Judges self.old (Event.Pulses channel count) result self.new }
        ensures later { IsLater self.old.store self.new.store }
    {
        self.accept(Event::Pulses(channel, count))
    }

    /// The meter's own running second.
    pub fn moment(&mut self, second: u32) -> Result<(), AddFault>
        ensures judges { Judges self.old (Event.Moment second) result self.new }
        ensures later { IsLater self.old.store self.new.store }
    {
        self.accept(Event::Moment(second))
    }

    /// Silence on the line: half a frame is forgotten.
    pub fn idle(&mut self)
        ensures run { (w : MeterWorld) → Stands self.old w → Stands self.new (silent w) }
        ensures store { self.new.store ≡ self.old.store }
    {
        self.deframer.idle();
    }

    /// Whether any client has an association.
    pub fn is_associated(&self) -> bool
        ensures { IsTrue result ↔ ((who : Client)
            × IsSome (record_for self.now who).session.opened) }
    {
        self.public.is_associated()
            || self.management.is_associated()
            || self.reader.is_associated()
    }

    /// The state after the accepted events.
    pub fn state(&self) -> &State<A>
        ensures { (w : MeterWorld) → Stands self.now w → IsStateOf (events_of w) result.now }
    {
        self.store.state()
    }

    /// Settles what is pending, and gives the device back. Where that fails, what was pending is in doubt.
    pub fn close(self) -> P
        ensures run { (before : StoreWorld) → StoreFits self.store before
            → GivesUp Closes before (view_of self.store) (P.view result)
            ⊎ GivesUp ClosesInDoubt before (view_of self.store) (P.view result) }
        ensures settles { (IsStopped self.store → ⊥)
            → (Rose (view_of self.store).faults (P.view result).faults → ⊥)
            → (CommitIsExhausted self.store → ⊥)
            → (before : StoreWorld) → StoreFits self.store before
            → GivesUp Closes before (view_of self.store) (P.view result) }
        ensures nothing { IsRunning self.store → records_in self.store ≡ []
            → result ≡ self.store.device }
        ensures later { GoesOn (view_of self.store) (P.view result) }
        ensures from { IsRunning self.store
            → (Rose (view_of self.store).faults (P.view result).faults → ⊥) → (before : StoreWorld)
            → StoreFits self.store before → LeavesNoEarlier self.store (P.view result) }
    {
        self.store.close()
    }

    /// Takes bytes through at most one frame, and answers it. A client's frames change what the meter keeps of that client
    /// alone, and the store by one event at most; frames of anyone else are ignored.
    pub fn feed(&mut self, bytes: &[u8]) -> (usize, Option<Reply>)
        ensures len { result.0 ≤ length bytes.now }
        ensures some { 0 < length bytes.now → 0 < result.0 }
        // It leaves bytes only if a frame ends with the last one that it took.
        ensures all { (w : MeterWorld) → Stands self.old w → result.0 < length bytes.now
            → EndsFrame w (take result.0 bytes.now) }
        ensures feeds { Feeds self.old (take result.0 bytes.now)
            (option_map (λ reply. reply.items) result.1) self.new }
        ensures spares { SparesSlots self.old.store self.new.store }
        ensures later { IsLater self.old.store self.new.store }
    {
        let taken = self.deframer.feed(bytes);
        let Some(frame) = self.deframer.frame() else {
            return (taken, None);
        };
        match client_at(frame.src) {
            Some(Client::Public) => {
                let reply = self.public.answer(self.alloc, &mut self.store, &frame);
                (taken, reply)
            }
            Some(Client::Management) => {
                let reply = self.management.answer(self.alloc, &mut self.store, &frame);
                (taken, reply)
            }
            Some(Client::Reader) => {
                let reply = self.reader.answer(self.alloc, &mut self.store, &frame);
                (taken, reply)
            }
            None => (taken, None),
        }
    }

    /// Answers one APDU of a client, which came in a message, without a link (IEC 62056-47: the wrapper's port is the client's
    /// service access point). The answer is the one that the APDU has over a link. It changes what the meter keeps of that client
    /// alone, and the store by one event at most. An APDU of more than 1024 octets is answered with exception-response, not
    /// possible. Call `disconnect` when the connection that brings the messages ends.
    pub fn request(&mut self, who: Client, apdu: &[u8]) -> Answer
        ensures requests { Requests self.old who apdu.now result.items self.new }
        ensures others { KeepsOthers who self.old self.new }
        ensures spares { SparesSlots self.old.store self.new.store }
        ensures later { IsLater self.old.store self.new.store }
    {
        match who {
            Client::Public => self.public.request(self.alloc, &mut self.store, apdu),
            Client::Management => self.management.request(self.alloc, &mut self.store, apdu),
            Client::Reader => self.reader.request(self.alloc, &mut self.store, apdu),
        }
    }

    /// Ends a client's association and its transfers: the connection that brought its messages is lost. Its link, if it has one,
    /// stays as it is.
    pub fn disconnect(&mut self, who: Client)
        ensures run { (w : MeterWorld) → Stands self.old w → Stands self.new (disconnected w who) }
        ensures others { KeepsOthers who self.old self.new }
        ensures store { self.new.store ≡ self.old.store }
    {
        match who {
            Client::Public => self.public.disconnect(),
            Client::Management => self.management.disconnect(),
            Client::Reader => self.reader.disconnect(),
        }
    }

    /// Accepts an event, or says why it is not accepted.
    fn accept(&mut self, event: Event) -> Result<(), AddFault>
        ensures judges { Judges self.old event result self.new }
        ensures later { IsLater self.old.store self.new.store }
    {
        self.store.add(event)
    }
}
