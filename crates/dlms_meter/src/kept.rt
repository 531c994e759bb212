//! The large parts of a meter, kept on the heap.

ghost use Rattle.std.specs.Prelude.{◌≡◌, ◌≤◌, ◌<◌, ◌↔◌, IsTrue, [], None, length, take, IfNone, IfOk, IsSome, option_map};
ghost use Rattle.dlms_frame.specs.Stream.{Fits, Takes};
ghost use Rattle.dlms_frame.specs.declared.client.Client.TheVariants as ClientOf;
ghost use Rattle.dlms_meter.specs.ClientRecord.{fresh_record};
ghost use Rattle.dlms_meter.specs.declared.connection.TheConstants.{MOST_OCTETS};
ghost use Rattle.dlms_meter.specs.Messages.{Responding, disconnected_record};
ghost use Rattle.dlms_meter.specs.Run.{Handling};
ghost use Rattle.dlms_service.specs.Session.{not_possible};
ghost use Rattle.dlms_meter.specs.Sparing.{SparesSlots};
ghost use Rattle.dlms_store.specs.Going.{Knows};
ghost use Rattle.dlms_store.specs.Later.{IsLater};
ghost use Rattle.dlms_store.specs.World.{StoreWorld};

use crate::connection::{Connection, Reply};
use dlms_frame::{Client, Deframer, Frame};
use dlms_pages::Pages;
use dlms_service::Answer;
use dlms_store::Store;
use std::alloc::{AllocError, Allocator};
use std::marker::Model;

/// The deframer of the line, on the heap.
#[derive(Drop)]
pub struct KeptDeframer<A: Allocator> {
    deframer: Box<Deframer, A>,
}

impl<A: Allocator> Model for KeptDeframer<A> {
    ghost use Rattle.dlms_frame.specs.Stream.{Kept};

    ghost Value = { Kept };

    ghost view = { λ kept. kept.deframer.value };
}

impl<A: Allocator> KeptDeframer<A> {
    /// The state at the start of a stretch. It is a function of its own, so that the deframer is on the stack in no other call.
    #[inline(never)]
    pub fn new(alloc: A) -> Result<Self, AllocError>
        ensures { IfOk result (λ kept. Fits kept.bytes [] 0) }
    {
        let deframer = Box::new(alloc, Deframer::new())?;
        Ok(KeptDeframer { deframer })
    }

    /// Silence on the line: a new stretch begins.
    pub fn idle(&mut self)
        ensures bytes { Fits self.new.bytes [] 0 }
        ensures frame { self.new.frame ≡ None }
    {
        self.deframer.idle();
    }

    /// Takes bytes through the first frame that becomes whole, or all of them, and says how many.
    pub fn feed(&mut self, bytes: &[u8]) -> usize
        ensures len { result ≤ length bytes.now }
        ensures some { 0 < length bytes.now → 0 < result }
        ensures all { IfNone self.new.frame (result ≡ length bytes.now) }
        ensures takes { Takes self.old.bytes (take result bytes.now) self.new.frame self.new.bytes }
    {
        self.deframer.feed(bytes)
    }

    /// The frame that the last call of `feed` ended, if it ended one.
    pub fn frame(&self) -> Option<Frame<'_>>
        ensures { result ≡ self.now.frame }
    {
        self.deframer.frame()
    }
}

/// One client's connection, on the heap.
#[derive(Drop)]
pub struct KeptConnection<A: Allocator> {
    connection: Box<Connection<A>, A>,
}

impl<A: Allocator> Model for KeptConnection<A> {
    ghost use Rattle.dlms_meter.specs.ClientRecord.{ClientRecord};

    ghost Value = { ClientRecord };

    ghost view = { λ kept. kept.connection.value };
}

impl<A: Allocator + Copy> KeptConnection<A> {
    /// No link, no association and no transfer. It is a function of its own, so that the connection is on the stack in no other
    /// call.
    #[inline(never)]
    pub fn new(alloc: A, client: Client) -> Result<Self, AllocError>
        ensures { IfOk result (λ kept. kept ≡ fresh_record client) }
    {
        let connection = Box::new(alloc, Connection::new(client))?;
        Ok(KeptConnection { connection })
    }

    /// Whether the client has an association.
    pub fn is_associated(&self) -> bool
        ensures { IsTrue result ↔ IsSome self.now.session.opened }
    {
        self.connection.is_associated()
    }

    /// Ends the association and the transfers. The link stays as it is.
    pub fn disconnect(&mut self)
        ensures { self.new ≡ disconnected_record self.old }
    {
        self.connection.disconnect();
    }

    /// The answer to an APDU that came in a message, and in the store the event that it led to.
    pub fn request<P: Pages>(&mut self, alloc: A, store: &mut Store<P, A>, apdu: &[u8]) -> Answer
        ensures served { length apdu.now ≤ MOST_OCTETS → (before : StoreWorld) → Knows store.old before
            → Responding self.old.session apdu.now result.items self.new.session before store.old store.new }
        ensures too_long { MOST_OCTETS < length apdu.now
            → (result.items ≡ (not_possible self.old.session).answer)
            × (self.new ≡ self.old) × (store.new ≡ store.old) }
        ensures short { length result.items ≤ MOST_OCTETS }
        ensures link { self.new.link ≡ self.old.link }
        ensures spares { SparesSlots store.old store.new }
        ensures later { IsLater store.old store.new }
    {
        self.connection.request(alloc, store, apdu)
    }

    /// The reply to a frame, and in the store the event that it led to.
    pub fn answer<P: Pages>(
        &mut self,
        alloc: A,
        store: &mut Store<P, A>,
        frame: &Frame<'_>,
    ) -> Option<Reply>
        ensures handled { (before : StoreWorld) → Knows store.old before
            → Handling self.old frame.now
            (option_map (λ reply. reply.items) result) self.new before store.old store.new }
        ensures spares { SparesSlots store.old store.new }
        ensures later { IsLater store.old store.new }
    {
        self.connection.answer(alloc, store, frame)
    }
}

/// The line and the clients' connections of a meter that is being made.
#[derive(Drop)]
pub struct Lines<A: Allocator> {
    pub deframer: KeptDeframer<A>,
    pub public: KeptConnection<A>,
    pub management: KeptConnection<A>,
    pub reader: KeptConnection<A>,
}

impl<A: Allocator + Copy> Lines<A> {
    /// A line on which nothing has come, and connections of which none is up.
    #[inline(never)]
    pub fn new(alloc: A) -> Result<Self, AllocError>
        ensures line { IfOk result (λ lines. Fits lines.deframer.bytes [] 0) }
        ensures public { IfOk result (λ lines. lines.public ≡ fresh_record ClientOf.Public) }
        ensures management { IfOk result
            (λ lines. lines.management ≡ fresh_record ClientOf.Management) }
        ensures reader { IfOk result (λ lines. lines.reader ≡ fresh_record ClientOf.Reader) }
    {
        let deframer = KeptDeframer::new(alloc)?;
        let public = KeptConnection::new(alloc, Client::Public)?;
        let management = KeptConnection::new(alloc, Client::Management)?;
        let reader = KeptConnection::new(alloc, Client::Reader)?;
        Ok(Lines {
            deframer,
            public,
            management,
            reader,
        })
    }
}
