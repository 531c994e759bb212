//! The file of counters.
ghost use Rattle.std.specs.Prelude.{◌≡◌, ◌≢◌, ◌+◌, ◌↔◌, length, true, false, Ok, Err, IfOk, IfErr, OnOk, MatchResult};

use crate::change::{accepting, reserving};
use crate::counters::Counters;
use crate::create::begin;
use crate::fault::{CounterFault, CreateFault, OpenFault};
use crate::find::{find, opened};
use crate::fingerprint::fingerprint_of;
use crate::put::store;
use crate::table::last_of;
use dlms_pages::Pages;

/// How many pages the device must have: two slots, written in turn.
pub const SLOTS: u16 = 2;

/// The frame counters of one own system title and key, kept through a stop of the power.
#[derive(Drop)]
pub struct CounterFile<P: Pages> {
    device: P,
    counters: Counters,
    stopped: bool,
    ghost two: { length (P.view device).seen ≡ 2 },
}

impl<P: Pages> CounterFile<P> {
    ghost use Rattle.dlms_pages.specs.Device.{Rose};
    ghost use Rattle.dlms_counters.specs.Slot.{first_of};
    ghost use Rattle.dlms_counters.specs.Change.{accepting, reserving};
    ghost use Rattle.dlms_counters.specs.File.{Attempts, Changes, MayChange, view_of};
    ghost use Rattle.dlms_counters.specs.Create.{Begins, IsUnused};
    ghost use Rattle.dlms_counters.specs.Fingerprint.{fingerprint_of};
    ghost use Rattle.dlms_counters.specs.Image.{opened, recovered};
    ghost use Rattle.dlms_counters.specs.Table.{last_of};
    ghost use Rattle.dlms_counters.specs.Writing.{IsSettled, Spares};

    /// Makes the file of an own system title and a key. `reserved` is 0 with a new key, otherwise a number above every own counter
    /// that was used. A CALLER MUST NOT pass a device whose file may have held counters before: two damaged pages count as unused, as
    /// a stop in this call leaves them. A fault gives the device back.
    pub fn create(
        device: P,
        own: &[u8; 8],
        key: &[u8; 16],
        reserved: u32,
    ) -> Result<CounterFile<P>, (P, CreateFault)>
        ensures contents { IfOk result (λ file. file.counters
            ≡ first_of own.now (fingerprint_of own.now key.now) reserved) }
        ensures runs { IfOk result (λ file. file.stopped ≡ false) }
        ensures size { IfErr result
            (λ e. (e.1 ≡ CreateFault.Size) ↔ (length (P.view device).seen ≢ 2)) }
        ensures small { IfErr result (λ e. e.1 ≡ CreateFault.Size → e.0 ≡ device) }
        ensures device { IfErr result (λ e. e.1 ≡ CreateFault.Device
            → Rose (P.view device).faults (P.view e.0).faults) }
        ensures unused { (P.view device).honest ≡ true
            → OnOk result (IsUnused (P.view device).seen) }
        ensures occupied { (P.view device).honest ≡ true → IfErr result
            (λ e. e.1 ≡ CreateFault.Occupied → (IsUnused (P.view device).seen → ⊥)
            × Spares (P.view device) (P.view e.0)) }
        ensures settled { (P.view device).honest ≡ true → IfOk result
            (λ file. IsSettled (view_of file) file.counters) }
        ensures begins { (P.view device).honest ≡ true → MatchResult result
            (λ file. Begins file.counters (P.view device) (view_of file))
            (λ e. e.1 ≢ CreateFault.Size
            → Begins (first_of own.now (fingerprint_of own.now key.now) reserved)
            (P.view device) (P.view e.0)) }
    {
        let mut device = device;
        if device.count() != SLOTS {
            return Err((device, CreateFault::Size));
        }
        let counters = Counters::new(*own, fingerprint_of(own, key), reserved);
        match begin(&mut device, &counters) {
            Ok(()) => Ok(CounterFile {
                device,
                counters,
                stopped: false,
            }),
            Err(fault) => Err((device, fault)),
        }
    }

    /// Opens the file of an own system title and a key: syncs the device, and finds the newest contents. A fault gives the device
    /// back, and nothing was written.
    pub fn open(device: P, own: &[u8; 8], key: &[u8; 16]) -> Result<CounterFile<P>, (P, OpenFault)>
        ensures size { IfErr result
            (λ e. (e.1 ≡ OpenFault.Size) ↔ (length (P.view device).seen ≢ 2)) }
        ensures device { IfErr result (λ e. e.1 ≡ OpenFault.Device
            → Rose (P.view device).faults (P.view e.0).faults) }
        ensures exact { (P.view device).honest ≡ true → MatchResult result
            (λ file. opened own.now (fingerprint_of own.now key.now)
            (recovered (P.view device).seen) ≡ Ok file.counters)
            (λ e. e.1 ≢ OpenFault.Size → e.1 ≢ OpenFault.Device
            → opened own.now (fingerprint_of own.now key.now)
            (recovered (P.view device).seen) ≡ Err e.1) }
        ensures settled { (P.view device).honest ≡ true → IfOk result
            (λ file. IsSettled (view_of file) file.counters) }
        ensures runs { IfOk result (λ file. file.stopped ≡ false) }
        ensures small { IfErr result (λ e. e.1 ≡ OpenFault.Size → e.0 ≡ device) }
        ensures spares { (P.view device).honest ≡ true → MatchResult result
            (λ file. Spares (P.view device) (view_of file))
            (λ e. e.1 ≢ OpenFault.Size → Spares (P.view device) (P.view e.0)) }
    {
        let mut device = device;
        if device.count() != SLOTS {
            return Err((device, OpenFault::Size));
        }
        let found = match find(&mut device) {
            Ok(found) => found,
            Err(fault) => return Err((device, fault.into())),
        };
        match opened(own, &fingerprint_of(own, key), found) {
            Ok(counters) => Ok(CounterFile {
                device,
                counters,
                stopped: false,
            }),
            Err(fault) => Err((device, fault)),
        }
    }

    /// The end of the reservation: every own counter below it may have been used.
    pub fn reserved(&self) -> u32
        ensures { result ≡ self.now.counters.reserved }
    {
        self.counters.reserved
    }

    /// The last accepted counter of a peer.
    pub fn accepted(&self, title: &[u8; 8]) -> Option<u32>
        ensures { result ≡ last_of self.now.counters.peers title.now }
    {
        last_of(self.counters.peers.as_slice(), title)
    }

    /// Raises the end of the reservation by `step`, at most to 2^32 - 1, and returns it once a stop cannot take it back. Pass it to
    /// the association (`Security::extend_reservation` of `dlms_security`).
    pub fn reserve(&mut self, step: u32) -> Result<u32, CounterFault>
        ensures changes { Changes (reserving self.old.stopped step self.old.counters) self.old
            self.new result }
        ensures end { IfOk result (λ end. end ≡ self.new.counters.reserved) }
    {
        let next = reserving(self.stopped, step, &self.counters)?;
        self.write(next)?;
        Ok(self.counters.reserved)
    }

    /// Keeps the counter of a message that was accepted from a peer, unless one that is not lower is kept. Once this succeeds, no
    /// stop takes the counter back.
    pub fn accept(&mut self, title: &[u8; 8], counter: u32) -> Result<(), CounterFault>
        ensures { MayChange (accepting self.old.stopped title.now counter self.old.counters)
            self.old self.new result }
    {
        match accepting(self.stopped, title, counter, &self.counters)? {
            Some(next) => self.write(next),
            None => Ok(()),
        }
    }

    /// The device. After a fault, open it again.
    pub fn into_device(self) -> P
        ensures { result ≡ self.device }
    {
        let CounterFile {
            device,
            counters: _,
            stopped: _,
        } = self;
        device
    }

    /// Writes the next contents.
    fn write(&mut self, next: Counters) -> Result<(), CounterFault>
        requires runs { self.old.stopped ≡ false }
        requires turn { next.sequence ≡ self.old.counters.sequence + 1 }
        ensures { Attempts next self.old self.new result }
    {
        match store(&mut self.device, &next) {
            Ok(()) => {
                self.counters = next;
                Ok(())
            }
            Err(_) => {
                self.stopped = true;
                Err(CounterFault::Device)
            }
        }
    }
}
