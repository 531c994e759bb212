//! What a recovery finds in an image, and what it would do.
ghost use Rattle.std.specs.Prelude.{◌≡◌, ◌≢◌, Err, IfOk, IsErr, MatchResult, option_map};
ghost use Rattle.dlms_pages.specs.Device.{Rose};
ghost use Rattle.dlms_store.specs.Cause.{IsCause};
ghost use Rattle.dlms_survey.specs.Survey.{IsFoundIn, IsGateOf, IsRecovery, IsSurveyed, state_in};

use crate::image::Image;
use dlms_state::State;
use dlms_store::{Edition, Found, OpenFault, Slot, active, find, open_edition};
use std::alloc::{AllocError, Allocator, Global};

/// The action of a recovery.
#[derive(Clone, Copy, PartialEq, Eq)]
pub enum Recovery {
    /// It would open the store, and write nothing.
    Nothing,
    /// It would write a checkpoint into this slot, with this generation.
    Checkpoint(Slot, u64),
    /// It would refuse.
    Refused(OpenFault),
}

/// The action of a recovery, given what it finds.
fn recovery_of<A: Allocator + Copy>(found: &Found<A>) -> Recovery
    ensures { IsRecovery found.now result }
{
    if !found.is_due() {
        return Recovery::Nothing;
    }
    match found.edition.generation.checked_add(1) {
        Some(next) => Recovery::Checkpoint(found.slot.other(), next),
        None => Recovery::Refused(OpenFault::Exhausted),
    }
}

/// The edition of the gate of a slot, if it is whole, open and of a known version.
fn gate_in<A: Allocator + Copy>(image: &Image<A>, slot: Slot) -> Option<Edition>
    ensures { IsGateOf slot image.now.pages result }
{
    open_edition(image.page(slot.gate()))
}

/// The result of a recovery of an image, by the store's own reading.
fn found_in<A: Allocator + Copy>(alloc: A, image: &mut Image<A>) -> Result<Found<A>, OpenFault>
    ensures found { IsFoundIn image.old.pages result }
    ensures size { result ≢ Err OpenFault.Size }
    ensures device { result ≡ Err OpenFault.Device → Rose image.old.faults image.new.faults }
    ensures pages { image.new.pages ≡ image.old.pages }
{
    image.has_all_pages();
    find(alloc, image)
}

/// The result of a recovery of an image: the editions of its two gates, the slot that counts, and the events that this slot and the
/// journal represent, or why they represent none.
#[derive(Drop)]
pub struct Survey<A: Allocator = Global> {
    /// The edition of the first slot's gate, if it is whole, open and of a known version.
    pub first: Option<Edition>,
    /// The edition of the second one.
    pub second: Option<Edition>,
    /// Which slot counts, or why none does.
    pub active: Result<(Slot, Edition), OpenFault>,
    /// The result of a recovery, or why it would refuse.
    pub found: Result<Found<A>, OpenFault>,
}

impl<A: Allocator + Copy> Survey<A> {
    /// Surveys an image. Want of memory comes of the rows of the state, and so only where all else is that of one.
    pub fn of(alloc: A, image: &mut Image<A>) -> Result<Survey<A>, AllocError>
        ensures surveyed { IfOk result (IsSurveyed image.old.pages) }
        ensures told { IfOk result (λ survey. (survey.found ≢ Err OpenFault.Size)
            × (survey.found ≢ Err OpenFault.Memory)) }
        ensures device { IfOk result (λ survey. survey.found ≡ Err OpenFault.Device
            → Rose image.old.faults image.new.faults) }
        ensures memory { IsErr result → IsCause OpenFault.Memory image.old.pages }
        ensures pages { image.new.pages ≡ image.old.pages }
    {
        let first = gate_in(image, Slot::First);
        let second = gate_in(image, Slot::Second);
        let found = found_in(alloc, image);
        if let Err(OpenFault::Memory) = found {
            return Err(AllocError);
        }
        Ok(Survey {
            first,
            second,
            active: active(first, second),
            found,
        })
    }

    /// The action of a recovery.
    pub fn recovery(&self) -> Recovery
        ensures { MatchResult self.now.found (λ found. IsRecovery found result)
            (λ fault. result ≡ Recovery.Refused fault) }
    {
        match &self.found {
            Ok(found) => recovery_of(found),
            Err(fault) => Recovery::Refused(*fault),
        }
    }

    /// The state after all events that a recovery finds; none exactly if it would refuse.
    pub fn state(&self) -> Option<&State<A>>
        ensures { option_map (λ state. state.now) result ≡ state_in self.now.found }
    {
        match &self.found {
            Ok(found) => Some(&found.state),
            Err(_) => None,
        }
    }
}
