//! What holds of every run of calls of a file, with stops between them and inside them, as functions whose contracts are the laws.
ghost use Rattle.std.specs.Prelude.{◌≡◌, ◌<◌, ◌^◌, length, false, Some, Err, MatchResult};
ghost use Rattle.dlms_pages.specs.Device.{Image};
ghost use Rattle.dlms_pages.specs.Stops.{IsFixed, LeavesOnly};
ghost use Rattle.dlms_counters.specs.File.{view_of};
ghost use Rattle.dlms_counters.specs.Fingerprint.{fingerprint_of};
ghost use Rattle.dlms_counters.specs.Image.{recovered};
ghost use Rattle.dlms_counters.specs.Slot.{CounterState};
ghost use Rattle.dlms_counters.specs.Run.{World, IsWorld, Fits, Leads, LeftDuring, settled, NothingIsLost, NothingIsLowered, RestoresAssociations};
ghost use Rattle.dlms_counters.specs.Run.Event.{Reserves, Accepts};
ghost use Rattle.dlms_counters.specs.Writing.{IsEither};
ghost use Rattle.dlms_counters.specs.declared.fault.CounterFault.TheVariants.{Device};
ghost use Rattle.dlms_counters.specs.declared.counters.TheConstants.{MOST_PEERS};
ghost use Rattle.dlms_counters.specs.declared.slot.TheConstants.{FORMAT, HEAD_BYTES, PEER_BYTES};

use crate::fault::{CounterFault, OpenFault};
use crate::file::CounterFile;
use dlms_pages::Pages;

/// However calls and stops follow one another, a recovery finds no reservation below one that `reserve` returned, and for each peer
/// no counter below one with which `accept` succeeded.
pub fn nothing_is_lost()
    ensures { NothingIsLost }
{}

/// Neither is below what the file had before.
pub fn nothing_is_lowered()
    ensures { NothingIsLowered }
{}

/// What an association of `dlms_security` gets back after a stop is not below what it had, as the laws there require.
pub fn restores_associations()
    ensures { RestoresAssociations }
{}

/// `reserve` is an event of a run, and a stop inside it leaves what the event with a fault leaves.
pub fn reserve_is_a_step<P: Pages>(
    file: &mut CounterFile<P>,
    step: u32,
) -> Result<u32, CounterFault>
    ensures step { (w : World) → Fits file.old w → Leads w (Reserves step result) file.new }
    ensures inside { (w : World) → Fits file.old w → LeavesOnly (view_of file.old)
        (view_of file.new) (LeftDuring w (Reserves step (Err Device))) }
{
    file.reserve(step)
}

/// `accept` is an event of a run, and a stop inside it leaves what the event with a fault leaves.
pub fn accept_is_a_step<P: Pages>(
    file: &mut CounterFile<P>,
    title: &[u8; 8],
    counter: u32,
) -> Result<(), CounterFault>
    ensures step { (w : World) → Fits file.old w
        → Leads w (Accepts title.now counter result) file.new }
    ensures inside { (w : World) → Fits file.old w → LeavesOnly (view_of file.old)
        (view_of file.new) (LeftDuring w (Accepts title.now counter (Err Device))) }
{
    file.accept(title, counter)
}

// A number of 32 bits.
fn fits_word(reserved: u32)
    ensures { reserved < 2 ^ 32 }
{
    let _reserved = reserved;
}

/// The laws' premise on worlds is true of every file that runs.
pub fn a_running_file_is_in_a_world<P: Pages>(file: &CounterFile<P>)
    ensures { (w : World) → Fits file.now w → file.now.stopped ≡ false → IsWorld w }
{
    fits_word(file.reserved());
}

/// While no call is made, a stop leaves what the file's world allows.
pub fn a_stop_between_calls<P: Pages>(file: &CounterFile<P>)
    ensures { (w : World) (image : Image) → Fits file.now w → (view_of file.now).may_leave image
        → IsEither w.known w.maybe image }
{
    let _file = file;
}

/// `open` after a stop: the file has what a recovery finds in the image that the stop left, and fits the world after the stop.
pub fn open_fits_what_a_stop_left<P: Pages>(
    device: P,
    own: &[u8; 8],
    key: &[u8; 16],
) -> Result<CounterFile<P>, (P, OpenFault)>
    ensures { (image : Image) (c : CounterState) → IsFixed (P.view device) image
        → length image ≡ 2 → recovered image ≡ Some c → c.own ≡ own.now
        → c.fingerprint ≡ fingerprint_of own.now key.now
        → MatchResult result (λ file. Fits file (settled c)) (λ e. e.1 ≡ OpenFault.Device) }
{
    CounterFile::open(device, own, key)
}

/// The numbers that clauses and definitions cite by name.
pub fn the_numbers()
    ensures peers { MOST_PEERS ≡ 39 }
    ensures layout { (FORMAT ≡ 0x4301) × (HEAD_BYTES ≡ 40) × (PEER_BYTES ≡ 12) }
{}
