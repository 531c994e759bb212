//! What holds of every run of device calls, as functions whose contracts are the laws. They make no call.
ghost use Rattle.std.specs.Prelude.{◌≡◌, ◌<◌, ◌+◌, ℕ, List, [], ◌∷◌, length, pos};
ghost use Rattle.dlms_pages.specs.declared.descriptor.TheConstants.{FIRST_OWN};
ghost use Rattle.dlms_pages.specs.declared.memory.Call.TheVariants.{Write, Sync};
ghost use Rattle.dlms_pages.specs.Laws.{StopsKeepTheRules, StopsSinceKeepTheRules, StopsAreOfPages, SyncsLeaveOneImage, LeavesEachOutcome};
ghost use Rattle.dlms_pages.specs.Memory.{Memory};
ghost use Rattle.dlms_pages.specs.Reopening.{OpensWhatWasLeft};
ghost use Rattle.dlms_pages.specs.declared.device.TheConstants.{PAGE_BYTES};
ghost use Rattle.dlms_pages.specs.declared.seal.TheConstants.{SLOT_BYTES};

use crate::{Pages, SlotFile};

/// Whatever calls were made of a device since a moment at which a stop could leave one image alone, a stop leaves each
/// page as it was then, or as a write since left it. So does a stop at any moment between.
pub fn a_stop_leaves_old_new_or_torn_pages<P: Pages>()
    ensures now { StopsKeepTheRules P.view }
    ensures since { StopsSinceKeepTheRules P.view }
{}

/// After a sync that succeeded a stop leaves what reads give.
pub fn a_sync_leaves_one_image<P: Pages>()
    ensures { SyncsLeaveOneImage P.view }
{}

/// The rules are not trivial: in memory, a page that was written, synced and written again may be left old, new or torn,
/// and in no other way.
pub fn each_outcome_may_be_left_and_no_other()
    ensures { (memory : Memory) (index : ℕ) (old new : List ℕ) → index < length memory.first
        → memory.calls ≡ Write index old ∷ Sync ∷ Write index new ∷ []
        → LeavesEachOutcome memory index old new }
{}

/// If a stop leaves slots as the rules of a file of slots say, it leaves the pages in them as the disk rules say. So pages in a
/// file that keeps its rules are a device that keeps the disk rules.
pub fn stops_of_a_file_are_stops_of_its_pages()
    ensures { StopsAreOfPages }
{}

/// After a stop of the machine, pages are opened again over what is left of a file that keeps its rules: they are what the stop
/// left of the earlier pages, and no other image is left from then on, nor was one by a stop during the opening.
pub fn a_file_opened_again_has_what_a_stop_left<F: SlotFile>()
    ensures { OpensWhatWasLeft F.slots }
{}

/// The sizes by which pages and slots are laid out, in bytes: a slot is a page and its seal, a SHA-256. And the first descriptor that
/// is not a standard stream.
pub fn the_numbers()
    ensures sizes { (PAGE_BYTES ≡ 512) × (SLOT_BYTES ≡ PAGE_BYTES + 32) }
    ensures descriptor { FIRST_OWN ≡ pos 3 }
{}
