//! Laws of every secured carrier, over any carrier. Nobody needs to call these functions: their contracts are the laws.

ghost use Rattle.dlms_secured.specs.Sizes.{AssociationsBegin, MessagesAreHandedUp, MessagesFit, ResponsesAreRead, SessionsAreHandedUp};
ghost use Rattle.std.specs.Prelude.{◌≡◌, ◌≤◌, length, true};
ghost use Rattle.dlms_secured.specs.declared.stage.Stage.TheVariants.{Closed};
ghost use Rattle.dlms_secured.specs.declared.messages.TheConstants.{LEAST_CLEAR, MOST_CARRIED, MOST_FIELD, OVERHEAD};
ghost use Rattle.dlms_carrier.specs.Carrying.{meaning};
ghost use Rattle.dlms_secured.specs.Run.{Authentic, ChallengesAreUsedOnce, HaveTags, IsTitled, has_tag, GuardedRuns, NeverInClear, NeverTwice, Opened, PassedOn, PassesOn, RunsLead};

use crate::guard::Guard;
use crate::terms::Terms;
use dlms_carrier::Carrier;
use dlms_security::{StoredState, laws};

/// A run of a secured carrier with a guard is a run of its carrier and of its security layers. In each call at most one message
/// is protected, and each APDU that goes out contains it. An APDU is handed up only if it came in the one message that was accepted,
/// or is a refusal of the association, the response after the meter's proof, or a release response. Before the association is open no
/// message is protected or accepted under the dedicated key.
pub fn runs_lead<C: Carrier>()
    ensures { RunsLead (meaning C.steps C.out_of C.apdu_of C.is_waiting) }
{}

/// In a run with a guard no counter of the global key is used twice, and no message under it is accepted twice.
pub fn never_twice<C: Carrier>()
    ensures { NeverTwice (meaning C.steps C.out_of C.apdu_of C.is_waiting) }
{
    laws::over_runs();
}

/// In an association each APDU that goes out contains an APDU that is protected by the global or the dedicated key under the policy. No
/// counter of the dedicated key is used twice, and no message under it is accepted twice.
pub fn never_in_clear<C: Carrier>()
    ensures { NeverInClear (meaning C.steps C.out_of C.apdu_of C.is_waiting) }
{
    laws::over_runs();
}

/// Under every policy an association has one meter, whose title was known before it or is that of an association response in it.
/// Each APDU that is handed up came in its protected form under this title, or follows the meter's proof, or carries no data. Under
/// encryption alone anyone can make such messages.
pub fn opened<C: Carrier>()
    ensures { Opened (meaning C.steps C.out_of C.apdu_of C.is_waiting) }
{
    laws::accepting();
}

/// Under a policy with tags each of these messages has the tag that the meter's keys give its APDU.
pub fn authentic<C: Carrier>()
    ensures { Authentic (meaning C.steps C.out_of C.apdu_of C.is_waiting) }
{
    laws::accepting();
}

/// In a run with a guard each challenge goes out in at most one association request, and at most one answer to it is accepted.
pub fn challenges_are_used_once<C: Carrier>()
    ensures { ChallengesAreUsedOnce (meaning C.steps C.out_of C.apdu_of C.is_waiting) }
{}

/// A run of the trait's calls with a guard is a run of which the other laws speak.
pub fn guarded_runs<C: Carrier>()
    ensures { GuardedRuns (meaning C.steps C.out_of C.apdu_of C.is_waiting) }
{}

/// Without a guard a run is the carrier's own, and each run of the carrier is one.
pub fn passed_on<C: Carrier>()
    ensures only { PassedOn (meaning C.steps C.out_of C.apdu_of C.is_waiting) }
    ensures each { PassesOn (meaning C.steps C.out_of C.apdu_of C.is_waiting) }
{}

/// The protected form of an APDU of at most the lowered size fits the carrier and the meter.
pub fn messages_fit()
    ensures { MessagesFit }
{}

/// In the plain association response the association reads the meter's services and the lowered size.
pub fn responses_are_read()
    ensures { ResponsesAreRead }
{}

/// The laws speak of something: an association request goes out, and what the meter protects is handed up.
pub fn associations_exist()
    ensures begin { AssociationsBegin }
    ensures hand_up { MessagesAreHandedUp }
    ensures session { SessionsAreHandedUp }
{
    laws::round_trip();
}

/// The premises of the laws are true of a new guard, which has no association. Those on states are true of every guard
/// (`Guard::counters_left`), and those on titles stay true.
pub fn premises_hold(
    terms: &Terms,
    stored: StoredState,
    challenge: &[u8],
    dedicated: Option<[u8; 16]>,
) -> Guard
    requires least { 8 ≤ length challenge.now }
    requires most { length challenge.now ≤ 64 }
    ensures titled { IsTitled result.dedicated result.security.peer }
    ensures tags { has_tag terms.now.policy ≡ true → HaveTags result }
    ensures stage { result.stage ≡ Closed }
    ensures unused { result.unused ≡ true }
{
    Guard::new(terms, stored, challenge, dedicated)
}

/// The numbers that clauses and definitions cite by name, in octets.
pub fn the_numbers()
    ensures { (MOST_CARRIED ≡ 1024) × (OVERHEAD ≡ 40) × (LEAST_CLEAR ≡ 64) × (MOST_FIELD ≡ 64) }
{}
