//! Laws of reports. They make no call.

ghost use Rattle.std.specs.Prelude.{◌≡◌, ◌≤◌, ◌⊎◌, ℕ, List, Some, false, length};
ghost use Rattle.dlms_acse.specs.Verdict.{Request};
ghost use Rattle.dlms_dissect.specs.declared.joining.TheConstants.{MOST_VALUE};
ghost use Rattle.dlms_dissect.specs.declared.named.Asked.{Asked};
ghost use Rattle.dlms_dissect.specs.declared.segments.TheConstants.{MOST_APDU};
ghost use Rattle.dlms_dissect.specs.declared.talks.TheConstants.{MOST_TALKS};
ghost use Rattle.dlms_dissect.specs.Association.{told_of};
ghost use Rattle.dlms_dissect.specs.History.{AreUnbroken, IsKept, Step, WasAsked, talk_after_all};
ghost use Rattle.dlms_dissect.specs.Secrets.{secrecy_at};
ghost use Rattle.dlms_dissect.specs.Survey.{Names, noted_all, nothing, secrecy_of_named};
ghost use Rattle.dlms_dissect.specs.Openly.{Leaves, is_open};
ghost use Rattle.dlms_dissect.specs.Walk.{IsRead, Told, next_of};
ghost use Rattle.dlms_dissect.specs.declared.named.Named.{Named};
ghost use Rattle.dlms_dissect.specs.declared.secrecy.Secrecy.{Secrecy};
ghost use Rattle.dlms_dissect.specs.declared.secrecy.Secrecy.TheVariants.{Secret};
ghost use Rattle.dlms_dissect.specs.declared.walk.Step.{Step as WalkStep};

use crate::talks::Talk;
use std::alloc::Allocator;

/// Association requests that differ only in their secrets have the same report.
pub fn secrets_are_told_alike()
    ensures { (r : Request) (secret other : List ℕ)
        → told_of (record r { secret = Some secret }) ≡ told_of (record r { secret = Some other }) }
{}

/// Whatever was lost from a log, and whatever stands between: what an answer or a value in blocks is known to be of was named by a
/// request in the log, and since then no frame was missing by the numbers of the link, which went neither down nor up; or it was
/// known before.
pub fn only_what_was_asked<A: Allocator>(_talk: &Talk<A>)
    ensures { (steps : List (Step A)) (a : Asked) → IsKept (talk_after_all _talk.now steps) a
        → (IsKept _talk.now a × AreUnbroken _talk.now steps) ⊎ WasAsked _talk.now steps a }
{}

/// If a field of an APDU names a secret, all its values are reported as secrets, whatever else it names and in whatever order.
pub fn one_secret_hides_all()
    ensures { (ts : List Told) (n : Named) → Names ts n → secrecy_at n ≡ Secret
        → secrecy_of_named (noted_all nothing ts).chief ≡ Secret }
{}

/// No octet is shown beside the report of an APDU from the first field on that is reported by its length or not at all: all its
/// octets, and those after it, are among the rest.
pub fn no_octet_beside_a_secret()
    ensures { (known : Secrecy) (steps behind next : List WalkStep) (octets rest left : List ℕ)
        (before : List Told) (t : Told) (count : ℕ) → Leaves known steps octets count
        → IsRead steps octets before behind rest → next_of behind rest ≡ Some (t, next, left)
        → is_open known t ≡ false → length rest ≤ count }
{}

/// The numbers of this crate.
pub fn the_numbers()
    ensures most { (MOST_TALKS ≡ 8) × (MOST_APDU ≡ 65535) × (MOST_VALUE ≡ 65536) }
{}
