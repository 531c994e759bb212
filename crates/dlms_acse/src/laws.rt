//! Laws of reading, whole and inside the fields, of writing, and of the names of services. They make no call.

ghost use Rattle.std.specs.Prelude.{◌≡◌, ◌≤◌, ◌↔◌, ℕ, List, [], ◌∷◌, length, Some, Ok};
ghost use Rattle.dlms_frame.specs.declared.client.Client.{Client};
ghost use Rattle.dlms_acse.specs.declared.aarq.Initiate.{Initiate};
ghost use Rattle.dlms_acse.specs.declared.outcome.Verdict.{Verdict};
ghost use Rattle.dlms_acse.specs.Faults.{TellsAnother, TellsCut, TellsFields, TellsLength, TellsRepeated};
ghost use Rattle.dlms_acse.specs.Reading.{aare_at, aarq_at, initiate_at, secret_at};
ghost use Rattle.dlms_acse.specs.Services.{AreBits, named};
ghost use Rattle.dlms_acse.specs.Spelling.{IsAarq, IsAare, IsInitiate, IsSecret, answered, asked};
ghost use Rattle.dlms_acse.specs.Verdict.{Request};
ghost use Rattle.dlms_acse.specs.Writing.{aare_bytes, aarq_bytes};
ghost use Rattle.dlms_acse.specs.declared.judging.TheConstants.{LEAST_SIZE, MOST_SIZE};

use crate::conformance::Conformance;
use bitflags::Flags;

/// A secret is read exactly if its field spells one.
pub fn secrets_are_read()
    ensures { (value secret : List ℕ) → (secret_at value ≡ Some secret) ↔ IsSecret value secret }
{}

/// An initiate request is read exactly if its field spells one.
pub fn initiates_are_read()
    ensures { (value : List ℕ) (i : Initiate) → (initiate_at value ≡ Some i) ↔ IsInitiate value i }
{}

/// An association request is read exactly if the bytes are one.
pub fn requests_are_read()
    ensures { (bytes : List ℕ) (r : Request) → (aarq_at bytes ≡ Ok r) ↔ IsAarq bytes r }
{}

/// The response to one is read exactly if the bytes are one.
pub fn responses_are_read()
    ensures { (bytes : List ℕ) (v : Verdict) → (aare_at bytes ≡ Ok v) ↔ IsAare bytes v }
{}

/// A request is read as it was written.
pub fn written_requests_are_read()
    ensures { (client : Client) (secret : List ℕ) (bits size : ℕ) → length secret ≤ 16
        → aarq_at (aarq_bytes client secret bits size) ≡ Ok (asked client secret bits size) }
{}

/// A response is read as it was written: with its verdict, an accepted one with the size 1,024.
pub fn written_responses_are_read()
    ensures { (v : Verdict) → aare_at (aare_bytes v) ≡ Ok (answered v) }
{}

/// Where each fault stands: among the fields, and in the whole APDU of this tag.
pub fn faults_stand()
    ensures fields { TellsFields }
    ensures another { TellsAnother }
    ensures repeated { TellsRepeated }
    ensures cut { TellsCut }
    ensures length { TellsLength }
{}

/// Each name of a service means its bit.
pub fn names_are_bits()
    ensures constants { AreBits ((Conformance.GENERAL_PROTECTION, 1)
        ∷ (Conformance.GENERAL_BLOCK_TRANSFER, 2)
        ∷ (Conformance.READ, 3) ∷ (Conformance.WRITE, 4) ∷ (Conformance.UNCONFIRMED_WRITE, 5)
        ∷ (Conformance.DELTA_VALUE_ENCODING, 6) ∷ (Conformance.ATTRIBUTE_0_WITH_SET, 8)
        ∷ (Conformance.PRIORITY_MANAGEMENT, 9) ∷ (Conformance.ATTRIBUTE_0_WITH_GET, 10)
        ∷ (Conformance.BLOCKS_WITH_GET, 11) ∷ (Conformance.BLOCKS_WITH_SET, 12)
        ∷ (Conformance.BLOCKS_WITH_ACTION, 13) ∷ (Conformance.MULTIPLE_REFERENCES, 14)
        ∷ (Conformance.INFORMATION_REPORT, 15) ∷ (Conformance.DATA_NOTIFICATION, 16)
        ∷ (Conformance.ACCESS, 17)
        ∷ (Conformance.PARAMETERIZED_ACCESS, 18) ∷ (Conformance.GET, 19) ∷ (Conformance.SET, 20)
        ∷ (Conformance.SELECTIVE_ACCESS, 21) ∷ (Conformance.EVENT_NOTIFICATION, 22)
        ∷ (Conformance.ACTION, 23) ∷ []) }
    ensures table { ⟦<Conformance as Flags>⟧.table ≡ named }
{}

/// The sizes of APDUs that clauses and definitions cite by name, in bytes.
pub fn the_numbers()
    ensures { (LEAST_SIZE ≡ 64) × (MOST_SIZE ≡ 1024) }
{}
