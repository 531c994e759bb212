//! Laws of the bytes of states. They make no call: the calls' own contracts cite the same definitions.
ghost use Rattle.std.specs.Prelude.{◌≡◌, ◌<◌, ◌≤◌, ◌*◌, ◌+◌, ◌++◌, ℕ, List, length, take, None, Some};
ghost use Rattle.dlms_state.specs.StateValue.{StateValue};
ghost use Rattle.dlms_checkpoint.specs.Layouts.{IsCheckpointOf, as_present, number_of, version_named};
ghost use Rattle.dlms_checkpoint.specs.Reading.{Filled, IsFilledBy};
ghost use Rattle.dlms_checkpoint.specs.Bodies.{awaited, body_at, body_count, first_fault};
ghost use Rattle.dlms_checkpoint.specs.declared.fields.TheConstants.{HEAD_BYTES, MOST_ROW_BYTES, SETTINGS_BYTES};
ghost use Rattle.dlms_checkpoint.specs.declared.version.Version.{Version};
ghost use Rattle.dlms_checkpoint.specs.declared.writing.TheConstants.{MOST_BODY, RING_BYTES, RING_ROWS};

/// Bodies and ring pages are those of one state at most, in each version.
pub fn bytes_tell_one_state()
    ensures present { (filled : Filled) (s t : StateValue) → IsFilledBy s filled
        → IsFilledBy t filled → s ≡ t }
    ensures version { (version : Version) (bytes ring : List ℕ) (s t : StateValue)
        → IsFilledBy s (record { bytes = as_present version bytes; ring = ring })
        → IsFilledBy t (record { bytes = as_present version bytes; ring = ring }) → s ≡ t }
{}

/// The number determines the version.
pub fn versions_are_told()
    ensures { (version : Version) → version_named (number_of version) ≡ Some version }
{}

/// The bodies of a state's bytes are taken one after another, and none is awaited after the last.
pub fn bodies_are_taken()
    ensures first { (version : Version) (bytes : List ℕ) (s : StateValue)
        → IsCheckpointOf version s bytes → first_fault version (body_at 0 bytes) ≡ None }
    ensures further { (version : Version) (bytes : List ℕ) (s : StateValue) (k : ℕ)
        → IsCheckpointOf version s bytes → 0 < k
        → awaited (as_present version (take (MOST_BODY * k) bytes)) ≡ length (body_at k bytes) }
    ensures count { (version : Version) (bytes : List ℕ) (s : StateValue)
        → IsCheckpointOf version s bytes → (0 < body_count bytes) × (body_count bytes ≤ 2) }
{}

/// Bodies joined are the bytes, and each of them holds at least one byte.
pub fn bodies_join()
    ensures more { (bytes : List ℕ) (k : ℕ)
        → take (MOST_BODY * (k + 1)) bytes ≡ take (MOST_BODY * k) bytes ++ body_at k bytes }
    ensures all { (bytes : List ℕ) (k : ℕ) → body_count bytes ≤ k
        → take (MOST_BODY * k) bytes ≡ bytes }
    ensures some { (bytes : List ℕ) (k : ℕ) → k < body_count bytes → 0 < length (body_at k bytes) }
{}

/// The numbers that clauses and definitions cite by name.
pub fn the_numbers()
    ensures body { MOST_BODY ≡ 496 }
    ensures rows { RING_ROWS ≡ 30 }
    ensures row { MOST_ROW_BYTES ≡ 16 }
    ensures bytes { RING_BYTES ≡ 480 }
    ensures head { HEAD_BYTES ≡ 324 }
    ensures settings { SETTINGS_BYTES ≡ 22 }
{}
