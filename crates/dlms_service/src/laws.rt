//! What holds of all sessions. Nobody needs to call these functions: their contracts are the laws.

ghost use Rattle.std.specs.Prelude.{◌≡◌, [], ◌∷◌};
ghost use Rattle.dlms_state.specs.declared.event.Event.TheVariants as Event;
ghost use Rattle.dlms_service.specs.Laws.{HasOneOutcome};
ghost use Rattle.dlms_service.specs.OneColumn.{session, set_bytes, capture_bytes, get_bytes, pulses, one_column, answered};
ghost use Rattle.dlms_service.specs.Serves.{FindsMemory, Serves};
ghost use Rattle.dlms_service.specs.declared.writing.TheConstants.{MOST_BYTES};
ghost use Rattle.dlms_service.specs.declared.blocks.TheConstants.{LONG_ACTION_ABORTED, NO_LONG_ACTION};

/// An APDU leads to one outcome, given the accepted events, what is kept of the client, and the one thing that these do not
/// determine: whether memory is found for the values of the request, and for the answer.
pub fn has_one_outcome()
    ensures { HasOneOutcome }
{}

/// Where 42 pulses came on channel 0, management sets the columns to register 0 alone, captures a row, and reads the buffer: a row
/// of one number, which is 42.
pub fn a_register_may_be_the_only_column()
    ensures set { Serves FindsMemory (pulses ∷ []) session set_bytes
        (answered (0xC5 ∷ 0x01 ∷ 0xC1 ∷ 0x00 ∷ []) (one_column ∷ [])) }
    ensures capture { Serves FindsMemory (pulses ∷ one_column ∷ []) session capture_bytes
        (answered (0xC7 ∷ 0x01 ∷ 0xC1 ∷ 0x00 ∷ 0x00 ∷ []) (Event.Capture ∷ [])) }
    ensures read { Serves FindsMemory (pulses ∷ one_column ∷ Event.Capture ∷ []) session get_bytes
        (answered (0xC4 ∷ 0x01 ∷ 0xC1 ∷ 0x00 ∷ 0x01 ∷ 0x01 ∷ 0x02 ∷ 0x01 ∷ 0x06 ∷ 0x00 ∷ 0x00 ∷ 0x00
        ∷ 0x2A ∷ []) []) }
{}

/// The numbers that clauses and definitions cite by name: most bytes of a value in blocks, and action results.
pub fn the_numbers()
    ensures most { MOST_BYTES ≡ 1024 }
    ensures results { (LONG_ACTION_ABORTED ≡ 15) × (NO_LONG_ACTION ≡ 16) }
{}
