//! What is true of all values. Nobody needs to call these functions: their contracts are the laws.

ghost use Rattle.dlms_values.specs.Laws.{ReadsWhatIsSpelled, ReadsOneValue};

/// Reading follows the grammar: it returns the value and what follows it.
pub fn reads_what_is_spelled()
    ensures { ReadsWhatIsSpelled }
{}

/// No octets begin with the spellings of two values.
pub fn reads_one_value()
    ensures { ReadsOneValue }
{}
