//! What holds of all values and of all seconds. Nobody needs to call these functions: their contracts
//! are the laws.

ghost use Rattle.std.specs.Prelude.{◌≡◌, ◌≤◌, ◌+◌, ◌*◌, Some};
ghost use Rattle.dlms_data.specs.Faults.{TellsFaults};
ghost use Rattle.dlms_data.specs.Laws.{ReadsWhatIsSpelled, ReadsOneValue, ReadsWhatWasWritten};

use crate::date_time::{LAST_SECOND, octets, secs};

/// Reading follows the grammar: it returns the value and what follows it.
pub fn reads_what_is_spelled()
    ensures { ReadsWhatIsSpelled }
{}

/// No bytes begin with the spellings of two values.
pub fn reads_one_value()
    ensures { ReadsOneValue }
{}

/// The canonical spelling of a value is read again, whatever follows it.
pub fn reads_what_was_written()
    ensures { ReadsWhatWasWritten }
{}

/// Where each fault stands.
pub fn tells_faults()
    ensures { TellsFaults }
{}

/// Each second is read again as it was written.
pub fn reads_each_second(second: u32) -> Option<u32>
    requires { second ≤ LAST_SECOND }
    ensures { result ≡ Some second }
{
    let written = octets(second);
    secs(written.as_slice())
}

/// The last second of the year 2099, counted from 2000-01-01 00:00:00: 100 years of 365 days and 25 leap days.
pub fn the_numbers()
    ensures { LAST_SECOND + 1 ≡ (100 * 365 + 25) * 86400 }
{}
