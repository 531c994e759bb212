//! What management polls.

ghost use Rattle.std.specs.Prelude.{◌≡◌};

use arrayvec::ArrayVec;
use dlms_frame::Client;
use dlms_headend::{Columns, Plan};

/// Management's first secret.
pub const SECRET: &[u8] = b"12345678";

/// What management polls with its first secret, from a second of the clock on.
pub fn managements_plan(after: Option<u32>, columns: Columns) -> Plan
    ensures second { result.after ≡ after }
    ensures whole { result.until ≡ None }
{
    let mut secret = ArrayVec::new();
    let _fits = secret.try_extend_from_slice(SECRET);
    Plan {
        client: Client::Management,
        secret,
        after,
        until: None,
        columns,
    }
}
