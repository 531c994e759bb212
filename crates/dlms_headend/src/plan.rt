//! The plan of a poll: what to read, and as which client.

ghost use Rattle.std.specs.Prelude.{◌≡◌, ◌≤◌, IfSome, length, option_map};
ghost use Rattle.dlms_headend.specs.Due.{sent_secret};

use arrayvec::ArrayVec;
use dlms_frame::Client;

/// Whether a poll looks at what the columns of the buffer's rows are.
#[derive(Clone, Copy, Debug, PartialEq, Eq)]
pub enum Columns {
    /// Asks for the buffer alone, and takes rows of a second and three registers for readings.
    Trusted,
    /// Asks for the capture objects before and after the buffer, and continues only if they are the clock and the three registers,
    /// in this order.
    Asked,
}

/// The plan of a poll: what to read, and as which client.
#[derive(Drop)]
pub struct Plan {
    pub client: Client,
    /// The client's secret. A client without one sends none.
    pub secret: ArrayVec<u8, 16>,
    /// The first second of the clock to read, counted from 2000-01-01 00:00:00; 0 if there is none.
    pub after: Option<u32>,
    /// The last second of the clock to read; the clock's own last one if there is none.
    pub until: Option<u32>,
    /// Whether the columns are asked for.
    pub columns: Columns,
}

impl Plan {
    /// The secret that the client sends; none if the client has none.
    pub(crate) fn sent_secret(&self) -> Option<&[u8]>
        ensures secret { option_map (λ secret. secret.now) result
            ≡ sent_secret self.now.client self.now.secret.items }
        ensures short { IfSome result (λ secret. length secret.now ≤ 16) }
    {
        if self.client.has_secret() {
            Some(self.secret.as_slice())
        } else {
            None
        }
    }
}

/// What to read, over a carrier. The carrier has both addresses.
#[derive(Drop)]
pub struct PollTerms {
    /// The secret of low-level security; none for lowest-level security, which has no secret.
    pub secret: Option<ArrayVec<u8, 16>>,
    /// The first second of the clock to read, counted from 2000-01-01 00:00:00; 0 if there is none.
    pub after: Option<u32>,
    /// The last second of the clock to read; the clock's own last one if there is none.
    pub until: Option<u32>,
    /// Whether the columns are asked for.
    pub columns: Columns,
}

impl PollTerms {
    /// The secret that is sent; none at lowest-level security.
    pub(crate) fn sent_secret(&self) -> Option<&[u8]>
        ensures secret { option_map (λ secret. secret.now) result
            ≡ option_map (λ secret. secret.items) self.now.secret }
        ensures short { IfSome result (λ secret. length secret.now ≤ 16) }
    {
        match &self.secret {
            Some(secret) => Some(secret.as_slice()),
            None => None,
        }
    }
}
