//! The codes that calls return.
/// It is done.
pub const DONE: u32 = 0;

/// There is nothing: no reply, no page, no further row.
pub const NOTHING: u32 = 1;

/// A page is to be written.
pub const WRITE: u32 = 2;

/// What was written is to outlast a stop.
pub const SYNC: u32 = 3;

/// A frame is to be sent.
pub const SEND: u32 = 4;

/// The handle is empty.
pub const EMPTY: u32 = 16;

/// The handle is full.
pub const FULL: u32 = 17;

/// The caller's room is too short.
pub const SHORT: u32 = 18;

/// Writes or syncs wait: they are to be done first.
pub const PAGES: u32 = 19;

/// A write or a sync could not be done: free the meter, and recover it.
pub const LOST: u32 = 20;

/// The meter is closed.
pub const CLOSED: u32 = 21;

/// An argument is invalid.
pub const ARGUMENT: u32 = 22;

/// A growth was refused.
pub const MEMORY: u32 = 32;

/// The device failed: the queue of pages was full, or had no memory.
pub const DEVICE: u32 = 33;

/// The device failed in an earlier call.
pub const STOPPED: u32 = 34;

/// There is no further generation.
pub const EXHAUSTED: u32 = 35;

/// The pages have no checkpoint.
pub const NO_CHECKPOINT: u32 = 36;

/// A page of the checkpoint is damaged.
pub const CORRUPT: u32 = 37;

/// There are too few pages.
pub const SIZE: u32 = 38;

/// The event may not come next: this, and the number of why.
pub const REFUSED: u32 = 64;

/// The association was refused; the number beside it is the diagnostic of the service user.
pub const DENIED: u32 = 48;

/// A request got a result in place of an answer; the number beside it is that result, 250 for an exception.
pub const RESULT: u32 = 49;

/// Nobody answers: the fourth time-out in a row.
pub const LINE: u32 = 50;

/// The link went down before the poll asked for that, or an answer had another form than the awaited one.
pub const PROTOCOL: u32 = 51;

/// The load profile has other columns than the clock and the three registers, in their order.
pub const COLUMNS: u32 = 52;
