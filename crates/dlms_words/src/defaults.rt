//! The defaults of options.

/// The default number of seconds that a poll may take.
pub const DEADLINE: u32 = 300;

/// The default number of seconds for which an answer is waited for.
pub const TIMEOUT: u32 = 2;

/// The default number of meters that are polled at once at most.
pub const AT_ONCE: u32 = 1_000;

/// The default step, in seconds, in which a serving meter learns of the clock.
pub const TICK: u32 = 1;

/// The default number of seconds that a connection may be without an answer of an association while another waits: time for two
/// lost frames to be repeated.
pub const IDLE: u32 = 5;

/// The default number of seconds that another connection waits at most: time for many polls.
pub const TURN: u32 = 60;

/// The default number of seconds that a connection may be without an answer: the default of the inactivity timeout of the class IEC
/// HDLC setup (Blue Book 4.7.2).
pub const INACTIVITY: u32 = 120;

/// The default number of seconds that a row may be past the system's clock: a day, because a meter's clock may show the time of any
/// place.
pub const AHEAD: u32 = 86_400;

/// The default client: the public client (IEC 62056-46, reserved addresses).
pub const CLIENT: u32 = 16;

/// The default number of seconds by which a clock may be off that is not set.
pub const THRESHOLD: u32 = 5;

/// How many octets the encoding of a value from the meter has at most when nothing is said: 4 MiB.
pub const MOST: u32 = 4_194_304;
