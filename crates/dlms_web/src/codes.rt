//! The codes that calls return.

/// It is done.
pub const DONE: u32 = 0;

/// An allocation was refused.
pub const MEMORY: u32 = 1;

/// The page's buffer is too short for the text, and nothing was written to it.
pub const SHORT: u32 = 2;

/// No explanation was begun.
pub const EMPTY: u32 = 3;

/// The text is no readings file.
pub const READINGS: u32 = 4;

/// An argument is invalid.
pub const ARGUMENT: u32 = 5;
