//! The calls of a web page: the frames of a log or a capture in words, an APDU in words, and readings as a curve. All memory is a room
//! that the page lends for good.
#![tactic(auto)]

mod apdus;
mod codes;
mod curves;
mod feed_handle;
mod feeding;
mod kept_feed;
mod keys;
mod loose;
mod putting;

pub use feed_handle::FeedHandle;
