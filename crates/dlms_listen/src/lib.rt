//! What meters push: the octets of a line in, their notifications out.
#![tactic(auto)]

mod carrier;
mod counters;
mod entries;
mod fault;
pub mod laws;
mod listener;
mod noise;
mod notification;
mod receiver;
mod segments;
mod telegram;

pub use carrier::{Carrier, carrier_of};
pub use entries::{Entry, entries_of};
pub use fault::{Refusal, Skip};
pub use listener::Listener;
pub use notification::{Notification, read_notification};
pub use receiver::{Content, Received, Receiver, Seal};
pub use telegram::{octets_of, telegram_entries};
