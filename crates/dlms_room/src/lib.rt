//! An allocator over memory that a caller lends for good: blocks are cut from its front, and freed ones are kept by size for later requests.
#![tactic(auto)]

mod bump;
mod heap;
mod room;
mod sizes;
mod spent;

pub use bump::Bump;
pub use heap::RoomHeap;
pub use room::Room;
pub use spent::Spent;
