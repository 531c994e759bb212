//! The bytes of a checkpoint: a whole state, cut into bodies that each fill a page.
#![tactic(auto)]

mod fields;
pub mod laws;
mod reading;
mod row_reading;
mod version;
mod writing;

pub use fields::MOST_ROW_BYTES;
pub use reading::{BodyFault, Joined, Refilling, Restoring, RingFault};
pub use version::Version;
pub use writing::{Checkpoint, MOST_BODY, RING_BYTES, RING_ROWS, checkpoint_of, ring_page_of};
