//! What C calls: check sequences, values, the frames of a buffer and what they say, a meter, and a poll of one.
#![tactic(auto)]

mod codes;
mod explaining;
mod hanging_up;
mod kept_meter;
mod kept_poller;
mod loose;
mod meter;
mod meter_codes;
mod meter_handle;
mod octets;
mod poller;
mod poller_handle;

pub use meter::MeterState;
pub use meter_handle::MeterHandle;
pub use octets::{FrameAddress, FramePlace};
pub use poller::{PollPlan, PolledRow};
pub use poller_handle::PollerHandle;
