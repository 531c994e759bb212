//! Long values in numbered blocks, both directions and both ends.
#![tactic(auto)]

mod block;
mod get_in;
mod get_out;
pub mod laws;
mod put_in;
mod put_out;
mod value_out;

pub use block::{
    Block, LEAST_SIZE, LONG_SET_ABORTED, MOST_SIZE, NO_LONG_GET, NO_LONG_SET, PutStep,
    UNKNOWN_BLOCK,
};
pub use get_in::GetIn;
pub use get_out::{GET_HEAD, GetOut};
pub use put_in::PutIn;
pub use put_out::{PUT_HEAD, PutOut};
