//! The service forms: what a client asks and a meter answers, read and written.
#![tactic(auto)]

mod fault;
mod fitting;
pub mod laws;
mod parts;
mod request;
mod request_reading;
mod request_writing;
mod response;
mod response_reading;
mod response_writing;

pub use fault::ApduFault;
pub use request::Request;
pub use request_reading::read_request;
pub use request_writing::write_request;
pub use response::Response;
pub use response_reading::read_response;
pub use response_writing::{write_response, write_short};
