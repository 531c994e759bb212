//! Explains the frames of a line in the words of the standards.
#![tactic(auto)]

mod association_text;
mod captured;
mod color;
mod connection;
mod content;
mod data_text;
mod date_text;
mod digits;
mod dump;
mod echo_text;
mod explainer;
mod fault;
mod feed;
mod foreign_text;
mod frame_text;
mod joined_text;
mod json;
mod layout;
mod logged;
mod messages;
mod names_text;
mod node_text;
mod opening;
mod place_text;
mod service_text;
mod session;
mod short;
mod typed_text;
mod units;
mod words;
mod wrapper;

pub use color::Painted;
pub use content::write_apdu;
pub use data_text::write_value;
pub use dlms_dissect::Side;
pub use explainer::Explainer;
pub use fault::ExplainFault;
pub use feed::Feed;
pub use layout::Layout;
pub use names_text::write_code;
pub use session::{Form, explain, explain_with};
