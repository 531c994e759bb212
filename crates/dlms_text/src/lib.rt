//! Requests to any meter, and its answers, as text.
#![tactic(auto)]

mod decimal;
mod entry;
mod fault;
mod json;
mod kind;
mod moment;
mod name;
mod server;
mod texts;
mod value;
mod walk;
mod written;

pub use decimal::append_decimal;
pub use entry::{Entry, class_in, entry_of, right_of};
pub use fault::ValueFault;
pub use json::{append_number, append_pairs, append_quoted, append_text};
pub use kind::{Kind, kind_of, kind_of_tag};
pub use moment::date_time_in;
pub use name::{Name, name_of};
pub use server::server_of;
pub use value::{value_as, value_of};
pub use walk::{Front, first_of, front_of, value_at};
pub use written::written_name;
