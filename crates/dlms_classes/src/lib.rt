//! The objects of the meter, the rights to them, and the answers of the services.
#![tactic(auto)]

mod access;
mod choosing;
mod column;
mod encoding;
pub mod laws;
mod listing;
mod lookup;
mod planning;
mod putting;
mod putting_list;
mod putting_rows;
mod reading;
mod rows;
mod secrets;
mod showing;
mod table;

pub use access::AccessResult;
pub use encoding::get_encoded;
pub use planning::{plan_action, plan_set};
pub use reading::get;
pub use secrets::secret_of;
