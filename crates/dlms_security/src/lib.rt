//! The protection of the APDUs of one association under security suite 0 (IEC 62056-5-3; Green Book 9.2.7). It turns APDUs
//! into messages for a carrier, and messages into APDUs. It allocates nothing, and does no input or output.
#![tactic(auto)]

mod body;
mod fault;
mod form;
mod kind;
pub mod laws;
mod opener;
mod opening;
mod policy;
mod security;
mod stored;

pub use fault::{ProtectFault, UnprotectFault};
pub use form::{Form, MOST_APDU, MOST_MESSAGE, kind_of};
pub use kind::KeyKind;
pub use opener::{Closed, Known, NoKeys, Opener, Plain};
pub use opening::{Header, header_of, open_message};
pub use policy::Policy;
pub use security::Security;
pub use stored::StoredState;
