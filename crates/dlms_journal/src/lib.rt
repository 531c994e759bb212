//! The contents of the meter's medium: records of events, and the heads of pages.
#![tactic(auto)]

mod kind;
pub mod laws;
mod page;
mod reading;
mod records;
mod writing;

pub use kind::PageKind;
pub use page::{
    MOST_PAYLOAD, PAGE_BYTES, VERSION, generation_of, index_of, kind_of, page_of, payload_of,
    version_of,
};
pub use records::{Records, records_of};
pub use writing::{Record, append_record, record_length, record_of};
