//! The place of the readings: which rows are new, what is printed of them, and the file that they are put into.
#![tactic(auto)]

mod disk;
mod filing;
mod host_disk;
pub mod laws;
mod output;
mod place;
mod system;

pub use disk::Disk;
pub use filing::{
    Filing, FilingFault, Holding, OpeningFault, bytes_behind, file_rows, keep_rows, open_rows,
};
pub use host_disk::{HostDisk, SystemDisk};
pub use output::Output;
pub use place::FilePlace;
pub use system::{HostSystem, Status, System};
