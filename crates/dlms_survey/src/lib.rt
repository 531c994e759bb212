//! The state of a store's pages: which slot counts, what a recovery finds and would do, and whether each page is used, and if not,
//! why.
#![tactic(auto)]

mod head;
mod image;
mod judging;
mod place;
mod survey;
mod verdict;

pub use head::{Head, head_of};
pub use image::Image;
pub use judging::Judge;
pub use place::{Place, place_of};
pub use survey::{Recovery, Survey};
pub use verdict::{Verdict, kind_name};
