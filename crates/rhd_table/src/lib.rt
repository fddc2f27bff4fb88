//! Tables of declarations: how they are put in, what is found among them, and indexes of functions by key.
#![tactic(auto)]

mod declarations;
mod growing;
mod marks;
mod native_index;
mod script_search;
mod tree_index;

pub use declarations::Declarations;
pub use growing::{Copies, copies_that, split_copies};
pub use marks::{mark_dynamic, mark_pairs, mark_parts};
pub use tree_index::TreeIndex;
