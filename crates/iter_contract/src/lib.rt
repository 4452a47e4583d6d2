//! Sorted sources of entries: what each promises, and one over a list.
#![tactic(auto)]

mod order;
mod search;
mod several;
mod source;
mod tops;
mod vec_source;

pub use order::is_out_of_order;
pub use several::{copies, first_top, seek_all, step_first};
pub use source::SortedSource;
pub use vec_source::VecSource;
