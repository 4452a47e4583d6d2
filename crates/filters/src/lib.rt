//! Filters: what passes a test of a configuration, as a stage, and as an iterator over any source.
#![tactic(auto)]

mod filter_stage;
mod iter;
mod matching;

pub use filter_stage::FilterStage;
pub use iter::{FilterIter, filter_iter};
pub use matching::matches;
