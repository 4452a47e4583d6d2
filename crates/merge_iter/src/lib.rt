//! The sorted union of any number of sources.
#![tactic(auto)]

mod heap;
mod merge;
mod several;

pub use merge::MergeIter;
