//! The newest versions of each column, as a stage, and as an iterator over any source.
#![tactic(auto)]

mod iter;
mod version_stage;

pub use iter::{VersionIter, version_iter};
pub use version_stage::VersionStage;
