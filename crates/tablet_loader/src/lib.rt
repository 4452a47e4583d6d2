//! Loads many mutations into a tablet: chunk by chunk, with a flush and a compaction behind each.
#![tactic(auto)]

mod jobs;
mod loader;
mod plan;
mod step;

pub use jobs::{DoneJobs, Jobs};
pub use loader::{Answers, Loader};
pub use plan::{Planned, run_plan};
