//! Compactions of a tablet's parts: cursors over parts, jobs and the files that they make, which files each running job has, and
//! which files a next one takes.
#![tactic(auto)]

mod file_sets;
mod job;
mod job_state;
mod part_cursor;
mod planner;
mod running_jobs;
mod writing;

pub use file_sets::{FileCount, Plan};
pub use job::{DoneJob, Job};
pub use job_state::{JobState, JobStates};
pub use part_cursor::PartCursor;
pub use planner::plan;
pub use running_jobs::RunningJobs;
pub use writing::{ALL_KEYS, compact};
