//! A tablet's core: its view and its running jobs, which change step by step as the store of lists does.
#![tactic(auto)]

mod core_laws;
mod core_state;
mod status;

pub use compactor::FileCount;
pub use core_laws::{cores_follow_stores, jobs_may_end_later, made_jobs_fit};
pub use core_state::Core;
pub use ingest::Refused;
pub use status::{FileCounts, StoreStatus};
pub use tablet_steps::{Answer, Event, StepRefusal};
