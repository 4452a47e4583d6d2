//! The laws of iterators, compactions and stores over definitions alone: a scan does not see what was frozen, written or compacted.
#![tactic(auto)]

mod compaction_laws;
mod list_laws;
mod store_laws;

pub use compaction_laws::{
    compactions_are_unseen, newer_entries_keep_answers_equal, newest_markers_suffice,
};
pub use list_laws::{lists_stay_lawful, restriction_commutes, stages_may_run_early};
pub use store_laws::{inputs_stay, snapshots_stand, steps_are_unseen, stores_stand};
