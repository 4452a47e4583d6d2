//! What delete markers leave of a source: live and marked entries, as stages, and as iterators over any source.
#![tactic(auto)]

mod iters;
mod live_stage;
mod mark_stage;

pub use iters::{LiveIter, MarkIter, live_iter, mark_iter};
pub use live_stage::LiveStage;
pub use mark_stage::MarkStage;
