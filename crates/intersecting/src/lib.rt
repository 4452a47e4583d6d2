//! Intersections: the documents of an index that have all of some terms and none of others, over any source.
#![tactic(auto)]

mod agreeing;
mod asking;
mod beginning;
mod intersect_iter;
mod moving;
mod searching;
mod sources;
mod stage;
mod steps;

pub use intersect_iter::IntersectIter;
pub use sources::copied;
pub use stage::IntersectStage;
pub use steps::{intersect_next, intersect_seek, intersect_top};
