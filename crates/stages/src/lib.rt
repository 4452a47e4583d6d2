//! Stages, which drop entries of a sorted source by what they met before them: the traits that anyone may implement, and
//! the one iterator over any stage and any source.
#![tactic(auto)]

mod cursor;
mod stage;
mod staged;
mod steps;
mod test;
mod tested;

pub use cursor::Cursor;
pub use stage::Stage;
pub use staged::Staged;
pub use steps::{staged_next, staged_seek, staged_top};
pub use test::Test;
pub use tested::{Tested, filter_by};
