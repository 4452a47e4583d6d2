//! Combiners: the values of a listed column become one, over any source and by any reducer.
#![tactic(auto)]

mod array_reducer;
mod combine_iter;
mod gather;
mod long_reducer;
mod reducer;
mod stage;
mod steps;

pub use array_reducer::ArrayReducer;
pub use combine_iter::CombineIter;
pub use long_reducer::LongReducer;
pub use reducer::Reducer;
pub use stage::CombineStage;
pub use steps::{combine_next, combine_seek, combine_top};
