//! Whole rows: a row's entries as one text, how it is written and read, and the iterator that answers one entry for each row.
#![tactic(auto)]

mod buf;
mod error;
mod gather;
mod reading;
mod row_iter;
mod stage;
mod steps;
mod writing;

pub use error::RowError;
pub use reading::decode_row;
pub use row_iter::RowIter;
pub use stage::RowStage;
pub use steps::{row_next, row_seek, row_top};
pub use writing::encode_row;
