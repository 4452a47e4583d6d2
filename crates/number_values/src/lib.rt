//! Numbers as values of entries: how they are spelled, and what an operation makes of two.
#![tactic(auto)]

mod arrays;
mod laws;
mod op;
mod parts;
mod reading;
mod writing;

pub use arrays::NumberArray;
pub use laws::{values_are_joined_in_any_order, values_are_short};
pub use op::{Encoding, Op};
pub use writing::NumberText;
