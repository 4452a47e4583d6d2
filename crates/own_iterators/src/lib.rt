//! A filter and a combiner of one's own, to begin yours from: docs/EXTENDING.md goes through them.
#![tactic(auto)]

mod filter;
mod reducer;

pub use filter::SmallValues;
pub use reducer::AnyFlag;
