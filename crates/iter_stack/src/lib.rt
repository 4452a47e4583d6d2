//! A stack of iterators over a leaf: what deletes leave, and up to sixteen levels for a configuration's iterators.
#![tactic(auto)]

mod building;
mod drop_stage;
mod four;
mod level;
mod levels;
mod stack;
mod stage;
mod usage;

pub use building::build;
pub use stack::Stack;
pub use usage::Usage;
