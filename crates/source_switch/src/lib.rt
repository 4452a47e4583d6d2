//! A source that goes on over newer stacks: what gives the stacks, where a reader may change from one to the next, and the
//! iterator that does so at each of its steps.
#![tactic(auto)]

mod parting;
mod provider;
mod switch;

pub use parting::{are_together, position_behind};
pub use provider::Provider;
pub use switch::{Advance, SwitchIter};
