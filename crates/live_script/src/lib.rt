//! What `live` writes: a script whose mutations are loaded while scanners read.
#![tactic(auto)]

mod reply;
mod script;
mod text;

pub use live_tablet::LiveShape;
pub use reply::{live_to, run_live};
