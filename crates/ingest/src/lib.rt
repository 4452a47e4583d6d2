//! Which mutations come in: the checks, each over the whole mutation before the next.
#![tactic(auto)]

mod bounds;
mod checks;
mod refused;

pub use checks::check;
pub use refused::Refused;
