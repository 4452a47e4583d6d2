//! A large script that is made of two numbers, and the summary of a tablet into which it was loaded.
#![tactic(auto)]

mod configuration;
mod draws;
mod mutations;
mod scanning;
mod summary;
mod totals;

pub use summary::generated_summary;
