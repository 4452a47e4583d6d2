//! Snapshots of a tablet: what it holds at a moment, all of it shared, and what it stands for.
#![tactic(auto)]

mod apply_error;
mod family_test;
mod files;
mod log;
mod rope;
mod run;
mod same_entries;
mod view;
mod view_source;

pub use apply_error::ApplyError;
pub use ingest::Refused;
pub use view::View;
pub use view_source::ViewSource;
