//! Configurations of iterators, read from TOML: which iterators run, in which order, with which options.
#![tactic(auto)]

mod combiners;
mod config;
mod document;
mod equality;
mod error;
mod fields;
mod filters;
mod iter_spec;
mod iterators;
mod laws;
mod names;
mod predicate;
mod rules;
mod scan_only;

pub use cell_key::{ColumnName, Columns, Names};
pub use config::Config;
pub use document::read_config;
pub use error::{ConfigError, Rule};
pub use iter_spec::{Deletes, IterSpec, Kind, Scopes};
pub use laws::{checks_are_the_configurations, configurations_are_sound, scans_run_all_iterators};
pub use number_values::{Encoding, Op};
pub use predicate::Predicate;
