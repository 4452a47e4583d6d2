//! Sources over lists, configurations, the checks of mutations and the texts of scripts, in examples.
#![tactic(auto)]

#[cfg(test)]
mod config_kinds;
#[cfg(test)]
mod config_rules;
#[cfg(test)]
mod config_texts;
#[cfg(test)]
mod ingest_checks;
#[cfg(test)]
mod list_sources;
#[cfg(test)]
mod script_answers;
#[cfg(test)]
mod script_lines;
