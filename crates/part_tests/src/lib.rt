//! Tests of what a tablet's parts give: the map in memory, sorted files, and the union of several sources.
#![tactic(auto)]

#[cfg(test)]
mod files;
#[cfg(test)]
mod fixtures;
#[cfg(test)]
mod maps;
#[cfg(test)]
mod merging;
