//! Tests of whole rows, their texts and their iterator, and of intersections, over any source.
#![tactic(auto)]

#[cfg(test)]
mod documents;
#[cfg(test)]
mod fixtures;
#[cfg(test)]
mod texts;
#[cfg(test)]
mod whole_rows;
