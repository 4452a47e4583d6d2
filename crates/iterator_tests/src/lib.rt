//! Tests of the iterators over any source: delete markers, versions, filters and combiners, and switches to newer stacks.
#![tactic(auto)]

#[cfg(test)]
mod combining;
#[cfg(test)]
mod deletes;
#[cfg(test)]
mod filtering;
#[cfg(test)]
mod fixtures;
#[cfg(test)]
mod newest;
#[cfg(test)]
mod switching;
