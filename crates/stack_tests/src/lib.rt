//! Shows that stacks of iterators make of entries what their configuration says in each usage, that jobs compact memory and
//! files, that running jobs are told by their numbers and files, and which files a next one takes, where there is memory.
#![tactic(auto)]

#[cfg(test)]
mod documents;
#[cfg(test)]
mod fixtures;
#[cfg(test)]
mod jobs;
#[cfg(test)]
mod plans;
#[cfg(test)]
mod running;
#[cfg(test)]
mod stacks;
#[cfg(test)]
mod walking;
