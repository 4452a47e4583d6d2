//! The tests of keys, fields, numbers and streams: examples from outside, and that each call that takes memory succeeds where there is some.
#![tactic(auto)]

#[cfg(test)]
mod arrays;
#[cfg(test)]
mod columns;
#[cfg(test)]
mod fields;
#[cfg(test)]
mod fixtures;
#[cfg(test)]
mod keys;
#[cfg(test)]
mod lists;
#[cfg(test)]
mod mutations;
#[cfg(test)]
mod numbers;
#[cfg(test)]
mod ranges;
#[cfg(test)]
mod streams;
#[cfg(test)]
mod texts;
