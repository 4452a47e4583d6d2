//! Shows that mutations are loaded by their plan, and that readers see what a loader publishes, where there is memory.
#![tactic(auto)]

#[cfg(test)]
mod fixtures;
#[cfg(test)]
mod loads;
#[cfg(test)]
mod publishing;
#[cfg(test)]
mod running;
