//! Shows that views, cores and sessions answer what their mutations give, step by step and fetch by fetch, where there is
//! memory.
#![tactic(auto)]

#[cfg(test)]
mod cores;
#[cfg(test)]
mod fixtures;
#[cfg(test)]
mod sessions;
#[cfg(test)]
mod views;
