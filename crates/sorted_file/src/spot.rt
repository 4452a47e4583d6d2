//! Where an entry of a file stands.
use crate::outline::Outline;

/// Where an entry of a file stands.
#[derive(Clone, Copy)]
pub struct Spot {
    /// How many entries stand before it.
    pub index: usize,
    /// Where its parts stand; behind the last entry there are none.
    pub outline: Outline,
}
