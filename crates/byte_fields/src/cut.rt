//! Why a field is not read.

/// The bytes end before a field does.
#[derive(Clone, Copy, Debug, PartialEq, Eq)]
pub struct Cut {
    /// The place of the field's first byte, counted from 0.
    pub at: u64,
}
