//! The versions of an image.
ghost use Rattle.std.specs.Prelude.{◌≡◌, ℕ, length};
ghost use Rattle.sorted_file.specs.Versions.{end_mark, has_neighbour, same_bytes, version_number};

use crate::format::BLOCK_ENTRIES;

/// A version of the format of images. In the second one an entry shares leading parts of its key with the entry before it.
#[derive(Clone, Copy, Debug, PartialEq, Eq)]
pub enum Version {
    One,
    Two,
}

impl Version {
    /// The number that stands in an image.
    pub fn number(self) -> u8
        ensures { result ≡ version_number self }
    {
        match self {
            Version::One => 1,
            Version::Two => 2,
        }
    }

    /// What stands behind the last entry.
    pub fn end_mark(self) -> &'static [u8]
        ensures { result.now ≡ end_mark self }
    {
        match self {
            Version::One => &[0, 0],
            Version::Two => &[255],
        }
    }

    /// How many bytes the number of shared parts takes.
    pub fn same_size(self) -> usize
        ensures { (same : ℕ) → length (same_bytes self same) ≡ result }
    {
        match self {
            Version::One => 0,
            Version::Two => 1,
        }
    }

    /// Whether an entry with so many before it may share parts with the one before it.
    pub fn shares(self, index: usize) -> bool
        ensures { result ≡ has_neighbour self index }
    {
        match self {
            Version::One => false,
            Version::Two => index % BLOCK_ENTRIES != 0,
        }
    }
}
