//! The image of a sorted file. All numbers are big-endian: the magic; the version; each entry, as the lengths and bytes of
//! its parts, its time, its flag, and the length and bytes of its value; the end mark, in the place of an entry's first
//! field; the index, which is each block's place; the count of entries; and the end magic.
//!
//! In version 2 an entry begins with a byte: how many leading parts of its key, of row, family, qualifier and visibility,
//! equal those of the entry before it in its block. Only the other parts follow.

/// What an image begins with.
pub const MAGIC: [u8; 4] = *b"ITSF";

/// The place of the first entry, behind the magic and the version.
pub const FIRST_PLACE: usize = 5;

/// What an image ends with.
pub const END_MAGIC: [u8; 4] = *b"FSTI";

/// How many entries a block has; the last one may have fewer.
pub const BLOCK_ENTRIES: usize = 64;

/// The most bytes of a value. A marker's value is empty.
pub const MAX_VALUE: u32 = 65536;
