//! The steps that a store is asked for.
use cell_key::{FileIds, Mutation};

/// A step that a store is asked for. Jobs are from 1 to 999,999, files from 1 to 9,999,999,999 where a script asks.
#[derive(Drop)]
pub enum Event {
    /// A mutation comes in.
    Apply(Mutation),
    /// The memory becomes the frozen part.
    Freeze,
    /// The frozen part becomes a file, by a minor compaction.
    Flush,
    /// A compaction of these files starts.
    Compact { job: u32, files: FileIds },
    /// A compaction of all files starts.
    CompactAll { job: u32 },
    /// A compaction is made, and its file stands in the place of its files.
    Finish { job: u32 },
}
