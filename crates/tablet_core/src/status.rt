//! What a store has, as it is told.
use cell_key::Items;
use compactor::{FileCount, JobStates};

/// Files, in the order of their numbers.
pub type FileCounts = Items<FileCount>;

/// What a core has.
#[derive(Drop)]
pub struct StoreStatus {
    /// How many mutations came in.
    pub log: u64,
    /// How many entries are in memory.
    pub memory: u64,
    /// How many entries the frozen part has, if there is one.
    pub frozen: Option<u64>,
    pub files: FileCounts,
    /// The running jobs, in the order of their numbers.
    pub jobs: JobStates,
}
