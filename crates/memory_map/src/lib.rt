//! The entries that a tablet holds in memory: a map to which mutations add, and cursors over it.
#![tactic(auto)]

mod mem_cursor;
mod mem_map;
mod runs;
mod updates;

pub use mem_cursor::MemCursor;
pub use mem_map::MemMap;
pub use updates::mutation_entries;
