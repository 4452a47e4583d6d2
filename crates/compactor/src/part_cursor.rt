use cell_key::{EntryRef, NoMemory, Range};
use iter_contract::SortedSource;
use memory_map::MemCursor;
use sorted_file::FileCursor;
use std::alloc::Global;

/// A source of the entries of one part of a tablet, which it shares. It is steady, and so are its deep copies.
#[derive(Drop)]
pub enum PartCursor {
    /// Over a part in memory.
    Memory(MemCursor),
    /// Over a file.
    File(FileCursor),
}

impl SortedSource for PartCursor {
    ghost use Rattle.std.specs.Prelude.{true, ⊤};
    ghost use Rattle.compactor.specs.PartCells.{part_cells, part_rest, part_sorted, part_bounded};

    ghost cells = { part_cells };

    ghost rest = { part_rest };

    ghost steady = { λ _. true };

    ghost valid = { λ _. ⊤ };

    ghost sorted = { part_sorted };

    ghost bounded = { part_bounded };

    fn seek(&mut self, range: &Range<'_>) -> Result<(), NoMemory> {
        match self {
            PartCursor::Memory(cursor) => cursor.seek(range),
            PartCursor::File(cursor) => cursor.seek(range),
        }
    }

    fn top(&self) -> Option<EntryRef<'_>> {
        match self {
            PartCursor::Memory(cursor) => cursor.top(),
            PartCursor::File(cursor) => cursor.top(),
        }
    }

    fn next(&mut self) -> Result<(), NoMemory> {
        match self {
            PartCursor::Memory(cursor) => cursor.next(),
            PartCursor::File(cursor) => cursor.next(),
        }
    }

    fn deep_copy(&self, alloc: Global) -> Result<PartCursor, NoMemory> {
        match self {
            PartCursor::Memory(cursor) => Ok(PartCursor::Memory(cursor.deep_copy(alloc)?)),
            PartCursor::File(cursor) => Ok(PartCursor::File(cursor.deep_copy(alloc)?)),
        }
    }
}
