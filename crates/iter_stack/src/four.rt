//! Levels in fours.
#![tactic(auto, unfolding(crate::specs::Fours::four_cells, crate::specs::Fours::four_rest, crate::specs::Fours::four_steady, crate::specs::Fours::four_valid))]

use crate::level::Level;
use cell_key::{EntryRef, NoMemory, Range};
use iter_contract::SortedSource;
use std::alloc::Global;

/// Four levels, one over another, or none where no iterator is left for them. A deep nest of levels stands in such fours,
/// since the proof of a call grows with the depth of the types that it names.
#[derive(Drop)]
pub enum Four<S> {
    Bare(S),
    Levels(Level<Level<Level<Level<S>>>>),
}

impl<S: SortedSource> SortedSource for Four<S> {
    ghost use Rattle.iter_stack.specs.Fours.{four_cells, four_rest, four_steady, four_valid, four_sorted, four_bounded};

    ghost cells = { four_cells S.cells };

    ghost rest = { four_rest S.cells S.rest };

    ghost steady = { four_steady S.steady };

    ghost valid = { four_valid S.cells S.rest S.valid };

    ghost sorted = { four_sorted S.cells S.sorted };

    ghost bounded = { four_bounded S.cells S.sorted S.bounded };

    fn seek(&mut self, range: &Range<'_>) -> Result<(), NoMemory> {
        match self {
            Four::Bare(source) => source.seek(range),
            Four::Levels(levels) => levels.seek(range),
        }
    }

    fn top(&self) -> Option<EntryRef<'_>> {
        match self {
            Four::Bare(source) => source.top(),
            Four::Levels(levels) => levels.top(),
        }
    }

    fn next(&mut self) -> Result<(), NoMemory> {
        match self {
            Four::Bare(source) => source.next(),
            Four::Levels(levels) => levels.next(),
        }
    }

    fn deep_copy(&self, alloc: Global) -> Result<Four<S>, NoMemory> {
        match self {
            Four::Bare(source) => Ok(Four::Bare(source.deep_copy(alloc)?)),
            Four::Levels(levels) => Ok(Four::Levels(levels.deep_copy(alloc)?)),
        }
    }
}
