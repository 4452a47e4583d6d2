//! One level of a stack.
#![tactic(auto, unfolding(crate::specs::Levels::level_cells, crate::specs::Levels::level_rest, crate::specs::Levels::level_steady, crate::specs::Levels::level_valid))]

ghost use Rattle.std.specs.Prelude.{◌<◌, length};

use crate::stage::LevelStage;
use cell_key::{EntryRef, NoMemory, Range};
use combiners::{combine_next, combine_seek, combine_top};
use intersecting::{copied, intersect_next, intersect_seek, intersect_top};
use iter_contract::SortedSource;
use stages::{staged_next, staged_seek, staged_top};
use std::alloc::Global;
use whole_row::{row_next, row_seek, row_top};

/// One stage over a source, or over a source and deep copies of it.
#[derive(Drop)]
pub struct Level<S> {
    /// The source is the first, and behind it stand the copies that an intersection has for its further terms. They stand in a
    /// `Vec`, so that a nest of levels is dropped by a call for each.
    sources: Vec<S>,
    stage: LevelStage,
    ghost some: { 0 < length sources.items },
}

impl<S: SortedSource> Level<S> {
    ghost use Rattle.std.specs.Prelude.{◌≡◌, ◌+◌, false, [], map, IfOk};
    ghost use Rattle.std.specs.List.{AllByRecursion};
    ghost use Rattle.intersecting.specs.Firsts.{at_first};

    /// A stage over a source and so many deep copies of it. It takes memory.
    pub(crate) fn over(
        alloc: Global,
        source: S,
        copies: usize,
        stage: LevelStage,
    ) -> Result<Level<S>, NoMemory>
        requires { S.valid source }
        ensures stage { IfOk result (λ it. it.stage ≡ stage) }
        ensures cells { IfOk result (λ it. at_first S.cells [] it.sources.items ≡ S.cells source) }
        ensures rest { IfOk result (λ it. at_first S.rest [] it.sources.items ≡ S.rest source) }
        ensures steady { IfOk result (λ it. at_first S.steady false it.sources.items ≡ S.steady source) }
        ensures valid { IfOk result (λ it. AllByRecursion S.valid it.sources.items) }
        ensures count { IfOk result (λ it. length it.sources.items ≡ 1 + copies) }
        ensures copies { IfOk result (λ it. AllByRecursion (λ cells. cells ≡ S.cells source) (map S.cells it.sources.items)) }
    {
        let sources = copied(alloc, source, copies)?;
        Ok(Level { sources, stage })
    }
}

impl<S: SortedSource> SortedSource for Level<S> {
    ghost use Rattle.iter_stack.specs.Levels.{level_cells, level_rest, level_steady, level_valid, level_sorted, level_bounded};

    ghost cells = { level_cells S.cells };

    ghost rest = { level_rest S.cells S.rest };

    ghost steady = { level_steady S.steady };

    ghost valid = { level_valid S.cells S.rest S.valid };

    ghost sorted = { level_sorted S.cells S.sorted };

    ghost bounded = { level_bounded S.cells S.sorted S.bounded };

    fn seek(&mut self, range: &Range<'_>) -> Result<(), NoMemory> {
        match &mut self.stage {
            LevelStage::Same => self.sources[0].seek(range),
            LevelStage::Drop(cursor) => staged_seek(&mut self.sources[0], cursor, range),
            LevelStage::CombineLongs(stage) => combine_seek(&mut self.sources[0], stage, range),
            LevelStage::CombineArrays(stage) => combine_seek(&mut self.sources[0], stage, range),
            LevelStage::Rows(stage) => row_seek(&mut self.sources[0], stage, range),
            LevelStage::Intersect(stage) => intersect_seek(&mut self.sources, stage, range),
        }
    }

    fn top(&self) -> Option<EntryRef<'_>> {
        match &self.stage {
            LevelStage::Same => self.sources[0].top(),
            LevelStage::Drop(cursor) => staged_top(&self.sources[0], cursor),
            LevelStage::CombineLongs(stage) => combine_top(&self.sources[0], stage),
            LevelStage::CombineArrays(stage) => combine_top(&self.sources[0], stage),
            LevelStage::Rows(stage) => row_top(&self.sources[0], stage),
            LevelStage::Intersect(stage) => intersect_top(stage),
        }
    }

    fn next(&mut self) -> Result<(), NoMemory> {
        match &mut self.stage {
            LevelStage::Same => self.sources[0].next(),
            LevelStage::Drop(cursor) => staged_next(&mut self.sources[0], cursor),
            LevelStage::CombineLongs(stage) => combine_next(&mut self.sources[0], stage),
            LevelStage::CombineArrays(stage) => combine_next(&mut self.sources[0], stage),
            LevelStage::Rows(stage) => row_next(&mut self.sources[0], stage),
            LevelStage::Intersect(stage) => intersect_next(&mut self.sources, stage),
        }
    }

    fn deep_copy(&self, alloc: Global) -> Result<Level<S>, NoMemory> {
        let source = self.sources[0].deep_copy(alloc)?;
        let stage = self.stage.fresh(alloc)?;
        let level = Level::over(alloc, source, self.sources.len() - 1, stage)?;
        Ok(level)
    }
}
