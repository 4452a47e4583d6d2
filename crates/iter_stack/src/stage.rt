//! What a level does.
ghost use Rattle.std.specs.Prelude.{false, IfOk, if◌then◌else◌, ⊤};
ghost use Rattle.tablet_model.specs.Combines.{combine_columns};
ghost use Rattle.tablet_model.specs.Stages.{stage};
ghost use Rattle.cell_key.specs.Listed.{column_listed};
ghost use Rattle.number_values.specs.Values.{reduction_of};
ghost use Rattle.iter_config.specs.Stages.{stage_of};
ghost use Rattle.iter_stack.specs.Usages.{is_of_arrays};
ghost use Rattle.iter_stack.specs.Places.{bottom_cells, kind_steady, KindCounts, KindTakes};
ghost use Rattle.iter_stack.specs.DropStages.{drop_made};
ghost use Rattle.iter_stack.specs.LevelStages.{stage_cells, stage_steady, StageCounts, StageTakes, AreCombinable, IsFresh, IsBottom};

use crate::drop_stage::DropStage;
use crate::usage::Usage;
use cell_key::{Columns, NoMemory};
use combiners::{ArrayReducer, CombineStage, LongReducer};
use delete_iter::{LiveStage, MarkStage};
use filters::FilterStage;
use intersecting::IntersectStage;
use iter_config::{Encoding, Kind, Op};
use stages::Cursor;
use std::alloc::Global;
use std::sync::Arc;
use versioning::VersionStage;
use whole_row::RowStage;

/// What one level does to its source, and where it has come to.
#[derive(Drop)]
pub enum LevelStage {
    /// It shows its source as it is.
    Same,
    /// It drops entries.
    Drop(Cursor<DropStage>),
    /// Columns of numbers become one entry each.
    CombineLongs(CombineStage<LongReducer>),
    /// Columns of arrays become one entry each.
    CombineArrays(CombineStage<ArrayReducer>),
    /// Rows become one entry each.
    Rows(RowStage),
    /// Documents that have all terms are one entry each.
    Intersect(IntersectStage),
}

impl LevelStage {
    /// The stage next to the leaf, not sought. It takes memory.
    pub(crate) fn bottom(alloc: Global, usage: Usage) -> Result<LevelStage, NoMemory>
        ensures { IfOk result (IsBottom (bottom_cells usage)) }
    {
        match usage {
            Usage::Scan | Usage::MajcFull | Usage::Pack => {
                let stage = DropStage::Live(LiveStage::new(alloc)?);
                Ok(LevelStage::dropping(stage))
            }
            Usage::Minc | Usage::MajcPart => {
                let stage = DropStage::Mark(MarkStage::new(alloc)?);
                Ok(LevelStage::dropping(stage))
            }
        }
    }

    /// What a stage drops, not sought.
    #[tactic(auto, using(crate::proofs::Alike::bottom_drop))]
    fn dropping(stage: DropStage) -> LevelStage
        ensures { IsBottom (drop_made stage) result }
    {
        LevelStage::Drop(Cursor::new(stage))
    }

    /// The stage of a kind of iterator, not sought. It takes memory.
    #[tactic(auto, unfolding(tablet_model::specs::Stages::stage))]
    pub(crate) fn of(alloc: Global, kind: &Kind) -> Result<LevelStage, NoMemory>
        ensures { IfOk result (IsFresh (stage (stage_of kind.now)) (kind_steady kind.now) (KindTakes kind.now) (KindCounts kind.now)) }
    {
        match kind {
            Kind::Filter { predicate, negate } => {
                let predicate = Arc::new(alloc, predicate.copy(alloc)?)?;
                let stage = DropStage::Filter(FilterStage::new(predicate, *negate));
                Ok(LevelStage::dropping(stage))
            }
            Kind::Versions { max } => {
                let stage = DropStage::Versions(VersionStage::new(alloc, *max)?);
                Ok(LevelStage::dropping(stage))
            }
            Kind::Combine {
                op,
                columns,
                encoding,
                ..
            } => LevelStage::combiner(alloc, *op, columns, *encoding),
            Kind::WholeRow => Ok(LevelStage::Rows(RowStage::new(alloc)?)),
            Kind::Intersecting { terms, without } => {
                let terms = Arc::new(alloc, terms.copy(alloc)?)?;
                let without = Arc::new(alloc, without.copy(alloc)?)?;
                let stage = IntersectStage::new(alloc, terms, without)?;
                Ok(LevelStage::Intersect(stage))
            }
        }
    }

    /// The stage of a combiner.
    fn combiner(
        alloc: Global,
        op: Op,
        columns: &Columns,
        encoding: Encoding,
    ) -> Result<LevelStage, NoMemory>
        ensures { IfOk result (IsFresh
            (combine_columns (column_listed columns.now) (reduction_of op encoding))
            (λ source. if is_of_arrays op then false else source)
            (AreCombinable columns.now (reduction_of op encoding)) (λ count. ⊤)) }
    {
        let columns = Arc::new(alloc, columns.copy(alloc)?)?;
        match op {
            Op::Sum | Op::Min | Op::Max => {
                let reducer = LongReducer::new(op, encoding);
                let stage = CombineStage::new(alloc, columns, reducer)?;
                Ok(LevelStage::CombineLongs(stage))
            }
            Op::ArraySum => {
                let reducer = ArrayReducer::new(alloc, encoding)?;
                let stage = CombineStage::new(alloc, columns, reducer)?;
                Ok(LevelStage::CombineArrays(stage))
            }
        }
    }

    /// A stage that does the same and was not sought, for a deep copy. It takes memory.
    pub(crate) fn fresh(&self, alloc: Global) -> Result<LevelStage, NoMemory>
        ensures { IfOk result (IsFresh (stage_cells self.now) (stage_steady self.now) (StageTakes self.now) (StageCounts self.now)) }
    {
        match self {
            LevelStage::Same => Ok(LevelStage::Same),
            LevelStage::Drop(cursor) => Ok(LevelStage::Drop(cursor.fresh(alloc)?)),
            LevelStage::CombineLongs(stage) => Ok(LevelStage::CombineLongs(stage.fresh(alloc)?)),
            LevelStage::CombineArrays(stage) => Ok(LevelStage::CombineArrays(stage.fresh(alloc)?)),
            LevelStage::Rows(_) => Ok(LevelStage::Rows(RowStage::new(alloc)?)),
            LevelStage::Intersect(stage) => Ok(LevelStage::Intersect(stage.fresh(alloc)?)),
        }
    }
}
