//! The combining iterator.
use crate::reducer::Reducer;
use crate::stage::CombineStage;
use crate::steps::{combine_next, combine_seek, combine_top};
use cell_key::{Columns, EntryRef, NoMemory, Range};
use iter_contract::SortedSource;
use std::alloc::Global;
use std::sync::Arc;

/// The entries of a source, where those of a listed column are combined (Accumulo's `Combiner`): one entry stands for
/// all that are no markers, with the newest of their keys and the join of their values. Markers and other columns stay.
#[derive(Drop)]
pub struct CombineIter<S, R> {
    source: S,
    stage: CombineStage<R>,
}

impl<S: SortedSource, R: Reducer> CombineIter<S, R> {
    ghost use Rattle.std.specs.Prelude.{◌&&◌, [], IfOk};
    ghost use Rattle.std.specs.Arc.{arc_value};
    ghost use Rattle.tablet_model.specs.Combines.{combine_columns};
    ghost use Rattle.tablet_model.specs.Reading.{AreInFront};
    ghost use Rattle.iter_contract.specs.Copies.{IsCopy};
    ghost use Rattle.cell_key.specs.Listed.{column_listed};
    ghost use Rattle.combiners.specs.Gathers.{AreRead};
    ghost use Rattle.combiners.specs.CombineParts.{combine_cells_of, combine_rest, combine_steady_of, combine_valid};

    /// An iterator over a source, which may have been sought or not. In the listed columns the reducer has to read the
    /// value of each entry that is no marker, and none of these may stand after a marker. It takes the memory that its
    /// other calls need, beside what those of source and reducer take.
    pub fn new(
        alloc: Global,
        source: S,
        columns: Arc<Columns>,
        reducer: R,
    ) -> Result<CombineIter<S, R>, NoMemory>
        requires valid { S.valid source }
        requires read { AreRead (arc_value columns) (R.reduction reducer) (S.cells source) }
        requires in_front { AreInFront (column_listed (arc_value columns)) [] (S.cells source) }
        ensures { IfOk result (λ it. IsCopy
            (combine_columns (column_listed (arc_value columns)) (R.reduction reducer) (S.cells source))
            (S.steady source && R.steady reducer)
            (combine_cells_of S.cells R.reduction it) (combine_rest S.rest R.reduction R.joined it)
            (combine_steady_of S.steady R.steady it)
            (combine_valid S.cells S.rest S.valid R.reduction R.joined it)) }
    {
        let stage = CombineStage::new(alloc, columns, reducer)?;
        Ok(CombineIter { source, stage })
    }
}

impl<S: SortedSource, R: Reducer> SortedSource for CombineIter<S, R> {
    ghost use Rattle.combiners.specs.CombineParts.{combine_cells_of, combine_rest, combine_steady_of, combine_valid, combine_sorted, combine_bounded};

    ghost cells = { combine_cells_of S.cells R.reduction };

    ghost rest = { combine_rest S.rest R.reduction R.joined };

    ghost steady = { combine_steady_of S.steady R.steady };

    ghost valid = { combine_valid S.cells S.rest S.valid R.reduction R.joined };

    ghost sorted = { combine_sorted S.cells S.sorted R.reduction };

    ghost bounded = { combine_bounded S.cells S.bounded R.reduction };

    fn seek(&mut self, range: &Range<'_>) -> Result<(), NoMemory> {
        combine_seek(&mut self.source, &mut self.stage, range)
    }

    fn top(&self) -> Option<EntryRef<'_>> {
        combine_top(&self.source, &self.stage)
    }

    fn next(&mut self) -> Result<(), NoMemory> {
        combine_next(&mut self.source, &mut self.stage)
    }

    fn deep_copy(&self, alloc: Global) -> Result<CombineIter<S, R>, NoMemory> {
        let source = self.source.deep_copy(alloc)?;
        let stage = self.stage.fresh(alloc)?;
        Ok(CombineIter { source, stage })
    }
}
