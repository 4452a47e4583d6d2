//! What a combiner keeps between calls.
ghost use Rattle.std.specs.Prelude.{◌≡◌, false, IfOk};
ghost use Rattle.std.specs.Arc.{arc_value};

use crate::reducer::Reducer;
use cell_key::{Bound, ColumnBuf, Columns, NoMemory, Range, RangeBuf};
use std::alloc::Global;
use std::sync::Arc;

/// Where a combiner has come to. What is left of its source stands behind the column that it holds.
#[derive(Drop)]
pub struct CombineStage<R> {
    /// It has the join of the held column's values.
    pub(crate) reducer: R,
    pub(crate) columns: Arc<Columns>,
    /// The held column, and the newest time in it.
    pub(crate) column: ColumnBuf,
    pub(crate) time: i64,
    /// Whether a column is held, whose entry is the next that is shown.
    pub(crate) is_held: bool,
    /// The range of the last seek, whose end may lie within a column.
    pub(crate) range: RangeBuf,
    /// Whether the last seek or step came to its end.
    pub(crate) is_sought: bool,
}

impl<R: Reducer> CombineStage<R> {
    /// A stage that was not sought. It takes the memory that its other calls need, beside what those of the reducer
    /// take.
    pub fn new(
        alloc: Global,
        columns: Arc<Columns>,
        reducer: R,
    ) -> Result<CombineStage<R>, NoMemory>
        ensures columns { IfOk result (λ stage. arc_value stage.columns ≡ arc_value columns) }
        ensures reducer { IfOk result (λ stage. stage.reducer ≡ reducer) }
        ensures unsought { IfOk result (λ stage. stage.is_sought ≡ false) }
    {
        let column = ColumnBuf::new(alloc)?;
        let everything = Range {
            start: Bound::Open,
            end: Bound::Open,
        };
        let range = RangeBuf::of(alloc, &everything)?;
        Ok(CombineStage {
            reducer,
            columns,
            column,
            time: 0,
            is_held: false,
            range,
            is_sought: false,
        })
    }

    /// A stage for the same columns, with a fresh reducer, that was not sought.
    pub fn fresh(&self, alloc: Global) -> Result<CombineStage<R>, NoMemory>
        ensures columns { IfOk result (λ stage. arc_value stage.columns ≡ arc_value self.now.columns) }
        ensures reduction { IfOk result (λ stage. R.reduction stage.reducer ≡ R.reduction self.now.reducer) }
        ensures steady { IfOk result (λ stage. R.steady stage.reducer ≡ R.steady self.now.reducer) }
        ensures unsought { IfOk result (λ stage. stage.is_sought ≡ false) }
    {
        let reducer = self.reducer.fresh(alloc)?;
        let columns = Arc::try_clone(&self.columns)?;
        CombineStage::new(alloc, columns, reducer)
    }
}
