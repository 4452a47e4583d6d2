//! The whole row iterator.
use crate::stage::RowStage;
use crate::steps::{row_next, row_seek, row_top};
use cell_key::{EntryRef, NoMemory, Range};
use iter_contract::SortedSource;
use std::alloc::Global;

/// The rows of a source, each as one entry (Accumulo's `WholeRowIterator`). The key has the row alone, the greatest time and no
/// deleted flag, and the value is the text of the row's entries, which [`decode_row`](crate::decode_row) reads. A seek into the
/// middle of a row reads that row from its beginning.
#[derive(Drop)]
pub struct RowIter<S> {
    source: S,
    stage: RowStage,
}

impl<S: SortedSource> RowIter<S> {
    ghost use Rattle.std.specs.Prelude.{false, IfOk};
    ghost use Rattle.iter_contract.specs.Copies.{IsCopy};
    ghost use Rattle.whole_row.specs.RowLists.{AreLive};
    ghost use Rattle.tablet_model.specs.RowText.{whole_rows};
    ghost use Rattle.whole_row.specs.RowParts.{row_cells, row_rest, row_steady, row_valid};

    /// An iterator over a source, which may have been sought or not, and has no markers. It takes the memory that `top` needs;
    /// `seek` and `next` take memory for the texts of rows, so it is not steady.
    pub fn new(alloc: Global, source: S) -> Result<RowIter<S>, NoMemory>
        requires valid { S.valid source }
        requires live { AreLive (S.cells source) }
        ensures { IfOk result (λ it. IsCopy (whole_rows (S.cells source)) false
            (row_cells S.cells it) (row_rest S.rest it) (row_steady it) (row_valid S.cells S.rest S.valid it)) }
    {
        let stage = RowStage::new(alloc)?;
        Ok(RowIter { source, stage })
    }
}

impl<S: SortedSource> SortedSource for RowIter<S> {
    ghost use Rattle.whole_row.specs.RowParts.{row_cells, row_rest, row_steady, row_valid, row_sorted, row_bounded};

    ghost cells = { row_cells S.cells };

    ghost rest = { row_rest S.rest };

    ghost steady = { row_steady };

    ghost valid = { row_valid S.cells S.rest S.valid };

    ghost sorted = { row_sorted S.cells S.sorted };

    ghost bounded = { row_bounded S.cells S.bounded };

    fn seek(&mut self, range: &Range<'_>) -> Result<(), NoMemory> {
        row_seek(&mut self.source, &mut self.stage, range)
    }

    fn top(&self) -> Option<EntryRef<'_>> {
        row_top(&self.source, &self.stage)
    }

    fn next(&mut self) -> Result<(), NoMemory> {
        row_next(&mut self.source, &mut self.stage)
    }

    fn deep_copy(&self, alloc: Global) -> Result<RowIter<S>, NoMemory> {
        let source = self.source.deep_copy(alloc)?;
        let stage = RowStage::new(alloc)?;
        Ok(RowIter { source, stage })
    }
}
