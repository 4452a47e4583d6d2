//! Several sources as one.
use crate::several::{first_top, seek_all, step_first};
use cell_key::{EntryRef, NoMemory, Range};
use iter_contract::{SortedSource, copies};
use std::alloc::Global;

/// The entries of any number of sources in one order, each as often as it stands in them (Accumulo's `MultiIterator`).
#[derive(Drop)]
pub struct MergeIter<S> {
    /// In a heap by their tops, once they were sought.
    sources: Vec<S>,
    /// Whether the last seek or step came to its end.
    is_sought: bool,
}

impl<S: SortedSource> MergeIter<S> {
    ghost use Rattle.std.specs.Prelude.{map, IfOk};
    ghost use Rattle.std.specs.List.{AllByRecursion};
    ghost use Rattle.tablet_model.specs.Sum.{sum_all};
    ghost use Rattle.iter_contract.specs.Copies.{IsCopy};
    ghost use Rattle.iter_contract.specs.Several.{all_steady};
    ghost use Rattle.merge_iter.specs.MergeParts.{merge_cells, merge_rest, merge_steady, merge_valid};

    /// An iterator over sources, each of which may have been sought or not. Of no sources it has no entries.
    pub fn new(_alloc: Global, sources: Vec<S>) -> Result<MergeIter<S>, NoMemory>
        requires { AllByRecursion S.valid sources.items }
        ensures { IfOk result (λ it. IsCopy (sum_all (map S.cells sources.items)) (all_steady S.steady sources.items)
            (merge_cells S.cells it) (merge_rest S.rest it) (merge_steady S.steady it) (merge_valid S.rest S.valid it)) }
    {
        Ok(MergeIter {
            sources,
            is_sought: false,
        })
    }
}

impl<S: SortedSource> SortedSource for MergeIter<S> {
    ghost use Rattle.merge_iter.specs.MergeParts.{merge_cells, merge_rest, merge_steady, merge_valid, merge_sorted, merge_bounded};

    ghost cells = { merge_cells S.cells };

    ghost rest = { merge_rest S.rest };

    ghost steady = { merge_steady S.steady };

    ghost valid = { merge_valid S.rest S.valid };

    ghost sorted = { merge_sorted S.cells };

    ghost bounded = { merge_bounded S.cells S.bounded };

    fn seek(&mut self, range: &Range<'_>) -> Result<(), NoMemory> {
        self.is_sought = false;
        seek_all(&mut self.sources, range)?;
        self.is_sought = true;
        Ok(())
    }

    fn top(&self) -> Option<EntryRef<'_>> {
        if self.is_sought {
            first_top(&self.sources)
        } else {
            None
        }
    }

    fn next(&mut self) -> Result<(), NoMemory> {
        self.is_sought = false;
        step_first(&mut self.sources)?;
        self.is_sought = true;
        Ok(())
    }

    fn deep_copy(&self, alloc: Global) -> Result<MergeIter<S>, NoMemory> {
        let sources = copies(alloc, &self.sources)?;
        MergeIter::new(alloc, sources)
    }
}
