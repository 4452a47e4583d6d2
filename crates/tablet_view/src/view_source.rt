//! A source of the entries of all parts of a view.
#![tactic(auto, unfolding(crate::specs::Sources::source_cells, crate::specs::Sources::source_rest, crate::specs::Sources::source_valid))]

use crate::family_test::FamilyTest;
use cell_key::{EntryRef, Families, NoMemory, Range};
use compactor::PartCursor;
use iter_contract::SortedSource;
use merge_iter::MergeIter;
use stages::{Staged, Tested, filter_by};
use std::alloc::Global;

/// A source of the entries that a [`View`](crate::View) has in some families: those of all its parts, in one order. It is
/// steady, and so are its deep copies.
#[derive(Drop)]
pub struct ViewSource {
    source: Staged<MergeIter<PartCursor>, Tested<FamilyTest>>,
}

impl ViewSource {
    ghost use Rattle.std.specs.Prelude.{true, IfOk};
    ghost use Rattle.tablet_model.specs.Families.{in_families};
    ghost use Rattle.iter_contract.specs.Copies.{IsCopy};
    ghost use Rattle.compactor.specs.PartCells.{union_of};
    ghost use Rattle.tablet_view.specs.Sources.{source_cells, source_rest, source_valid};

    /// A source of the entries of some parts in some families.
    pub(crate) fn new(
        alloc: Global,
        parts: Vec<PartCursor>,
        families: &Families,
    ) -> Result<ViewSource, NoMemory>
        ensures { IfOk result (λ source. IsCopy (in_families families.now (union_of parts.items)) true
            (source_cells source) (source_rest source) true (source_valid source)) }
    {
        let merged = MergeIter::new(alloc, parts)?;
        let test = FamilyTest::new(alloc, families)?;
        let source = filter_by(merged, test);
        Ok(ViewSource { source })
    }
}

impl SortedSource for ViewSource {
    ghost use Rattle.std.specs.Prelude.{true};
    ghost use Rattle.tablet_view.specs.Sources.{source_cells, source_rest, source_valid, source_sorted, source_bounded};

    ghost cells = { source_cells };

    ghost rest = { source_rest };

    ghost steady = { λ _. true };

    ghost valid = { source_valid };

    ghost sorted = { source_sorted };

    ghost bounded = { source_bounded };

    fn seek(&mut self, range: &Range<'_>) -> Result<(), NoMemory> {
        self.source.seek(range)
    }

    fn top(&self) -> Option<EntryRef<'_>> {
        self.source.top()
    }

    fn next(&mut self) -> Result<(), NoMemory> {
        self.source.next()
    }

    fn deep_copy(&self, alloc: Global) -> Result<ViewSource, NoMemory> {
        let source = self.source.deep_copy(alloc)?;
        Ok(ViewSource { source })
    }
}
