//! The intersecting iterator.
use crate::sources::copied;
use crate::stage::IntersectStage;
use crate::steps::{intersect_next, intersect_seek, intersect_top};
use cell_key::{EntryRef, Names, NoMemory, Range};
use iter_contract::SortedSource;
use std::alloc::Global;
use std::sync::Arc;

/// The documents of an index that have all of some terms and none of others (Accumulo's `IntersectingIterator`): in a source a row
/// is a partition, a family a term and a qualifier a document. Each document that matches is one entry: it has the row, the document
/// as qualifier, the greatest time, and else nothing. A seek into the middle of a row goes on from the document there.
///
/// A search moves by seeks. Each term has a source of its own, a deep copy. In each round all of them are sought to one document of a
/// row, each as far as those before it have shown, and the next round begins at the furthest. So a row takes at most two rounds for
/// each document of its rarest term, whatever the others have.
#[derive(Drop)]
pub struct IntersectIter<S> {
    /// The source, and a deep copy of it for each further term, those included that documents are to be without.
    pub(crate) sources: Vec<S>,
    pub(crate) stage: IntersectStage,
}

impl<S: SortedSource> IntersectIter<S> {
    ghost use Rattle.std.specs.Prelude.{◌≤◌, ◌+◌, length, IfOk};
    ghost use Rattle.std.specs.Arc.{arc_value};
    ghost use Rattle.iter_contract.specs.Copies.{IsCopy};
    ghost use Rattle.tablet_model.specs.Rows.{intersect_terms};
    ghost use Rattle.intersecting.specs.IntersectParts.{iter_cells, iter_rest, iter_steady, iter_valid};

    /// An iterator over a source, which may have been sought or not, for documents that have all of `terms`, at least one, and none
    /// of `without`; there are 16 terms in all at most. A marker counts as an entry. It makes a deep copy of the source for each
    /// further term, and takes the memory that its other calls need beside those of its sources: it is steady where its source is.
    pub fn new(
        alloc: Global,
        source: S,
        terms: Arc<Names>,
        without: Arc<Names>,
    ) -> Result<IntersectIter<S>, NoMemory>
        requires valid { S.valid source }
        requires some { 1 ≤ length (arc_value terms) }
        requires few { length (arc_value terms) + length (arc_value without) ≤ 16 }
        ensures { IfOk result (λ it. IsCopy (intersect_terms (arc_value terms) (arc_value without) (S.cells source)) (S.steady source)
            (iter_cells S.cells it) (iter_rest S.cells it) (iter_steady S.steady it) (iter_valid S.cells S.steady S.valid it)) }
    {
        let copies = terms.len() - 1 + without.len();
        let sources = copied(alloc, source, copies)?;
        let stage = IntersectStage::new(alloc, terms, without)?;
        Ok(IntersectIter { sources, stage })
    }
}

impl<S: SortedSource> SortedSource for IntersectIter<S> {
    ghost use Rattle.intersecting.specs.IntersectParts.{iter_cells, iter_rest, iter_steady, iter_valid, iter_sorted, iter_bounded};

    ghost cells = { iter_cells S.cells };

    ghost rest = { iter_rest S.cells };

    ghost steady = { iter_steady S.steady };

    ghost valid = { iter_valid S.cells S.steady S.valid };

    ghost sorted = { iter_sorted S.cells S.sorted };

    ghost bounded = { iter_bounded S.cells S.bounded };

    fn seek(&mut self, range: &Range<'_>) -> Result<(), NoMemory> {
        intersect_seek(&mut self.sources, &mut self.stage, range)
    }

    fn top(&self) -> Option<EntryRef<'_>> {
        intersect_top(&self.stage)
    }

    fn next(&mut self) -> Result<(), NoMemory> {
        intersect_next(&mut self.sources, &mut self.stage)
    }

    fn deep_copy(&self, alloc: Global) -> Result<IntersectIter<S>, NoMemory> {
        let source = self.sources[0].deep_copy(alloc)?;
        let sources = copied(alloc, source, self.sources.len() - 1)?;
        let stage = self.stage.fresh(alloc)?;
        Ok(IntersectIter { sources, stage })
    }
}
