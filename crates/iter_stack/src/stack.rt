//! The whole stack, as one source.
#![tactic(auto, unfolding(crate::specs::Stacks::stack_cells, crate::specs::Stacks::stack_rest, crate::specs::Stacks::stack_steady, crate::specs::Stacks::stack_valid))]

use crate::four::Four;
use crate::level::Level;
use cell_key::{EntryRef, NoMemory, Range};
use iter_contract::SortedSource;
use std::alloc::Global;

/// The iterators of a configuration over a leaf, one over another. The lowest level drops what deletes hide, and up to
/// sixteen stand over it; one whose iterator does not run shows what is under it as it is. It is steady where its leaf is,
/// and no iterator that runs adds arrays, or makes entries of rows or documents.
#[derive(Drop)]
pub struct Stack<S> {
    pub(crate) levels: Four<Four<Four<Four<Level<S>>>>>,
}

impl<S: SortedSource> SortedSource for Stack<S> {
    ghost use Rattle.iter_stack.specs.Stacks.{stack_cells, stack_rest, stack_steady, stack_valid, stack_sorted, stack_bounded};

    ghost cells = { stack_cells S.cells };

    ghost rest = { stack_rest S.cells S.rest };

    ghost steady = { stack_steady S.steady };

    ghost valid = { stack_valid S.cells S.rest S.valid };

    ghost sorted = { stack_sorted S.cells S.sorted };

    ghost bounded = { stack_bounded S.cells S.sorted S.bounded };

    fn seek(&mut self, range: &Range<'_>) -> Result<(), NoMemory> {
        self.levels.seek(range)
    }

    fn top(&self) -> Option<EntryRef<'_>> {
        self.levels.top()
    }

    fn next(&mut self) -> Result<(), NoMemory> {
        self.levels.next()
    }

    fn deep_copy(&self, alloc: Global) -> Result<Stack<S>, NoMemory> {
        let levels = self.levels.deep_copy(alloc)?;
        Ok(Stack { levels })
    }
}
