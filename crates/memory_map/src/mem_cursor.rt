//! Cursors over a map.
ghost use Rattle.std.specs.Prelude.{◌≡◌, true, map};
ghost use Rattle.iter_contract.specs.Several.{AreOrdered};
ghost use Rattle.iter_contract.specs.VecRest.{vec_rest};
ghost use Rattle.memory_map.specs.Props.{ordered_prop};

use cell_key::{Entries, EntryRef, NoMemory, Range};
use iter_contract::{SortedSource, VecSource, copies, first_top, seek_all, step_first};
use std::alloc::Global;
use std::sync::Arc;

/// A source of the entries of a [`MemMap`](crate::MemMap), which it shares. It is steady, and so are its deep copies.
#[derive(Drop)]
pub struct MemCursor {
    /// One for each run of the map.
    runs: Vec<VecSource>,
    /// Whether the runs were sought: then they stand in the order of their tops.
    is_sought: bool,
    ghost are_ordered: { is_sought ≡ true → AreOrdered (map vec_rest runs.items) } by { ordered_prop is_sought (map vec_rest runs.items) },
}

impl MemCursor {
    ghost use Rattle.std.specs.Prelude.{◌≡◌, [], IfOk};
    ghost use Rattle.std.specs.List.{AllByRecursion};
    ghost use Rattle.tablet_model.specs.Order.{above};
    ghost use Rattle.tablet_model.specs.Sorted.{Ascends};
    ghost use Rattle.tablet_model.specs.Sum.{sum_all};
    ghost use Rattle.memory_map.specs.CursorParts.{mem_cells, mem_rest};
    ghost use Rattle.memory_map.specs.MapRuns.{lists_of};

    /// A source over runs, each of which is in order. It takes memory for its places in them.
    pub(crate) fn new(alloc: Global, runs: &[Arc<Entries>]) -> Result<MemCursor, NoMemory>
        requires { AllByRecursion (Ascends above) (lists_of runs.now) }
        ensures cells { IfOk result (λ cursor. mem_cells cursor ≡ sum_all (lists_of runs.now)) }
        ensures rest { IfOk result (λ cursor. mem_rest cursor ≡ []) }
    {
        let mut sources = Vec::with_capacity(alloc, runs.len())?;
        for run in runs {
            sources.push(VecSource::new(Arc::try_clone(run)?))?;
        }
        Ok(MemCursor {
            runs: sources,
            is_sought: false,
        })
    }
}

impl SortedSource for MemCursor {
    ghost use Rattle.std.specs.Prelude.{true, ⊤};
    ghost use Rattle.memory_map.specs.CursorParts.{mem_cells, mem_rest, mem_sorted, mem_bounded};

    ghost cells = { mem_cells };

    ghost rest = { mem_rest };

    ghost steady = { λ _. true };

    ghost valid = { λ _. ⊤ };

    ghost sorted = { mem_sorted };

    ghost bounded = { mem_bounded };

    fn seek(&mut self, range: &Range<'_>) -> Result<(), NoMemory> {
        self.is_sought = false;
        seek_all(&mut self.runs, range)?;
        self.is_sought = true;
        Ok(())
    }

    fn top(&self) -> Option<EntryRef<'_>> {
        if self.is_sought {
            first_top(&self.runs)
        } else {
            None
        }
    }

    fn next(&mut self) -> Result<(), NoMemory> {
        self.is_sought = false;
        step_first(&mut self.runs)?;
        self.is_sought = true;
        Ok(())
    }

    fn deep_copy(&self, alloc: Global) -> Result<MemCursor, NoMemory> {
        let runs = copies(alloc, &self.runs)?;
        Ok(MemCursor {
            runs,
            is_sought: false,
        })
    }
}
