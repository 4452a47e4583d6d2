//! The map of the entries in memory.
ghost use Rattle.std.specs.Prelude.{◌≡◌, ◌+◌, ◌^◌, ◌≤◌, [], None, length, IfOk};
ghost use Rattle.tablet_model.specs.History.{entries_of};
ghost use Rattle.tablet_model.specs.Ingest.{out_of_bounds};
ghost use Rattle.tablet_model.specs.Limits.{max_changes};
ghost use Rattle.tablet_model.specs.Sum.{sum_of};
ghost use Rattle.cell_key.specs.Mutations.{row_change_of};
ghost use Rattle.memory_map.specs.CursorParts.{mem_cells, mem_rest};

use crate::mem_cursor::MemCursor;
use crate::runs::{Joining, joined, with_run};
use crate::updates::mutation_entries;
use cell_key::{Entries, Mutation, NoMemory};
use std::alloc::Global;
use std::marker::Model;
use std::sync::Arc;

/// The entries that a tablet holds in memory, in order (Accumulo's in-memory map). A map stays as it is: a mutation
/// gives a new one, which shares its entries.
#[derive(Drop)]
pub struct MemMap {
    /// The oldest first. Each is in order, and has at least twice as many entries as the next.
    runs: Vec<Arc<Entries>>,
    count: u64,
}

impl Model for MemMap {
    ghost use Rattle.std.specs.Prelude.{◌≡◌, List, length};
    ghost use Rattle.tablet_model.specs.Cell.{Cell};
    ghost use Rattle.tablet_model.specs.Sum.{sum_all};
    ghost use Rattle.memory_map.specs.MapRuns.{lists_of, AreRuns};

    ghost Value = { List Cell };

    ghost view = { λ map. sum_all (lists_of map.runs.items) };

    ghost invariant = { λ map. AreRuns (lists_of map.runs.items) × (map.count ≡ length (sum_all (lists_of map.runs.items))) };
}

impl MemMap {
    /// The map of no entries. It takes no memory.
    #[tactic(auto, unfolding(tablet_model::specs::Sorted::sorted, tablet_model::specs::Sum::sum_all))]
    pub fn empty(alloc: Global) -> Result<MemMap, NoMemory>
        ensures { IfOk result (λ map. map ≡ []) }
    {
        Ok(MemMap {
            runs: Vec::new(alloc),
            count: 0,
        })
    }

    /// A map that has also the entries of a mutation, each at its own time or else at this one. It takes memory.
    pub fn insert(&self, alloc: Global, mutation: &Mutation, time: i64) -> Result<MemMap, NoMemory>
        requires { out_of_bounds (row_change_of mutation.now) ≡ None }
        ensures { IfOk result (λ map. map ≡ sum_of self.now (entries_of time (row_change_of mutation.now))) }
    {
        let entries = mutation_entries(alloc, mutation, time)?;
        self.add(alloc, &entries)
    }

    /// A map that has also some entries, which it shares: no more than a mutation may have. It takes memory.
    pub fn add(&self, alloc: Global, added: &Entries) -> Result<MemMap, NoMemory>
        requires some { 1 ≤ length added.now }
        requires few { length added.now ≤ max_changes }
        ensures { IfOk result (λ map. map ≡ sum_of self.now added.now) }
    {
        let more = added.len();
        let Joining { kept, size } = Joining::of(&self.runs, more);
        let (kept, others) = self.runs.split_at(kept);
        let run = joined(alloc, others, added, size)?;
        let runs = with_run(alloc, kept, run)?;
        let count = self.count + more as u64;
        Ok(MemMap { runs, count })
    }

    /// The number of entries. It takes no memory.
    pub fn count(&self) -> u64
        ensures { result ≡ length self.now }
    {
        self.count
    }

    /// The number of runs that the entries lie in: few, however many entries there are. It takes no memory.
    pub fn runs(&self) -> u32
        ensures { 2 ^ result ≤ length self.now + 1 }
    {
        self.runs.len() as u32
    }

    /// A source of the map's entries, which shares them with the map.
    pub fn cursor(&self, alloc: Global) -> Result<MemCursor, NoMemory>
        ensures cells { IfOk result (λ cursor. mem_cells cursor ≡ self.now) }
        ensures rest { IfOk result (λ cursor. mem_rest cursor ≡ []) }
    {
        MemCursor::new(alloc, &self.runs)
    }
}
