//! A sorted source over a shared list.
ghost use Rattle.std.specs.Prelude.{◌≤◌, length};
ghost use Rattle.std.specs.Arc.{arc_value};
ghost use Rattle.tablet_model.specs.Order.{above};
ghost use Rattle.tablet_model.specs.Sorted.{Ascends};
ghost use Rattle.tablet_model.specs.Bounds.{AreEntries};
ghost use Rattle.iter_contract.specs.Props.{Ascends-prop, AreEntries-prop};

use crate::search::{count_before, count_not_behind};
use crate::source::SortedSource;
use cell_key::{Entries, EntryRef, NoMemory, Range};
use std::alloc::Global;
use std::sync::Arc;

/// A source over a shared, sorted list of entries. It is steady, and its deep copies share the list.
#[derive(Drop)]
pub struct VecSource {
    entries: Arc<Entries>,
    /// What is left begins at `at` and ends before `end`.
    at: usize,
    end: usize,
    ghost order: { at ≤ end },
    ghost bound: { end ≤ length (arc_value entries) },
    ghost is_sorted: { Ascends above (arc_value entries) } by { Ascends-prop (arc_value entries) },
    ghost is_bounded: { AreEntries (arc_value entries) } by { AreEntries-prop (arc_value entries) },
}

impl VecSource {
    ghost use Rattle.std.specs.Prelude.{◌≡◌, []};
    ghost use Rattle.iter_contract.specs.VecRest.{vec_cells, vec_rest};

    /// A source over these entries, which have to be sorted. It takes no memory.
    pub fn new(entries: Arc<Entries>) -> VecSource
        requires { Ascends above (arc_value entries) }
        ensures cells { vec_cells result ≡ arc_value entries }
        ensures rest { vec_rest result ≡ [] }
    {
        let end = entries.len();
        VecSource {
            entries,
            at: end,
            end,
        }
    }
}

impl SortedSource for VecSource {
    ghost use Rattle.std.specs.Prelude.{true, ⊤};
    ghost use Rattle.iter_contract.specs.VecRest.{vec_cells, vec_rest};

    ghost cells = { vec_cells };

    ghost rest = { vec_rest };

    ghost steady = { λ _. true };

    ghost valid = { λ _. ⊤ };

    ghost sorted = { λ s. s.is_sorted };

    ghost bounded = { λ s. s.is_bounded };

    fn seek(&mut self, range: &Range<'_>) -> Result<(), NoMemory> {
        let entries = self.entries.as_slice();
        let end = count_before(entries, &range.end);
        let at = count_not_behind(&entries[..end], &range.start);
        self.at = at;
        self.end = end;
        Ok(())
    }

    fn top(&self) -> Option<EntryRef<'_>> {
        if self.at < self.end {
            Some(self.entries.get(self.at).entry())
        } else {
            None
        }
    }

    fn next(&mut self) -> Result<(), NoMemory> {
        self.at += 1;
        Ok(())
    }

    fn deep_copy(&self, _alloc: Global) -> Result<VecSource, NoMemory> {
        let entries = Arc::try_clone(&self.entries)?;
        Ok(VecSource::new(entries))
    }
}
