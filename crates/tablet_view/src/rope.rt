//! The entries of mutations in their order, as a tree whose halves are shared.
ghost use Rattle.std.specs.Prelude.{◌≡◌, ◌<◌, [], ◌∷◌, Some, length, slice_get, IfOk};
ghost use Rattle.tablet_view.specs.Ropes.{IsCounted, mutations_in};

use cell_key::{Entries, Entry, NoMemory};
use std::slice;
use std::sync::Arc;

/// The entries of each mutation, in the order of the mutations. Two ropes are shared by one of both, and no mutation is touched.
#[derive(Drop)]
pub(crate) enum Rope {
    /// The entry of a mutation that has only one.
    One(Entry),
    /// The entries of a mutation.
    Several(Entries),
    /// The number is that of the first rope's mutations.
    Two(Arc<Rope>, usize, Arc<Rope>),
}

impl Rope {
    /// The rope of one mutation, of which these are the entries.
    pub(crate) fn of(entries: Entries) -> Result<Rope, NoMemory>
        ensures mutations { IfOk result (λ rope. mutations_in rope ≡ entries ∷ []) }
        ensures counted { IfOk result (λ rope. IsCounted rope) }
    {
        if entries.len() == 1 {
            Ok(Rope::One(entries.get(0).share()?))
        } else {
            Ok(Rope::Several(entries))
        }
    }

    /// The entries of the mutation at place `i`, counted from 0. It takes no memory.
    pub(crate) fn get(&self, i: usize) -> &[Entry]
        requires counted { IsCounted self.now }
        requires inside { i < length (mutations_in self.now) }
        ensures { slice_get (mutations_in self.now) i ≡ Some result.now }
    {
        match self {
            Rope::One(entry) => slice::from_ref(entry),
            Rope::Several(entries) => entries.as_slice(),
            Rope::Two(first, count, second) => {
                if i < *count {
                    first.get(i)
                } else {
                    second.get(i - *count)
                }
            }
        }
    }
}
