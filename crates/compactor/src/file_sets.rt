//! Files by their sizes, and the files that a compaction takes.
ghost use Rattle.std.specs.Prelude.{◌≡◌};
ghost use Rattle.cell_key.specs.FileNumbers.{AreAscending};

use arrayvec::ArrayVec;
use std::marker::Model;

/// A file's number, and how many entries it has.
#[derive(Clone, Copy, Debug, Default, PartialEq, Eq)]
pub struct FileCount {
    pub id: u64,
    pub count: u64,
}

/// The numbers of the files that a compaction takes: at least two, ascending. Contracts see the list.
#[derive(Drop)]
pub struct Plan {
    pub(crate) ids: ArrayVec<u64, 64>,
}

impl Model for Plan {
    ghost use Rattle.std.specs.Prelude.{ℕ, List};
    ghost use Rattle.cell_key.specs.FileNumbers.{AreAscending};

    ghost Value = { List ℕ };

    ghost view = { λ plan. plan.ids.items };

    ghost invariant = { λ plan. AreAscending plan.ids.items };
}

impl Plan {
    /// The numbers, ascending. It takes no memory.
    pub fn ids(&self) -> &[u64]
        ensures ids { result.now ≡ self.now }
        ensures ascend { AreAscending self.now }
    {
        self.ids.as_slice()
    }
}
