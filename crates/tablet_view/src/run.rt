//! A run of a log.
ghost use Rattle.std.specs.Prelude.{◌≡◌, ◌<◌, ◌≤◌, ◌+◌, ◌^◌, [], ◌∷◌, ◌++◌, Some, length, slice_get, IfOk};
ghost use Rattle.std.specs.Arc.{arc_value};
ghost use Rattle.tablet_view.specs.Ropes.{mutations_in};

use crate::rope::Rope;
use cell_key::{Entries, Entry, NoMemory};
use std::alloc::Global;
use std::marker::Model;
use std::sync::Arc;

/// A run of a log: the entries of some mutations in their order, shared with the logs that have the same run.
#[derive(Drop)]
pub(crate) struct Run {
    rope: Arc<Rope>,
    count: usize,
}

impl Model for Run {
    ghost use Rattle.std.specs.Prelude.{◌≡◌, List, length};
    ghost use Rattle.std.specs.Arc.{arc_value};
    ghost use Rattle.tablet_model.specs.Cell.{Cell};
    ghost use Rattle.tablet_view.specs.Ropes.{mutations_in, IsCounted};

    ghost Value = { List (List Cell) };

    ghost view = { λ r. mutations_in (arc_value r.rope) };

    ghost invariant = { λ r. IsCounted (arc_value r.rope) × (r.count ≡ length (mutations_in (arc_value r.rope))) };
}

impl Run {
    /// The run of one mutation. It takes memory.
    pub(crate) fn of(alloc: Global, entries: Entries) -> Result<Run, NoMemory>
        ensures { IfOk result (λ run. run ≡ entries ∷ []) }
    {
        let rope = Arc::new(alloc, Rope::of(entries)?)?;
        Ok(Run { rope, count: 1 })
    }

    /// The same run, shared.
    pub(crate) fn share(&self) -> Result<Run, NoMemory>
        ensures { IfOk result (λ run. run ≡ self.now) }
    {
        let rope = Arc::try_clone(&self.rope)?;
        Ok(Run {
            rope,
            count: self.count,
        })
    }

    /// The run with another's mutations behind its own. It takes memory for one rope, however long both are.
    pub(crate) fn join(self, alloc: Global, later: Run) -> Result<Run, NoMemory>
        requires { length self + length later < 2 ^ 64 }
        ensures { IfOk result (λ run. run ≡ self ++ later) }
    {
        let count = self.count + later.count;
        let rope = Arc::new(alloc, Rope::Two(self.rope, self.count, later.rope))?;
        Ok(Run { rope, count })
    }

    /// How many mutations there are. It takes no memory.
    pub(crate) fn len(&self) -> usize
        ensures { result ≡ length self.now }
    {
        self.count
    }

    /// The entries of the mutation at place `i`, counted from 0. It takes no memory.
    pub(crate) fn get(&self, i: usize) -> &[Entry]
        requires { i < length self.now }
        ensures { slice_get self.now i ≡ Some result.now }
    {
        self.rope.get(i)
    }
}
