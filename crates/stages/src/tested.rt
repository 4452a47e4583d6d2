//! The stage of any test.
ghost use Rattle.std.specs.Prelude.{filter};
ghost use Rattle.iter_contract.specs.Copies.{IsCopy};
ghost use Rattle.stages.specs.StagedParts.{staged_cells, staged_rest, staged_steady, staged_valid};
ghost use Rattle.stages.specs.TestedParts.{tested_made, tested_keeps, untouched};

use crate::stage::Stage;
use crate::staged::Staged;
use crate::test::Test;
use cell_key::{EntryRef, NoMemory};
use iter_contract::SortedSource;
use std::alloc::Global;

/// The entries that pass a test.
#[derive(Drop)]
pub struct Tested<P> {
    pub(crate) test: P,
}

impl<P: Test> Tested<P> {
    ghost use Rattle.std.specs.Prelude.{◌≡◌};

    /// A stage that keeps what passes. It takes no memory.
    pub fn new(test: P) -> Tested<P>
        ensures { tested_made P.passes result ≡ filter (P.passes test) }
    {
        Tested { test }
    }
}

impl<P: Test> Stage for Tested<P> {
    ghost use Rattle.std.specs.Prelude.{false};
    ghost use Rattle.stages.specs.TestedParts.{tested_made, tested_keeps, untouched, tested_pass, tested_narrows};

    ghost made = { tested_made P.passes };

    ghost keeps = { tested_keeps P.passes };

    ghost passed = { untouched };

    ghost restarted = { λ s. s };

    ghost wide = { λ _. false };

    ghost pass_is = { λ s list up. tested_pass P.passes s list };

    ghost narrows = { λ s span list up all. tested_narrows P.passes s span list };

    fn take(&mut self, entry: EntryRef<'_>) -> bool {
        self.test.passes(entry)
    }

    fn restart(&mut self) {}

    fn widens(&self) -> bool {
        false
    }

    fn fresh(&self, alloc: Global) -> Result<Tested<P>, NoMemory> {
        let test = self.test.fresh(alloc)?;
        Ok(Tested { test })
    }
}

/// The entries of a source that pass a test. The source may have been sought or not. It takes no memory.
pub fn filter_by<S: SortedSource, P: Test>(source: S, test: P) -> Staged<S, Tested<P>>
    requires { S.valid source }
    ensures { IsCopy (filter (P.passes test) (S.cells source)) (S.steady source)
        (staged_cells S.cells (tested_made P.passes) result) (staged_rest S.rest (tested_keeps P.passes) untouched result)
        (staged_steady S.steady result) (staged_valid S.valid result) }
{
    Staged::new(source, Tested::new(test))
}
