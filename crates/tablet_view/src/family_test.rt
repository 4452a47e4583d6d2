ghost use Rattle.std.specs.Prelude.{◌≡◌, IfOk};
ghost use Rattle.tablet_model.specs.Families.{is_in};
ghost use Rattle.tablet_view.specs.FamilyTests.{family_passes};

use cell_key::{EntryRef, Families, NoMemory};
use stages::Test;
use std::alloc::Global;

/// Whether an entry is in some families, a marker too (Accumulo's `ColumnFamilySkippingIterator`).
#[derive(Drop)]
pub(crate) struct FamilyTest {
    families: Families,
}

impl FamilyTest {
    /// A test for these families. It takes memory.
    pub(crate) fn new(alloc: Global, families: &Families) -> Result<FamilyTest, NoMemory>
        ensures { IfOk result (λ test. family_passes test ≡ is_in families.now) }
    {
        let families = families.copy(alloc)?;
        Ok(FamilyTest { families })
    }
}

impl Test for FamilyTest {
    ghost use Rattle.tablet_view.specs.FamilyTests.{family_passes};

    ghost passes = { family_passes };

    fn passes(&self, entry: EntryRef<'_>) -> bool {
        self.families.has(entry.key.family)
    }

    fn fresh(&self, alloc: Global) -> Result<FamilyTest, NoMemory> {
        FamilyTest::new(alloc, &self.families)
    }
}
