//! A filter of one's own.
ghost use Rattle.std.specs.Prelude.{◌≡◌};
ghost use Rattle.own_iterators.specs.Small.{is_small, small_passes};

use cell_key::{EntryRef, NoMemory};
use stages::Test;
use std::alloc::Global;

/// Whether a value has at most so many bytes. `stages::filter_by` puts it over a source.
#[derive(Drop)]
pub struct SmallValues {
    most: usize,
}

impl SmallValues {
    /// A test for values of at most `most` bytes. It takes no memory.
    pub fn new(most: usize) -> SmallValues
        ensures { small_passes result ≡ is_small most }
    {
        SmallValues { most }
    }
}

// All that a filter of one's own needs. There is nothing to prove by hand: the two functions are checked against
// `small_passes`, which says in `specs/Small.antt` which entries pass.
impl Test for SmallValues {
    ghost use Rattle.own_iterators.specs.Small.{small_passes};

    ghost passes = { small_passes };

    fn passes(&self, entry: EntryRef<'_>) -> bool {
        // A test meets delete markers too. One that hides something has to reach the stages above.
        entry.key.deleted || entry.value.len() <= self.most
    }

    // For deep copies. A test that owns a buffer would copy it here.
    fn fresh(&self, _alloc: Global) -> Result<SmallValues, NoMemory> {
        Ok(SmallValues::new(self.most))
    }
}
