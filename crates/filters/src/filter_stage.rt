//! The stage of a filter.
ghost use Rattle.std.specs.Prelude.{◌≡◌};
ghost use Rattle.std.specs.Arc.{arc_value};
ghost use Rattle.filters.specs.FilterStages.{test_of};
ghost use Rattle.iter_config.specs.Predicates.{keeps};

use crate::matching::matches;
use cell_key::{EntryRef, NoMemory};
use iter_config::Predicate;
use stages::Stage;
use std::alloc::Global;
use std::sync::Arc;

/// The entries that pass a test (Accumulo's `Filter`), and the markers, which pass every filter (this project's rule).
#[derive(Drop)]
pub struct FilterStage {
    predicate: Arc<Predicate>,
    /// Whether it keeps the entries of which the test doesn't hold.
    negate: bool,
}

impl FilterStage {
    /// A stage that keeps markers, and the other entries for which the test holds, or with `negate` doesn't hold. It
    /// takes no memory.
    pub fn new(predicate: Arc<Predicate>, negate: bool) -> FilterStage
        ensures { test_of result ≡ keeps (arc_value predicate) negate }
    {
        FilterStage { predicate, negate }
    }
}

impl Stage for FilterStage {
    ghost use Rattle.std.specs.Prelude.{false};
    ghost use Rattle.filters.specs.FilterStages.{filter_made, passes, same, filter_pass, filter_narrows};

    ghost made = { filter_made };

    ghost keeps = { passes };

    ghost passed = { same };

    ghost restarted = { λ s. s };

    ghost wide = { λ _. false };

    ghost pass_is = { λ s list up. filter_pass s list };

    ghost narrows = { λ s span list up all. filter_narrows s span list };

    #[tactic(auto, unfolding(iter_config::specs::Predicates::keeps))]
    fn take(&mut self, entry: EntryRef<'_>) -> bool {
        entry.key.deleted || matches(&self.predicate, entry) != self.negate
    }

    fn restart(&mut self) {}

    fn widens(&self) -> bool {
        false
    }

    fn fresh(&self, _alloc: Global) -> Result<FilterStage, NoMemory> {
        let predicate = Arc::try_clone(&self.predicate)?;
        Ok(FilterStage::new(predicate, self.negate))
    }
}
