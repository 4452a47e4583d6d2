//! The iterator of a filter over any source.
ghost use Rattle.std.specs.Arc.{arc_value};
ghost use Rattle.tablet_model.specs.Filters.{filter_puts};
ghost use Rattle.iter_config.specs.Predicates.{keeps};
ghost use Rattle.iter_contract.specs.Copies.{IsCopy};
ghost use Rattle.stages.specs.StagedParts.{staged_cells, staged_rest, staged_steady, staged_valid};
ghost use Rattle.filters.specs.FilterStages.{filter_made, passes, same};

use crate::filter_stage::FilterStage;
use iter_config::Predicate;
use iter_contract::SortedSource;
use stages::Staged;
use std::sync::Arc;

/// The entries of a source that pass a test (Accumulo's `Filter`), and its markers, which pass every filter (this
/// project's rule).
pub type FilterIter<S> = Staged<S, FilterStage>;

/// A filter over a source, which may have been sought or not. With `negate` it keeps the entries for which the test
/// doesn't hold. It takes no memory.
pub fn filter_iter<S: SortedSource>(
    source: S,
    predicate: Arc<Predicate>,
    negate: bool,
) -> FilterIter<S>
    requires { S.valid source }
    ensures { IsCopy (filter_puts (keeps (arc_value predicate) negate) (S.cells source)) (S.steady source)
        (staged_cells S.cells filter_made result) (staged_rest S.rest passes same result)
        (staged_steady S.steady result) (staged_valid S.valid result) }
{
    Staged::new(source, FilterStage::new(predicate, negate))
}
