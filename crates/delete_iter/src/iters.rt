//! The stages over a source.
ghost use Rattle.std.specs.Prelude.{IfOk};
ghost use Rattle.tablet_model.specs.Markers.{live, mark};
ghost use Rattle.iter_contract.specs.Copies.{IsCopy};
ghost use Rattle.stages.specs.StagedParts.{staged_cells, staged_rest, staged_steady, staged_valid};
ghost use Rattle.delete_iter.specs.MarkStages.{mark_made, keeps, after_entry};
ghost use Rattle.delete_iter.specs.LiveStages.{live_made, live_keeps, live_passed};

use crate::live_stage::LiveStage;
use crate::mark_stage::MarkStage;
use cell_key::NoMemory;
use iter_contract::SortedSource;
use stages::Staged;
use std::alloc::Global;

/// The live entries of a source (Accumulo): those that are no markers and that none hides. A marker hides what is in its
/// column and not newer.
pub type LiveIter<S> = Staged<S, LiveStage>;

/// The marked entries of a source, which compactions keep that keep markers (this project's rule): of each column the
/// newest marker and what sorts before it.
pub type MarkIter<S> = Staged<S, MarkStage>;

/// The live entries of a source, which may have been sought or not. It takes the memory that its other calls need, beside
/// what those of the source take.
pub fn live_iter<S: SortedSource>(alloc: Global, source: S) -> Result<LiveIter<S>, NoMemory>
    requires { S.valid source }
    ensures { IfOk result (λ it. IsCopy (live (S.cells source)) (S.steady source)
        (staged_cells S.cells live_made it) (staged_rest S.rest live_keeps live_passed it)
        (staged_steady S.steady it) (staged_valid S.valid it)) }
{
    Ok(Staged::new(source, LiveStage::new(alloc)?))
}

/// The marked entries of a source, which may have been sought or not. It takes the memory that its other calls need,
/// beside what those of the source take.
pub fn mark_iter<S: SortedSource>(alloc: Global, source: S) -> Result<MarkIter<S>, NoMemory>
    requires { S.valid source }
    ensures { IfOk result (λ it. IsCopy (mark (S.cells source)) (S.steady source)
        (staged_cells S.cells mark_made it) (staged_rest S.rest keeps after_entry it)
        (staged_steady S.steady it) (staged_valid S.valid it)) }
{
    Ok(Staged::new(source, MarkStage::new(alloc)?))
}
