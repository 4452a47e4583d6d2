//! The iterator over any source.
ghost use Rattle.std.specs.Prelude.{◌≤◌, IfOk};
ghost use Rattle.tablet_model.specs.Versions.{versions};
ghost use Rattle.iter_contract.specs.Copies.{IsCopy};
ghost use Rattle.stages.specs.StagedParts.{staged_cells, staged_rest, staged_steady, staged_valid};
ghost use Rattle.versioning.specs.VersionStages.{version_made, keeps, after_entry};

use crate::version_stage::VersionStage;
use cell_key::NoMemory;
use iter_contract::SortedSource;
use stages::Staged;
use std::alloc::Global;

/// The newest versions of each column of a source (Accumulo's `VersioningIterator`). Markers are kept and not counted
/// (this project's rule).
pub type VersionIter<S> = Staged<S, VersionStage>;

/// The newest versions, over a source that may have been sought or not. At most `max` of each column are kept, from 1 to
/// 1,000. It takes the memory that its other calls need, beside what those of the source take.
pub fn version_iter<S: SortedSource>(
    alloc: Global,
    source: S,
    max: u32,
) -> Result<VersionIter<S>, NoMemory>
    requires valid { S.valid source }
    requires some { 1 ≤ max }
    requires few { max ≤ 1000 }
    ensures { IfOk result (λ it. IsCopy (versions max (S.cells source)) (S.steady source)
        (staged_cells S.cells version_made it) (staged_rest S.rest keeps after_entry it)
        (staged_steady S.steady it) (staged_valid S.valid it)) }
{
    Ok(Staged::new(source, VersionStage::new(alloc, max)?))
}
