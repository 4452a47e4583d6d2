//! Several sources, kept in a heap by their tops, so that they are read as one.
ghost use Rattle.std.specs.Prelude.{◌≡◌, ◌<◌, true, map, length, IsOk, OnOk, option_map};
ghost use Rattle.std.specs.List.{AllByRecursion};
ghost use Rattle.tablet_model.specs.Cuts.{within};
ghost use Rattle.tablet_model.specs.Sorted.{first, later};
ghost use Rattle.tablet_model.specs.Sum.{sum_all};
ghost use Rattle.cell_key.specs.Ranges.{span_of};
ghost use Rattle.cell_key.specs.Views.{cell_of};
ghost use Rattle.iter_contract.specs.Several.{all_steady, IsSought};
ghost use Rattle.merge_iter.specs.Heaps.{IsHeap};

use crate::heap::{make_heap, sift_down};
use cell_key::{EntryRef, NoMemory, Range};
use iter_contract::SortedSource;

/// Seeks each source to the range, and puts the sources in a heap.
pub(crate) fn seek_all<S: SortedSource>(
    sources: &mut [S],
    range: &Range<'_>,
) -> Result<(), NoMemory>
    requires { AllByRecursion S.valid sources.old }
    ensures cells { sum_all (map S.cells sources.new) ≡ sum_all (map S.cells sources.old) }
    ensures steady { all_steady S.steady sources.new ≡ all_steady S.steady sources.old }
    ensures valid { AllByRecursion S.valid sources.new }
    ensures heap { OnOk result (IsHeap S.rest sources.new) }
    ensures rest { OnOk result (sum_all (map S.rest sources.new)
        ≡ within (span_of range.now) (sum_all (map S.cells sources.old))) }
    ensures works { all_steady S.steady sources.old ≡ true → IsOk result }
{
    seek_each(sources, range)?;
    make_heap(sources);
    Ok(())
}

/// The least of the tops of sources in a heap, and `None` where nothing is left of any.
pub(crate) fn first_top<S: SortedSource>(sources: &[S]) -> Option<EntryRef<'_>>
    requires valid { AllByRecursion S.valid sources.now }
    requires heap { IsHeap S.rest sources.now }
    ensures { option_map cell_of result ≡ first (sum_all (map S.rest sources.now)) }
{
    sources.first()?.top()
}

/// Steps the first of sources in a heap, of which something has to be left, and restores the heap.
pub(crate) fn step_first<S: SortedSource>(sources: &mut [S]) -> Result<(), NoMemory>
    requires valid { AllByRecursion S.valid sources.old }
    requires heap { IsHeap S.rest sources.old }
    requires top { 0 < length (sum_all (map S.rest sources.old)) }
    ensures cells { sum_all (map S.cells sources.new) ≡ sum_all (map S.cells sources.old) }
    ensures steady { all_steady S.steady sources.new ≡ all_steady S.steady sources.old }
    ensures valid { AllByRecursion S.valid sources.new }
    ensures heap { OnOk result (IsHeap S.rest sources.new) }
    ensures rest { OnOk result (sum_all (map S.rest sources.new) ≡ later (sum_all (map S.rest sources.old))) }
    ensures works { all_steady S.steady sources.old ≡ true → IsOk result }
{
    sources[0].next()?;
    sift_down(sources, 0);
    Ok(())
}

/// Seeks each source to the range, and leaves it where it stands.
fn seek_each<S: SortedSource>(sources: &mut [S], range: &Range<'_>) -> Result<(), NoMemory>
    requires { AllByRecursion S.valid sources.old }
    ensures cells { map S.cells sources.new ≡ map S.cells sources.old }
    ensures steady { map S.steady sources.new ≡ map S.steady sources.old }
    ensures valid { AllByRecursion S.valid sources.new }
    ensures sought { OnOk result (AllByRecursion (IsSought S.rest S.cells (span_of range.now)) sources.new) }
    ensures works { all_steady S.steady sources.old ≡ true → IsOk result }
{
    for source in sources.iter_mut() {
        source.seek(range)?;
    }
    Ok(())
}
