//! Sources in a binary heap by their tops.
ghost use Rattle.std.specs.Prelude.{◌≡◌, ◌+◌, ◌*◌, ◌<◌, ◌≤◌, length, slice_index_or};
ghost use Rattle.std.specs.List.{AllByRecursion};
ghost use Rattle.std.specs.List.Sorted.{IsPermutation};
ghost use Rattle.iter_contract.specs.Several.{has_later_top};
ghost use Rattle.merge_iter.specs.Heaps.{IsBeforeChildren, IsHeapFrom};

use cell_key::compare_entries;
use iter_contract::SortedSource;

/// Puts the sources in a heap.
pub(crate) fn make_heap<S: SortedSource>(sources: &mut [S])
    requires { AllByRecursion S.valid sources.old }
    ensures permutation { IsPermutation sources.old sources.new }
    ensures heap { IsHeapFrom S.rest 0 sources.new }
{
    let mut place = sources.len() / 2;
    while place > 0 {
        place -= 1;
        sift_down(sources, place);
    }
}

/// Moves the source at a place down the heap behind it, until no child of its own has an earlier top.
pub(crate) fn sift_down<S: SortedSource>(sources: &mut [S], root: usize)
    requires valid { AllByRecursion S.valid sources.old }
    requires heap { IsHeapFrom S.rest (root + 1) sources.old }
    ensures permutation { IsPermutation sources.old sources.new }
    ensures heap { IsHeapFrom S.rest root sources.new }
{
    let mut place = root;
    while place < sources.len() / 2 {
        let child = first_child(sources, place);
        if !is_later(sources, place, child) {
            return;
        }
        sources.swap(place, child);
        place = child;
    }
}

/// The child of a place whose top is the first.
fn first_child<S: SortedSource>(sources: &[S], parent: usize) -> usize
    requires valid { AllByRecursion S.valid sources.now }
    requires inside { parent * 2 + 1 < length sources.now }
    ensures bound { (parent * 2 + 1 ≤ result) × (result ≤ parent * 2 + 2) × (result < length sources.now) }
    ensures first { IsBeforeChildren S.rest sources.now result parent }
{
    let left = parent * 2 + 1;
    if left + 1 == sources.len() {
        return left;
    }
    if is_later(sources, left, left + 1) {
        left + 1
    } else {
        left
    }
}

/// Whether the source at a place has a later top than the one at another.
fn is_later<S: SortedSource>(sources: &[S], place: usize, other: usize) -> bool
    requires valid { AllByRecursion S.valid sources.now }
    requires place { place < length sources.now }
    requires other { other < length sources.now }
    ensures { (d : S) → result ≡ has_later_top S.rest (slice_index_or sources.now place d) (slice_index_or sources.now other d) }
{
    has_later_top(&sources[place], &sources[other])
}

/// Whether the top of a source sorts behind that of another. Where nothing is left, that is behind each top.
#[tactic(auto, unfolding(tablet_model::specs::Order::above))]
fn has_later_top<S: SortedSource>(source: &S, other: &S) -> bool
    requires valid { S.valid source.now }
    requires other { S.valid other.now }
    ensures { result ≡ has_later_top S.rest source.now other.now }
{
    match (source.top(), other.top()) {
        (Some(top), Some(other)) => compare_entries(top, other).is_gt(),
        (None, Some(_)) => true,
        (_, None) => false,
    }
}
