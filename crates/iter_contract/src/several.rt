//! Several sources, kept in the order of their tops, so that they are read as one.
ghost use Rattle.std.specs.Prelude.{◌≡◌, ◌<◌, true, map, length, IsOk, IfOk, OnOk, option_map};
ghost use Rattle.std.specs.List.{AllByRecursion};
ghost use Rattle.tablet_model.specs.Cuts.{within};
ghost use Rattle.tablet_model.specs.Sorted.{first, later};
ghost use Rattle.tablet_model.specs.Sum.{sum_all};
ghost use Rattle.cell_key.specs.Ranges.{span_of};
ghost use Rattle.cell_key.specs.Views.{cell_of};
ghost use Rattle.iter_contract.specs.Several.{all_steady, AreOrdered, IsSought};

use crate::source::SortedSource;
use crate::tops::{put_in_order, settle};
use cell_key::{EntryRef, NoMemory, Range};
use std::alloc::Global;

/// Seeks each source to the range, and puts the sources in the order of their tops. Where all are
/// steady it takes no memory and succeeds.
pub fn seek_all<S: SortedSource>(sources: &mut [S], range: &Range<'_>) -> Result<(), NoMemory>
    requires { AllByRecursion S.valid sources.old }
    ensures cells { sum_all (map S.cells sources.new) ≡ sum_all (map S.cells sources.old) }
    ensures steady { all_steady S.steady sources.new ≡ all_steady S.steady sources.old }
    ensures valid { AllByRecursion S.valid sources.new }
    ensures order { OnOk result (AreOrdered (map S.rest sources.new)) }
    ensures rest { OnOk result (sum_all (map S.rest sources.new)
        ≡ within (span_of range.now) (sum_all (map S.cells sources.old))) }
    ensures works { all_steady S.steady sources.old ≡ true → IsOk result }
{
    seek_each(sources, range)?;
    put_in_order(sources);
    Ok(())
}

/// The least of the tops of sources in their order, and `None` where nothing is left of any. It
/// takes no memory.
pub fn first_top<S: SortedSource>(sources: &[S]) -> Option<EntryRef<'_>>
    requires valid { AllByRecursion S.valid sources.now }
    requires order { AreOrdered (map S.rest sources.now) }
    ensures { option_map cell_of result ≡ first (sum_all (map S.rest sources.now)) }
{
    sources.first()?.top()
}

/// Steps the first of sources in their order, of which something has to be left, and moves it to its
/// new place. If all are steady it takes no memory and succeeds.
pub fn step_first<S: SortedSource>(sources: &mut [S]) -> Result<(), NoMemory>
    requires valid { AllByRecursion S.valid sources.old }
    requires order { AreOrdered (map S.rest sources.old) }
    requires top { 0 < length (sum_all (map S.rest sources.old)) }
    ensures cells { sum_all (map S.cells sources.new) ≡ sum_all (map S.cells sources.old) }
    ensures steady { all_steady S.steady sources.new ≡ all_steady S.steady sources.old }
    ensures valid { AllByRecursion S.valid sources.new }
    ensures order { OnOk result (AreOrdered (map S.rest sources.new)) }
    ensures rest { OnOk result (sum_all (map S.rest sources.new) ≡ later (sum_all (map S.rest sources.old))) }
    ensures works { all_steady S.steady sources.old ≡ true → IsOk result }
{
    sources[0].next()?;
    settle(sources);
    Ok(())
}

/// A deep copy of each source. It takes memory.
pub fn copies<S: SortedSource>(alloc: Global, sources: &[S]) -> Result<Vec<S>, NoMemory>
    requires { AllByRecursion S.valid sources.now }
    ensures cells { IfOk result (λ copies. map S.cells copies.items ≡ map S.cells sources.now) }
    ensures steady { IfOk result (λ copies. map S.steady copies.items ≡ map S.steady sources.now) }
    ensures valid { IfOk result (λ copies. AllByRecursion S.valid copies.items) }
{
    let mut copies = Vec::with_capacity(alloc, sources.len())?;
    for source in sources {
        copies.push(source.deep_copy(alloc)?)?;
    }
    Ok(copies)
}

/// Seeks each source to the range, and leaves it where it stands.
fn seek_each<S: SortedSource>(sources: &mut [S], range: &Range<'_>) -> Result<(), NoMemory>
    requires { AllByRecursion S.valid sources.old }
    ensures cells { map S.cells sources.new ≡ map S.cells sources.old }
    ensures steady { map S.steady sources.new ≡ map S.steady sources.old }
    ensures valid { AllByRecursion S.valid sources.new }
    ensures sought { OnOk result (AllByRecursion (IsSought S.rest S.cells (span_of range.now)) sources.new) }
    ensures works { all_steady S.steady sources.old ≡ true → IsOk result }
{
    for source in sources.iter_mut() {
        source.seek(range)?;
    }
    Ok(())
}
