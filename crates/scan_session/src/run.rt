//! Runs of entries that are taken out of a source, and where a reader stands behind them.
ghost use Rattle.std.specs.Prelude.{◌≡◌, ◌++◌, IfOk};
ghost use Rattle.std.specs.Option.{ForSome};
ghost use Rattle.tablet_model.specs.Places.{Place};
ghost use Rattle.cell_key.specs.Ranges.{IsAtMostRow};
ghost use Rattle.cell_key.specs.Views.{cell_of};
ghost use Rattle.scan_session.specs.Runs.{may_end, place_behind};
ghost use Rattle.scan_session.specs.Takes.{mode_of, place_after, take_together};

use cell_key::{Entries, Entry, EntryRef, NoMemory, Position};
use iter_contract::SortedSource;
use source_switch::{are_together, position_behind};
use std::alloc::Global;

/// Takes the next entries out of a source: as many as were asked for, and those that may not be parted from the last of
/// them, or all that are left.
pub(crate) fn take_run<S: SortedSource>(
    alloc: Global,
    source: &mut S,
    isolated: bool,
    count: u32,
) -> Result<Entries, NoMemory>
    requires { S.valid source.old }
    ensures valid { S.valid source.new }
    ensures run { IfOk result (λ run. run ≡ take_together (mode_of isolated) count (S.rest source.old)) }
    ensures left { IfOk result (λ run. S.rest source.old ≡ run ++ S.rest source.new) }
{
    let mut run = Entries::new(alloc);
    while let Some(next) = source.top() {
        if may_end(&run, next, isolated, count) {
            break;
        }
        run.push(Entry::of(alloc, next)?)?;
        source.next()?;
    }
    Ok(run)
}

/// Whether a run may end before the next entry.
#[tactic(auto, unfolding(crate::specs::Runs::may_end))]
fn may_end(run: &Entries, next: EntryRef<'_>, isolated: bool, count: u32) -> bool
    ensures { result ≡ may_end (mode_of isolated) count run.now (cell_of next.entry) }
{
    match run.as_slice().last() {
        Some(last) => count as usize <= run.len() && !are_together(last.entry(), next, isolated),
        None => false,
    }
}

/// The position behind a run, and none where the run has no entry.
#[tactic(auto, unfolding(crate::specs::Takes::place_after))]
pub(crate) fn position_behind_run(
    alloc: Global,
    run: &Entries,
    isolated: bool,
) -> Result<Option<Position>, NoMemory>
    ensures place { IfOk result (λ position. (old : Place) →
        place_behind position old ≡ place_after (mode_of isolated) old run.now) }
    ensures row { IfOk result (λ position. ForSome position IsAtMostRow) }
{
    match run.as_slice().last() {
        Some(last) => Ok(Some(position_behind(alloc, last.entry(), isolated)?)),
        None => Ok(None),
    }
}
