//! The runs of a map, of which each is at least twice as long as the next.
ghost use Rattle.std.specs.Prelude.{◌≡◌, ℕ, ◌+◌, ◌*◌, ◌^◌, ◌<◌, ◌≤◌, [], ◌∷◌, ◌++◌, drop, get_or, length, true, IfOk, IsTrue, OnOk};
ghost use Rattle.std.specs.List.{AllByRecursion, sum_by};
ghost use Rattle.tablet_model.specs.Limits.{max_changes};
ghost use Rattle.tablet_model.specs.Order.{above};
ghost use Rattle.tablet_model.specs.Sorted.{Ascends, sorted};
ghost use Rattle.memory_map.specs.MapRuns.{lists_of, run_of, AreRuns};

use cell_key::{Entries, NoMemory, compare_entries};
use std::alloc::Global;
use std::sync::Arc;

/// How the runs of a map go on when entries come in.
pub(crate) struct Joining {
    /// How many of the runs, from the first on, stay as they are.
    pub(crate) kept: usize,
    /// How many entries the other runs and the new entries have together.
    pub(crate) size: usize,
}

impl Joining {
    /// The runs that do not stay are those of less than twice as many entries as stand behind them.
    pub(crate) fn of(runs: &[Arc<Entries>], added: usize) -> Joining
        requires runs { AreRuns (lists_of runs.now) }
        requires few { added ≤ max_changes }
        ensures kept { result.kept ≤ length runs.now }
        ensures size { result.size ≡ added + sum_by length (drop result.kept (lists_of runs.now)) }
        ensures twice { (i : ℕ) → i + 1 ≡ result.kept → 2 * result.size ≤ length (get_or (lists_of runs.now) i []) }
    {
        let mut kept = runs.len();
        let mut size = added;
        while kept > 0 && runs[kept - 1].len() / 2 < size {
            kept -= 1;
            size += runs[kept].len();
        }
        Joining { kept, size }
    }
}

/// The entries of some runs and some more as one run, of which the size is known.
pub(crate) fn joined(
    alloc: Global,
    runs: &[Arc<Entries>],
    added: &Entries,
    size: usize,
) -> Result<Entries, NoMemory>
    requires { AllByRecursion (Ascends above) (lists_of runs.now) }
    ensures run { IfOk result (λ run. run ≡ run_of (lists_of runs.now) added.now) }
    ensures short { IfOk result (λ run. length run < 2 ^ 62) }
{
    let mut entries = Entries::with_capacity(alloc, size)?;
    entries.append(added)?;
    let mut is_sorted = added.len() == 1;
    // The newest run first: where one column comes again and again, all are in order so.
    let mut left = runs.len();
    while left > 0 {
        left -= 1;
        let run = &runs[left];
        is_sorted = is_sorted && may_follow(run, &entries);
        entries.append(run)?;
    }
    put_in_order(&mut entries, is_sorted)?;
    // A slice in memory is short, so the runs can be counted.
    let _ = entries.as_slice().len();
    Ok(entries)
}

/// Whether entries that are in order may stand behind others.
fn may_follow(entries: &Entries, others: &Entries) -> bool
    ensures { IsTrue result → Ascends above others.now → Ascends above entries.now → Ascends above (others.now ++ entries.now) }
{
    match (others.as_slice().last(), entries.as_slice().first()) {
        (Some(last), Some(first)) => !compare_entries(last.entry(), first.entry()).is_gt(),
        (_, _) => true,
    }
}

/// Sorts entries, unless they are in order already.
fn put_in_order(entries: &mut Entries, is_sorted: bool) -> Result<(), NoMemory>
    requires { is_sorted ≡ true → Ascends above entries.old }
    ensures { OnOk result (entries.new ≡ sorted above entries.old) }
{
    if is_sorted {
        return Ok(());
    }
    entries.sort()
}

/// These runs, shared, with one more at the end.
pub(crate) fn with_run(
    alloc: Global,
    runs: &[Arc<Entries>],
    last: Entries,
) -> Result<Vec<Arc<Entries>>, NoMemory>
    ensures { IfOk result (λ list. lists_of list.items ≡ lists_of runs.now ++ last ∷ []) }
{
    let mut list = Vec::with_capacity(alloc, runs.len() + 1)?;
    for run in runs {
        list.push(Arc::try_clone(run)?)?;
    }
    list.push(Arc::new(alloc, last)?)?;
    Ok(list)
}
