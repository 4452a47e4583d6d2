//! Where the ends of a range lie in a sorted list.
ghost use Rattle.std.specs.Prelude.{◌≡◌, ◌≤◌, length, filter, take, drop};
ghost use Rattle.tablet_model.specs.Order.{above};
ghost use Rattle.tablet_model.specs.Sorted.{Ascends};
ghost use Rattle.tablet_model.specs.Cuts.{is_behind, is_before};
ghost use Rattle.cell_key.specs.Ranges.{cut_of};

use cell_key::{Bound, Entry, lies_before, lies_behind};

/// How many entries of a sorted list lie before an end. They are its first ones.
pub fn count_before(entries: &[Entry], end: &Bound<'_>) -> usize
    requires { Ascends above entries.now }
    ensures bound { result ≤ length entries.now }
    ensures before { filter (λ e. is_before (cut_of end.now) e.key) entries.now ≡ take result entries.now }
{
    entries.partition_point(|entry| lies_before(end, entry.entry().key))
}

/// How many entries of a sorted list do not lie behind a start. They are its first ones.
pub fn count_not_behind(entries: &[Entry], start: &Bound<'_>) -> usize
    requires { Ascends above entries.now }
    ensures bound { result ≤ length entries.now }
    ensures behind { filter (λ e. is_behind (cut_of start.now) e.key) entries.now ≡ drop result entries.now }
{
    entries.partition_point(|entry| !lies_behind(start, entry.entry().key))
}
