//! A combiner's pass over a source, without ends of a range.
ghost use Rattle.std.specs.Prelude.{◌≡◌, ◌<◌, true, Some, None, IsOk, IfOk, length, option_map};
ghost use Rattle.tablet_model.specs.Cell.{column_of};
ghost use Rattle.tablet_model.specs.Columns.{is_column};
ghost use Rattle.tablet_model.specs.Cuts.{is_behind};
ghost use Rattle.tablet_model.specs.Sorted.{first, later, from_first};
ghost use Rattle.cell_key.specs.Ranges.{cut_of};
ghost use Rattle.cell_key.specs.Views.{key_of, cell_of};
ghost use Rattle.combiners.specs.Gathers.{combined_from, AreRead, held_of, is_whole, is_of, is_settled};

use crate::reducer::Reducer;
use cell_key::{Bound, ColumnBuf, Columns, EntryRef, KeyRef, NoMemory, lies_behind};
use iter_contract::SortedSource;

/// Whether the key is of the kept column.
fn holds(column: &ColumnBuf, key: KeyRef<'_>) -> bool
    ensures column { result ≡ is_column column.now (column_of (key_of key.entry)) }
    ensures same { result ≡ true → column.now ≡ Some (column_of (key_of key.entry)) }
{
    column.holds(key)
}

/// Folds what is left of the held column, up to a marker.
fn gather<S: SortedSource, R: Reducer>(
    source: &mut S,
    reducer: &mut R,
    column: &ColumnBuf,
    time: i64,
    columns: &Columns,
) -> Result<(), NoMemory>
    requires valid { S.valid source.old }
    requires whole { is_whole true column.now (R.joined reducer.old) ≡ true }
    requires read { AreRead columns.now (R.reduction reducer.old) (S.rest source.old) }
    requires of { is_of columns.now column.now ≡ true }
    ensures valid { S.valid source.new }
    ensures cells { S.cells source.new ≡ S.cells source.old }
    ensures steady { S.steady source.new ≡ S.steady source.old }
    ensures reduction { R.reduction reducer.new ≡ R.reduction reducer.old }
    ensures steady_reducer { R.steady reducer.new ≡ R.steady reducer.old }
    ensures whole { IfOk result (λ _. is_whole true column.now (R.joined reducer.new) ≡ true) }
    ensures read { IfOk result (λ _. AreRead columns.now (R.reduction reducer.old) (S.rest source.new)) }
    ensures settled { IfOk result (λ _.
        is_settled columns.now (held_of true column.now time (R.joined reducer.new)) (S.rest source.new) ≡ true) }
    ensures left { IfOk result (λ _.
        combined_from columns.now (R.reduction reducer.old)
        (held_of true column.now time (R.joined reducer.new)) (S.rest source.new)
        ≡ combined_from columns.now (R.reduction reducer.old)
        (held_of true column.now time (R.joined reducer.old)) (S.rest source.old)) }
    ensures works { S.steady source.old ≡ true → R.steady reducer.old ≡ true → IsOk result }
{
    while let Some(entry) = source.top() {
        if entry.key.deleted || !holds(column, entry.key) {
            return Ok(());
        }
        reducer.fold(entry.value)?;
        source.next()?;
    }
    Ok(())
}

/// Takes up the column that is next, if it is to be combined. Answers whether it is.
fn settle<S: SortedSource, R: Reducer>(
    source: &mut S,
    reducer: &mut R,
    column: &mut ColumnBuf,
    time: &mut i64,
    columns: &Columns,
) -> Result<bool, NoMemory>
    requires valid { S.valid source.old }
    requires read { AreRead columns.now (R.reduction reducer.old) (S.rest source.old) }
    ensures valid { S.valid source.new }
    ensures cells { S.cells source.new ≡ S.cells source.old }
    ensures steady { S.steady source.new ≡ S.steady source.old }
    ensures reduction { R.reduction reducer.new ≡ R.reduction reducer.old }
    ensures steady_reducer { R.steady reducer.new ≡ R.steady reducer.old }
    ensures whole { IfOk result (λ held. is_whole held column.new (R.joined reducer.new) ≡ true) }
    ensures read { IfOk result (λ _. AreRead columns.now (R.reduction reducer.old) (S.rest source.new)) }
    ensures settled { IfOk result (λ held.
        is_settled columns.now (held_of held column.new time.new (R.joined reducer.new)) (S.rest source.new) ≡ true) }
    ensures left { IfOk result (λ held.
        combined_from columns.now (R.reduction reducer.old)
        (held_of held column.new time.new (R.joined reducer.new)) (S.rest source.new)
        ≡ combined_from columns.now (R.reduction reducer.old) None (S.rest source.old)) }
    ensures works { S.steady source.old ≡ true → R.steady reducer.old ≡ true → IsOk result }
{
    let Some(entry) = source.top() else {
        return Ok(false);
    };
    if entry.key.deleted || !columns.lists(entry.key.family, entry.key.qualifier) {
        return Ok(false);
    }
    reducer.start(entry.value)?;
    column.set(entry.key);
    *time = entry.key.time;
    source.next()?;
    gather(source, reducer, column, *time, columns)?;
    Ok(true)
}

/// The first entry.
pub(crate) fn first_of<'a, S: SortedSource, R: Reducer>(
    source: &'a S,
    reducer: &'a R,
    column: &'a ColumnBuf,
    time: i64,
    is_held: bool,
    columns: &Columns,
) -> Option<EntryRef<'a>>
    requires valid { S.valid source.now }
    requires whole { is_whole is_held column.now (R.joined reducer.now) ≡ true }
    requires settled { is_settled columns.now (held_of is_held column.now time (R.joined reducer.now)) (S.rest source.now) ≡ true }
    ensures { option_map cell_of result
        ≡ first (combined_from columns.now (R.reduction reducer.now)
        (held_of is_held column.now time (R.joined reducer.now)) (S.rest source.now)) }
{
    if is_held {
        Some(EntryRef {
            key: column.key(time, false),
            value: reducer.result(),
        })
    } else {
        source.top()
    }
}

/// Drops the first entry. Answers whether a column is held then.
pub(crate) fn drop_first<S: SortedSource, R: Reducer>(
    source: &mut S,
    reducer: &mut R,
    column: &mut ColumnBuf,
    time: &mut i64,
    is_held: bool,
    columns: &Columns,
) -> Result<bool, NoMemory>
    requires valid { S.valid source.old }
    requires whole { is_whole is_held column.old (R.joined reducer.old) ≡ true }
    requires read { AreRead columns.now (R.reduction reducer.old) (S.rest source.old) }
    requires settled { is_settled columns.now (held_of is_held column.old time.old (R.joined reducer.old)) (S.rest source.old) ≡ true }
    requires top { 0 < length (combined_from columns.now (R.reduction reducer.old)
        (held_of is_held column.old time.old (R.joined reducer.old)) (S.rest source.old)) }
    ensures valid { S.valid source.new }
    ensures cells { S.cells source.new ≡ S.cells source.old }
    ensures steady { S.steady source.new ≡ S.steady source.old }
    ensures reduction { R.reduction reducer.new ≡ R.reduction reducer.old }
    ensures steady_reducer { R.steady reducer.new ≡ R.steady reducer.old }
    ensures whole { IfOk result (λ held. is_whole held column.new (R.joined reducer.new) ≡ true) }
    ensures read { IfOk result (λ _. AreRead columns.now (R.reduction reducer.old) (S.rest source.new)) }
    ensures settled { IfOk result (λ held.
        is_settled columns.now (held_of held column.new time.new (R.joined reducer.new)) (S.rest source.new) ≡ true) }
    ensures left { IfOk result (λ held.
        combined_from columns.now (R.reduction reducer.old)
        (held_of held column.new time.new (R.joined reducer.new)) (S.rest source.new)
        ≡ later (combined_from columns.now (R.reduction reducer.old)
        (held_of is_held column.old time.old (R.joined reducer.old)) (S.rest source.old))) }
    ensures works { S.steady source.old ≡ true → R.steady reducer.old ≡ true → IsOk result }
{
    if !is_held {
        source.next()?;
    }
    settle(source, reducer, column, time, columns)
}

/// Drops the entries that lie before a start. Answers whether a column is held then.
pub(crate) fn drop_before<S: SortedSource, R: Reducer>(
    source: &mut S,
    reducer: &mut R,
    column: &mut ColumnBuf,
    time: &mut i64,
    columns: &Columns,
    start: &Bound<'_>,
) -> Result<bool, NoMemory>
    requires valid { S.valid source.old }
    requires read { AreRead columns.now (R.reduction reducer.old) (S.rest source.old) }
    ensures valid { S.valid source.new }
    ensures cells { S.cells source.new ≡ S.cells source.old }
    ensures steady { S.steady source.new ≡ S.steady source.old }
    ensures reduction { R.reduction reducer.new ≡ R.reduction reducer.old }
    ensures steady_reducer { R.steady reducer.new ≡ R.steady reducer.old }
    ensures whole { IfOk result (λ held. is_whole held column.new (R.joined reducer.new) ≡ true) }
    ensures read { IfOk result (λ _. AreRead columns.now (R.reduction reducer.old) (S.rest source.new)) }
    ensures settled { IfOk result (λ held.
        is_settled columns.now (held_of held column.new time.new (R.joined reducer.new)) (S.rest source.new) ≡ true) }
    ensures left { IfOk result (λ held.
        combined_from columns.now (R.reduction reducer.old)
        (held_of held column.new time.new (R.joined reducer.new)) (S.rest source.new)
        ≡ from_first (λ e. is_behind (cut_of start.now) e.key) (combined_from columns.now (R.reduction reducer.old)
        None (S.rest source.old))) }
    ensures works { S.steady source.old ≡ true → R.steady reducer.old ≡ true → IsOk result }
{
    let mut is_held = settle(source, reducer, column, time, columns)?;
    while let Some(entry) = first_of(source, reducer, column, *time, is_held, columns) {
        if lies_behind(start, entry.key) {
            return Ok(is_held);
        }
        is_held = drop_first(source, reducer, column, time, is_held, columns)?;
    }
    Ok(is_held)
}
