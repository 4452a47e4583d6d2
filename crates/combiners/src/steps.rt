//! Seeks and steps of a combiner over any source.
ghost use Rattle.std.specs.Prelude.{◌≡◌, ◌<◌, true, [], IsOk, is_ok, if◌then◌else◌, length, option_map};
ghost use Rattle.std.specs.Arc.{arc_value};
ghost use Rattle.tablet_model.specs.Cuts.{within, Everything};
ghost use Rattle.tablet_model.specs.Sorted.{first, later};
ghost use Rattle.tablet_model.specs.Widened.{widened_cut};
ghost use Rattle.cell_key.specs.Ranges.{cut_of, span_of};
ghost use Rattle.cell_key.specs.Views.{cell_of};
ghost use Rattle.combiners.specs.CombineStages.{combine_cells, combine_left, combine_steady, CombineFits};

use crate::gather::{drop_before, drop_first, first_of};
use crate::reducer::Reducer;
use crate::stage::CombineStage;
use cell_key::{Bound, EntryRef, NoMemory, Range, lies_before};
use iter_contract::SortedSource;

/// Begins at the first combined entry in the range. Where source and reducer are steady it takes no memory and
/// succeeds; after `NoMemory` nothing is left.
pub fn combine_seek<S: SortedSource, R: Reducer>(
    source: &mut S,
    stage: &mut CombineStage<R>,
    range: &Range<'_>,
) -> Result<(), NoMemory>
    requires valid { S.valid source.old }
    requires fits { CombineFits R.reduction R.joined stage.old (S.cells source.old) (S.rest source.old) }
    ensures cells { S.cells source.new ≡ S.cells source.old }
    ensures steady { S.steady source.new ≡ S.steady source.old }
    ensures valid { S.valid source.new }
    ensures columns { stage.new.columns ≡ stage.old.columns }
    ensures reduction { R.reduction stage.new.reducer ≡ R.reduction stage.old.reducer }
    ensures steady_reducer { R.steady stage.new.reducer ≡ R.steady stage.old.reducer }
    ensures fits { CombineFits R.reduction R.joined stage.new (S.cells source.new) (S.rest source.new) }
    ensures left { combine_left R.reduction R.joined stage.new (S.rest source.new)
        ≡ (if is_ok result then within (span_of range.now) (combine_cells R.reduction stage.old (S.cells source.old)) else []) }
    ensures works { combine_steady R.steady stage.old (S.steady source.old) ≡ true → IsOk result }
{
    stage.is_sought = false;
    stage.range.set(range);
    source.seek(&whole_columns(range))?;
    stage.is_held = drop_before(
        source,
        &mut stage.reducer,
        &mut stage.column,
        &mut stage.time,
        &stage.columns,
        &range.start,
    )?;
    stage.is_sought = true;
    Ok(())
}

/// The first combined entry that is left, and `None` where none is. It takes no memory.
pub fn combine_top<'a, S: SortedSource, R: Reducer>(
    source: &'a S,
    stage: &'a CombineStage<R>,
) -> Option<EntryRef<'a>>
    requires valid { S.valid source.now }
    requires fits { CombineFits R.reduction R.joined stage.now (S.cells source.now) (S.rest source.now) }
    ensures { option_map cell_of result ≡ first (combine_left R.reduction R.joined stage.now (S.rest source.now)) }
{
    if !stage.is_sought {
        return None;
    }
    let Some(entry) = first_of(
        source,
        &stage.reducer,
        &stage.column,
        stage.time,
        stage.is_held,
        &stage.columns,
    ) else {
        return None;
    };
    let range = stage.range.range();
    if lies_before(&range.end, entry.key) {
        Some(entry)
    } else {
        None
    }
}

/// Drops the first combined entry that is left. Where source and reducer are steady it takes no memory and succeeds;
/// after `NoMemory` nothing is left.
pub fn combine_next<S: SortedSource, R: Reducer>(
    source: &mut S,
    stage: &mut CombineStage<R>,
) -> Result<(), NoMemory>
    requires valid { S.valid source.old }
    requires fits { CombineFits R.reduction R.joined stage.old (S.cells source.old) (S.rest source.old) }
    requires top { 0 < length (combine_left R.reduction R.joined stage.old (S.rest source.old)) }
    ensures cells { S.cells source.new ≡ S.cells source.old }
    ensures steady { S.steady source.new ≡ S.steady source.old }
    ensures valid { S.valid source.new }
    ensures columns { stage.new.columns ≡ stage.old.columns }
    ensures reduction { R.reduction stage.new.reducer ≡ R.reduction stage.old.reducer }
    ensures steady_reducer { R.steady stage.new.reducer ≡ R.steady stage.old.reducer }
    ensures fits { CombineFits R.reduction R.joined stage.new (S.cells source.new) (S.rest source.new) }
    ensures left { combine_left R.reduction R.joined stage.new (S.rest source.new)
        ≡ (if is_ok result then later (combine_left R.reduction R.joined stage.old (S.rest source.old)) else []) }
    ensures works { combine_steady R.steady stage.old (S.steady source.old) ≡ true → IsOk result }
{
    stage.is_sought = false;
    stage.is_held = drop_first(
        source,
        &mut stage.reducer,
        &mut stage.column,
        &mut stage.time,
        stage.is_held,
        &stage.columns,
    )?;
    stage.is_sought = true;
    Ok(())
}

/// The range from the beginning of its start's column on, without an end: a column that begins in the range may end
/// behind it.
fn whole_columns<'a>(range: &Range<'a>) -> Range<'a>
    ensures { span_of result ≡ record { start = widened_cut (cut_of range.now.start); end = Everything } }
{
    Range {
        start: range.widened().start,
        end: Bound::Open,
    }
}
