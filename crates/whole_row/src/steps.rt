//! Seeks and steps over any source.
ghost use Rattle.std.specs.Prelude.{◌≡◌, ◌<◌, [], is_ok, if◌then◌else◌, length, option_map};
ghost use Rattle.tablet_model.specs.Cuts.{within, Everything};
ghost use Rattle.tablet_model.specs.Sorted.{first, later};
ghost use Rattle.cell_key.specs.Ranges.{cut_of, span_of};
ghost use Rattle.cell_key.specs.Views.{cell_of};
ghost use Rattle.whole_row.specs.RowStages.{row_cut, row_left, RowFits};
ghost use Rattle.tablet_model.specs.RowText.{whole_rows};

use crate::gather::{drop_before, held_entry, settle};
use crate::stage::RowStage;
use cell_key::{Bound, EntryRef, NoMemory, Range, lies_before};
use iter_contract::SortedSource;

/// Begins at the first row whose entry is in the range. It takes memory for the text of a row; after `NoMemory` nothing is
/// left.
pub fn row_seek<S: SortedSource>(
    source: &mut S,
    stage: &mut RowStage,
    range: &Range<'_>,
) -> Result<(), NoMemory>
    requires valid { S.valid source.old }
    requires fits { RowFits stage.old (S.cells source.old) (S.rest source.old) }
    ensures cells { S.cells source.new ≡ S.cells source.old }
    ensures steady { S.steady source.new ≡ S.steady source.old }
    ensures valid { S.valid source.new }
    ensures fits { RowFits stage.new (S.cells source.new) (S.rest source.new) }
    ensures left { row_left stage.new (S.rest source.new)
        ≡ (if is_ok result then within (span_of range.now) (whole_rows (S.cells source.old)) else []) }
{
    stage.is_sought = false;
    stage.range.set(range);
    source.seek(&all_rows_from(range))?;
    stage.is_held = drop_before(source, &mut stage.column, &mut stage.buf, &range.start)?;
    stage.is_sought = true;
    Ok(())
}

/// The entry of the first row that is left, and `None` where none is. It takes no memory.
pub fn row_top<'a, S: SortedSource>(source: &'a S, stage: &'a RowStage) -> Option<EntryRef<'a>>
    requires valid { S.valid source.now }
    requires fits { RowFits stage.now (S.cells source.now) (S.rest source.now) }
    ensures { option_map cell_of result ≡ first (row_left stage.now (S.rest source.now)) }
{
    if !stage.is_sought {
        return None;
    }
    let entry = held_entry(&stage.column, &stage.buf, stage.is_held)?;
    let range = stage.range.range();
    if lies_before(&range.end, entry.key) {
        Some(entry)
    } else {
        None
    }
}

/// Drops the first row that is left. It takes memory for the text of the next one; after `NoMemory` nothing is left.
pub fn row_next<S: SortedSource>(source: &mut S, stage: &mut RowStage) -> Result<(), NoMemory>
    requires valid { S.valid source.old }
    requires fits { RowFits stage.old (S.cells source.old) (S.rest source.old) }
    requires top { 0 < length (row_left stage.old (S.rest source.old)) }
    ensures cells { S.cells source.new ≡ S.cells source.old }
    ensures steady { S.steady source.new ≡ S.steady source.old }
    ensures valid { S.valid source.new }
    ensures fits { RowFits stage.new (S.cells source.new) (S.rest source.new) }
    ensures left { row_left stage.new (S.rest source.new)
        ≡ (if is_ok result then later (row_left stage.old (S.rest source.old)) else []) }
{
    stage.is_sought = false;
    stage.is_held = settle(source, &mut stage.column, &mut stage.buf)?;
    stage.is_sought = true;
    Ok(())
}

/// The range from the beginning of its start's row on, without an end: a row that begins in the range may end behind it.
fn all_rows_from<'a>(range: &Range<'a>) -> Range<'a>
    ensures { span_of result ≡ record { start = row_cut (cut_of range.now.start); end = Everything } }
{
    let start = match range.start {
        Bound::At(key) | Bound::Past(key) => Bound::Row(key.row),
        start => start,
    };
    Range {
        start,
        end: Bound::Open,
    }
}
