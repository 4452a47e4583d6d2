//! Where a search in a range begins.
ghost use Rattle.std.specs.Prelude.{◌≡◌, true, None, ℕ, List, IsSome, IsOk, IfOk, option_map};
ghost use Rattle.tablet_model.specs.Cell.{Cell};
ghost use Rattle.tablet_model.specs.Cuts.{is_behind};
ghost use Rattle.tablet_model.specs.Rows.{has_term};
ghost use Rattle.cell_key.specs.Ranges.{cut_of};
ghost use Rattle.cell_key.specs.RowBounds.{HasShortRow};
ghost use Rattle.cell_key.specs.Views.{key_of};
ghost use Rattle.intersecting.specs.Documents.{document_key};
ghost use Rattle.intersecting.specs.Searches.{among, is_at_row, left_from, place};

use crate::moving::keep_row;
use cell_key::{Bound, ColumnBuf, KeyRef, NoMemory, Range, lies_behind};
use iter_contract::SortedSource;

/// The key of the entry that stands for the document of a key.
pub(crate) fn document_key<'a>(key: KeyRef<'a>) -> KeyRef<'a>
    ensures { key_of result ≡ document_key (key_of key.entry) }
{
    KeyRef {
        row: key.row,
        family: &[],
        qualifier: key.qualifier,
        visibility: &[],
        time: i64::MAX,
        deleted: false,
    }
}

/// The key at which a range begins, where it begins among the documents of a row: these have no family.
fn key_among<'a>(start: Bound<'a>) -> Option<KeyRef<'a>>
    ensures { option_map key_of result ≡ among (cut_of start.entry) }
{
    match start {
        Bound::At(key) | Bound::Past(key) if key.family.is_empty() => Some(key),
        _ => None,
    }
}

/// The border of a row from which the same documents are left as from a start that is not among those of a row.
fn row_border<'a>(start: Bound<'a>) -> Bound<'a>
    requires short { HasShortRow start }
    ensures short { HasShortRow result }
    ensures border { is_at_row (cut_of result) ≡ true }
    ensures same { among (cut_of start.entry) ≡ None → (d : Cell) → d.key ≡ document_key d.key →
        is_behind (cut_of result) d.key ≡ is_behind (cut_of start.entry) d.key }
{
    match start {
        Bound::At(key) => Bound::PastRow(key.row),
        Bound::Past(key) => Bound::PastRow(key.row),
        start => start,
    }
}

/// Keeps the place at which the documents of a range begin. Answers whether these lie behind it, or from it on, and `None` where
/// there are none.
pub(crate) fn begin<S: SortedSource>(
    source: &mut S,
    column: &mut ColumnBuf,
    start: Bound<'_>,
) -> Result<Option<bool>, NoMemory>
    requires valid { S.valid source.old }
    requires short { HasShortRow start }
    ensures valid { S.valid source.new }
    ensures cells { S.cells source.new ≡ S.cells source.old }
    ensures steady { S.steady source.new ≡ S.steady source.old }
    ensures kept { IfOk result (λ behind. IsSome behind → IsSome column.new) }
    ensures left { IfOk result (λ behind. (d : Cell) (term : List ℕ) → has_term (S.cells source.old) d term ≡ true →
        d.key ≡ document_key d.key → is_behind (cut_of start.entry) d.key ≡ left_from behind (place column.new) d) }
    ensures works { S.steady source.old ≡ true → IsOk result }
{
    if let Some(key) = key_among(start) {
        column.set(key);
        return Ok(Some(!lies_behind(&start, document_key(key))));
    }
    source.seek(&Range {
        start: row_border(start),
        end: Bound::Open,
    })?;
    if keep_row(source, column) {
        Ok(Some(false))
    } else {
        Ok(None)
    }
}
