//! The order of columns, keys and entries.
ghost use Rattle.std.specs.Prelude.{◌≡◌, Some};
ghost use Rattle.tablet_model.specs.Cell.{column_of};
ghost use Rattle.tablet_model.specs.Columns.{is_column};
ghost use Rattle.tablet_model.specs.Order.{column_cmp, key_cmp, cell_cmp};
ghost use Rattle.tablet_model.specs.Widened.{column_start};
ghost use Rattle.cell_key.specs.Views.{key_of, cell_of};

use crate::key_ref::{EntryRef, KeyRef};
use std::cmp::Ordering;

/// The order of columns: by row, family, qualifier and visibility, each by unsigned bytes.
#[tactic(auto, unfolding(tablet_model::specs::Order::column_cmp))]
pub(crate) fn compare_columns(a: KeyRef<'_>, b: KeyRef<'_>) -> Ordering
    ensures { result ≡ column_cmp (column_of (key_of a.entry)) (column_of (key_of b.entry)) }
{
    a.row
        .cmp(b.row)
        .then_with(|| a.family.cmp(b.family))
        .then_with(|| a.qualifier.cmp(b.qualifier))
        .then_with(|| a.visibility.cmp(b.visibility))
}

/// The order of keys, as in Accumulo: by column, then the newer first, and of one time the deleted first.
#[tactic(auto, unfolding(tablet_model::specs::Order::key_cmp, tablet_model::specs::Order::time_cmp))]
pub fn compare(a: KeyRef<'_>, b: KeyRef<'_>) -> Ordering
    ensures { result ≡ key_cmp (key_of a.entry) (key_of b.entry) }
{
    compare_columns(a, b).then_with(|| b.time.cmp(&a.time).then(b.deleted.cmp(&a.deleted)))
}

/// The order of entries: by key, and of equal keys by value.
#[tactic(auto, unfolding(tablet_model::specs::Order::cell_cmp))]
pub fn compare_entries(a: EntryRef<'_>, b: EntryRef<'_>) -> Ordering
    ensures { result ≡ cell_cmp (cell_of a.entry) (cell_of b.entry) }
{
    compare(a.key, b.key).then_with(|| a.value.cmp(b.value))
}

/// Whether the keys are of one column.
#[tactic(auto, using(crate::proofs::SameColumn::same_parts))]
pub fn same_column(a: KeyRef<'_>, b: KeyRef<'_>) -> bool
    ensures { result ≡ is_column (Some (column_of (key_of a.entry))) (column_of (key_of b.entry)) }
{
    a.row == b.row
        && a.family == b.family
        && a.qualifier == b.qualifier
        && a.visibility == b.visibility
}

/// The first key that a key's column can have.
pub(crate) fn first_of_column<'a>(key: KeyRef<'a>) -> KeyRef<'a>
    ensures { key_of result ≡ column_start (key_of key.entry) }
{
    KeyRef {
        row: key.row,
        family: key.family,
        qualifier: key.qualifier,
        visibility: key.visibility,
        time: i64::MAX,
        deleted: true,
    }
}
