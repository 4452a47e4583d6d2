//! A pass over a source that makes each row one entry, without ends of a range.
ghost use Rattle.std.specs.Prelude.{◌≡◌, ◌<◌, true, IsSome, IfOk, OnOk, None, [], length, option_map};
ghost use Rattle.tablet_model.specs.Cuts.{is_behind};
ghost use Rattle.tablet_model.specs.Sorted.{first, later, from_first};
ghost use Rattle.cell_key.specs.Ranges.{cut_of};
ghost use Rattle.cell_key.specs.Views.{cell_of};
ghost use Rattle.whole_row.specs.RowPasses.{held_of, is_row, is_settled, is_whole, rows_from, with_held};

use crate::buf::RowBuf;
use cell_key::{Bound, ColumnBuf, EntryRef, KeyRef, NoMemory, lies_behind};
use iter_contract::SortedSource;

/// Whether the key is of the row of the kept column.
#[tactic(auto, using(tablet_model::proofs::Texts::same_bytes_pointwise))]
fn is_in_row(column: &ColumnBuf, key: KeyRef<'_>) -> bool
    requires { IsSome column.now }
    ensures { result ≡ is_row column.now key.entry.row.now }
{
    column.key(0, false).row == key.row
}

/// Puts what is left of the held row to its entries.
fn gather<S: SortedSource>(
    source: &mut S,
    column: &ColumnBuf,
    buf: &mut RowBuf,
) -> Result<(), NoMemory>
    requires valid { S.valid source.old }
    requires whole { is_whole true column.now ≡ true }
    ensures valid { S.valid source.new }
    ensures cells { S.cells source.new ≡ S.cells source.old }
    ensures steady { S.steady source.new ≡ S.steady source.old }
    ensures settled { OnOk result (is_settled (held_of true column.now buf.new) (S.rest source.new) ≡ true) }
    ensures left { OnOk result (rows_from (held_of true column.now buf.new) (S.rest source.new)
        ≡ rows_from (held_of true column.now buf.old) (S.rest source.old)) }
{
    while let Some(entry) = source.top() {
        if !is_in_row(column, entry.key) {
            return Ok(());
        }
        buf.push(entry)?;
        source.next()?;
    }
    Ok(())
}

/// Takes up the row that is next, if there is one. Answers whether there is.
pub(crate) fn settle<S: SortedSource>(
    source: &mut S,
    column: &mut ColumnBuf,
    buf: &mut RowBuf,
) -> Result<bool, NoMemory>
    requires valid { S.valid source.old }
    ensures valid { S.valid source.new }
    ensures cells { S.cells source.new ≡ S.cells source.old }
    ensures steady { S.steady source.new ≡ S.steady source.old }
    ensures whole { IfOk result (λ held. is_whole held column.new ≡ true) }
    ensures settled { IfOk result (λ held. is_settled (held_of held column.new buf.new) (S.rest source.new) ≡ true) }
    ensures left { IfOk result (λ held. rows_from (held_of held column.new buf.new) (S.rest source.new)
        ≡ rows_from None (S.rest source.old)) }
{
    let Some(entry) = source.top() else {
        return Ok(false);
    };
    column.set(entry.key);
    buf.clear();
    buf.push(entry)?;
    source.next()?;
    gather(source, column, buf)?;
    Ok(true)
}

/// The entry that stands for the held row.
pub(crate) fn held_entry<'a>(
    column: &'a ColumnBuf,
    buf: &'a RowBuf,
    is_held: bool,
) -> Option<EntryRef<'a>>
    requires { is_whole is_held column.now ≡ true }
    ensures { option_map cell_of result ≡ first (with_held (held_of is_held column.now buf.now) []) }
{
    if !is_held {
        return None;
    }
    let key = KeyRef {
        row: column.key(0, false).row,
        family: &[],
        qualifier: &[],
        visibility: &[],
        time: i64::MAX,
        deleted: false,
    };
    Some(EntryRef {
        key,
        value: buf.text(),
    })
}

/// Drops the rows whose entries lie before a start. Answers whether a row is held then.
pub(crate) fn drop_before<S: SortedSource>(
    source: &mut S,
    column: &mut ColumnBuf,
    buf: &mut RowBuf,
    start: &Bound<'_>,
) -> Result<bool, NoMemory>
    requires valid { S.valid source.old }
    ensures valid { S.valid source.new }
    ensures cells { S.cells source.new ≡ S.cells source.old }
    ensures steady { S.steady source.new ≡ S.steady source.old }
    ensures whole { IfOk result (λ held. is_whole held column.new ≡ true) }
    ensures settled { IfOk result (λ held. is_settled (held_of held column.new buf.new) (S.rest source.new) ≡ true) }
    ensures left { IfOk result (λ held. rows_from (held_of held column.new buf.new) (S.rest source.new)
        ≡ from_first (λ e. is_behind (cut_of start.now) e.key) (rows_from None (S.rest source.old))) }
{
    let mut is_held = settle(source, column, buf)?;
    while let Some(entry) = held_entry(column, buf, is_held) {
        if lies_behind(start, entry.key) {
            return Ok(is_held);
        }
        is_held = settle(source, column, buf)?;
    }
    Ok(is_held)
}
