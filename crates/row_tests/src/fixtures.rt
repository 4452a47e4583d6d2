//! What the tests here share.
ghost use Rattle.std.specs.Prelude.{◌≡◌, false, IfOk};
ghost use Rattle.tablet_model.specs.Order.{above};
ghost use Rattle.tablet_model.specs.Sorted.{sorted};
ghost use Rattle.whole_row.specs.RowLists.{AreLive};
ghost use Rattle.iter_contract.specs.VecRest.{vec_cells};

use cell_key::{Entries, Entry, EntryRef, Key, KeyError, KeyRef, NoMemory};
use iter_contract::VecSource;
use std::alloc::Global;
use std::sync::Arc;

/// An entry that is no marker: row, family, qualifier, time and value.
pub(crate) type Row<'a> = (&'a [u8], &'a [u8], &'a [u8], i64, &'a [u8]);

fn with_value(alloc: Global, key: KeyRef<'_>, value: &[u8]) -> Result<Entry, NoMemory>
    ensures { IfOk result (λ entry. entry.key.deleted ≡ key.entry.deleted) }
{
    Entry::of(alloc, EntryRef { key, value })
}

fn entry(alloc: Global, row: &Row<'_>) -> Result<Entry, KeyError>
    ensures { IfOk result (λ entry. entry.key.deleted ≡ false) }
{
    let (row, family, qualifier, time, value) = *row;
    let key = Key::new(alloc, row, family, qualifier, b"", time, false)?;
    let entry = with_value(alloc, key.key(), value)?;
    Ok(entry)
}

/// The list of these entries, as they stand here.
pub(crate) fn listed(alloc: Global, rows: &[Row<'_>]) -> Result<Entries, KeyError>
    ensures { IfOk result AreLive }
{
    let mut entries = Entries::new(alloc);
    for row in rows {
        entries.push(entry(alloc, row)?)?;
    }
    Ok(entries)
}

fn in_order(alloc: Global, entries: Entries) -> Result<VecSource, NoMemory>
    ensures { IfOk result (λ source. vec_cells source ≡ sorted above entries) }
{
    let mut entries = entries;
    entries.sort()?;
    let entries = Arc::new(alloc, entries)?;
    Ok(VecSource::new(entries))
}

/// A source of these entries.
pub(crate) fn source(alloc: Global, rows: &[Row<'_>]) -> Result<VecSource, KeyError>
    ensures { IfOk result (λ source. AreLive (vec_cells source)) }
{
    let entries = listed(alloc, rows)?;
    let source = in_order(alloc, entries)?;
    Ok(source)
}
