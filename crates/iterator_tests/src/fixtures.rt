//! What the tests of this floor share.
ghost use Rattle.std.specs.Prelude.{◌≡◌, [], map, codes, IfOk};
ghost use Rattle.tablet_model.specs.Bounds.{KeyBounds};
ghost use Rattle.tablet_model.specs.Order.{above};
ghost use Rattle.tablet_model.specs.Sorted.{sorted};
ghost use Rattle.cell_key.specs.RowBounds.{HasShortRow};
ghost use Rattle.cell_key.specs.Views.{key_of};
ghost use Rattle.iter_contract.specs.VecRest.{vec_cells};
ghost use Rattle.iterator_tests.specs.Examples.{row_cell};

use cell_key::{Bound, ByteText, Entries, Entry, EntryRef, Key, KeyError, KeyRef, NoMemory, Range};
use iter_contract::{SortedSource, VecSource};
use number_values::{Encoding, NumberText};
use std::alloc::Global;
use std::sync::Arc;

/// An entry: row, family, qualifier, visibility, time, whether it is a marker, and value.
pub(crate) type Row<'a> = (&'a [u8], &'a [u8], &'a [u8], &'a [u8], i64, bool, &'a [u8]);

fn with_value(alloc: Global, key: KeyRef<'_>, value: &[u8]) -> Result<Entry, NoMemory>
    ensures { IfOk result (λ entry. entry ≡ record { key = key_of key.entry; value = value.now }) }
{
    Entry::of(alloc, EntryRef { key, value })
}

fn entry(alloc: Global, row: &Row<'_>) -> Result<Entry, KeyError>
    ensures { IfOk result (λ entry. entry ≡
        row_cell row.now.0.now row.now.1.now row.now.2.now row.now.3.now row.now.4 row.now.5 row.now.6.now) }
{
    let (row, family, qualifier, visibility, time, deleted, value) = *row;
    let key = Key::new(alloc, row, family, qualifier, visibility, time, deleted)?;
    let entry = with_value(alloc, key.key(), value)?;
    Ok(entry)
}

/// The list of these entries, as they stand here.
fn listed(alloc: Global, rows: &[Row<'_>]) -> Result<Entries, KeyError>
    ensures { IfOk result (λ entries. entries ≡
        map (λ r. row_cell r.0.now r.1.now r.2.now r.3.now r.4 r.5 r.6.now) rows.now) }
{
    let mut entries = Entries::new(alloc);
    for row in rows {
        entries.push(entry(alloc, row)?)?;
    }
    Ok(entries)
}

/// A source of these entries.
pub(crate) fn source(alloc: Global, rows: &[Row<'_>]) -> Result<VecSource, KeyError>
    ensures { IfOk result (λ source. vec_cells source ≡ sorted above (map (λ r. row_cell r.0.now r.1.now r.2.now r.3.now r.4 r.5 r.6.now) rows.now)) }
{
    let mut entries = listed(alloc, rows)?;
    entries.sort()?;
    let entries = Arc::new(alloc, entries).map_err(NoMemory::from)?;
    Ok(VecSource::new(entries))
}

/// The key `ROW FAMILY:x: @TIME`.
pub(crate) fn key<'a>(row: &'a [u8], family: &'a [u8], time: i64, deleted: bool) -> KeyRef<'a>
    requires { KeyBounds row.now family.now (codes "x") [] }
{
    KeyRef {
        row,
        family,
        qualifier: b"x",
        visibility: b"",
        time,
        deleted,
    }
}

/// The keys from a start to an end.
pub(crate) fn range<'a>(start: Bound<'a>, end: Bound<'a>) -> Range<'a>
    requires start { HasShortRow start }
    requires end { HasShortRow end }
{
    Range { start, end }
}

fn write_key(left: &mut ByteText, key: KeyRef<'_>) -> Result<(), NoMemory> {
    left.append(key.row)?;
    left.append(key.family)?;
    left.append(key.qualifier)?;
    left.append(key.visibility)?;
    let mut time = NumberText::new();
    time.write(Encoding::String, key.time);
    left.append(time.bytes())
}

/// Writes an entry: its key, `=` or at a marker `!`, and its value.
pub(crate) fn write(left: &mut ByteText, entry: EntryRef<'_>) -> Result<(), NoMemory> {
    write_key(left, entry.key)?;
    left.push(if entry.key.deleted { b'!' } else { b'=' })?;
    left.append(entry.value)?;
    left.push(b' ')
}

/// What a copy of a source has left in a range.
fn left_in<S: SortedSource>(
    alloc: Global,
    source: &S,
    range: &Range<'_>,
) -> Result<ByteText, NoMemory>
    requires { S.valid source.now }
{
    let mut source = source.deep_copy(alloc)?;
    source.seek(range)?;
    let mut left = ByteText::new(alloc);
    while let Some(entry) = source.top() {
        write(&mut left, entry)?;
        source.next()?;
    }
    Ok(left)
}

/// Whether a copy of a source has these entries left in a range.
pub(crate) fn leaves<S: SortedSource>(
    alloc: Global,
    source: &S,
    range: &Range<'_>,
    want: &[u8],
) -> Result<bool, NoMemory>
    requires { S.valid source.now }
{
    let left = left_in(alloc, source, range)?;
    Ok(left.bytes() == want)
}
