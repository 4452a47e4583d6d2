//! The iterator over a source.
ghost use Rattle.std.specs.Prelude.{IfOk};
ghost use Rattle.whole_row.specs.RowLists.{AreLive};
ghost use Rattle.iter_contract.specs.VecRest.{vec_cells};
ghost use Rattle.cell_key.specs.RowBounds.{HasShortRow};

use crate::fixtures::source;
use cell_key::{Bound, ByteText, EntryRef, KeyError, KeyRef, NoMemory, Range};
use iter_contract::{SortedSource, VecSource};
use std::alloc::Global;
use whole_row::{RowError, RowIter, decode_row};

fn entries(alloc: Global) -> Result<VecSource, KeyError>
    ensures { IfOk result (λ source. AreLive (vec_cells source)) }
{
    source(
        alloc,
        &[
            (b"1", b"a", b"x", 9, b"A"),
            (b"1", b"a", b"x", 7, b"B"),
            (b"1", b"b", b"x", 3, b"C"),
            (b"2", b"a", b"x", 1, b"D"),
            (b"4", b"a", b"x", 1, b"E"),
            (b"4", b"c", b"y", 8, b"F"),
        ],
    )
}

/// Writes the row of an entry, whether its key has the row alone and the greatest time, and the values of the entries that its value
/// is read as.
fn write(alloc: Global, left: &mut ByteText, entry: EntryRef<'_>) -> Result<(), RowError> {
    left.append(entry.key.row)?;
    let is_plain = entry.key.family.is_empty() && entry.key.qualifier.is_empty();
    left.push(if is_plain && entry.key.time == i64::MAX {
        b'='
    } else {
        b'?'
    })?;
    let read = decode_row(alloc, entry.key.row, entry.value)?;
    for entry in read.as_slice() {
        left.append(entry.entry().value)?;
    }
    Ok(left.push(b' ')?)
}

/// What is left in a range.
fn left_in<S: SortedSource>(
    alloc: Global,
    source: &S,
    range: &Range<'_>,
) -> Result<ByteText, RowError>
    requires { S.valid source.now }
{
    let mut source = source.deep_copy(alloc)?;
    source.seek(range)?;
    let mut left = ByteText::new(alloc);
    while let Some(entry) = source.top() {
        write(alloc, &mut left, entry)?;
        source.next()?;
    }
    Ok(left)
}

/// Whether a new iterator has nothing left, and then these rows in a range.
fn shows(
    alloc: Global,
    source: &VecSource,
    start: Bound<'_>,
    end: Bound<'_>,
    want: &[u8],
) -> Result<bool, RowError>
    requires live { AreLive (vec_cells source.now) }
    requires start { HasShortRow start }
    requires end { HasShortRow end }
{
    let rows = RowIter::new(alloc, source.deep_copy(alloc)?)?;
    let left = left_in(alloc, &rows, &Range { start, end })?;
    Ok(rows.top().is_none() && left.bytes() == want)
}

/// The key `ROW b:x: @5`.
fn middle(row: &'static [u8; 1]) -> KeyRef<'static> {
    KeyRef {
        row,
        family: b"b",
        qualifier: b"x",
        visibility: b"",
        time: 5,
        deleted: false,
    }
}

#[test]
fn rows_become_entries(rt: HostRuntime) -> Result<(), KeyError> {
    let source = entries(rt.alloc())?;
    // A range, and the rows in it. A row's entry stands before all others of the row, and is whole wherever the range ends.
    let ranges: [(Bound<'_>, Bound<'_>, &[u8]); 6] = [
        (Bound::Open, Bound::Open, b"1=ABC 2=D 4=EF "),
        (Bound::At(middle(b"1")), Bound::Open, b"2=D 4=EF "),
        (Bound::Row(b"1"), Bound::Past(middle(b"1")), b"1=ABC "),
        (Bound::PastRow(b"1"), Bound::PastRow(b"3"), b"2=D "),
        (Bound::Row(b"3"), Bound::At(middle(b"4")), b"4=EF "),
        (Bound::PastRow(b"4"), Bound::Open, b""),
    ];
    for (i, (start, end, want)) in ranges.iter().enumerate() {
        assert!(rt;
            shows(rt.alloc(), &source, *start, *end, want) == Ok(true),
            "{i}"
        );
    }
    Ok(())
}
