//! What the tests of this floor share.
ghost use Rattle.std.specs.Prelude.{[]};
ghost use Rattle.tablet_model.specs.Bounds.{KeyBounds};
ghost use Rattle.cell_key.specs.RowBounds.{HasShortRow};

use cell_key::{Bound, ByteText, EntryRef, KeyRef, NoMemory, Range};
use iter_contract::SortedSource;
use std::alloc::Global;

/// The key `ROW FAMILY:QUALIFIER: @TIME`.
pub(crate) fn key<'a>(row: &'a [u8], family: &'a [u8], qualifier: &'a [u8], time: i64) -> KeyRef<'a>
    requires { KeyBounds row.now family.now qualifier.now [] }
{
    KeyRef {
        row,
        family,
        qualifier,
        visibility: b"",
        time,
        deleted: false,
    }
}

/// The keys from a start to an end.
pub(crate) fn range<'a>(start: Bound<'a>, end: Bound<'a>) -> Range<'a>
    requires start { HasShortRow start }
    requires end { HasShortRow end }
{
    Range { start, end }
}

/// Writes row, family and value of an entry, with `=` before the value of a put, and `!` before that of a marker.
fn write(left: &mut ByteText, entry: EntryRef<'_>) -> Result<(), NoMemory> {
    left.append(entry.key.row)?;
    left.append(entry.key.family)?;
    left.push(if entry.key.deleted { b'!' } else { b'=' })?;
    left.append(entry.value)?;
    left.push(b' ')
}

/// What a copy of a source has left in a range.
fn left_in<S: SortedSource>(
    alloc: Global,
    source: &S,
    range: &Range<'_>,
) -> Result<ByteText, NoMemory>
    requires { S.valid source.now }
{
    let mut source = source.deep_copy(alloc)?;
    source.seek(range)?;
    let mut left = ByteText::new(alloc);
    while let Some(entry) = source.top() {
        write(&mut left, entry)?;
        source.next()?;
    }
    Ok(left)
}

/// Whether a copy of a source has these entries left in a range.
pub(crate) fn leaves<S: SortedSource>(
    alloc: Global,
    source: &S,
    range: &Range<'_>,
    want: &[u8],
) -> Result<bool, NoMemory>
    requires { S.valid source.now }
{
    let left = left_in(alloc, source, range)?;
    Ok(left.bytes() == want)
}
