//! Searches for documents over a source.
ghost use Rattle.std.specs.Prelude.{◌≡◌, ◌≤◌, length, IfOk};
ghost use Rattle.std.specs.Arc.{arc_value};
ghost use Rattle.cell_key.specs.RowBounds.{HasShortRow};

use crate::fixtures::source;
use cell_key::{Bound, ByteText, EntryRef, KeyError, KeyRef, Names, NoMemory, Range};
use intersecting::IntersectIter;
use iter_contract::{SortedSource, VecSource};
use std::alloc::Global;
use std::sync::Arc;

/// An index: partitions 1 to 5, terms a to d, documents x to z.
fn index(alloc: Global) -> Result<VecSource, KeyError> {
    source(
        alloc,
        &[
            (b"1", b"a", b"x", 9, b""),
            (b"1", b"a", b"y", 7, b""),
            (b"1", b"a", b"z", 3, b""),
            (b"1", b"b", b"x", 1, b""),
            (b"1", b"b", b"y", 1, b""),
            (b"1", b"c", b"y", 8, b""),
            (b"2", b"a", b"z", 8, b""),
            (b"2", b"b", b"z", 8, b""),
            (b"3", b"a", b"x", 8, b""),
            (b"3", b"b", b"y", 8, b""),
            (b"4", b"b", b"x", 8, b""),
            (b"5", b"a", b"x", 8, b""),
            (b"5", b"a", b"x", 5, b""),
            (b"5", b"b", b"x", 8, b""),
            (b"5", b"d", b"x", 8, b""),
        ],
    )
}

/// A term for each letter.
fn terms(alloc: Global, letters: &[u8]) -> Result<Arc<Names>, NoMemory>
    ensures { IfOk result (λ names. length (arc_value names) ≡ length letters.now) }
{
    let mut names = Names::new(alloc);
    for letter in letters {
        names.push(ByteText::of(alloc, &[*letter])?)?;
    }
    let names = Arc::new(alloc, names)?;
    Ok(names)
}

/// Writes the row and the document of an entry, and whether its key has nothing else but the greatest time, and its value is empty.
fn write(left: &mut ByteText, entry: EntryRef<'_>) -> Result<(), NoMemory> {
    left.append(entry.key.row)?;
    left.append(entry.key.qualifier)?;
    let is_plain = entry.key.family.is_empty() && entry.key.visibility.is_empty();
    left.push(if is_plain && entry.key.time == i64::MAX && entry.value.is_empty() {
        b' '
    } else {
        b'?'
    })
}

/// What is left in a range.
fn left_in<S: SortedSource>(
    alloc: Global,
    source: &S,
    range: &Range<'_>,
) -> Result<ByteText, NoMemory>
    requires { S.valid source.now }
{
    let mut source = source.deep_copy(alloc)?;
    source.seek(range)?;
    let mut left = ByteText::new(alloc);
    while let Some(entry) = source.top() {
        write(&mut left, entry)?;
        source.next()?;
    }
    Ok(left)
}

/// Whether a new search for documents with some terms and without others has nothing left, and then these in a range.
fn finds(
    alloc: Global,
    source: &VecSource,
    with: &[u8],
    without: &[u8],
    start: Bound<'_>,
    end: Bound<'_>,
    want: &[u8],
) -> Result<bool, NoMemory>
    requires start { HasShortRow start }
    requires end { HasShortRow end }
{
    if with.is_empty() || with.len() > 8 || without.len() > 8 {
        return Ok(false);
    }
    let copy = source.deep_copy(alloc)?;
    let search = IntersectIter::new(alloc, copy, terms(alloc, with)?, terms(alloc, without)?)?;
    let left = left_in(alloc, &search, &Range { start, end })?;
    Ok(search.top().is_none() && left.bytes() == want)
}

#[test]
fn documents_are_found(rt: HostRuntime) -> Result<(), KeyError> {
    let index = index(rt.alloc())?;
    // The terms that documents have, those that they have not, and the documents.
    let searches: [(&[u8], &[u8], &[u8]); 7] = [
        (b"a", b"", b"1x 1y 1z 2z 3x 5x "),
        (b"ab", b"", b"1x 1y 2z 5x "),
        (b"ba", b"c", b"1x 2z 5x "),
        (b"abc", b"", b"1y "),
        (b"ab", b"cd", b"1x 2z "),
        (b"abd", b"c", b"5x "),
        (b"ae", b"", b""),
    ];
    for (i, (with, without, want)) in searches.iter().enumerate() {
        assert!(rt;
            finds(
                rt.alloc(),
                &index,
                with,
                without,
                Bound::Open,
                Bound::Open,
                want
            ) == Ok(true),
            "{i}"
        );
    }
    Ok(())
}

/// The key of the entry that stands for a document, or one under a term.
fn key(row: &'static [u8; 1], term: &'static [u8], document: &'static [u8; 1]) -> KeyRef<'static>
    requires { length term.now ≤ 1024 }
{
    KeyRef {
        row,
        family: term,
        qualifier: document,
        visibility: b"",
        time: i64::MAX,
        deleted: false,
    }
}

#[test]
fn a_seek_goes_on_inside_a_row(rt: HostRuntime) -> Result<(), KeyError> {
    let index = index(rt.alloc())?;
    // A range, and the documents in it. A start under a term lies behind all documents of its row.
    let ranges: [(Bound<'_>, Bound<'_>, &[u8]); 6] = [
        (Bound::At(key(b"1", b"", b"y")), Bound::Open, b"1y 2z 5x "),
        (
            Bound::Past(key(b"1", b"", b"x")),
            Bound::PastRow(b"2"),
            b"1y 2z ",
        ),
        (Bound::At(key(b"1", b"a", b"x")), Bound::Open, b"2z 5x "),
        (Bound::Row(b"1"), Bound::At(key(b"1", b"", b"y")), b"1x "),
        (Bound::PastRow(b"1"), Bound::Row(b"5"), b"2z "),
        (Bound::Past(key(b"5", b"", b"x")), Bound::Open, b""),
    ];
    for (i, (start, end, want)) in ranges.iter().enumerate() {
        assert!(rt;
            finds(rt.alloc(), &index, b"ab", b"", *start, *end, want) == Ok(true),
            "{i}"
        );
    }
    Ok(())
}
