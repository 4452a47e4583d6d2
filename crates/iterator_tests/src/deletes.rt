//! Live and marked entries.
use crate::fixtures::{key, leaves, range, source};
use cell_key::{Bound, KeyError, KeyRef, NoMemory, Range};
use delete_iter::{live_iter, mark_iter};
use iter_contract::{SortedSource, VecSource};
use std::alloc::Global;

/// Entries of four columns.
fn entries(alloc: Global) -> Result<VecSource, KeyError> {
    source(
        alloc,
        &[
            (b"1", b"a", b"x", b"", 9, false, b""),
            (b"1", b"a", b"x", b"", 7, true, b""),
            (b"1", b"a", b"x", b"", 7, false, b""),
            (b"1", b"a", b"x", b"", 5, true, b""),
            (b"1", b"a", b"x", b"", 5, false, b""),
            (b"1", b"a", b"x", b"", 4, false, b""),
            (b"1", b"b", b"x", b"", 8, false, b""),
            (b"1", b"b", b"x", b"", 6, true, b""),
            (b"1", b"b", b"x", b"", 3, false, b""),
            (b"1", b"c", b"x", b"", 2, false, b""),
            (b"2", b"a", b"x", b"", 3, false, b""),
        ],
    )
}

/// Whether a new iterator has nothing left, and then these live entries in a range.
fn is_live(
    alloc: Global,
    source: &VecSource,
    range: &Range<'_>,
    want: &[u8],
) -> Result<bool, NoMemory> {
    let live = live_iter(alloc, source.deep_copy(alloc)?)?;
    Ok(live.top().is_none() && leaves(alloc, &live, range, want)?)
}

/// Whether a new iterator has nothing left, and then these marked entries in a range.
fn is_marked(
    alloc: Global,
    source: &VecSource,
    range: &Range<'_>,
    want: &[u8],
) -> Result<bool, NoMemory> {
    let marked = mark_iter(alloc, source.deep_copy(alloc)?)?;
    Ok(marked.top().is_none() && leaves(alloc, &marked, range, want)?)
}

fn shows(
    alloc: Global,
    source: &VecSource,
    range: &Range<'_>,
    live: &[u8],
    marked: &[u8],
) -> Result<bool, NoMemory> {
    Ok(is_live(alloc, source, range, live)? && is_marked(alloc, source, range, marked)?)
}

fn marker() -> KeyRef<'static> {
    key(b"1", b"a", 7, true)
}

fn last() -> KeyRef<'static> {
    key(b"1", b"a", 4, false)
}

#[test]
fn markers_hide_what_is_older(rt: HostRuntime) -> Result<(), KeyError> {
    let older_marker = Bound::At(key(b"1", b"a", 5, true));
    let middle = Bound::At(key(b"1", b"b", 7, false));
    // A range, and the live and the marked entries that are left in it.
    let ranges: [(Bound<'_>, Bound<'_>, &[u8], &[u8]); 8] = [
        (
            Bound::Open,
            Bound::Open,
            b"1ax9= 1bx8= 1cx2= 2ax3= ",
            b"1ax9= 1ax7! 1bx8= 1bx6! 1cx2= 2ax3= ",
        ),
        (Bound::Open, Bound::At(marker()), b"1ax9= ", b"1ax9= "),
        (Bound::At(marker()), Bound::Past(last()), b"", b"1ax7! "),
        (Bound::Past(marker()), Bound::Past(last()), b"", b""),
        (
            older_marker,
            Bound::Row(b"2"),
            b"1bx8= 1cx2= ",
            b"1bx8= 1bx6! 1cx2= ",
        ),
        (
            Bound::At(last()),
            Bound::PastRow(b"1"),
            b"1bx8= 1cx2= ",
            b"1bx8= 1bx6! 1cx2= ",
        ),
        (middle, Bound::Open, b"1cx2= 2ax3= ", b"1bx6! 1cx2= 2ax3= "),
        (Bound::PastRow(b"1"), Bound::Open, b"2ax3= ", b"2ax3= "),
    ];
    let source = entries(rt.alloc())?;
    for (i, (start, end, live, marked)) in ranges.iter().enumerate() {
        let range = range(*start, *end);
        assert!(rt; shows(rt.alloc(), &source, &range, live, marked)?, "{i}");
    }
    Ok(())
}
