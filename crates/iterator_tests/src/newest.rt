//! Versions.
ghost use Rattle.std.specs.Prelude.{◌≤◌};

use crate::fixtures::{key, leaves, range, source};
use cell_key::{Bound, KeyError, KeyRef, NoMemory, Range};
use iter_contract::{SortedSource, VecSource};
use std::alloc::Global;
use versioning::version_iter;

/// Entries of three columns.
fn entries(alloc: Global) -> Result<VecSource, KeyError> {
    source(
        alloc,
        &[
            (b"1", b"a", b"x", b"", 9, false, b""),
            (b"1", b"a", b"x", b"", 7, false, b""),
            (b"1", b"a", b"x", b"", 6, true, b""),
            (b"1", b"a", b"x", b"", 5, false, b""),
            (b"1", b"a", b"x", b"", 3, false, b""),
            (b"1", b"b", b"x", b"", 8, false, b""),
            (b"1", b"b", b"x", b"", 4, false, b""),
            (b"2", b"a", b"x", b"", 2, false, b""),
        ],
    )
}

/// Whether these entries are left in a range where at most so many versions are kept.
fn keeps(
    alloc: Global,
    source: &VecSource,
    max: u32,
    range: &Range<'_>,
    want: &[u8],
) -> Result<bool, NoMemory>
    requires some { 1 ≤ max }
    requires few { max ≤ 1000 }
{
    let newest = version_iter(alloc, source.deep_copy(alloc)?, max)?;
    leaves(alloc, &newest, range, want)
}

/// Whether these are left in a range where at most one, two and a thousand versions are kept.
fn keep(
    alloc: Global,
    source: &VecSource,
    range: &Range<'_>,
    one: &[u8],
    two: &[u8],
    all: &[u8],
) -> Result<bool, NoMemory> {
    Ok(
        keeps(alloc, source, 1, range, one)?
            && keeps(alloc, source, 2, range, two)?
            && keeps(alloc, source, 1000, range, all)?,
    )
}

fn second() -> KeyRef<'static> {
    key(b"1", b"a", 7, false)
}

fn marker() -> KeyRef<'static> {
    key(b"1", b"a", 6, true)
}

fn last() -> KeyRef<'static> {
    key(b"1", b"a", 3, false)
}

fn other() -> KeyRef<'static> {
    key(b"1", b"b", 8, false)
}

/// A range, and what is left in it where at most one, two and a thousand versions are kept.
type Case = (Range<'static>, &'static [u8], &'static [u8], &'static [u8]);

fn cases() -> [Case; 9] {
    [
        (
            range(Bound::Open, Bound::Open),
            b"1ax9= 1ax6! 1bx8= 2ax2= ",
            b"1ax9= 1ax7= 1ax6! 1bx8= 1bx4= 2ax2= ",
            b"1ax9= 1ax7= 1ax6! 1ax5= 1ax3= 1bx8= 1bx4= 2ax2= ",
        ),
        (
            range(Bound::At(second()), Bound::Open),
            b"1ax6! 1bx8= 2ax2= ",
            b"1ax7= 1ax6! 1bx8= 1bx4= 2ax2= ",
            b"1ax7= 1ax6! 1ax5= 1ax3= 1bx8= 1bx4= 2ax2= ",
        ),
        (
            range(Bound::Past(second()), Bound::Past(other())),
            b"1ax6! 1bx8= ",
            b"1ax6! 1bx8= ",
            b"1ax6! 1ax5= 1ax3= 1bx8= ",
        ),
        (
            range(Bound::At(marker()), Bound::At(last())),
            b"1ax6! ",
            b"1ax6! ",
            b"1ax6! 1ax5= ",
        ),
        (
            range(Bound::Past(marker()), Bound::At(other())),
            b"",
            b"",
            b"1ax5= 1ax3= ",
        ),
        (
            range(Bound::Past(last()), Bound::Row(b"2")),
            b"1bx8= ",
            b"1bx8= 1bx4= ",
            b"1bx8= 1bx4= ",
        ),
        (
            range(Bound::At(key(b"1", b"b", 6, false)), Bound::Open),
            b"2ax2= ",
            b"1bx4= 2ax2= ",
            b"1bx4= 2ax2= ",
        ),
        (
            range(Bound::Row(b"1"), Bound::PastRow(b"1")),
            b"1ax9= 1ax6! 1bx8= ",
            b"1ax9= 1ax7= 1ax6! 1bx8= 1bx4= ",
            b"1ax9= 1ax7= 1ax6! 1ax5= 1ax3= 1bx8= 1bx4= ",
        ),
        (
            range(Bound::PastRow(b"1"), Bound::Open),
            b"2ax2= ",
            b"2ax2= ",
            b"2ax2= ",
        ),
    ]
}

#[test]
fn each_column_keeps_its_newest_versions(rt: HostRuntime) -> Result<(), KeyError> {
    let source = entries(rt.alloc())?;
    for (i, (range, one, two, all)) in cases().iter().enumerate() {
        assert!(rt; keep(rt.alloc(), &source, range, one, two, all)?, "{i}");
    }
    Ok(())
}

/// Whether neither copies nor a seek of its own change what another one has left.
fn stands_alone(alloc: Global, source: &VecSource) -> Result<bool, NoMemory> {
    let mut newest = version_iter(alloc, source.deep_copy(alloc)?, 1)?;
    let is_new = newest.top().is_none();
    newest.seek(&range(Bound::At(last()), Bound::Open))?;
    let before_marker = range(Bound::Open, Bound::At(marker()));
    let leaves = leaves(alloc, &newest, &before_marker, b"1ax9= ")?;
    Ok(is_new && leaves && newest.top().is_some_and(|entry| entry.key.time == 8))
}

#[test]
fn copies_are_read_by_themselves(rt: HostRuntime) -> Result<(), KeyError> {
    let source = entries(rt.alloc())?;
    assert!(rt; stands_alone(rt.alloc(), &source)?);
    Ok(())
}
