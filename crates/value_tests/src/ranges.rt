//! Ranges and places in them.
ghost use Rattle.cell_key.specs.Ranges.{IsAtMostRow};
ghost use Rattle.cell_key.specs.RowBounds.{HasShortRow};

use crate::fixtures::row_key;
use cell_key::{Bound, ByteText, Key, KeyRef, NoMemory, Position, Range, RangeBuf};
use std::alloc::Global;

/// Whether a bound, as a start, holds the keys from one place on, and as an end those before another.
fn cuts(bound: Bound<'_>, start: usize, end: usize) -> bool
    requires { HasShortRow bound }
{
    let keys = [
        row_key(b"l", 5, false),
        row_key(b"m", 6, false),
        row_key(b"m", 5, false),
        row_key(b"m", 4, false),
        row_key(b"n", 5, false),
    ];
    let from = Range {
        start: bound,
        end: Bound::Open,
    };
    let to = Range {
        start: Bound::Open,
        end: bound,
    };
    for i in 0..5 {
        if from.contains(keys[i]) != (start <= i) || to.contains(keys[i]) != (i < end) {
            return false;
        }
    }
    true
}

#[test]
fn ranges_hold_what_lies_between(rt: HostRuntime) {
    let middle = row_key(b"m", 5, false);
    assert!(rt; cuts(Bound::Open, 0, 5));
    assert!(rt; cuts(Bound::At(middle), 2, 2));
    assert!(rt; cuts(Bound::Past(middle), 3, 3));
    assert!(rt; cuts(Bound::Row(b"m"), 1, 1));
    assert!(rt; cuts(Bound::PastRow(b"m"), 4, 4));
}

/// Whether a range holds the one key and not the other.
fn parts(range: Range<'_>, inside: KeyRef<'_>, outside: KeyRef<'_>) -> bool {
    range.contains(inside) && !range.contains(outside)
}

fn first() -> KeyRef<'static> {
    row_key(b"m", 6, false)
}

fn last() -> KeyRef<'static> {
    row_key(b"n", 6, false)
}

/// The row of the first key.
fn row() -> Range<'static> {
    Range {
        start: Bound::Row(b"m"),
        end: Bound::PastRow(b"m"),
    }
}

/// What lies behind the first key.
fn later() -> Range<'static> {
    Range {
        start: Bound::Past(first()),
        end: Bound::Open,
    }
}

#[test]
fn ranges_are_kept(rt: HostRuntime) -> Result<(), NoMemory> {
    let mut kept = RangeBuf::of(rt.alloc(), &row())?;
    assert!(rt; parts(kept.range(), first(), last()));
    kept.set(&later());
    assert!(rt; parts(kept.range(), last(), first()));
    Ok(())
}

fn holds_after(range: Range<'_>, position: Position, key: KeyRef<'_>) -> bool
    requires { IsAtMostRow position }
{
    range.after(&position).contains(key)
}

fn holds_behind_key(alloc: Global) -> Result<bool, NoMemory> {
    let key = Key::of(alloc, first())?;
    Ok(holds_after(row(), Position::AfterKey(key), first()))
}

fn holds_behind_row(alloc: Global, range: Range<'_>, key: KeyRef<'_>) -> Result<bool, NoMemory> {
    let row = ByteText::of(alloc, b"m")?;
    Ok(holds_after(range, Position::AfterRow(row), key))
}

#[test]
fn ranges_are_cut(rt: HostRuntime) -> Result<(), NoMemory> {
    assert!(rt; holds_after(row(), Position::Start, first()));
    assert!(rt; !holds_behind_key(rt.alloc())?);
    assert!(rt; !holds_behind_row(rt.alloc(), row(), first())?);
    assert!(rt; holds_behind_row(rt.alloc(), later(), last())?);
    assert!(rt; later().widened().contains(first()));
    Ok(())
}
