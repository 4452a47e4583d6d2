//! A source over a list.
ghost use Rattle.std.specs.Prelude.{IfOk, codes, []};
ghost use Rattle.tablet_model.specs.Order.{above};
ghost use Rattle.tablet_model.specs.Sorted.{Ascends};
ghost use Rattle.tablet_model.specs.Bounds.{KeyBounds};
ghost use Rattle.cell_key.specs.RowBounds.{HasShortRow};

use cell_key::{Bound, Entries, Entry, EntryRef, KeyRef, NoMemory, Range};
use iter_contract::{SortedSource, VecSource};
use std::alloc::Global;
use std::sync::Arc;

/// The key `ROW FAMILY:x: @TIME`.
fn key<'a>(row: &'a [u8], family: &'a [u8], time: i64) -> KeyRef<'a>
    requires { KeyBounds row.now family.now (codes "x") [] }
{
    KeyRef {
        row,
        family,
        qualifier: b"x",
        visibility: b"",
        time,
        deleted: false,
    }
}

fn first() -> KeyRef<'static> {
    key(b"r1", b"a", 1)
}

fn second() -> KeyRef<'static> {
    key(b"r2", b"b", 2)
}

fn push(
    alloc: Global,
    entries: &mut Entries,
    key: KeyRef<'_>,
    value: &[u8],
) -> Result<(), NoMemory> {
    let entry = Entry::of(alloc, EntryRef { key, value })?;
    entries.push(entry)
}

/// The entries `r1 a:x: @1 =1` and `r2 b:x: @2 =2`.
fn two_entries(alloc: Global) -> Result<Entries, NoMemory>
    ensures { IfOk result (Ascends above) }
{
    let mut entries = Entries::new(alloc);
    push(alloc, &mut entries, second(), b"2")?;
    push(alloc, &mut entries, first(), b"1")?;
    entries.sort()?;
    Ok(entries)
}

fn two_entry_source(alloc: Global) -> Result<VecSource, NoMemory> {
    let entries = two_entries(alloc)?;
    Ok(VecSource::new(Arc::new(alloc, entries)?))
}

/// The keys from a start to an end.
fn range<'a>(start: Bound<'a>, end: Bound<'a>) -> Range<'a>
    requires start { HasShortRow start }
    requires end { HasShortRow end }
{
    Range { start, end }
}

fn all_keys() -> Range<'static> {
    range(Bound::Open, Bound::Open)
}

/// Whether a source's top is the entry `r1 a:x: @1 =1`.
fn is_at_first<S: SortedSource>(source: &S) -> bool
    requires { S.valid source.now }
{
    match source.top() {
        Some(entry) => {
            entry.key.row == b"r1".as_slice()
                && entry.key.family == b"a".as_slice()
                && entry.key.time == 1
                && entry.value == b"1".as_slice()
        }
        None => false,
    }
}

/// Whether a copy that is sought is at the first entry, and its source has nothing left as before.
fn copy_is_sought(alloc: Global) -> Result<bool, NoMemory> {
    let source = two_entry_source(alloc)?;
    let mut copy = source.deep_copy(alloc)?;
    copy.seek(&all_keys())?;
    Ok(is_at_first(&copy) && source.top().is_none())
}

#[test]
fn a_copy_is_sought_by_itself(rt: HostRuntime) -> Result<(), NoMemory> {
    assert!(rt; copy_is_sought(rt.alloc())?);
    Ok(())
}

/// Whether the values that are left of a source in a range, one behind the other, are these.
fn gives<S: SortedSource>(
    source: &mut S,
    range: &Range<'_>,
    values: &[u8],
) -> Result<bool, NoMemory>
    requires { S.valid source.old }
    ensures { S.valid source.new }
{
    let mut count = 0;
    source.seek(range)?;
    while let Some(entry) = source.top() {
        if !values[count.min(values.len())..].starts_with(entry.value) {
            return Ok(false);
        }
        count = count.saturating_add(entry.value.len());
        source.next()?;
    }
    Ok(count == values.len())
}

#[test]
fn a_list_is_sought_and_stepped(rt: HostRuntime) -> Result<(), NoMemory> {
    let ranges: [(Range<'_>, &[u8]); 7] = [
        (all_keys(), b"12"),
        (range(Bound::At(first()), Bound::At(second())), b"1"),
        (range(Bound::Past(first()), Bound::Past(second())), b"2"),
        (range(Bound::Row(b"r2"), Bound::PastRow(b"r2")), b"2"),
        (range(Bound::PastRow(b"r1"), Bound::Open), b"2"),
        (range(Bound::Open, Bound::Row(b"r2")), b"1"),
        (range(Bound::At(second()), Bound::At(first())), b""),
    ];
    let mut source = two_entry_source(rt.alloc())?;
    for (i, (range, values)) in ranges.iter().enumerate() {
        assert!(rt; gives(&mut source, range, values)?, "{i}");
    }
    Ok(())
}
