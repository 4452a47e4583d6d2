//! Several sources as one.
use crate::fixtures::{key, leaves, range};
use cell_key::{Bound, Entries, Entry, EntryRef, NoMemory};
use iter_contract::{SortedSource, VecSource};
use merge_iter::MergeIter;
use std::alloc::Global;
use std::sync::Arc;

/// A source of entries `ROW :: @0 =VALUE`, whose rows and values have one byte.
fn source(alloc: Global, rows: &[(u8, u8)]) -> Result<VecSource, NoMemory> {
    let mut entries = Entries::new(alloc);
    for (row, value) in rows {
        let row = [*row];
        let value = [*value];
        let entry = EntryRef {
            key: key(&row, b"", b"", 0),
            value: &value,
        };
        entries.push(Entry::of(alloc, entry)?)?;
    }
    entries.sort()?;
    Ok(VecSource::new(Arc::new(alloc, entries)?))
}

/// Whether a new source has the union of the three, and nothing left before its first seek.
fn is_union<S: SortedSource>(alloc: Global, source: &S) -> Result<bool, NoMemory>
    requires { S.valid source.now }
{
    let all = range(Bound::Open, Bound::Open);
    let behind_second = range(Bound::PastRow(b"b"), Bound::Open);
    let behind_last = range(Bound::PastRow(b"c"), Bound::Open);
    Ok(
        source.top().is_none()
            && leaves(alloc, source, &all, b"a=1 b=2 c=0 c=1 c=1 ")?
            && leaves(alloc, source, &behind_second, b"c=0 c=1 c=1 ")?
            && leaves(alloc, source, &behind_last, b"")?,
    )
}

fn three_merged(alloc: Global) -> Result<bool, NoMemory> {
    let first = source(alloc, &[(b'c', b'1'), (b'a', b'1')])?;
    let second = source(alloc, &[(b'b', b'2'), (b'c', b'1'), (b'c', b'0')])?;
    let third = source(alloc, &[])?;
    let merged = MergeIter::new(alloc, vec![in alloc; first, second, third]?)?;
    is_union(alloc, &merged)
}

fn none_merged(alloc: Global) -> Result<bool, NoMemory> {
    let merged = MergeIter::new(alloc, Vec::<VecSource>::new(alloc))?;
    leaves(alloc, &merged, &range(Bound::Open, Bound::Open), b"")
}

#[test]
fn sources_are_merged(rt: HostRuntime) -> Result<(), NoMemory> {
    assert!(rt; three_merged(rt.alloc())?);
    assert!(rt; none_merged(rt.alloc())?);
    Ok(())
}
