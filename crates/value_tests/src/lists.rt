//! Lists of entries and other elements.
use crate::fixtures::row_key;
use cell_key::{Entries, Entry, EntryRef, FileIds, NoMemory, compare_entries};
use std::alloc::Global;
use std::cmp::Ordering;

fn numbers(alloc: Global) -> Result<FileIds, NoMemory> {
    let mut ids = FileIds::new(alloc);
    for id in [7, 2, u64::MAX, 7, 5] {
        ids.insert(id)?;
    }
    Ok(ids)
}

fn are_numbers(ids: &FileIds) -> bool {
    ids.as_slice() == [2, 5, 7, u64::MAX].as_slice()
        && ids.len() == 4
        && ids.get(1) == 5
        && ids.has(7)
        && !ids.has(6)
}

#[test]
fn file_numbers_ascend(rt: HostRuntime) -> Result<(), NoMemory> {
    let ids = numbers(rt.alloc())?;
    assert!(rt; are_numbers(&ids));
    Ok(())
}

fn few_numbers(alloc: Global) -> Result<FileIds, NoMemory> {
    let mut few = FileIds::new(alloc);
    few.push(3)?;
    few.push(8)?;
    few.copy(alloc)
}

#[test]
fn file_numbers_are_copied(rt: HostRuntime) -> Result<(), NoMemory> {
    let few = few_numbers(rt.alloc())?;
    assert!(rt; few.as_slice() == [3, 8].as_slice());
    Ok(())
}

fn push(entries: &mut Entries, alloc: Global, time: i64, value: &[u8]) -> Result<(), NoMemory> {
    let key = row_key(b"r", time, false);
    let entry = Entry::of(alloc, EntryRef { key, value })?;
    entries.push(entry)
}

fn unsorted(alloc: Global) -> Result<Entries, NoMemory> {
    let mut entries = Entries::new(alloc);
    for (time, value) in [(1, b"b"), (2, b"c"), (1, b"a"), (2, b"c")] {
        push(&mut entries, alloc, time, value)?;
    }
    Ok(entries)
}

fn is_at(entries: &Entries, i: usize, time: i64, value: &[u8]) -> bool {
    if i >= entries.len() {
        return false;
    }
    let entry = entries.get(i).entry();
    entry.key.time == time && entry.value == value
}

fn are_sorted(entries: &Entries) -> bool {
    entries.len() == 4
        && is_at(entries, 0, 2, b"c")
        && is_at(entries, 1, 2, b"c")
        && is_at(entries, 2, 1, b"a")
        && is_at(entries, 3, 1, b"b")
}

fn sorted(alloc: Global) -> Result<Entries, NoMemory> {
    let mut entries = unsorted(alloc)?;
    entries.sort()?;
    Ok(entries)
}

fn ends_are_in_order(entries: &Entries) -> bool {
    entries.len() == 4
        && compare_entries(entries.get(0).entry(), entries.get(3).entry()) == Ordering::Less
}

#[test]
fn lists_are_sorted(rt: HostRuntime) -> Result<(), NoMemory> {
    let entries = sorted(rt.alloc())?;
    assert!(rt; are_sorted(&entries) && ends_are_in_order(&entries));
    Ok(())
}

/// More entries than are sorted without memory, the newest last, and then sorted.
fn many_sorted(alloc: Global) -> Result<Entries, NoMemory> {
    let mut entries = Entries::new(alloc);
    for time in 0..24 {
        push(&mut entries, alloc, time, b"")?;
    }
    entries.sort()?;
    Ok(entries)
}

#[test]
fn long_lists_are_sorted(rt: HostRuntime) -> Result<(), NoMemory> {
    let entries = many_sorted(rt.alloc())?;
    assert!(rt; is_at(&entries, 0, 23, b"") && is_at(&entries, 23, 0, b""));
    Ok(())
}

fn are_unsorted(entries: &Entries) -> bool {
    entries.len() == 4 && entries.as_slice().len() == 4 && is_at(entries, 2, 1, b"a")
}

/// A copy of a list that is sorted behind it.
fn copied(alloc: Global) -> Result<Entries, NoMemory> {
    let mut entries = unsorted(alloc)?;
    let copy = entries.copy(alloc)?;
    entries.sort()?;
    Ok(copy)
}

#[test]
fn lists_keep_their_elements(rt: HostRuntime) -> Result<(), NoMemory> {
    assert!(rt; Entries::new(rt.alloc()).is_empty());
    let copy = copied(rt.alloc())?;
    assert!(rt; are_unsorted(&copy));
    Ok(())
}
