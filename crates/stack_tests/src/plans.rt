//! Which files the next compaction takes.
ghost use Rattle.std.specs.Prelude.{◌≤◌};

use cell_key::NoMemory;
use compactor::{FileCount, plan};
use std::alloc::Global;

/// The counts of files that are numbered from 1, and the numbers of those that are taken, of which there are none where no
/// compaction is worth it.
type Row = (&'static [u64], &'static [u64]);

const ROWS: &[Row] = &[
    (&[10, 10, 10], &[1, 2, 3]),
    (&[100, 5, 5, 5], &[2, 3, 4]),
    (&[5, 100, 5, 5], &[1, 3, 4]),
    (&[7], &[]),
    (&[100, 10], &[]),
    // Together they are beyond 64 bits.
    (&[u64::MAX, u64::MAX, u64::MAX], &[1, 2, 3]),
];

/// Counts of which each is half the one before it, the last of them 1.
fn halving(alloc: Global, len: u64) -> Result<Vec<u64>, NoMemory>
    requires { len ≤ 64 }
{
    let mut counts = Vec::new(alloc);
    for place in (0..len).rev() {
        counts.push(1 << place)?;
    }
    Ok(counts)
}

/// Files of these counts, numbered from 1.
fn files(alloc: Global, counts: &[u64]) -> Result<Vec<FileCount>, NoMemory> {
    let mut files = Vec::new(alloc);
    for (place, count) in counts.iter().enumerate() {
        files.push(FileCount {
            id: place as u64 + 1,
            count: *count,
        })?;
    }
    Ok(files)
}

fn is_plan_of(files: &[FileCount], ids: &[u64]) -> bool {
    if files.len() > 64 {
        return false;
    }
    match plan(files) {
        Some(taken) => taken.ids() == ids,
        None => ids.is_empty(),
    }
}

/// Whether of files of these counts those of these numbers are taken.
fn takes(alloc: Global, counts: &[u64], ids: &[u64]) -> Result<bool, NoMemory> {
    let files = files(alloc, counts)?;
    Ok(is_plan_of(&files, ids))
}

#[test]
fn the_first_even_set_is_taken(rt: HostRuntime) -> Result<(), NoMemory> {
    for (counts, ids) in ROWS {
        assert!(rt; takes(rt.alloc(), counts, ids)?);
    }
    Ok(())
}

/// Whether of so many files, of which each has half as many entries as the one before it, those of these numbers are taken.
fn takes_of_halving(alloc: Global, len: u64, ids: &[u64]) -> Result<bool, NoMemory>
    requires { len ≤ 64 }
{
    let counts = halving(alloc, len)?;
    takes(alloc, &counts, ids)
}

#[test]
fn the_last_of_many_are_taken(rt: HostRuntime) -> Result<(), NoMemory> {
    assert!(rt; takes_of_halving(rt.alloc(), 15, &[])?);
    assert!(rt; takes_of_halving(rt.alloc(), 16, &[9, 10, 11, 12, 13, 14, 15, 16])?);
    Ok(())
}
