//! Jobs over parts.
ghost use Rattle.std.specs.Prelude.{◌≡◌, ⊤, None, true, map, IfOk};
ghost use Rattle.tablet_model.specs.Ingest.{out_of_bounds};
ghost use Rattle.tablet_model.specs.Rules.{AreStorable};
ghost use Rattle.cell_key.specs.Mutations.{row_change_of};
ghost use Rattle.iter_config.specs.RulesOf.{rules_of};
ghost use Rattle.merge_iter.specs.MergeParts.{merge_cells, merge_valid};
ghost use Rattle.compactor.specs.PartCells.{part_cells, part_rest, union_of};

use crate::fixtures::{Cell, are_storable, config, copy_has};
use cell_key::{ByteText, Mutation, NoMemory, Update, Updates};
use compactor::{DoneJob, Job, PartCursor};
use iter_config::Config;
use iter_contract::SortedSource;
use iter_stack::Usage;
use memory_map::MemMap;
use merge_iter::MergeIter;
use sorted_file::SortedFile;
use std::alloc::Global;
use std::sync::Arc;
use std::test::Fail;

/// A change of the column `FAMILY::` of a row at a time: a put of a value of one byte, or a delete.
type Change = (u8, u8, i64, Option<u8>);

#[tactic(auto, unfolding(tablet_model::specs::Ingest::out_of_bounds, tablet_model::specs::Ingest::first_too_long, tablet_model::specs::Ingest::too_long))]
fn mutation(alloc: Global, row: u8, family: u8, value: Option<u8>) -> Result<Mutation, NoMemory>
    ensures { IfOk result (λ m. out_of_bounds (row_change_of m) ≡ None) }
{
    let value = match value {
        Some(value) => Some(ByteText::of(alloc, &[value])?),
        None => None,
    };
    let mut updates = Updates::new(alloc);
    updates.push(Update {
        family: ByteText::of(alloc, &[family])?,
        qualifier: ByteText::new(alloc),
        visibility: ByteText::new(alloc),
        time: None,
        value,
    })?;
    let row = ByteText::of(alloc, &[row])?;
    Ok(Mutation { row, updates })
}

/// A map where a change came in.
fn changed(alloc: Global, map: &MemMap, change: &Change) -> Result<MemMap, NoMemory> {
    let (row, family, time, value) = *change;
    let mutation = mutation(alloc, row, family, value)?;
    map.insert(alloc, &mutation, time)
}

/// The part in memory of some changes.
fn part_in_memory(alloc: Global, changes: &[Change]) -> Result<PartCursor, NoMemory> {
    let mut map = MemMap::empty(alloc)?;
    for change in changes {
        map = changed(alloc, &map, change)?;
    }
    Ok(PartCursor::Memory(map.cursor(alloc)?))
}

/// A deep copy of each part's cursor.
fn copies(alloc: Global, parts: &[PartCursor]) -> Result<Vec<PartCursor>, NoMemory>
    ensures { IfOk result (λ copies. map part_cells copies.items ≡ map part_cells parts.now) }
{
    let mut copies = Vec::with_capacity(alloc, parts.len())?;
    for part in parts {
        copies.push(part.deep_copy(alloc)?)?;
    }
    Ok(copies)
}

/// A source of the entries of some parts in one order.
fn merged(alloc: Global, parts: &[PartCursor]) -> Result<MergeIter<PartCursor>, NoMemory>
    ensures cells { IfOk result (λ it. merge_cells part_cells it ≡ union_of parts.now) }
    ensures valid { IfOk result (merge_valid part_rest (λ _. ⊤)) }
{
    let copies = copies(alloc, parts)?;
    MergeIter::new(alloc, copies)
}

/// Whether a store may have all entries of some parts.
fn may_be_stored(alloc: Global, config: &Config, parts: &[PartCursor]) -> Result<bool, NoMemory>
    ensures { IfOk result (λ b. b ≡ true → AreStorable (rules_of config.now) (union_of parts.now)) }
{
    let mut merged = merged(alloc, parts)?;
    are_storable(config, &mut merged)
}

fn job(
    alloc: Global,
    config: &Arc<Config>,
    usage: Usage,
    parts: Vec<PartCursor>,
) -> Result<Job, Fail> {
    if usage == Usage::Scan || !may_be_stored(alloc, config, parts.as_slice())? {
        return Err("no compaction takes these parts".into());
    }
    let config = Arc::try_clone(config)?;
    Ok(Job::new(alloc, config, usage, parts)?)
}

fn compacted(
    alloc: Global,
    config: &Arc<Config>,
    usage: Usage,
    parts: Vec<PartCursor>,
) -> Result<DoneJob, Fail> {
    let job = job(alloc, config, usage, parts)?;
    Ok(job.run(alloc)?)
}

/// The file of what a compaction of memory makes, as a part.
fn part_in_file(
    alloc: Global,
    config: &Arc<Config>,
    changes: &[Change],
) -> Result<PartCursor, Fail> {
    let memory = part_in_memory(alloc, changes)?;
    let done = compacted(alloc, config, Usage::Minc, vec![in alloc; memory]?)?;
    Ok(PartCursor::File(SortedFile::cursor(alloc, done.file())?))
}

const OLDER: &[Change] = &[
    (b'1', b's', 5, Some(b'4')),
    (b'1', b'v', 5, Some(b'o')),
    (b'2', b's', 3, Some(b'4')),
    (b'2', b's', 2, Some(b'5')),
];

const NEWER: &[Change] = &[
    (b'1', b's', 9, Some(b'1')),
    (b'1', b's', 8, Some(b'2')),
    (b'1', b's', 7, None),
    (b'1', b'v', 9, Some(b'n')),
    (b'1', b'x', 9, Some(b'g')),
];

const OLDER_WRITTEN: &[Cell] = &[
    (b"1", b"s", 5, false, b"4"),
    (b"1", b"v", 5, false, b"o"),
    (b"2", b"s", 3, false, b"9"),
];

const WRITTEN: &[Cell] = &[
    (b"1", b"s", 9, false, b"3"),
    (b"1", b"s", 7, true, b""),
    (b"1", b"v", 9, false, b"n"),
    (b"2", b"s", 3, false, b"9"),
];

const PARTLY_COMPACTED: &[Cell] = &[
    (b"1", b"s", 9, false, b"1"),
    (b"1", b"s", 8, false, b"2"),
    (b"1", b"s", 7, true, b""),
    (b"1", b"v", 9, false, b"n"),
    (b"1", b"v", 5, false, b"o"),
    (b"2", b"s", 3, false, b"9"),
];

const FULLY_COMPACTED: &[Cell] = &[
    (b"1", b"s", 9, false, b"3"),
    (b"1", b"v", 9, false, b"n"),
    (b"1", b"v", 5, false, b"o"),
    (b"2", b"s", 3, false, b"9"),
];

#[test]
fn jobs_write_memory(rt: HostRuntime) -> Result<(), Fail> {
    let config = Arc::new(rt.alloc(), config(rt.alloc())?)?;
    let file = part_in_file(rt.alloc(), &config, OLDER)?;
    assert!(rt; copy_has(rt.alloc(), &file, OLDER_WRITTEN)?);
    Ok(())
}

/// Whether a compaction of a file and of newer entries in memory makes these entries.
fn makes(alloc: Global, config: &Arc<Config>, usage: Usage, cells: &[Cell]) -> Result<bool, Fail> {
    let file = part_in_file(alloc, config, OLDER)?;
    let parts = vec![in alloc; file, part_in_memory(alloc, NEWER)?]?;
    let done = compacted(alloc, config, usage, parts)?;
    let made = PartCursor::File(SortedFile::cursor(alloc, done.file())?);
    Ok(copy_has(alloc, &made, cells)?)
}

#[test]
fn jobs_compact_memory_and_files(rt: HostRuntime) -> Result<(), Fail> {
    let config = Arc::new(rt.alloc(), config(rt.alloc())?)?;
    assert!(rt; makes(rt.alloc(), &config, Usage::Minc, WRITTEN)?);
    assert!(rt; makes(rt.alloc(), &config, Usage::MajcPart, PARTLY_COMPACTED)?);
    assert!(rt; makes(rt.alloc(), &config, Usage::MajcFull, FULLY_COMPACTED)?);
    Ok(())
}
