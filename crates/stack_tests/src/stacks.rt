//! Stacks by usage.
ghost use Rattle.std.specs.Prelude.{IfOk};
ghost use Rattle.tablet_model.specs.Order.{above};
ghost use Rattle.tablet_model.specs.Reading.{AreUnmarkedRead};
ghost use Rattle.tablet_model.specs.Rules.{AreStorable};
ghost use Rattle.tablet_model.specs.Sorted.{Ascends};
ghost use Rattle.iter_contract.specs.VecRest.{vec_cells};
ghost use Rattle.iter_config.specs.RulesOf.{rules_of};
ghost use Rattle.iter_config.specs.Stages.{stages_of};

use crate::fixtures::{Cell, are_storable, config, copy_has};
use cell_key::{Entries, Entry, EntryRef, Key, KeyError, KeyRef, NoMemory};
use iter_config::Config;
use iter_contract::{SortedSource, VecSource};
use iter_stack::{Usage, build};
use std::alloc::Global;
use std::sync::Arc;
use std::test::Fail;

fn entry_of<'a>(alloc: Global, key: KeyRef<'a>, value: &'a [u8]) -> Result<Entry, NoMemory> {
    Entry::of(alloc, EntryRef { key, value })
}

fn entry(alloc: Global, cell: &Cell) -> Result<Entry, KeyError> {
    let (row, family, time, deleted, value) = *cell;
    let key = Key::new(alloc, row, family, b"q", b"", time, deleted)?;
    Ok(entry_of(alloc, key.key(), value)?)
}

/// Entries of six columns.
fn entries(alloc: Global) -> Result<Entries, KeyError>
    ensures { IfOk result (Ascends above) }
{
    let cells: [Cell; 11] = [
        (b"1", b"a", 9, false, b"1,2"),
        (b"1", b"a", 8, false, b"10"),
        (b"1", b"s", 9, false, b"1"),
        (b"1", b"s", 8, false, b"2"),
        (b"1", b"s", 7, true, b""),
        (b"1", b"s", 5, false, b"20"),
        (b"1", b"v", 9, false, b"new"),
        (b"1", b"v", 8, false, b"old"),
        (b"1", b"x", 9, false, b"gone"),
        (b"2", b"s", 3, false, b"4"),
        (b"2", b"s", 2, false, b"5"),
    ];
    let mut entries = Entries::new(alloc);
    for cell in &cells {
        entries.push(entry(alloc, cell)?)?;
    }
    entries.sort()?;
    Ok(entries)
}

/// A leaf that a store under this configuration may have.
fn leaf(alloc: Global, config: &Config) -> Result<VecSource, Fail>
    ensures { IfOk result (λ leaf. AreStorable (rules_of config.now) (vec_cells leaf)) }
{
    let mut leaf = VecSource::new(Arc::new(alloc, entries(alloc)?)?);
    if !are_storable(config, &mut leaf)? {
        return Err("no store has these entries".into());
    }
    Ok(leaf)
}

/// Whether a usage makes these entries of a copy of a leaf.
fn makes(
    alloc: Global,
    config: &Config,
    usage: Usage,
    leaf: &VecSource,
    cells: &[Cell],
) -> Result<bool, NoMemory>
    requires { AreStorable (rules_of config.now) (vec_cells leaf.now) }
{
    let leaf = leaf.deep_copy(alloc)?;
    stack_has(alloc, config, usage, leaf, cells)
}

/// Whether a usage makes these entries of a leaf. It is generic, since the proof of a call of a whole stack grows with what its
/// types name.
fn stack_has<S: SortedSource>(
    alloc: Global,
    config: &Config,
    usage: Usage,
    leaf: S,
    cells: &[Cell],
) -> Result<bool, NoMemory>
    requires valid { S.valid leaf }
    requires read { AreUnmarkedRead (stages_of config.now) (S.cells leaf) }
{
    let stack = build(alloc, config, usage, leaf)?;
    source_has(alloc, stack, cells)
}

/// Whether a copy of a source has these entries and no others.
fn source_has<S: SortedSource>(alloc: Global, source: S, cells: &[Cell]) -> Result<bool, NoMemory>
    requires { S.valid source }
{
    copy_has(alloc, &source, cells)
}

/// Whether a scan of the leaf makes these entries.
pub(crate) fn scans(alloc: Global, config: &Config, cells: &[Cell]) -> Result<bool, Fail> {
    let leaf = leaf(alloc, config)?;
    Ok(makes(alloc, config, Usage::Scan, &leaf, cells)?)
}

const SCANNED: &[Cell] = &[
    (b"1", b"a", 9, false, b"11,2"),
    (b"1", b"s", 9, false, b"3"),
    (b"2", b"s", 3, false, b"9"),
];

const WRITTEN: &[Cell] = &[
    (b"1", b"a", 9, false, b"11,2"),
    (b"1", b"s", 9, false, b"3"),
    (b"1", b"s", 7, true, b""),
    (b"1", b"v", 9, false, b"new"),
    (b"2", b"s", 3, false, b"9"),
];

const PARTLY_COMPACTED: &[Cell] = &[
    (b"1", b"a", 9, false, b"11,2"),
    (b"1", b"s", 9, false, b"1"),
    (b"1", b"s", 8, false, b"2"),
    (b"1", b"s", 7, true, b""),
    (b"1", b"v", 9, false, b"new"),
    (b"1", b"v", 8, false, b"old"),
    (b"2", b"s", 3, false, b"4"),
    (b"2", b"s", 2, false, b"5"),
];

const FULLY_COMPACTED: &[Cell] = &[
    (b"1", b"a", 9, false, b"11,2"),
    (b"1", b"s", 9, false, b"3"),
    (b"1", b"v", 9, false, b"new"),
    (b"1", b"v", 8, false, b"old"),
    (b"2", b"s", 3, false, b"9"),
];

#[test]
fn each_usage_runs_its_iterators(rt: HostRuntime) -> Result<(), Fail> {
    let config = config(rt.alloc())?;
    let leaf = leaf(rt.alloc(), &config)?;
    let usages = [
        (Usage::Scan, SCANNED),
        (Usage::Minc, WRITTEN),
        (Usage::MajcPart, PARTLY_COMPACTED),
        (Usage::MajcFull, FULLY_COMPACTED),
    ];
    for (usage, cells) in usages {
        let made = makes(rt.alloc(), &config, usage, &leaf, cells)?;
        assert!(rt; made, "{usage:?}");
    }
    Ok(())
}
