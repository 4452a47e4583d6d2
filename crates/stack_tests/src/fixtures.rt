//! What the tests of this floor share.
ghost use Rattle.std.specs.Prelude.{◌≡◌, ◌<◌, true, length, IfOk};
ghost use Rattle.tablet_model.specs.Rules.{AreStorable, IsStorable};
ghost use Rattle.cell_key.specs.Views.{cell_of};
ghost use Rattle.iter_config.specs.RulesOf.{rules_of};

use crate::walking::walk_to_end;
use cell_key::{EntryRef, NoMemory};
use compactor::ALL_KEYS;
use iter_config::{Config, ConfigError, read_config};
use iter_contract::SortedSource;
use std::alloc::Global;

const DOCUMENT: &[u8] = b"
[[iterator]]
name = 'newest'
priority = 40
kind = 'versions'
max = 1
scopes = ['scan', 'minc']

[[iterator]]
name = 'hidden'
priority = 10
kind = 'family'
families = ['x']
negate = true
scopes = ['scan', 'minc', 'majc']

[[iterator]]
name = 'counts'
priority = 20
kind = 'sum'
encoding = 'string'
columns = ['s']
deletes = 'full'
scopes = ['scan', 'minc', 'majc']

[[iterator]]
name = 'arrays'
priority = 30
kind = 'array_sum'
encoding = 'string'
columns = ['a']
scopes = ['scan', 'minc', 'majc']

[[iterator]]
name = 'dropped'
priority = 50
kind = 'grep'
needle = 'new'
negate = true
scopes = ['scan']
";

pub(crate) fn config(alloc: Global) -> Result<Config, ConfigError> {
    read_config(alloc, DOCUMENT)
}

/// An entry: row, family, time, whether it is a marker, and value.
pub(crate) type Cell = (&'static [u8], &'static [u8], i64, bool, &'static [u8]);

fn is_cell(entry: EntryRef<'_>, cell: &Cell) -> bool {
    let (row, family, time, deleted, value) = *cell;
    let key = entry.key;
    key.row == row
        && key.family == family
        && key.time == time
        && key.deleted == deleted
        && entry.value == value
}

fn begins_with<S: SortedSource>(source: &S, cell: &Cell) -> bool
    requires { S.valid source.now }
    ensures { result ≡ true → 0 < length (S.rest source.now) }
{
    match source.top() {
        Some(entry) => is_cell(entry, cell),
        None => false,
    }
}

fn walks_to_its_end<S: SortedSource>(source: &mut S) -> Result<bool, NoMemory>
    requires { S.valid source.old }
{
    source.seek(&ALL_KEYS)?;
    walk_to_end(source)?;
    Ok(source.top().is_none())
}

/// Whether a source has these entries and no others, and a walk comes to its end.
pub(crate) fn has<S: SortedSource>(source: &mut S, cells: &[Cell]) -> Result<bool, NoMemory>
    requires { S.valid source.old }
{
    source.seek(&ALL_KEYS)?;
    for cell in cells {
        if !begins_with(source, cell) {
            return Ok(false);
        }
        source.next()?;
    }
    if source.top().is_some() {
        return Ok(false);
    }
    walks_to_its_end(source)
}

/// Whether a copy of a source has these entries and no others.
pub(crate) fn copy_has<S: SortedSource>(
    alloc: Global,
    source: &S,
    cells: &[Cell],
) -> Result<bool, NoMemory>
    requires { S.valid source.now }
{
    let mut copy = source.deep_copy(alloc)?;
    has(&mut copy, cells)
}

/// Whether an entry may be in a store under a configuration.
fn is_storable(config: &Config, entry: EntryRef<'_>) -> bool
    ensures { result ≡ true → IsStorable (rules_of config.now) (cell_of entry.entry) }
{
    let key = entry.key;
    if key.deleted {
        entry.value.is_empty() && !config.refuses_delete(key.family, key.qualifier)
    } else {
        entry.value.len() <= 65536 && config.reads(key.family, key.qualifier, entry.value)
    }
}

/// Whether all entries of a source may be.
pub(crate) fn are_storable<S: SortedSource>(
    config: &Config,
    source: &mut S,
) -> Result<bool, NoMemory>
    requires { S.valid source.old }
    ensures valid { S.valid source.new }
    ensures cells { S.cells source.new ≡ S.cells source.old }
    ensures all { IfOk result (λ b. b ≡ true → AreStorable (rules_of config.now) (S.cells source.old)) }
{
    source.seek(&ALL_KEYS)?;
    while let Some(entry) = source.top() {
        if !is_storable(config, entry) {
            return Ok(false);
        }
        source.next()?;
    }
    Ok(true)
}
