//! What the tests of these floors share.
ghost use Rattle.std.specs.Prelude.{◌≡◌, ◌<◌, true, length};

use cell_key::{ByteText, Entries, EntryRef, Mutation, NoMemory, Update, Updates};
use compactor::ALL_KEYS;
use iter_config::{Config, ConfigError, read_config};
use iter_contract::SortedSource;
use std::alloc::Global;
use std::sync::Arc;

const DOCUMENT: &[u8] = b"
[[iterator]]
name = 'counts'
priority = 10
kind = 'sum'
encoding = 'string'
columns = ['s']
deletes = 'full'
scopes = ['scan', 'minc', 'majc']
";

pub(crate) fn config(alloc: Global) -> Result<Arc<Config>, ConfigError> {
    let config = read_config(alloc, DOCUMENT)?;
    Ok(Arc::new(alloc, config)?)
}

/// A change of a column `FAMILY::`: a put of a value of one byte, or a delete.
pub(crate) type Change = (u8, Option<u8>);

fn update(alloc: Global, change: &Change) -> Result<Update, NoMemory> {
    let (family, value) = *change;
    let value = match value {
        Some(value) => Some(ByteText::of(alloc, &[value])?),
        None => None,
    };
    Ok(Update {
        family: ByteText::of(alloc, &[family])?,
        qualifier: ByteText::new(alloc),
        visibility: ByteText::new(alloc),
        time: None,
        value,
    })
}

fn updates(alloc: Global, changes: &[Change]) -> Result<Updates, NoMemory> {
    let mut updates = Updates::new(alloc);
    for change in changes {
        updates.push(update(alloc, change)?)?;
    }
    Ok(updates)
}

pub(crate) fn mutation(alloc: Global, row: u8, changes: &[Change]) -> Result<Mutation, NoMemory> {
    let row = ByteText::of(alloc, &[row])?;
    let updates = updates(alloc, changes)?;
    Ok(Mutation { row, updates })
}

/// An entry of the column `FAMILY::`: row, family, time, whether it is a marker, and value.
pub(crate) type Cell = (u8, u8, i64, bool, &'static [u8]);

fn is_cell(entry: EntryRef<'_>, cell: &Cell) -> bool {
    let (row, family, time, deleted, value) = *cell;
    let key = entry.key;
    key.row == [row].as_slice()
        && key.family == [family].as_slice()
        && key.time == time
        && key.deleted == deleted
        && entry.value == value
}

fn begins_with<S: SortedSource>(source: &S, cell: &Cell) -> bool
    requires { S.valid source.now }
    ensures { result ≡ true → 0 < length (S.rest source.now) }
{
    match source.top() {
        Some(entry) => is_cell(entry, cell),
        None => false,
    }
}

/// Whether a list has these entries and no others.
pub(crate) fn are_cells(entries: &Entries, cells: &[Cell]) -> bool {
    if entries.len() != cells.len() {
        return false;
    }
    for (entry, cell) in entries.as_slice().iter().zip(cells) {
        if !is_cell(entry.entry(), cell) {
            return false;
        }
    }
    true
}

/// Whether these entries are left of a source, and no others.
fn has_left<S: SortedSource>(source: &mut S, cells: &[Cell]) -> Result<bool, NoMemory>
    requires { S.valid source.old }
{
    for cell in cells {
        if !begins_with(source, cell) {
            return Ok(false);
        }
        source.next()?;
    }
    Ok(source.top().is_none())
}

/// Whether a copy of a source has these entries and no others.
pub(crate) fn has<S: SortedSource>(
    alloc: Global,
    source: &S,
    cells: &[Cell],
) -> Result<bool, NoMemory>
    requires { S.valid source.now }
{
    let mut copy = source.deep_copy(alloc)?;
    copy.seek(&ALL_KEYS)?;
    has_left(&mut copy, cells)
}
