//! Whether the entries of two mutations say the same.
ghost use Rattle.std.specs.Prelude.{◌≡◌, ◌↔◌, IsTrue, map};
ghost use Rattle.cell_key.specs.Views.{cell_of};
ghost use Rattle.tablet_view.specs.LogParts.{change_in, mutation_in, own_time_in, row_in, value_in};

use cell_key::{Entry, EntryRef};
use iter_config::Config;

/// Whether the entries of two mutations say the same under a configuration, whatever the times that the tablet gave. It takes
/// no memory.
pub(crate) fn same_mutation(config: &Config, a: &[Entry], b: &[Entry]) -> bool
    ensures { IsTrue result ↔ (mutation_in config.now a.now ≡ mutation_in config.now b.now) }
{
    row_in(a) == row_in(b) && same_changes(config, a, b)
}

/// The row of the first entry.
fn row_in(entries: &[Entry]) -> &[u8]
    ensures { result.now ≡ row_in entries.now }
{
    match entries.first() {
        Some(entry) => entry.entry().key.row,
        None => &[],
    }
}

fn same_changes(config: &Config, a: &[Entry], b: &[Entry]) -> bool
    ensures { IsTrue result ↔ (map (change_in config.now) a.now ≡ map (change_in config.now) b.now) }
{
    if a.len() != b.len() {
        return false;
    }
    for i in 0..a.len() {
        if !same_change(config, a[i].entry(), b[i].entry()) {
            return false;
        }
    }
    true
}

fn same_change(config: &Config, a: EntryRef<'_>, b: EntryRef<'_>) -> bool
    ensures { IsTrue result ↔ (change_in config.now (cell_of a.entry) ≡ change_in config.now (cell_of b.entry)) }
{
    a.key.family == b.key.family
        && a.key.qualifier == b.key.qualifier
        && a.key.visibility == b.key.visibility
        && own_time(config, a) == own_time(config, b)
        && has_value_of(a, b)
}

/// The time that an entry's put brought.
fn own_time(config: &Config, entry: EntryRef<'_>) -> Option<i64>
    ensures { result ≡ own_time_in config.now (cell_of entry.entry) }
{
    if config.is_timed(entry.key.family) {
        Some(entry.key.time)
    } else {
        None
    }
}

fn has_value_of(a: EntryRef<'_>, b: EntryRef<'_>) -> bool
    ensures { IsTrue result ↔ (value_in (cell_of a.entry) ≡ value_in (cell_of b.entry)) }
{
    match (a.key.deleted, b.key.deleted) {
        (false, false) => a.value == b.value,
        (true, true) => true,
        (_, _) => false,
    }
}
