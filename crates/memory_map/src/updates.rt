//! The entries that a mutation adds.
ghost use Rattle.std.specs.Prelude.{◌≡◌, ◌++◌, None, IfOk, OnOk};
ghost use Rattle.tablet_model.specs.Bounds.{KeyBounds};
ghost use Rattle.tablet_model.specs.History.{entries_of, entry_of};
ghost use Rattle.tablet_model.specs.Ingest.{out_of_bounds};
ghost use Rattle.cell_key.specs.Mutations.{change_of, row_change_of};
ghost use Rattle.cell_key.specs.Views.{cell_of};

use cell_key::{Entries, Entry, EntryRef, KeyRef, Mutation, NoMemory, Update};
use std::alloc::Global;

/// The entries of a mutation at a time, update by update; a put with a time of its own keeps that. It takes memory.
pub fn mutation_entries(alloc: Global, mutation: &Mutation, time: i64) -> Result<Entries, NoMemory>
    requires { out_of_bounds (row_change_of mutation.now) ≡ None }
    ensures { IfOk result (λ entries. entries ≡ entries_of time (row_change_of mutation.now)) }
{
    let mut entries = Entries::with_capacity(alloc, mutation.updates.len())?;
    append_mutation(alloc, &mut entries, mutation, time)?;
    Ok(entries)
}

/// Puts the entries of a mutation at a time at the end of a list, unsorted. Without memory some of them may stand there.
fn append_mutation(
    alloc: Global,
    entries: &mut Entries,
    mutation: &Mutation,
    time: i64,
) -> Result<(), NoMemory>
    requires { out_of_bounds (row_change_of mutation.now) ≡ None }
    ensures { OnOk result (entries.new ≡ entries.old ++ entries_of time (row_change_of mutation.now)) }
{
    for update in mutation.updates.as_slice() {
        let entry = Entry::of(alloc, entry_of(mutation.row.bytes(), time, update))?;
        entries.push(entry)?;
    }
    Ok(())
}

/// The entry of an update, at its own time or else at this one. A delete gives a marker, whose value is empty.
fn entry_of<'a>(row: &'a [u8], time: i64, update: &'a Update) -> EntryRef<'a>
    requires { KeyBounds row.now update.now.family update.now.qualifier update.now.visibility }
    ensures { cell_of result ≡ entry_of row.now time (change_of update.now) }
{
    let (value, deleted): (&[u8], bool) = match &update.value {
        Some(value) => (value.bytes(), false),
        None => (&[], true),
    };
    EntryRef {
        key: KeyRef {
            row,
            family: update.family.bytes(),
            qualifier: update.qualifier.bytes(),
            visibility: update.visibility.bytes(),
            time: update.time.unwrap_or(time),
            deleted,
        },
        value,
    }
}
