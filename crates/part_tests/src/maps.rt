//! Maps in memory and their runs.
ghost use Rattle.std.specs.Prelude.{◌≡◌, None, length, IfOk};
ghost use Rattle.tablet_model.specs.Ingest.{out_of_bounds, too_long};
ghost use Rattle.cell_key.specs.Mutations.{change_of, row_change_of};
ghost use Rattle.cell_key.specs.RowBounds.{HasShortRow};

use crate::fixtures::{leaves, range};
use cell_key::{Bound, ByteText, Mutation, NoMemory, Update, Updates};
use memory_map::MemMap;
use std::alloc::Global;

/// A put of `1` in the column `FAMILY::`, or a delete.
#[tactic(auto, unfolding(tablet_model::specs::Ingest::too_long))]
fn update(alloc: Global, family: &[u8], deletes: bool) -> Result<Update, NoMemory>
    requires { length family.now ≡ 1 }
    ensures { IfOk result (λ u. too_long (change_of u) ≡ None) }
{
    let family = ByteText::of(alloc, family)?;
    let value = if deletes {
        None
    } else {
        Some(ByteText::of(alloc, b"1")?)
    };
    Ok(Update {
        family,
        qualifier: ByteText::new(alloc),
        visibility: ByteText::new(alloc),
        time: None,
        value,
    })
}

/// A put in `b::`, and a delete in `a::`.
#[tactic(auto, unfolding(tablet_model::specs::Ingest::out_of_bounds, tablet_model::specs::Ingest::first_too_long))]
fn mutation(alloc: Global, row: &[u8]) -> Result<Mutation, NoMemory>
    requires { length row.now ≡ 1 }
    ensures { IfOk result (λ m. out_of_bounds (row_change_of m) ≡ None) }
{
    let mut updates = Updates::new(alloc);
    updates.push(update(alloc, b"b", false)?)?;
    updates.push(update(alloc, b"a", true)?)?;
    let row = ByteText::of(alloc, row)?;
    Ok(Mutation { row, updates })
}

/// A map with the mutation of a row as well.
fn added(alloc: Global, map: &MemMap, row: &[u8], time: i64) -> Result<MemMap, NoMemory>
    requires { length row.now ≡ 1 }
{
    let mutation = mutation(alloc, row)?;
    map.insert(alloc, &mutation, time)
}

fn one(alloc: Global) -> Result<MemMap, NoMemory> {
    let empty = MemMap::empty(alloc)?;
    added(alloc, &empty, b"s", 7)
}

fn is_empty(alloc: Global) -> Result<bool, NoMemory> {
    let empty = MemMap::empty(alloc)?;
    Ok(empty.count() == 0)
}

/// Whether a map has so many entries, and these behind a start.
fn holds(
    alloc: Global,
    map: &MemMap,
    count: u64,
    start: Bound<'_>,
    want: &[u8],
) -> Result<bool, NoMemory>
    requires { HasShortRow start }
{
    let cursor = map.cursor(alloc)?;
    let left = leaves(alloc, &cursor, &range(start, Bound::Open), want)?;
    Ok(left && map.count() == count)
}

fn are_added(alloc: Global, one: &MemMap, two: &MemMap) -> Result<bool, NoMemory> {
    Ok(
        holds(alloc, two, 4, Bound::Open, b"ra! rb=1 sa! sb=1 ")?
            && holds(alloc, two, 4, Bound::PastRow(b"r"), b"sa! sb=1 ")?
            && holds(alloc, one, 2, Bound::Open, b"sa! sb=1 ")?,
    )
}

#[test]
fn mutations_are_added(rt: HostRuntime) -> Result<(), NoMemory> {
    let one = one(rt.alloc())?;
    let two = added(rt.alloc(), &one, b"r", i64::MIN)?;
    assert!(rt; are_added(rt.alloc(), &one, &two)?);
    Ok(())
}

#[test]
fn a_new_map_is_empty(rt: HostRuntime) -> Result<(), NoMemory> {
    assert!(rt; is_empty(rt.alloc())?);
    Ok(())
}

/// A map with a put in a row as well.
#[tactic(auto, unfolding(tablet_model::specs::Ingest::out_of_bounds, tablet_model::specs::Ingest::first_too_long))]
fn with_put(alloc: Global, map: &MemMap, row: &[u8]) -> Result<MemMap, NoMemory>
    requires { length row.now ≡ 1 }
{
    let mut updates = Updates::new(alloc);
    updates.push(update(alloc, b"b", false)?)?;
    let row = ByteText::of(alloc, row)?;
    map.insert(alloc, &Mutation { row, updates }, 1)
}

/// A map with one update of the row `r` as well.
#[tactic(auto, unfolding(tablet_model::specs::Ingest::out_of_bounds, tablet_model::specs::Ingest::first_too_long))]
fn with_update(alloc: Global, map: &MemMap, update: Update, time: i64) -> Result<MemMap, NoMemory>
    requires { too_long (change_of update) ≡ None }
{
    let mut updates = Updates::new(alloc);
    updates.push(update)?;
    let row = ByteText::of(alloc, b"r")?;
    map.insert(alloc, &Mutation { row, updates }, time)
}

/// Whether a put at the time 9 of its own is newer than a delete at 7, though it comes in at 1.
#[tactic(auto, unfolding(tablet_model::specs::Ingest::too_long))]
fn own_time_counts(alloc: Global) -> Result<bool, NoMemory> {
    let empty = MemMap::empty(alloc)?;
    let deleted = with_update(alloc, &empty, update(alloc, b"a", true)?, 7)?;
    let put = update(alloc, b"a", false)?;
    let put = Update {
        time: Some(9),
        ..put
    };
    let both = with_update(alloc, &deleted, put, 1)?;
    holds(alloc, &both, 2, Bound::Open, b"ra=1 ra! ")
}

#[test]
fn puts_keep_their_own_times(rt: HostRuntime) -> Result<(), NoMemory> {
    assert!(rt; own_time_counts(rt.alloc())?);
    Ok(())
}

/// Whether maps of no entry, one, two and three have these runs.
fn have_runs(alloc: Global, runs: [u32; 4]) -> Result<bool, NoMemory> {
    let none = MemMap::empty(alloc)?;
    let one = with_put(alloc, &none, b"r")?;
    let two = with_put(alloc, &one, b"s")?;
    let three = with_put(alloc, &two, b"a")?;
    Ok([none.runs(), one.runs(), two.runs(), three.runs()] == runs && three.count() == 3)
}

#[test]
fn runs_of_a_map_join(rt: HostRuntime) -> Result<(), NoMemory> {
    assert!(rt; have_runs(rt.alloc(), [0, 1, 1, 2])?);
    Ok(())
}
