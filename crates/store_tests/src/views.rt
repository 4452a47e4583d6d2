//! Snapshots.
use crate::fixtures::{Cell, Change, are_cells, config, has, mutation};
use cell_key::{ByteText, Families, Names, NoMemory};
use compactor::ALL_KEYS;
use ingest::Refused;
use iter_config::ConfigError;
use scan_session::{Fetched, Session, Still};
use std::alloc::Global;
use std::sync::Arc;
use std::test::Fail;
use tablet_view::{ApplyError, View};

pub(crate) fn opened(alloc: Global) -> Result<View, ConfigError> {
    let config = config(alloc)?;
    Ok(View::open(alloc, config)?)
}

/// The view where a mutation of a row came in. There are few steps.
pub(crate) fn grown(
    alloc: Global,
    view: &View,
    row: u8,
    changes: &[Change],
) -> Result<View, ApplyError> {
    if view.version() > 9 {
        return Err(ApplyError::NoMemory);
    }
    let mutation = mutation(alloc, row, changes)?;
    view.apply(alloc, &mutation)
}

/// A view with two mutations in memory.
fn grown_twice(alloc: Global) -> Result<View, Fail> {
    let view = opened(alloc)?;
    let view = grown(
        alloc,
        &view,
        b'r',
        &[(b's', Some(b'1')), (b't', Some(b'1'))],
    )?;
    Ok(grown(alloc, &view, b'r', &[(b's', Some(b'2')), (b'v', None)])?)
}

/// The view where the memory is frozen.
fn frozen(alloc: Global, view: &View) -> Result<View, Fail> {
    if view.version() > 9 || view.frozen_count().is_some() {
        return Err("the memory may not be frozen".into());
    }
    Ok(view.freeze(alloc)?)
}

const TWICE: &[Cell] = &[
    (b'r', b's', 2, false, b"2"),
    (b'r', b's', 1, false, b"1"),
    (b'r', b't', 1, false, b"1"),
    (b'r', b'v', 2, true, b""),
];

/// Whether a source of a view's entries in some families has these.
pub(crate) fn source_has(
    alloc: Global,
    view: &View,
    families: &Families,
    cells: &[Cell],
) -> Result<bool, NoMemory> {
    let source = view.source(alloc, families)?;
    has(alloc, &source, cells)
}

/// A session over some families of a view.
pub(crate) fn session(
    alloc: Global,
    view: &Arc<View>,
    families: &Families,
    isolated: bool,
) -> Result<Session, NoMemory> {
    let view = Arc::try_clone(view)?;
    Session::open(alloc, &ALL_KEYS, families, isolated, view)
}

/// Whether a fetch gave these entries, in one piece, or no piece where there are none.
fn fetched_has(fetched: &Fetched, cells: &[Cell]) -> bool {
    for piece in fetched.pieces.as_slice() {
        if !are_cells(&piece.entries, cells) {
            return false;
        }
    }
    fetched.pieces.is_empty() == cells.is_empty()
}

/// Whether a scan of some families of a view gives these entries.
pub(crate) fn scan_gives(
    alloc: Global,
    view: &Arc<View>,
    families: &Families,
    cells: &[Cell],
) -> Result<bool, NoMemory> {
    let mut session = session(alloc, view, families, false)?;
    let mut views = Still::new();
    let fetched = session.fetch(alloc, &mut views, 64)?;
    Ok(fetched_has(&fetched, cells))
}

fn is_in_memory(view: &View) -> bool {
    view.mutations() == 2
        && view.version() == 2
        && view.memory_count() == 4
        && view.frozen_count().is_none()
        && view.file_count() == 0
}

#[test]
fn mutations_come_in(rt: HostRuntime) -> Result<(), Fail> {
    let view = grown_twice(rt.alloc())?;
    assert!(rt; is_in_memory(&view) && source_has(rt.alloc(), &view, &Families::all(), TWICE)?);
    Ok(())
}

fn is_frozen(view: &View) -> bool {
    view.mutations() == 2
        && view.version() == 3
        && view.memory_count() == 0
        && view.frozen_count() == Some(4)
}

fn frozen_part_has(alloc: Global, view: &View, cells: &[Cell]) -> Result<bool, NoMemory> {
    if view.frozen_count().is_none() {
        return Ok(false);
    }
    let cursor = view.frozen_cursor(alloc)?;
    has(alloc, &cursor, cells)
}

fn frozen_twice(alloc: Global) -> Result<View, Fail> {
    let view = grown_twice(alloc)?;
    frozen(alloc, &view)
}

#[test]
fn memory_is_frozen(rt: HostRuntime) -> Result<(), Fail> {
    let view = frozen_twice(rt.alloc())?;
    assert!(rt; is_frozen(&view) && frozen_part_has(rt.alloc(), &view, TWICE)?);
    Ok(())
}

/// Whether a view continues the other's log, and by as much as is said.
fn continues(view: &View, other: &View, is_longer: bool) -> bool {
    view.begins_with(other) && other.begins_with(view) != is_longer
}

#[test]
fn longer_logs_begin_with_shorter_ones(rt: HostRuntime) -> Result<(), Fail> {
    let view = opened(rt.alloc())?;
    let longer = grown(rt.alloc(), &view, b'r', &[(b's', Some(b'1'))])?;
    assert!(rt; continues(&longer, &view, true));
    Ok(())
}

/// Whether views of no mutation, one, two and three have these runs.
fn have_log_runs(alloc: Global, runs: [u32; 4]) -> Result<bool, Fail> {
    let none = opened(alloc)?;
    let one = grown(alloc, &none, b'r', &[(b's', Some(b'1'))])?;
    let two = grown(alloc, &one, b's', &[(b's', Some(b'1'))])?;
    let three = grown(alloc, &two, b'r', &[(b's', Some(b'1'))])?;
    Ok(
        [
            none.log_runs(),
            one.log_runs(),
            two.log_runs(),
            three.log_runs(),
        ] == runs,
    )
}

#[test]
fn runs_of_a_log_join(rt: HostRuntime) -> Result<(), Fail> {
    assert!(rt; have_log_runs(rt.alloc(), [0, 1, 1, 2])?);
    Ok(())
}

#[test]
fn a_frozen_view_has_the_same_log(rt: HostRuntime) -> Result<(), Fail> {
    let view = grown_twice(rt.alloc())?;
    let frozen = frozen(rt.alloc(), &view)?;
    assert!(rt; continues(&frozen, &view, false));
    Ok(())
}

fn names(alloc: Global) -> Result<Names, NoMemory> {
    let mut names = Names::new(alloc);
    names.push(ByteText::of(alloc, b"x")?)?;
    names.push(ByteText::of(alloc, b"t")?)?;
    Ok(names)
}

fn families(alloc: Global) -> Result<Families, NoMemory> {
    let names = names(alloc)?;
    if names.is_empty() || names.len() > 64 {
        return Ok(Families::all());
    }
    Families::of(alloc, names.as_slice())
}

/// Whether a source and a scan of the families `x` and `t` have these entries.
fn chosen_families_have(alloc: Global, view: &Arc<View>, cells: &[Cell]) -> Result<bool, NoMemory> {
    let families = families(alloc)?;
    Ok(source_has(alloc, view, &families, cells)? && scan_gives(alloc, view, &families, cells)?)
}

#[test]
fn sources_have_the_chosen_families(rt: HostRuntime) -> Result<(), Fail> {
    let view = Arc::new(rt.alloc(), grown_twice(rt.alloc())?)?;
    assert!(rt; chosen_families_have(rt.alloc(), &view, &[(b'r', b't', 1, false, b"1")])?);
    Ok(())
}

#[test]
fn refused_mutations_are_told(rt: HostRuntime) -> Result<(), Fail> {
    let view = opened(rt.alloc())?;
    let refused = grown(
        rt.alloc(),
        &view,
        b'r',
        &[(b's', Some(b'1')), (b's', Some(b'2'))],
    )
    .err();
    assert!(rt; refused == Some(ApplyError::Refused(Refused::Duplicate { at: 2 })));
    Ok(())
}
