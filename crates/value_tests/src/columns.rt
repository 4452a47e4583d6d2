//! Kept columns and names of columns.
ghost use Rattle.std.specs.Prelude.{◌≡◌, ◌++◌, ◌∷◌, [], OnOk};

use crate::fixtures::has_parts;
use cell_key::{ByteText, ColumnBuf, ColumnName, Columns, Families, KeyRef, Names, NoMemory};
use std::alloc::Global;

fn first_column() -> KeyRef<'static> {
    KeyRef {
        row: b"r",
        family: b"fa",
        qualifier: b"q",
        visibility: b"v",
        time: 1,
        deleted: false,
    }
}

fn second_column() -> KeyRef<'static> {
    KeyRef {
        row: b"r",
        family: b"f",
        qualifier: b"aq",
        visibility: b"v",
        time: 2,
        deleted: true,
    }
}

/// Keeps a key's column, and says whether it is that of the key and not of the other.
fn keeps_column(column: &mut ColumnBuf, key: KeyRef<'_>, other: KeyRef<'_>) -> bool {
    column.set(key);
    column.holds(key) && !column.holds(other)
}

fn gives_column(column: &mut ColumnBuf) -> bool {
    column.set(second_column());
    let key = column.key(i64::MIN, true);
    has_parts(key, b"r", b"f", b"aq", b"v") && key.time == i64::MIN && key.deleted
}

#[test]
fn a_column_is_kept(rt: HostRuntime) -> Result<(), NoMemory> {
    let mut column = ColumnBuf::new(rt.alloc())?;
    assert!(rt; !column.holds(first_column()), "before the first set");
    assert!(rt; keeps_column(&mut column, first_column(), second_column()));
    assert!(rt; keeps_column(&mut column, second_column(), first_column()));
    assert!(rt; gives_column(&mut column));
    Ok(())
}

fn push_name(names: &mut Names, alloc: Global, name: &[u8]) -> Result<(), NoMemory>
    ensures { OnOk result (names.new ≡ names.old ++ name.now ∷ []) }
{
    let name = ByteText::of(alloc, name)?;
    names.push(name)
}

fn families(alloc: Global) -> Result<Families, NoMemory> {
    let mut names = Names::new(alloc);
    push_name(&mut names, alloc, b"")?;
    push_name(&mut names, alloc, b"f")?;
    Families::of(alloc, names.as_slice())
}

fn some_families(alloc: Global) -> Result<Families, NoMemory> {
    let some = families(alloc)?;
    some.copy(alloc)
}

fn are_some(families: &Families) -> bool {
    families.has(b"") && families.has(b"f") && !families.has(b"ff") && !families.has(b"g")
}

#[test]
fn families_are_some(rt: HostRuntime) -> Result<(), NoMemory> {
    let some = some_families(rt.alloc())?;
    assert!(rt; are_some(&some));
    Ok(())
}

fn all_families(alloc: Global) -> Result<Families, NoMemory> {
    let all = Families::all();
    all.copy(alloc)
}

fn are_all(families: &Families) -> bool {
    families.has(b"") && families.has(b"f") && families.has(b"ff") && families.has(b"g")
}

#[test]
fn families_are_all(rt: HostRuntime) -> Result<(), NoMemory> {
    let all = all_families(rt.alloc())?;
    assert!(rt; are_all(&all));
    Ok(())
}

fn name_column(
    columns: &mut Columns,
    alloc: Global,
    family: &[u8],
    qualifier: Option<ByteText>,
) -> Result<(), NoMemory> {
    let family = ByteText::of(alloc, family)?;
    columns.push(ColumnName { family, qualifier })
}

fn listed_columns(alloc: Global) -> Result<Columns, NoMemory> {
    let mut columns = Columns::new(alloc);
    name_column(&mut columns, alloc, b"f", None)?;
    let qualifier = ByteText::of(alloc, b"q")?;
    name_column(&mut columns, alloc, b"g", Some(qualifier))?;
    columns.copy(alloc)
}

fn are_listed(columns: &Columns) -> bool {
    columns.lists(b"f", b"")
        && columns.lists(b"f", b"q")
        && columns.lists(b"g", b"q")
        && !columns.lists(b"g", b"")
        && !columns.lists(b"q", b"f")
}

#[test]
fn columns_are_listed_by_their_names(rt: HostRuntime) -> Result<(), NoMemory> {
    let columns = listed_columns(rt.alloc())?;
    assert!(rt; are_listed(&columns));
    Ok(())
}
