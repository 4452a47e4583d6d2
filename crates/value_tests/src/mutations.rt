//! Mutations.
use cell_key::{ByteText, Mutation, NoMemory, Update, Updates};
use std::alloc::Global;

fn update(alloc: Global, qualifier: &[u8], value: Option<ByteText>) -> Result<Update, NoMemory> {
    Ok(Update {
        family: ByteText::of(alloc, b"f")?,
        qualifier: ByteText::of(alloc, qualifier)?,
        visibility: ByteText::new(alloc),
        time: None,
        value,
    })
}

fn put(alloc: Global, qualifier: &[u8], value: &[u8]) -> Result<Update, NoMemory> {
    let value = ByteText::of(alloc, value)?;
    update(alloc, qualifier, Some(value))
}

/// A put, and behind it the update.
fn behind_first(alloc: Global, second: Update) -> Result<Updates, NoMemory> {
    let mut updates = Updates::new(alloc);
    updates.push(put(alloc, b"first", b"1")?)?;
    updates.push(second)?;
    Ok(updates)
}

fn mutation(
    alloc: Global,
    row: &[u8],
    qualifier: &[u8],
    value: &[u8],
) -> Result<Mutation, NoMemory> {
    let row = ByteText::of(alloc, row)?;
    let updates = behind_first(alloc, put(alloc, qualifier, value)?)?;
    Ok(Mutation { row, updates })
}

fn deletion(alloc: Global) -> Result<Mutation, NoMemory> {
    let row = ByteText::of(alloc, b"r")?;
    let updates = behind_first(alloc, update(alloc, b"q", None)?)?;
    Ok(Mutation { row, updates })
}

/// Whether the mutation of these is that of row r, qualifier q and value 2.
fn is_own(alloc: Global, row: &[u8], qualifier: &[u8], value: &[u8]) -> Result<bool, NoMemory> {
    let own = mutation(alloc, b"r", b"q", b"2")?;
    let other = mutation(alloc, row, qualifier, value)?;
    Ok(own.same(&other))
}

#[test]
fn mutations_are_told_apart(rt: HostRuntime) -> Result<(), NoMemory> {
    let others: [(&[u8], &[u8], &[u8], bool); 4] = [
        (b"r", b"q", b"2", true),
        (b"s", b"q", b"2", false),
        (b"r", b"p", b"2", false),
        (b"r", b"q", b"3", false),
    ];
    for (i, (row, qualifier, value, same)) in others.iter().enumerate() {
        assert!(rt; is_own(rt.alloc(), row, qualifier, value)? == *same, "{i}");
    }
    Ok(())
}

fn is_deleted(alloc: Global) -> Result<bool, NoMemory> {
    let own = mutation(alloc, b"r", b"q", b"2")?;
    let delete = deletion(alloc)?;
    Ok(own.same(&delete))
}

#[test]
fn a_delete_is_no_put(rt: HostRuntime) -> Result<(), NoMemory> {
    assert!(rt; !is_deleted(rt.alloc())?);
    Ok(())
}

/// A mutation whose second put has a time of its own.
fn timed(alloc: Global, time: i64) -> Result<Mutation, NoMemory> {
    let row = ByteText::of(alloc, b"r")?;
    let put = put(alloc, b"q", b"2")?;
    let updates = behind_first(
        alloc,
        Update {
            time: Some(time),
            ..put
        },
    )?;
    Ok(Mutation { row, updates })
}

/// Whether mutations whose second puts have the times 7 and `time` are equal, and neither is the one without.
fn has_time_7(alloc: Global, time: i64) -> Result<bool, NoMemory> {
    let own = timed(alloc, 7)?;
    let other = timed(alloc, time)?;
    let plain = mutation(alloc, b"r", b"q", b"2")?;
    Ok(own.same(&other) && !own.same(&plain) && !plain.same(&other))
}

#[test]
fn times_are_told_apart(rt: HostRuntime) -> Result<(), NoMemory> {
    assert!(rt; has_time_7(rt.alloc(), 7)?);
    assert!(rt; !has_time_7(rt.alloc(), -7)?);
    Ok(())
}

fn is_copied(alloc: Global, own: &Mutation) -> Result<bool, NoMemory> {
    let copy = own.copy(alloc)?;
    Ok(own.same(&copy))
}

fn put_is_copied(alloc: Global) -> Result<bool, NoMemory> {
    let own = mutation(alloc, b"r", b"q", b"2")?;
    is_copied(alloc, &own)
}

fn timed_put_is_copied(alloc: Global) -> Result<bool, NoMemory> {
    let own = timed(alloc, i64::MIN)?;
    is_copied(alloc, &own)
}

fn delete_is_copied(alloc: Global) -> Result<bool, NoMemory> {
    let own = deletion(alloc)?;
    is_copied(alloc, &own)
}

#[test]
fn mutations_are_copied(rt: HostRuntime) -> Result<(), NoMemory> {
    assert!(rt; put_is_copied(rt.alloc())?);
    assert!(rt; timed_put_is_copied(rt.alloc())?);
    assert!(rt; delete_is_copied(rt.alloc())?);
    Ok(())
}
