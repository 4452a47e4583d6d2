//! What the tests of these floors share.
use cell_key::{ByteText, Mutation, Mutations, NoMemory, Update, Updates};
use iter_config::{Config, ConfigError, read_config};
use std::alloc::Global;
use std::sync::Arc;

/// The configuration without iterators.
pub(crate) fn config(alloc: Global) -> Result<Arc<Config>, ConfigError> {
    let config = read_config(alloc, b"")?;
    Ok(Arc::new(alloc, config)?)
}

fn update(alloc: Global) -> Result<Update, NoMemory> {
    Ok(Update {
        family: ByteText::of(alloc, b"a")?,
        qualifier: ByteText::new(alloc),
        visibility: ByteText::new(alloc),
        time: None,
        value: Some(ByteText::of(alloc, b"1")?),
    })
}

/// The mutation that puts 1 in the family `a` of a row.
pub(crate) fn put(alloc: Global, row: u8) -> Result<Mutation, NoMemory> {
    let mut updates = Updates::new(alloc);
    updates.push(update(alloc)?)?;
    Ok(Mutation {
        row: ByteText::of(alloc, &[row])?,
        updates,
    })
}

/// Such mutations of these rows.
pub(crate) fn puts(alloc: Global, rows: &[u8]) -> Result<Mutations, NoMemory> {
    let mut mutations = Mutations::new(alloc);
    for row in rows {
        mutations.push(put(alloc, *row)?)?;
    }
    Ok(mutations)
}
