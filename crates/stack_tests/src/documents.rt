//! Stacks that show documents and rows.
use crate::fixtures::Cell;
use crate::stacks::scans;
use iter_config::{Config, ConfigError, read_config};
use std::alloc::Global;
use std::test::Fail;

const DOCUMENT: &[u8] = b"
[[iterator]]
name = 'rows'
priority = 2
kind = 'whole_row'
scopes = ['scan']

[[iterator]]
name = 'search'
priority = 1
kind = 'intersecting'
terms = ['s', 'a']
not = ['y']
scopes = ['scan']
";

fn config(alloc: Global) -> Result<Config, ConfigError> {
    read_config(alloc, DOCUMENT)
}

/// The row whose document has both terms, with the text of its one entry: no family, the qualifier q, the greatest time, no value.
const FOUND: &[Cell] = &[(
    b"1",
    b"",
    i64::MAX,
    false,
    b"\x00\x00\x00\x00\x00\x00\x00\x01\x00\x00\x00\x01q\x00\x00\x7f\xff\xff\xff\xff\xff\xff\xff\x00\x00\x00\x00\x00\x00\x00\x00",
)];

#[test]
fn documents_are_found_and_shown_by_rows(rt: HostRuntime) -> Result<(), Fail> {
    let config = config(rt.alloc())?;
    assert!(rt; scans(rt.alloc(), &config, FOUND)?);
    Ok(())
}
