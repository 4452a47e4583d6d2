//! Texts of rows.
use crate::fixtures::listed;
use cell_key::{ByteText, Entries, KeyError, NoMemory};
use std::alloc::Global;
use whole_row::{RowError, decode_row, encode_row};

/// The text of the entry `a:x: @1 =1` of any row.
const ONE: [u8; 33] = [
    0, 0, 0, 0, 0, 0, 0, 1, 0, 1, b'a', 0, 1, b'x', 0, 0, 0, 0, 0, 0, 0, 0, 0, 1, 0, 0, 0, 0, 0, 0,
    0, 1, b'1',
];

fn one_text(alloc: Global) -> Result<ByteText, KeyError> {
    let entries = listed(alloc, &[(b"r1", b"a", b"x", 1, b"1")])?;
    Ok(encode_row(alloc, &entries)?)
}

#[test]
fn a_row_is_written(rt: HostRuntime) -> Result<(), KeyError> {
    assert!(rt; one_text(rt.alloc())?.bytes() == ONE.as_slice());
    Ok(())
}

fn two_entries(alloc: Global) -> Result<Entries, KeyError> {
    listed(
        alloc,
        &[(b"r1", b"a", b"x", -1, b""), (b"r1", b"", b"y", 2, b"two")],
    )
}

/// Whether the text of entries in their order is read as as many entries, whose last one has this value.
fn comes_back(alloc: Global, entries: &mut Entries, last: &[u8]) -> Result<bool, RowError> {
    entries.sort()?;
    let text = encode_row(alloc, entries)?;
    let read = decode_row(alloc, b"r1", text.bytes())?;
    Ok(
        read.len() == entries.len()
            && read
                .as_slice()
                .last()
                .is_some_and(|entry| entry.entry().value == last),
    )
}

#[test]
fn a_row_is_read_back(rt: HostRuntime) -> Result<(), KeyError> {
    let mut entries = two_entries(rt.alloc())?;
    assert!(rt; comes_back(rt.alloc(), &mut entries, b"") == Ok(true));
    Ok(())
}

/// Whether these bytes are read as the text of a row with the one entry `a:x: @1 =1`, or where they are at fault.
fn reading(alloc: Global, bytes: &[u8]) -> Result<bool, RowError> {
    let read = decode_row(alloc, b"r1", bytes)?;
    Ok(read.len() == 1 && read.get(0).entry().value == b"1".as_slice())
}

/// The bytes with another one at a place.
fn with_byte(place: usize, byte: u8) -> [u8; 33] {
    let mut bytes = ONE;
    if place < bytes.len() {
        bytes[place] = byte;
    }
    bytes
}

#[test]
fn a_fault_is_told_at_its_field(rt: HostRuntime) -> Result<(), RowError> {
    assert!(rt; reading(rt.alloc(), &ONE)?);
    // How many bytes are left of the text, and where it is at fault then.
    let cuts: [(usize, u64); 8] = [
        (32, 32),
        (31, 24),
        (23, 16),
        (15, 14),
        (13, 13),
        (12, 11),
        (10, 10),
        (7, 0),
    ];
    for (length, at) in cuts {
        let cut = reading(rt.alloc(), &ONE[..length]);
        assert!(rt; cut == Err(RowError::Fault { at }), "{length}");
    }
    Ok(())
}

#[test]
fn a_rule_that_is_broken_is_told_at_its_field(rt: HostRuntime) -> Result<(), RowError> {
    // The place of a byte and its value, and where the text is at fault then: a count of 0, a second entry that is not there, and
    // a family and a qualifier of more than 1,024 bytes.
    let changes: [(usize, u8, u64); 4] = [(7, 0, 0), (7, 2, 33), (8, 5, 8), (11, 5, 11)];
    for (place, byte, at) in changes {
        let changed = reading(rt.alloc(), &with_byte(place, byte));
        assert!(rt; changed == Err(RowError::Fault { at }), "{place}");
    }
    Ok(())
}
