//! Keys and their order.
use crate::fixtures::{has_parts, row_key};
use cell_key::{Key, KeyError, KeyRef, Part, compare, same_column};
use std::alloc::Global;

fn is_out(
    alloc: Global,
    row: &[u8],
    family: &[u8],
    qualifier: &[u8],
    visibility: &[u8],
    part: Part,
) -> bool {
    match Key::new(alloc, row, family, qualifier, visibility, 0, false) {
        Err(KeyError::Bound(found)) => found == part,
        _ => false,
    }
}

#[test]
fn keys_are_bounded(rt: HostRuntime) {
    let longest: &[u8] = &[b'x'; 1024];
    let long: &[u8] = &[b'x'; 1025];
    assert!(rt; is_out(rt.alloc(), b"", long, b"", b"", Part::Row));
    assert!(rt; is_out(rt.alloc(), long, b"", long, b"", Part::Row));
    assert!(rt; is_out(rt.alloc(), b"r", long, long, b"", Part::Family));
    assert!(rt; is_out(rt.alloc(), b"r", longest, long, long, Part::Qualifier));
    assert!(rt; is_out(rt.alloc(), b"r", b"", b"", long, Part::Visibility));
    assert!(rt;
        is_out(
            rt.alloc(),
            longest,
            longest,
            longest,
            long,
            Part::Visibility
        )
    );
}

/// A copy of a key with this row and qualifier.
fn copied(alloc: Global, longest: &[u8]) -> Result<Key, KeyError> {
    let key = Key::new(alloc, longest, b"f", longest, b"v", -1, true)?;
    let copy = Key::of(alloc, key.key())?;
    Ok(copy)
}

fn is_copied(copy: KeyRef<'_>, longest: &[u8]) -> bool {
    has_parts(copy, longest, b"f", longest, b"v") && copy.time == -1 && copy.deleted
}

#[test]
fn a_longest_key_is_copied(rt: HostRuntime) -> Result<(), KeyError> {
    let longest: &[u8] = &[b'x'; 1024];
    let copy = copied(rt.alloc(), longest)?;
    assert!(rt; is_copied(copy.key(), longest));
    Ok(())
}

/// Whether two keys are in the order of their places, of which the first four are of one column.
fn are_at(a: KeyRef<'_>, b: KeyRef<'_>, i: usize, j: usize) -> bool {
    compare(a, b) == i.cmp(&j) && same_column(a, b) == (i == j || (i < 4 && j < 4))
}

#[test]
fn keys_are_in_order(rt: HostRuntime) {
    // Bytes are unsigned, a prefix is first, the newest is first, and of one time the deleted.
    let ascending = [
        row_key(b"\x7f", 1, false),
        row_key(b"\x7f", 0, false),
        row_key(b"\x7f", -1, true),
        row_key(b"\x7f", -1, false),
        row_key(b"\x7f\x00", 9, true),
        row_key(b"\x80", 0, true),
    ];
    for i in 0..6 {
        for j in 0..6 {
            assert!(rt; are_at(ascending[i], ascending[j], i, j), "{i} and {j}");
        }
    }
}
