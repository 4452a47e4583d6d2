//! What the tests of this floor share.
ghost use Rattle.std.specs.Prelude.{◌<◌, ◌≤◌, length};

use cell_key::KeyRef;

/// A key of the column of a row and the family `f`.
pub(crate) fn row_key(row: &[u8], time: i64, deleted: bool) -> KeyRef<'_>
    requires some { 0 < length row.now }
    requires few { length row.now ≤ 1024 }
{
    KeyRef {
        row,
        family: b"f",
        qualifier: b"",
        visibility: b"",
        time,
        deleted,
    }
}

/// Whether the parts of a key are these.
pub(crate) fn has_parts(
    key: KeyRef<'_>,
    row: &[u8],
    family: &[u8],
    qualifier: &[u8],
    visibility: &[u8],
) -> bool {
    key.row == row
        && key.family == family
        && key.qualifier == qualifier
        && key.visibility == visibility
}
