//! A column that is kept in memory reserved beforehand.
ghost use Rattle.std.specs.Prelude.{◌≡◌, ◌≤◌, ◌+◌, ◌++◌, length, IfOk, IsSome, Some, None, vec_capacity};
ghost use Rattle.cell_key.specs.Views.{key_of};
ghost use Rattle.tablet_model.specs.Cell.{column_of};
ghost use Rattle.tablet_model.specs.Columns.{key_at, is_column};

use crate::key::MAX_KEY_PART;
use crate::key_ref::KeyRef;
use crate::no_memory::NoMemory;
use crate::order::same_column;
use std::alloc::Global;
use std::marker::Model;

/// A column or none yet, in 4,096 bytes that are reserved when it is made.
#[derive(Drop)]
pub struct ColumnBuf {
    /// The row, the family, the qualifier and the visibility, one behind the other.
    bytes: Vec<u8>,
    /// Where the row, the family and the qualifier end.
    row: usize,
    family: usize,
    qualifier: usize,
    is_set: bool,
}

impl Model for ColumnBuf {
    ghost use Rattle.std.specs.Prelude.{Option};
    ghost use Rattle.tablet_model.specs.Cell.{Column};

    ghost Value = { Option Column };

    ghost use Rattle.cell_key.specs.ColumnParts.{kept_column, IsReserved};

    ghost view = { kept_column };

    ghost invariant = { IsReserved };
}

impl ColumnBuf {
    /// No column yet.
    pub fn new(alloc: Global) -> Result<ColumnBuf, NoMemory>
        ensures { IfOk result (λ c. c ≡ None) }
    {
        let bytes = Vec::with_capacity(alloc, 4 * MAX_KEY_PART)?;
        Ok(ColumnBuf {
            bytes,
            row: 0,
            family: 0,
            qualifier: 0,
            is_set: false,
        })
    }

    /// Keeps the key's column. It takes no memory.
    pub fn set(&mut self, key: KeyRef<'_>)
        ensures { self.new ≡ Some (column_of (key_of key.entry)) }
    {
        self.bytes.clear();
        append_reserved(&mut self.bytes, key.row);
        append_reserved(&mut self.bytes, key.family);
        append_reserved(&mut self.bytes, key.qualifier);
        append_reserved(&mut self.bytes, key.visibility);
        self.row = key.row.len();
        self.family = self.row + key.family.len();
        self.qualifier = self.family + key.qualifier.len();
        self.is_set = true;
    }

    /// The kept column with this time and flag. It takes no memory.
    pub fn key(&self, time: i64, deleted: bool) -> KeyRef<'_>
        requires { IsSome self.now }
        ensures { Some (key_of result) ≡ key_at self.now time deleted }
    {
        KeyRef {
            row: &self.bytes[..self.row],
            family: &self.bytes[self.row..self.family],
            qualifier: &self.bytes[self.family..self.qualifier],
            visibility: &self.bytes[self.qualifier..],
            time,
            deleted,
        }
    }

    /// Whether it keeps the key's column. It takes no memory.
    pub fn holds(&self, key: KeyRef<'_>) -> bool
        ensures { result ≡ is_column self.now (column_of (key_of key.entry)) }
    {
        self.is_set && same_column(self.key(0, false), key)
    }
}

/// Appends bytes for which there is room.
pub(crate) fn append_reserved(to: &mut Vec<u8>, bytes: &[u8])
    requires { length to.old.items + length bytes.now ≤ vec_capacity to.old }
    ensures items { to.new.items ≡ to.old.items ++ bytes.now }
    ensures capacity { vec_capacity to.old ≤ vec_capacity to.new }
{
    to.extend_from_slice(bytes).unwrap();
}
