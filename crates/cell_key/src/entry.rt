//! Owned entries, which share their bytes.
ghost use Rattle.std.specs.Prelude.{◌≡◌, IfOk};
ghost use Rattle.cell_key.specs.EntryParts.{joined_parts};
ghost use Rattle.cell_key.specs.Views.{cell_of};
ghost use Rattle.tablet_model.specs.Bounds.{IsEntry};
ghost use Rattle.tablet_model.specs.Order.{cell_cmp};

use crate::key_ref::{EntryRef, KeyRef};
use crate::no_memory::NoMemory;
use crate::order::compare_entries;
use smallvec::SmallVec;
use std::alloc::Global;
use std::cmp::Ordering;
use std::marker::Model;
use std::sync::Arc;

/// Up to 40 bytes lie beside the count of those who share them, and more in a place of their own.
type Bytes = SmallVec<u8, 40>;

/// An owned entry: a key and the bytes of its value, which other entries may share. [`EntryRef`] is its borrowed form.
#[derive(Drop)]
pub struct Entry {
    /// The row, the family, the qualifier, the visibility and the value, one behind the other.
    bytes: Arc<Bytes>,
    /// Where the parts of the key end.
    row: u16,
    family: u16,
    qualifier: u16,
    visibility: u16,
    time: i64,
    deleted: bool,
}

impl Model for Entry {
    ghost use Rattle.tablet_model.specs.Cell.{Cell};

    ghost Value = { Cell };

    ghost use Rattle.cell_key.specs.EntryParts.{packed_cell, IsPacked};

    ghost view = { packed_cell };

    ghost invariant = { IsPacked };
}

/// The parts of an entry, one behind the other.
fn joined_parts(alloc: Global, entry: EntryRef<'_>, size: usize) -> Result<Bytes, NoMemory>
    ensures { IfOk result (λ bytes. bytes.items ≡ joined_parts (cell_of entry.entry)) }
{
    let mut bytes = SmallVec::with_capacity(alloc, size)?;
    bytes.extend_from_slice(entry.key.row)?;
    bytes.extend_from_slice(entry.key.family)?;
    bytes.extend_from_slice(entry.key.qualifier)?;
    bytes.extend_from_slice(entry.key.visibility)?;
    bytes.extend_from_slice(entry.value)?;
    Ok(bytes)
}

impl Entry {
    /// An equal entry.
    pub fn of(alloc: Global, entry: EntryRef<'_>) -> Result<Entry, NoMemory>
        ensures { IfOk result (λ e. e ≡ cell_of entry.entry) }
    {
        let key = entry.key;
        let row = key.row.len();
        let family = row + key.family.len();
        let qualifier = family + key.qualifier.len();
        let visibility = qualifier + key.visibility.len();
        let bytes = joined_parts(alloc, entry, visibility + entry.value.len())?;
        Ok(Entry {
            bytes: Arc::new(alloc, bytes)?,
            row: row as u16,
            family: family as u16,
            qualifier: qualifier as u16,
            visibility: visibility as u16,
            time: key.time,
            deleted: key.deleted,
        })
    }

    /// An equal entry, which shares the bytes.
    pub fn share(&self) -> Result<Entry, NoMemory>
        ensures { IfOk result (λ e. e ≡ self.now) }
    {
        let bytes = Arc::try_clone(&self.bytes)?;
        Ok(Entry {
            bytes,
            row: self.row,
            family: self.family,
            qualifier: self.qualifier,
            visibility: self.visibility,
            time: self.time,
            deleted: self.deleted,
        })
    }

    /// Its row. It takes no memory.
    fn row(&self) -> &[u8]
        ensures { result.now ≡ self.now.key.row }
    {
        &self.bytes.as_slice()[..usize::from(self.row)]
    }

    /// The order of entries. It takes no memory.
    #[tactic(auto, using(crate::proofs::RowFirst::less_row, crate::proofs::RowFirst::greater_row))]
    pub(crate) fn compare(&self, other: &Entry) -> Ordering
        ensures { result ≡ cell_cmp self.now other.now }
    {
        // Most rows differ, and then the other parts need not be looked up.
        self.row()
            .cmp(other.row())
            .then_with(|| compare_entries(self.entry(), other.entry()))
    }

    /// Its borrowed form. It takes no memory.
    pub fn entry(&self) -> EntryRef<'_>
        ensures entry { cell_of result ≡ self.now }
        ensures bounds { IsEntry self.now }
    {
        let bytes = self.bytes.as_slice();
        let (row, family) = (usize::from(self.row), usize::from(self.family));
        let (qualifier, visibility) = (usize::from(self.qualifier), usize::from(self.visibility));
        let key = KeyRef {
            row: &bytes[..row],
            family: &bytes[row..family],
            qualifier: &bytes[family..qualifier],
            visibility: &bytes[qualifier..visibility],
            time: self.time,
            deleted: self.deleted,
        };
        EntryRef {
            key,
            value: &bytes[visibility..],
        }
    }
}
