//! Owned keys, and why some parts make none.
ghost use Rattle.std.specs.Prelude.{◌≡◌, IfOk, IfErr, OnOk, None};
ghost use Rattle.cell_key.specs.Views.{key_of};
ghost use Rattle.cell_key.specs.Made.{key_from, first_out, refusal_of};

use crate::key_ref::KeyRef;
use crate::no_memory::NoMemory;
use std::alloc::Global;
use std::marker::Model;
use thiserror::Error;

/// The most bytes that a part of a key has.
pub const MAX_KEY_PART: usize = 1024;

/// A part of a mutation that has a bound. The first four are the parts of a key.
#[derive(Clone, Copy, Debug, PartialEq, Eq)]
pub enum Part {
    Row,
    Family,
    Qualifier,
    Visibility,
    Value,
    Updates,
}

/// Why a key isn't made.
#[derive(Clone, Copy, Debug, PartialEq, Eq, Error)]
pub enum KeyError {
    /// The first part that is out of bounds, in the order of [`Part`].
    #[error("a part is out of bounds")]
    Bound(Part),
    #[error("out of memory")]
    NoMemory,
}

impl From<NoMemory> for KeyError {
    ghost use Rattle.std.specs.Prelude.{◌≡◌};
    ghost use Rattle.cell_key.specs.declared.key.KeyError.TheVariants as error;

    ghost from_gives = { λ _ e. e ≡ error.NoMemory };

    fn from(_error: NoMemory) -> KeyError {
        KeyError::NoMemory
    }
}

/// An owned key. [`KeyRef`] is its borrowed form.
#[derive(Drop)]
pub struct Key {
    row: Vec<u8>,
    family: Vec<u8>,
    qualifier: Vec<u8>,
    visibility: Vec<u8>,
    time: i64,
    deleted: bool,
}

impl Model for Key {
    ghost use Rattle.tablet_model.specs.Cell.{CellKey};
    ghost use Rattle.tablet_model.specs.Bounds.{KeyBounds};

    ghost Value = { CellKey };

    ghost view = { λ k. record {
      row = k.row.items;
      family = k.family.items;
      qualifier = k.qualifier.items;
      visibility = k.visibility.items;
      time = k.time;
      deleted = k.deleted;
    } };

    ghost invariant = { λ k. KeyBounds k.row.items k.family.items k.qualifier.items k.visibility.items };
}

impl Key {
    /// The key of these parts: a row of 1 to 1,024 bytes, and no other part of more than 1,024.
    pub fn new(
        alloc: Global,
        row: &[u8],
        family: &[u8],
        qualifier: &[u8],
        visibility: &[u8],
        time: i64,
        deleted: bool,
    ) -> Result<Key, KeyError>
        ensures key { IfOk result (λ k.
            k ≡ key_from row.now family.now qualifier.now visibility.now time deleted) }
        ensures bounds { OnOk result (first_out row.now family.now qualifier.now visibility.now ≡ None) }
        ensures refusal { IfErr result (λ e.
            e ≡ refusal_of (first_out row.now family.now qualifier.now visibility.now)) }
    {
        if row.is_empty() || row.len() > MAX_KEY_PART {
            return Err(KeyError::Bound(Part::Row));
        }
        if family.len() > MAX_KEY_PART {
            return Err(KeyError::Bound(Part::Family));
        }
        if qualifier.len() > MAX_KEY_PART {
            return Err(KeyError::Bound(Part::Qualifier));
        }
        if visibility.len() > MAX_KEY_PART {
            return Err(KeyError::Bound(Part::Visibility));
        }
        let key = KeyRef {
            row,
            family,
            qualifier,
            visibility,
            time,
            deleted,
        };
        let key = Key::of(alloc, key)?;
        Ok(key)
    }

    /// An equal key.
    pub fn of(alloc: Global, key: KeyRef<'_>) -> Result<Key, NoMemory>
        ensures { IfOk result (λ k. k ≡ key_of key.entry) }
    {
        let row = Vec::from_slice(alloc, key.row)?;
        let family = Vec::from_slice(alloc, key.family)?;
        let qualifier = Vec::from_slice(alloc, key.qualifier)?;
        let visibility = Vec::from_slice(alloc, key.visibility)?;
        Ok(Key {
            row,
            family,
            qualifier,
            visibility,
            time: key.time,
            deleted: key.deleted,
        })
    }

    /// Its borrowed form.
    pub fn key(&self) -> KeyRef<'_>
        ensures { key_of result ≡ self.now }
    {
        KeyRef {
            row: self.row.as_slice(),
            family: self.family.as_slice(),
            qualifier: self.qualifier.as_slice(),
            visibility: self.visibility.as_slice(),
            time: self.time,
            deleted: self.deleted,
        }
    }
}
