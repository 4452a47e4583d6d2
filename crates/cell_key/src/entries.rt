//! Lists of entries.
ghost use Rattle.std.specs.Prelude.{◌≡◌, ◌↔◌, ◌<◌, IsTrue, Some, [], ◌∷◌, ◌++◌, length, slice_get, is_ok, if◌then◌else◌, IfOk, OnOk, OnErr};
ghost use Rattle.tablet_model.specs.Bounds.{AreEntries};
ghost use Rattle.tablet_model.specs.Order.{above};
ghost use Rattle.tablet_model.specs.Sorted.{Ascends, sorted};

use crate::entry::Entry;
use crate::no_memory::NoMemory;
use std::alloc::Global;
use std::marker::Model;

/// A list of entries, in any order. The parts of each are within bounds.
#[derive(Drop)]
pub struct Entries {
    entries: Vec<Entry>,
}

impl Model for Entries {
    ghost use Rattle.std.specs.Prelude.{List};
    ghost use Rattle.tablet_model.specs.Cell.{Cell};
    ghost use Rattle.tablet_model.specs.Bounds.{AreEntries};

    ghost Value = { List Cell };

    ghost view = { λ e. e.entries.items };

    ghost invariant = { λ e. AreEntries e.entries.items };
}

impl Entries {
    /// The empty list. It takes no memory.
    pub fn new(alloc: Global) -> Entries
        ensures { result ≡ [] }
    {
        Entries {
            entries: Vec::new(alloc),
        }
    }

    /// The empty list, with places for some entries.
    pub fn with_capacity(alloc: Global, capacity: usize) -> Result<Entries, NoMemory>
        ensures { IfOk result (λ list. list ≡ []) }
    {
        let entries = Vec::with_capacity(alloc, capacity)?;
        Ok(Entries { entries })
    }

    /// An equal list, which shares its entries.
    pub fn copy(&self, alloc: Global) -> Result<Entries, NoMemory>
        ensures { IfOk result (λ copy. copy ≡ self.now) }
    {
        let mut copy = Entries::with_capacity(alloc, self.len())?;
        copy.append(self)?;
        Ok(copy)
    }

    /// Puts the entries of another list at the end, shared with it. Without memory some of them may stand
    /// there.
    pub fn append(&mut self, other: &Entries) -> Result<(), NoMemory>
        ensures { OnOk result (self.new ≡ self.old ++ other.now) }
    {
        self.entries.reserve(other.len())?;
        for entry in other.as_slice() {
            self.push(entry.share()?)?;
        }
        Ok(())
    }

    /// Puts an entry at the end; without memory the list stays as it was.
    pub fn push(&mut self, element: Entry) -> Result<(), NoMemory>
        ensures { self.new ≡ (if is_ok result then self.old ++ element ∷ [] else self.old) }
    {
        // That an entry is within bounds is kept of the list, and said by `entry`.
        let _ = element.entry();
        self.entries.push(element)?;
        Ok(())
    }

    /// Puts the entries in order. It takes memory for lists of more than 20 entries; without it the list
    /// stays as it was.
    pub fn sort(&mut self) -> Result<(), NoMemory>
        ensures sorted { OnOk result (self.new ≡ sorted above self.old) }
        ensures ascends { OnOk result (Ascends above self.new) }
        ensures unchanged { OnErr result (self.new ≡ self.old) }
    {
        self.entries.sort_by(|a, b| a.compare(b))?;
        Ok(())
    }

    /// The number of entries.
    pub fn len(&self) -> usize
        ensures length { result ≡ length self.now }
        ensures bounds { AreEntries self.now }
    {
        self.entries.len()
    }

    /// Whether there is no entry.
    pub fn is_empty(&self) -> bool
        ensures { IsTrue result ↔ (self.now ≡ []) }
    {
        self.entries.is_empty()
    }

    /// The entry at place `i`, counted from 0.
    pub fn get(&self, i: usize) -> &Entry
        requires { i < length self.now }
        ensures { slice_get self.now i ≡ Some result.now }
    {
        &self.entries[i]
    }

    /// The entries.
    pub fn as_slice(&self) -> &[Entry]
        ensures { result.now ≡ self.now }
    {
        self.entries.as_slice()
    }
}
