//! Sets of file numbers.
ghost use Rattle.std.specs.Prelude.{◌≡◌, ◌<◌, [], ◌∷◌, ◌++◌, Some, length, slice_get, is_ok, if◌then◌else◌, IfOk, OnOk};
ghost use Rattle.std.specs.List.{AllByRecursion};
ghost use Rattle.cell_key.specs.FileNumbers.{has_number, with_number, with_numbers};

use crate::no_memory::NoMemory;
use std::alloc::Global;
use std::marker::Model;

/// Numbers of files, ascending and all different.
#[derive(Drop)]
pub struct FileIds {
    ids: Vec<u64>,
}

impl Model for FileIds {
    ghost use Rattle.std.specs.Prelude.{ℕ, List};
    ghost use Rattle.cell_key.specs.FileNumbers.{AreAscending};

    ghost Value = { List ℕ };

    ghost view = { λ f. f.ids.items };

    ghost invariant = { λ f. AreAscending f.ids.items };
}

impl FileIds {
    /// No numbers. It takes no memory.
    pub fn new(alloc: Global) -> FileIds
        ensures { result ≡ [] }
    {
        FileIds {
            ids: Vec::new(alloc),
        }
    }

    /// These numbers, in any order; one that stands there more than once counts once.
    pub fn of(alloc: Global, numbers: &[u64]) -> Result<FileIds, NoMemory>
        ensures { IfOk result (λ ids. ids ≡ with_numbers numbers.now []) }
    {
        let mut ids = Vec::from_slice(alloc, numbers)?;
        ids.sort_unstable();
        ids.dedup();
        Ok(FileIds { ids })
    }

    /// Puts a number at its place, unless it is there; without memory the numbers stay as they were.
    pub fn insert(&mut self, id: u64) -> Result<(), NoMemory>
        ensures { self.new ≡ (if is_ok result then with_number id self.old else self.old) }
    {
        if let Err(place) = self.ids.binary_search(&id) {
            self.ids.insert(place, id)?;
        }
        Ok(())
    }

    /// Puts a number that is above all others at the end; without memory the list stays as it was.
    pub fn push(&mut self, id: u64) -> Result<(), NoMemory>
        requires { AllByRecursion (λ i. i < id) self.old }
        ensures { self.new ≡ (if is_ok result then self.old ++ id ∷ [] else self.old) }
    {
        self.ids.push(id)?;
        Ok(())
    }

    /// Equal numbers.
    pub fn copy(&self, alloc: Global) -> Result<FileIds, NoMemory>
        ensures { IfOk result (λ ids. ids ≡ self.now) }
    {
        let ids = Vec::from_slice(alloc, &self.ids)?;
        Ok(FileIds { ids })
    }

    /// How many numbers there are.
    pub fn len(&self) -> usize
        ensures { result ≡ length self.now }
    {
        self.ids.len()
    }

    /// Whether the number is among them. It takes no memory.
    pub fn has(&self, id: u64) -> bool
        ensures { result ≡ has_number self.now id }
    {
        self.ids.contains(&id)
    }

    /// The number at place `i`, counted from 0.
    pub fn get(&self, i: usize) -> u64
        requires { i < length self.now }
        ensures { slice_get self.now i ≡ Some result }
    {
        self.ids[i]
    }

    /// The numbers.
    pub fn as_slice(&self) -> &[u64]
        ensures { result.now ≡ self.now }
    {
        self.ids.as_slice()
    }
}
