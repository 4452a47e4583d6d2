//! Lists of names, and the families that a scan chooses.
ghost use Rattle.std.specs.Prelude.{◌≡◌, ◌<◌, ◌≤◌, Some, None, length, IfOk};
ghost use Rattle.tablet_model.specs.Limits.{max_names};
ghost use Rattle.tablet_model.specs.Families.{has_family};

use crate::items::{ByteText, Items};
use crate::no_memory::NoMemory;
use std::alloc::Global;
use std::marker::Model;

/// A list of names.
pub type Names = Items<ByteText>;

/// Which column families a scan takes: all, or a set of 1 to 64 names.
#[derive(Drop)]
pub struct Families {
    names: Option<Names>,
}

impl Model for Families {
    ghost use Rattle.std.specs.Prelude.{ℕ, List, Option};

    ghost Value = { Option (List (List ℕ)) };

    ghost view = { λ f. f.names };
}

impl Families {
    /// All families. It takes no memory.
    pub fn all() -> Families
        ensures { result ≡ None }
    {
        Families { names: None }
    }

    /// The families of these names; a name may stand there more than once.
    pub fn of(alloc: Global, names: &[ByteText]) -> Result<Families, NoMemory>
        requires some { 0 < length names.now }
        requires few { length names.now ≤ max_names }
        ensures { IfOk result (λ families. families ≡ Some names.now) }
    {
        let names = copied_names(alloc, names)?;
        Ok(Families { names: Some(names) })
    }

    /// Whether the family is among them. It takes no memory.
    pub fn has(&self, family: &[u8]) -> bool
        ensures { result ≡ has_family self.now family.now }
    {
        match &self.names {
            None => true,
            Some(names) => names.has(family),
        }
    }

    /// An equal set.
    pub fn copy(&self, alloc: Global) -> Result<Families, NoMemory>
        ensures { IfOk result (λ families. families ≡ self.now) }
    {
        let Some(names) = &self.names else {
            return Ok(Families::all());
        };
        let names = names.copy(alloc)?;
        Ok(Families { names: Some(names) })
    }
}

impl Items<ByteText> {
    /// An equal list.
    pub fn copy(&self, alloc: Global) -> Result<Names, NoMemory>
        ensures { IfOk result (λ names. names ≡ self.now) }
    {
        copied_names(alloc, self.as_slice())
    }

    /// Whether the name is one of them. It takes no memory.
    pub fn has(&self, name: &[u8]) -> bool
        ensures { result ≡ has_family (Some self.now) name.now }
    {
        self.as_slice().iter().any(|own| own.bytes() == name)
    }
}

fn copied_names(alloc: Global, names: &[ByteText]) -> Result<Names, NoMemory>
    ensures { IfOk result (λ list. list ≡ names.now) }
{
    let mut list = Names::with_capacity(alloc, names.len())?;
    for name in names {
        list.push(ByteText::of(alloc, name.bytes())?)?;
    }
    Ok(list)
}
