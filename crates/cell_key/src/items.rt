//! Lists of any elements, and of bytes.
ghost use Rattle.std.specs.Prelude.{◌≡◌, ◌↔◌, ◌<◌, IsTrue, [], ◌∷◌, ◌++◌, Some, length, slice_get, is_ok, if◌then◌else◌, IfOk};

use crate::no_memory::NoMemory;
use std::alloc::Global;
use std::marker::Model;

/// A list: a `Vec` whose allocator's errors are [`NoMemory`].
#[derive(Drop)]
pub struct Items<T> {
    items: Vec<T>,
}

impl<T> Model for Items<T> {
    ghost use Rattle.std.specs.Prelude.{List};

    ghost Value = { List T };

    ghost view = { λ list. list.items.items };
}

impl<T: Drop> Items<T> {
    /// The empty list. It takes no memory.
    pub fn new(alloc: Global) -> Items<T>
        ensures { result ≡ [] }
    {
        Items {
            items: Vec::new(alloc),
        }
    }

    /// The empty list, with places for some elements.
    pub fn with_capacity(alloc: Global, capacity: usize) -> Result<Items<T>, NoMemory>
        ensures { IfOk result (λ list. list ≡ []) }
    {
        let items = Vec::with_capacity(alloc, capacity)?;
        Ok(Items { items })
    }

    /// Puts an element at the end; without memory the list stays as it was.
    pub fn push(&mut self, element: T) -> Result<(), NoMemory>
        ensures { self.new ≡ (if is_ok result then self.old ++ element ∷ [] else self.old) }
    {
        self.items.push(element)?;
        Ok(())
    }

    /// The number of elements.
    pub fn len(&self) -> usize
        ensures { result ≡ length self.now }
    {
        self.items.len()
    }

    /// Whether there is no element.
    pub fn is_empty(&self) -> bool
        ensures { IsTrue result ↔ (self.now ≡ []) }
    {
        self.items.is_empty()
    }

    /// The element at place `i`, counted from 0.
    pub fn get(&self, i: usize) -> &T
        requires { i < length self.now }
        ensures { slice_get self.now i ≡ Some result.now }
    {
        &self.items[i]
    }

    /// The elements.
    pub fn as_slice(&self) -> &[T]
        ensures { result.now ≡ self.now }
    {
        self.items.as_slice()
    }

    /// Takes all elements out; it keeps its room.
    pub fn clear(&mut self)
        ensures { self.new ≡ [] }
    {
        self.items.clear();
    }
}

/// A list of bytes.
pub type ByteText = Items<u8>;

impl Items<u8> {
    /// A list of these bytes.
    pub fn of(alloc: Global, bytes: &[u8]) -> Result<ByteText, NoMemory>
        ensures { IfOk result (λ text. text ≡ bytes.now) }
    {
        let items = Vec::from_slice(alloc, bytes)?;
        Ok(Items { items })
    }

    /// Puts bytes at the end; without memory the text stays as it was.
    pub fn append(&mut self, bytes: &[u8]) -> Result<(), NoMemory>
        ensures { self.new ≡ (if is_ok result then self.old ++ bytes.now else self.old) }
    {
        self.items.extend_from_slice(bytes)?;
        Ok(())
    }

    /// The bytes.
    pub fn bytes(&self) -> &[u8]
        ensures { result.now ≡ self.now }
    {
        self.items.as_slice()
    }
}
