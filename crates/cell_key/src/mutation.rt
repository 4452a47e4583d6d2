//! Changes of one row that come in together.
ghost use Rattle.std.specs.Prelude.{◌≡◌, ◌↔◌, IsTrue, IfOk};

use crate::items::{ByteText, Items};
use crate::no_memory::NoMemory;
use std::alloc::Global;

/// A change of one column: a put of a value, maybe at a time of its own, or a delete, which has no value.
#[derive(Drop)]
pub struct Update {
    pub family: ByteText,
    pub qualifier: ByteText,
    pub visibility: ByteText,
    pub time: Option<i64>,
    pub value: Option<ByteText>,
}

impl Update {
    /// An equal update.
    fn copy(&self, alloc: Global) -> Result<Update, NoMemory>
        ensures { IfOk result (λ update. update ≡ self.now) }
    {
        let value = match &self.value {
            None => None,
            Some(value) => Some(ByteText::of(alloc, value.bytes())?),
        };
        Ok(Update {
            family: ByteText::of(alloc, self.family.bytes())?,
            qualifier: ByteText::of(alloc, self.qualifier.bytes())?,
            visibility: ByteText::of(alloc, self.visibility.bytes())?,
            time: self.time,
            value,
        })
    }

    fn has_value_of(&self, other: &Update) -> bool
        ensures { IsTrue result ↔ (self.now.value ≡ other.now.value) }
    {
        match (&self.value, &other.value) {
            (Some(value), Some(other)) => value.bytes() == other.bytes(),
            (None, None) => true,
            (_, _) => false,
        }
    }

    /// Whether the two are equal.
    fn same(&self, other: &Update) -> bool
        ensures { IsTrue result ↔ (self.now ≡ other.now) }
    {
        self.family.bytes() == other.family.bytes()
            && self.qualifier.bytes() == other.qualifier.bytes()
            && self.visibility.bytes() == other.visibility.bytes()
            && self.time == other.time
            && self.has_value_of(other)
    }
}

/// Changes of one row, which come in together.
#[derive(Drop)]
pub struct Mutation {
    pub row: ByteText,
    pub updates: Updates,
}

impl Mutation {
    /// An equal mutation. It takes memory.
    pub fn copy(&self, alloc: Global) -> Result<Mutation, NoMemory>
        ensures { IfOk result (λ mutation. mutation ≡ self.now) }
    {
        let row = ByteText::of(alloc, self.row.bytes())?;
        let updates = copied_updates(alloc, self.updates.as_slice())?;
        Ok(Mutation { row, updates })
    }

    /// Whether the two mutations are equal. It takes no memory.
    pub fn same(&self, other: &Mutation) -> bool
        ensures { IsTrue result ↔ (self.now ≡ other.now) }
    {
        self.row.bytes() == other.row.bytes()
            && same_updates(self.updates.as_slice(), other.updates.as_slice())
    }
}

fn copied_updates(alloc: Global, updates: &[Update]) -> Result<Updates, NoMemory>
    ensures { IfOk result (λ list. list ≡ updates.now) }
{
    let mut list = Updates::with_capacity(alloc, updates.len())?;
    for update in updates {
        list.push(update.copy(alloc)?)?;
    }
    Ok(list)
}

fn same_updates(a: &[Update], b: &[Update]) -> bool
    ensures { IsTrue result ↔ (a.now ≡ b.now) }
{
    if a.len() != b.len() {
        return false;
    }
    for i in 0..a.len() {
        if !a[i].same(&b[i]) {
            return false;
        }
    }
    true
}

/// A list of updates.
pub type Updates = Items<Update>;

/// A list of mutations.
pub type Mutations = Items<Mutation>;
