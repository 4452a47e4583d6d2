//! Names of columns, and lists of them.
ghost use Rattle.std.specs.Prelude.{◌≡◌, IfOk};
ghost use Rattle.cell_key.specs.Listed.{is_named, is_listed};

use crate::items::{ByteText, Items};
use crate::no_memory::NoMemory;
use std::alloc::Global;

/// A name of columns, as Accumulo's combiners take it: a family, or a family and a qualifier.
#[derive(Drop)]
pub struct ColumnName {
    pub family: ByteText,
    /// `None` names every qualifier.
    pub qualifier: Option<ByteText>,
}

impl ColumnName {
    /// Whether it is a name of the columns of this family and qualifier. It takes no memory.
    fn names(&self, family: &[u8], qualifier: &[u8]) -> bool
        ensures { result ≡ is_named family.now qualifier.now self.now }
    {
        let of_qualifier = match &self.qualifier {
            None => true,
            Some(own) => own.bytes() == qualifier,
        };
        of_qualifier && self.family.bytes() == family
    }

    /// An equal name.
    fn copy(&self, alloc: Global) -> Result<ColumnName, NoMemory>
        ensures { IfOk result (λ name. name ≡ self.now) }
    {
        let family = ByteText::of(alloc, self.family.bytes())?;
        let qualifier = match &self.qualifier {
            None => None,
            Some(qualifier) => Some(ByteText::of(alloc, qualifier.bytes())?),
        };
        Ok(ColumnName { family, qualifier })
    }
}

/// Names of columns, such as those that a combiner combines.
pub type Columns = Items<ColumnName>;

impl Items<ColumnName> {
    /// Whether one of the names is that of the columns of this family and qualifier. It takes no memory.
    pub fn lists(&self, family: &[u8], qualifier: &[u8]) -> bool
        ensures { result ≡ is_listed self.now family.now qualifier.now }
    {
        self.as_slice()
            .iter()
            .any(|name| name.names(family, qualifier))
    }

    /// An equal list.
    pub fn copy(&self, alloc: Global) -> Result<Columns, NoMemory>
        ensures { IfOk result (λ columns. columns ≡ self.now) }
    {
        let mut columns = Columns::with_capacity(alloc, self.len())?;
        for name in self.as_slice() {
            columns.push(name.copy(alloc)?)?;
        }
        Ok(columns)
    }
}
