//! The tests of filters.
ghost use Rattle.std.specs.Prelude.{◌≡◌, IfOk};
ghost use Rattle.iter_config.specs.Predicates.{is_of_column};

use cell_key::{ByteText, Names, NoMemory};
use std::alloc::Global;

/// What a filter tests in an entry.
#[derive(Drop)]
pub enum Predicate {
    /// Its family is one of these.
    Family {
        families: Names,
    },
    /// Its qualifier is at or behind `from` and before `to`, by unsigned bytes; a missing one leaves that side open.
    QualifierSlice {
        from: Option<ByteText>,
        to: Option<ByteText>,
    },
    /// Its visibility is one of these.
    VisibilitySet {
        visibilities: Names,
    },
    /// The bytes of `needle` stand within its row, family, qualifier, visibility or value.
    Grep {
        needle: ByteText,
    },
    /// Its timestamp is from `from` to `to`, both ends counted.
    Times {
        from: i64,
        to: i64,
    },
}

impl Predicate {
    /// Whether it looks at the column alone. It takes no memory.
    pub fn is_of_column(&self) -> bool
        ensures { result ≡ is_of_column self.now }
    {
        match self {
            Predicate::Family { .. }
            | Predicate::QualifierSlice { .. }
            | Predicate::VisibilitySet { .. } => true,
            Predicate::Grep { .. } | Predicate::Times { .. } => false,
        }
    }

    /// An equal test.
    pub fn copy(&self, alloc: Global) -> Result<Predicate, NoMemory>
        ensures { IfOk result (λ predicate. predicate ≡ self.now) }
    {
        match self {
            Predicate::Family { families } => {
                let families = families.copy(alloc)?;
                Ok(Predicate::Family { families })
            }
            Predicate::QualifierSlice { from, to } => {
                let from = copied_name(alloc, from)?;
                let to = copied_name(alloc, to)?;
                Ok(Predicate::QualifierSlice { from, to })
            }
            Predicate::VisibilitySet { visibilities } => {
                let visibilities = visibilities.copy(alloc)?;
                Ok(Predicate::VisibilitySet { visibilities })
            }
            Predicate::Grep { needle } => {
                let needle = ByteText::of(alloc, needle.bytes())?;
                Ok(Predicate::Grep { needle })
            }
            Predicate::Times { from, to } => Ok(Predicate::Times {
                from: *from,
                to: *to,
            }),
        }
    }
}

fn copied_name(alloc: Global, name: &Option<ByteText>) -> Result<Option<ByteText>, NoMemory>
    ensures { IfOk result (λ copy. copy ≡ name.now) }
{
    let Some(name) = name else {
        return Ok(None);
    };
    let name = ByteText::of(alloc, name.bytes())?;
    Ok(Some(name))
}
