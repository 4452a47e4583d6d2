//! Why bytes are no text of a row.
use byte_fields::{Cut, Input};
use cell_key::NoMemory;
use thiserror::Error;

/// Why bytes were not read as the text of a row.
#[derive(Clone, Copy, Debug, PartialEq, Eq, Error)]
pub enum RowError {
    /// The bytes are no text of a row: the place of the first byte of the first field that is at fault, counted from 0.
    #[error("no text of a row: fault at {at}")]
    Fault { at: u64 },
    #[error("out of memory")]
    NoMemory,
}

impl RowError {
    ghost use Rattle.std.specs.Prelude.{◌≡◌};
    ghost use Rattle.whole_row.specs.declared.error.RowError.TheVariants as error;

    /// A fault of the field that an input begins with.
    pub(crate) fn at(input: Input<'_>) -> RowError
        ensures { result ≡ error.Fault input.entry.at }
    {
        RowError::Fault {
            at: input.at as u64,
        }
    }
}

impl From<Cut> for RowError {
    ghost use Rattle.std.specs.Prelude.{◌≡◌};
    ghost use Rattle.whole_row.specs.declared.error.RowError.TheVariants as error;

    ghost from_gives = { λ cut e. e ≡ error.Fault cut.at };

    fn from(cut: Cut) -> RowError {
        RowError::Fault { at: cut.at }
    }
}

impl From<NoMemory> for RowError {
    ghost use Rattle.std.specs.Prelude.{◌≡◌};
    ghost use Rattle.whole_row.specs.declared.error.RowError.TheVariants as error;

    ghost from_gives = { λ _ e. e ≡ error.NoMemory };

    fn from(_error: NoMemory) -> RowError {
        RowError::NoMemory
    }
}
