//! Why a mutation does not come in.
use cell_key::NoMemory;
use ingest::Refused;
use thiserror::Error;

/// Why a mutation did not come in.
#[derive(Clone, Copy, Debug, PartialEq, Eq, Error)]
pub enum ApplyError {
    /// It breaks a check.
    #[error("the mutation is refused")]
    Refused(Refused),
    #[error("out of memory")]
    NoMemory,
}

impl From<NoMemory> for ApplyError {
    ghost use Rattle.std.specs.Prelude.{◌≡◌};
    ghost use Rattle.tablet_view.specs.declared.apply_error.ApplyError.TheVariants as error;

    ghost from_gives = { λ _ e. e ≡ error.NoMemory };

    fn from(_error: NoMemory) -> ApplyError {
        ApplyError::NoMemory
    }
}
