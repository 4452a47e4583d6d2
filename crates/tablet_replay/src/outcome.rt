//! How an input was answered.
use cell_key::NoMemory;
use std::alloc::AllocFailed;
use tablet_io::WriteFault;
use thiserror::Error;

/// How an input was answered.
#[derive(Clone, Copy, Debug, PartialEq, Eq)]
pub enum Outcome {
    /// It was accepted, and what was asked for was written.
    Answered,
    /// It was refused, and why was written.
    Refused,
}

/// Why a reply was not written to its end.
#[derive(Clone, Copy, Debug, PartialEq, Eq, Error)]
pub enum ReplyError {
    /// A write failed.
    #[error("a write failed")]
    Write,
    #[error("out of memory")]
    NoMemory,
}

impl From<WriteFault> for ReplyError {
    ghost use Rattle.std.specs.Prelude.{◌≡◌};
    ghost use Rattle.tablet_replay.specs.declared.outcome.ReplyError.TheVariants as error;

    ghost from_gives = { λ _ e. e ≡ error.Write };

    fn from(_fault: WriteFault) -> ReplyError {
        ReplyError::Write
    }
}

impl From<NoMemory> for ReplyError {
    ghost use Rattle.std.specs.Prelude.{◌≡◌};
    ghost use Rattle.tablet_replay.specs.declared.outcome.ReplyError.TheVariants as error;

    ghost from_gives = { λ _ e. e ≡ error.NoMemory };

    fn from(_error: NoMemory) -> ReplyError {
        ReplyError::NoMemory
    }
}

impl<T: Drop> From<AllocFailed<T>> for ReplyError {
    ghost use Rattle.std.specs.Prelude.{◌≡◌};
    ghost use Rattle.tablet_replay.specs.declared.outcome.ReplyError.TheVariants as error;

    ghost from_gives = { λ _ e. e ≡ error.NoMemory };

    fn from(_error: AllocFailed<T>) -> ReplyError {
        ReplyError::NoMemory
    }
}
