//! Why some bytes are no image.
use byte_fields::{Cut, Input};
use cell_key::NoMemory;
use thiserror::Error;

/// What is wrong with a field of an image.
#[derive(Clone, Copy, Debug, PartialEq, Eq)]
pub enum ImageCause {
    /// The field runs past the end of the bytes.
    Length,
    /// The bytes do not begin as an image does.
    Magic,
    /// The version is not one that is read.
    Version,
    /// A length, a flag or a number of shared parts is out of bounds.
    Bound,
    /// The entry shares fewer parts with the one before it than it could, or more.
    Shared,
    /// The entry sorts before the one before it.
    Order,
    /// A field of the index is not its block's place.
    Index,
    /// The count or the end differs, or bytes follow the end.
    Tail,
}

/// The first fault of bytes that are no image.
#[derive(Clone, Copy, Debug, PartialEq, Eq)]
pub struct Fault {
    /// The place of the field's first byte, or of the entry's where its shared parts or its order are the cause, counted from
    /// 0.
    pub at: u64,
    pub cause: ImageCause,
}

impl Fault {
    ghost use Rattle.std.specs.Prelude.{◌≡◌};
    ghost use Rattle.sorted_file.specs.Reading.{fault};

    /// A fault of the field that an input begins with.
    pub(crate) fn of(input: Input<'_>, cause: ImageCause) -> Fault
        ensures { result ≡ fault cause input.entry.at }
    {
        Fault {
            at: input.at as u64,
            cause,
        }
    }
}

impl From<Cut> for Fault {
    ghost use Rattle.std.specs.Prelude.{◌≡◌};
    ghost use Rattle.sorted_file.specs.Reading.{fault};
    ghost use Rattle.sorted_file.specs.declared.fault.ImageCause.TheVariants.{Length};

    ghost from_gives = { λ cut e. e ≡ fault Length cut.at };

    fn from(cut: Cut) -> Fault {
        Fault {
            at: cut.at,
            cause: ImageCause::Length,
        }
    }
}

/// Why bytes were not opened.
#[derive(Clone, Copy, Debug, PartialEq, Eq, Error)]
pub enum OpenError {
    /// The bytes are no image: the place of the first fault, counted from 0, and its cause.
    #[error("no image: {cause:?} at {at}")]
    Image { at: u64, cause: ImageCause },
    #[error("out of memory")]
    NoMemory,
}

impl From<Fault> for OpenError {
    ghost use Rattle.std.specs.Prelude.{◌≡◌};
    ghost use Rattle.sorted_file.specs.declared.fault.OpenError.TheVariants as error;

    ghost from_gives = { λ fault e. e ≡ error.Image fault.at fault.cause };

    fn from(fault: Fault) -> OpenError {
        OpenError::Image {
            at: fault.at,
            cause: fault.cause,
        }
    }
}

impl From<Cut> for OpenError {
    ghost use Rattle.std.specs.Prelude.{◌≡◌};
    ghost use Rattle.sorted_file.specs.declared.fault.ImageCause.TheVariants.{Length};
    ghost use Rattle.sorted_file.specs.declared.fault.OpenError.TheVariants as error;

    ghost from_gives = { λ cut e. e ≡ error.Image cut.at Length };

    fn from(cut: Cut) -> OpenError {
        OpenError::Image {
            at: cut.at,
            cause: ImageCause::Length,
        }
    }
}

impl From<NoMemory> for OpenError {
    ghost use Rattle.std.specs.Prelude.{◌≡◌};
    ghost use Rattle.sorted_file.specs.declared.fault.OpenError.TheVariants as error;

    ghost from_gives = { λ _ e. e ≡ error.NoMemory };

    fn from(_error: NoMemory) -> OpenError {
        OpenError::NoMemory
    }
}
