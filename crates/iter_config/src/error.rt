//! Why a configuration is refused.
use cell_key::NoMemory;
use std::alloc::AllocFailed;
use thiserror::Error;

/// The rules of a configuration, in the order in which they are tested.
#[derive(Clone, Copy, Debug, PartialEq, Eq)]
pub enum Rule {
    /// The text is TOML in UTF-8.
    Toml,
    /// Each table has the fields of its kind and no others, with values within their limits.
    Field,
    /// No two iterators share a name.
    Name,
    /// No two iterators share a priority.
    Priority,
    /// Each iterator runs in scans.
    NoScan,
    /// An iterator runs in a kind of compaction only if the one before it in priority order does.
    NotPrefix,
    /// Whole rows and intersections run in scans alone, and no combiner follows one.
    ScanOnly,
    /// In compactions only filters of columns follow `versions`, and no filter of whole entries stands beside a
    /// combiner.
    Order,
    /// No two combiners list one column.
    Overlap,
    /// No `versions` follows a combiner of deletes `full` in major compactions.
    FullUnderVersions,
}

/// Why there is no configuration.
#[derive(Clone, Copy, Debug, PartialEq, Eq, Error)]
pub enum ConfigError {
    /// The first broken rule, and the number of the first iterator that breaks it: its place in the array,
    /// counted from 1, or 0 for the document itself.
    #[error("the configuration breaks a rule at iterator {at}")]
    Refused { rule: Rule, at: u32 },
    #[error("out of memory")]
    NoMemory,
}

impl From<NoMemory> for ConfigError {
    ghost use Rattle.std.specs.Prelude.{◌≡◌};
    ghost use Rattle.iter_config.specs.declared.error.ConfigError.TheVariants as error;

    ghost from_gives = { λ _ e. e ≡ error.NoMemory };

    fn from(_error: NoMemory) -> ConfigError {
        ConfigError::NoMemory
    }
}

impl<T: Drop> From<AllocFailed<T>> for ConfigError {
    ghost use Rattle.std.specs.Prelude.{◌≡◌};
    ghost use Rattle.iter_config.specs.declared.error.ConfigError.TheVariants as error;

    ghost from_gives = { λ _ e. e ≡ error.NoMemory };

    fn from(_error: AllocFailed<T>) -> ConfigError {
        ConfigError::NoMemory
    }
}

/// Why a value isn't read as what a field should be.
#[derive(Clone, Copy, Debug)]
pub enum FieldError {
    /// It is missing, of another type, or beyond its limits.
    Field,
    NoMemory,
}

impl From<NoMemory> for FieldError {
    ghost use Rattle.std.specs.Prelude.{◌≡◌};
    ghost use Rattle.iter_config.specs.declared.error.FieldError.TheVariants as error;

    ghost from_gives = { λ _ e. e ≡ error.NoMemory };

    fn from(_error: NoMemory) -> FieldError {
        FieldError::NoMemory
    }
}
