//! What one iterator is configured as.
use crate::predicate::Predicate;
use cell_key::{ByteText, Columns, Names};
use number_values::{Encoding, Op};

/// Where an iterator runs (Accumulo's iterator scopes).
#[derive(Clone, Copy, Debug, PartialEq, Eq)]
pub struct Scopes {
    /// In scans.
    pub scan: bool,
    /// In minor compactions, which write memory to a file.
    pub minc: bool,
    /// In major compactions, which write files to one file.
    pub majc: bool,
}

/// Which deletes the columns of a combiner may have (this project's own option).
#[derive(Clone, Copy, Debug, PartialEq, Eq)]
pub enum Deletes {
    /// None: the tablet refuses them.
    None,
    /// Any. Of the major compactions only full ones combine these columns.
    Full,
}

/// What an iterator does.
#[derive(Drop)]
pub enum Kind {
    /// It keeps markers, and the entries that pass a test, or with `negate` those that don't.
    Filter {
        predicate: Predicate,
        negate: bool,
    },
    /// It keeps the newest `max` versions of each column (Accumulo's VersioningIterator).
    Versions {
        max: u32,
    },
    /// In each listed column it makes one entry of all that are no markers (Accumulo's Combiner).
    Combine {
        op: Op,
        columns: Columns,
        encoding: Encoding,
        deletes: Deletes,
    },
    /// It makes one entry of each row (Accumulo's WholeRowIterator). It runs in scans alone.
    WholeRow,
    /// It makes one entry of each document of a row that has all terms, and none of those under `without` (Accumulo's
    /// IntersectingIterator; a row is a partition, a family a term and a qualifier a document). It runs in scans alone.
    Intersecting {
        terms: Names,
        without: Names,
    },
}

/// An iterator of a configuration.
#[derive(Drop)]
pub struct IterSpec {
    /// 1 to 32 letters, digits, `_` or `-`.
    pub name: ByteText,
    /// From 1 to 2147483647. The iterator with the lowest priority stands nearest the data (Accumulo).
    pub priority: u32,
    pub kind: Kind,
    pub scopes: Scopes,
}
