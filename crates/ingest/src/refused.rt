//! Why a mutation stays out.
use cell_key::Part;

/// Why a mutation stays out. `at` is the number of the first update that breaks the check, counted from 1, or 0 for the
/// mutation itself.
#[derive(Clone, Copy, Debug, PartialEq, Eq)]
pub enum Refused {
    /// The row has 0 or more than 1,024 bytes, there are 0 or more than 100 updates, or a part of an update is too long:
    /// 1,024 bytes for family, qualifier and visibility, 65,536 for a value.
    Bound { at: u32, part: Part },
    /// The update has the column of an earlier one, and both are deletes or both puts.
    Duplicate { at: u32 },
    /// It deletes in a column in which the configuration refuses deletes.
    DeleteHere { at: u32 },
    /// It brings a time of its own where it may not: it is a delete, or its family isn't timed. Or it lacks one where it has
    /// to bring it: it is a put in a timed family.
    Time { at: u32 },
    /// It puts a value that the configuration doesn't read.
    Value { at: u32 },
    /// The log has 524,288 mutations.
    Full,
}
