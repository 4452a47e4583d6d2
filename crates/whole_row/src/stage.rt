//! Where the iterator has come to.
ghost use Rattle.std.specs.Prelude.{◌≡◌, false, IfOk};

use crate::buf::RowBuf;
use cell_key::{Bound, ColumnBuf, NoMemory, Range, RangeBuf};
use std::alloc::Global;

/// Where a pass has come to that makes each row one entry. What is left of its source stands behind the row that it holds.
#[derive(Drop)]
pub struct RowStage {
    /// A column of the held row, and the text of the row's entries.
    pub(crate) column: ColumnBuf,
    pub(crate) buf: RowBuf,
    /// Whether a row is held, whose entry is the next that is shown.
    pub(crate) is_held: bool,
    /// The range of the last seek, whose end may lie within a row.
    pub(crate) range: RangeBuf,
    /// Whether the last seek or step came to its end.
    pub(crate) is_sought: bool,
}

impl RowStage {
    /// A stage that was not sought. It takes the memory that its other calls need, beside that for the texts of rows.
    pub fn new(alloc: Global) -> Result<RowStage, NoMemory>
        ensures { IfOk result (λ stage. stage.is_sought ≡ false) }
    {
        let column = ColumnBuf::new(alloc)?;
        let buf = RowBuf::new(alloc)?;
        let everything = Range {
            start: Bound::Open,
            end: Bound::Open,
        };
        let range = RangeBuf::of(alloc, &everything)?;
        Ok(RowStage {
            column,
            buf,
            is_held: false,
            range,
            is_sought: false,
        })
    }
}
