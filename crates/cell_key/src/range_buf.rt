//! A range that is kept in memory reserved beforehand.
ghost use Rattle.std.specs.Prelude.{◌≡◌, IfOk};
ghost use Rattle.tablet_model.specs.Cuts.{Everything};
ghost use Rattle.cell_key.specs.Ranges.{cut_of, span_of};
ghost use Rattle.cell_key.specs.RowBounds.{HasShortRow};

use crate::column_buf::{ColumnBuf, append_reserved};
use crate::key::MAX_KEY_PART;
use crate::no_memory::NoMemory;
use crate::range::{Bound, Range};
use std::alloc::Global;
use std::marker::Model;

/// Which kind of bound is kept.
#[derive(Clone, Copy)]
enum CutKind {
    Open,
    At,
    Past,
    Row,
    PastRow,
}

/// A bound, in bytes that are reserved for the longest when it is made.
#[derive(Drop)]
struct BoundBuf {
    kind: CutKind,
    column: ColumnBuf,
    time: i64,
    deleted: bool,
    row: Vec<u8>,
}

impl Model for BoundBuf {
    ghost use Rattle.tablet_model.specs.Cuts.{Cut};

    ghost Value = { Cut };

    ghost use Rattle.cell_key.specs.BoundParts.{kept_cut, IsBoundReserved};

    ghost view = { kept_cut };

    ghost invariant = { IsBoundReserved };
}

impl BoundBuf {
    /// The open bound.
    fn new(alloc: Global) -> Result<BoundBuf, NoMemory>
        ensures { IfOk result (λ b. b ≡ Everything) }
    {
        let column = ColumnBuf::new(alloc)?;
        let row = Vec::with_capacity(alloc, MAX_KEY_PART)?;
        Ok(BoundBuf {
            kind: CutKind::Open,
            column,
            time: 0,
            deleted: false,
            row,
        })
    }

    fn set(&mut self, bound: Bound<'_>)
        requires { HasShortRow bound }
        ensures { self.new ≡ cut_of bound.entry }
    {
        match bound {
            Bound::Open => self.kind = CutKind::Open,
            Bound::At(key) => {
                self.column.set(key);
                self.time = key.time;
                self.deleted = key.deleted;
                self.kind = CutKind::At;
            }
            Bound::Past(key) => {
                self.column.set(key);
                self.time = key.time;
                self.deleted = key.deleted;
                self.kind = CutKind::Past;
            }
            Bound::Row(row) => {
                self.row.clear();
                append_reserved(&mut self.row, row);
                self.kind = CutKind::Row;
            }
            Bound::PastRow(row) => {
                self.row.clear();
                append_reserved(&mut self.row, row);
                self.kind = CutKind::PastRow;
            }
        }
    }

    fn bound(&self) -> Bound<'_>
        ensures cut { cut_of result ≡ self.now }
        ensures short { HasShortRow result }
    {
        match self.kind {
            CutKind::Open => Bound::Open,
            CutKind::At => Bound::At(self.column.key(self.time, self.deleted)),
            CutKind::Past => Bound::Past(self.column.key(self.time, self.deleted)),
            CutKind::Row => Bound::Row(self.row.as_slice()),
            CutKind::PastRow => Bound::PastRow(self.row.as_slice()),
        }
    }
}

/// An owned range, in bytes that are reserved for the longest range when it is made.
#[derive(Drop)]
pub struct RangeBuf {
    start: BoundBuf,
    end: BoundBuf,
}

impl Model for RangeBuf {
    ghost use Rattle.tablet_model.specs.Cuts.{Span};

    ghost Value = { Span };

    ghost view = { λ r. record { start = r.start; end = r.end } };
}

impl RangeBuf {
    /// An equal range.
    pub fn of(alloc: Global, range: &Range<'_>) -> Result<RangeBuf, NoMemory>
        ensures { IfOk result (λ r. r ≡ span_of range.now) }
    {
        let start = BoundBuf::new(alloc)?;
        let end = BoundBuf::new(alloc)?;
        let mut kept = RangeBuf { start, end };
        kept.set(range);
        Ok(kept)
    }

    /// Its borrowed form. It takes no memory.
    pub fn range(&self) -> Range<'_>
        ensures { span_of result ≡ self.now }
    {
        Range {
            start: self.start.bound(),
            end: self.end.bound(),
        }
    }

    /// Makes it equal to another range. It takes no memory.
    pub fn set(&mut self, range: &Range<'_>)
        ensures { self.new ≡ span_of range.now }
    {
        self.start.set(range.start);
        self.end.set(range.end);
    }
}
