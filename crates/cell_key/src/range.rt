//! Borrowed ranges of keys, their bounds and positions in them.
use crate::cuts::{lies_before, lies_behind, start_after};
use crate::items::ByteText;
use crate::key::Key;
use crate::key_ref::KeyRef;
use crate::order::first_of_column;

/// An end of a range: a cut in the order of keys. A row in it has at most 1,024 bytes.
#[derive(Clone, Copy)]
pub enum Bound<'a> {
    /// Before or behind everything.
    Open,
    /// Just before a key.
    At(KeyRef<'a>),
    /// Just behind a key.
    Past(KeyRef<'a>),
    /// Before the first key of a row.
    Row(&'a [u8]),
    /// Behind the last key of a row.
    PastRow(&'a [u8]),
}

ghost use Rattle.cell_key.specs.RowBounds.{HasShortRow};

/// A range of keys: those behind its start and before its end.
#[derive(Clone, Copy)]
pub struct Range<'a> {
    pub start: Bound<'a>,
    pub end: Bound<'a>,
    pub ghost short_start: { HasShortRow start },
    pub ghost short_end: { HasShortRow end },
}

/// Where a reader has come to.
#[derive(Drop)]
pub enum Position {
    Start,
    /// Behind a key.
    AfterKey(Key),
    /// Behind the last key of a row, which has at most 1,024 bytes.
    AfterRow(ByteText),
}

impl<'a> Range<'a> {
    ghost use Rattle.std.specs.Prelude.{◌≡◌, ◌&&◌, ℕ};
    ghost use Rattle.tablet_model.specs.Cell.{CellKey};
    ghost use Rattle.tablet_model.specs.Cuts.{holds};
    ghost use Rattle.tablet_model.specs.Places.{is_after};
    ghost use Rattle.tablet_model.specs.Widened.{widened_span};
    ghost use Rattle.cell_key.specs.Views.{key_of};
    ghost use Rattle.cell_key.specs.Ranges.{span_of, place_of, IsAtMostRow};

    /// Whether the range holds the key. It takes no memory.
    pub fn contains(&self, key: KeyRef<'_>) -> bool
        ensures { result ≡ holds (span_of self.now) (key_of key.entry) }
    {
        lies_behind(&self.start, key) && lies_before(&self.end, key)
    }

    /// The range's part after the position. It takes no memory.
    pub fn after(self, position: &'a Position) -> Range<'a>
        requires { IsAtMostRow position.now }
        ensures { (k : CellKey) →
            holds (span_of result) k ≡ holds (span_of self.entry) k && is_after (place_of position.now) k }
    {
        let start = start_after(self.start, position);
        Range {
            start,
            end: self.end,
        }
    }

    /// The range from the beginning of its start's column on, as an iterator reads it whose answer rests on a
    /// column's earlier entries. It takes no memory.
    pub fn widened(&self) -> Range<'a>
        ensures { span_of result ≡ widened_span (span_of self.now) }
    {
        let start = match self.start {
            Bound::At(key) | Bound::Past(key) => Bound::At(first_of_column(key)),
            Bound::Row(row) => Bound::Row(row),
            Bound::PastRow(row) => Bound::PastRow(row),
            Bound::Open => Bound::Open,
        };
        Range {
            start,
            end: self.end,
        }
    }
}
