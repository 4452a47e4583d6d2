//! The tests of a cut, of which a range's tests are made.
ghost use Rattle.std.specs.Prelude.{◌≡◌, ◌&&◌};
ghost use Rattle.tablet_model.specs.Cell.{CellKey};
ghost use Rattle.tablet_model.specs.Cuts.{is_behind, is_before, is_row_reached};
ghost use Rattle.tablet_model.specs.Places.{is_after};
ghost use Rattle.cell_key.specs.Ranges.{cut_of, place_of, IsAtMostRow};
ghost use Rattle.cell_key.specs.RowBounds.{HasShortRow};
ghost use Rattle.cell_key.specs.Views.{key_of};

use crate::key_ref::KeyRef;
use crate::order::compare;
use crate::range::{Bound, Position};

/// Whether the key lies behind a range's start. It takes no memory.
pub fn lies_behind(start: &Bound<'_>, key: KeyRef<'_>) -> bool
    ensures { result ≡ is_behind (cut_of start.now) (key_of key.entry) }
{
    match start {
        Bound::Open => true,
        Bound::At(bound) => compare(key, *bound).is_ge(),
        Bound::Past(bound) => compare(key, *bound).is_gt(),
        Bound::Row(row) => key.row.cmp(*row).is_ge(),
        Bound::PastRow(row) => key.row.cmp(*row).is_gt(),
    }
}

/// Whether the key lies before a range's end. It takes no memory.
pub fn lies_before(end: &Bound<'_>, key: KeyRef<'_>) -> bool
    ensures { result ≡ is_before (cut_of end.now) (key_of key.entry) }
{
    match end {
        Bound::Open => true,
        Bound::At(bound) => compare(key, *bound).is_lt(),
        Bound::Past(bound) => compare(key, *bound).is_le(),
        Bound::Row(row) => key.row.cmp(*row).is_lt(),
        Bound::PastRow(row) => key.row.cmp(*row).is_le(),
    }
}

/// Whether the start lies before the end of the row.
pub(crate) fn starts_within(start: &Bound<'_>, row: &[u8]) -> bool
    ensures { result ≡ is_row_reached (cut_of start.now) row.now }
{
    match start {
        Bound::Open => true,
        Bound::At(bound) | Bound::Past(bound) => bound.row.cmp(row).is_le(),
        Bound::Row(own) | Bound::PastRow(own) => (*own).cmp(row).is_le(),
    }
}

/// The later of a start and a position.
pub(crate) fn start_after<'a>(start: Bound<'a>, position: &'a Position) -> Bound<'a>
    requires short { HasShortRow start }
    requires row { IsAtMostRow position.now }
    ensures start { (k : CellKey) →
        is_behind (cut_of result) k ≡ is_behind (cut_of start.entry) k && is_after (place_of position.now) k }
    ensures short { HasShortRow result }
{
    match position {
        Position::Start => start,
        Position::AfterKey(last) => {
            let key = last.key();
            if lies_behind(&start, key) {
                return Bound::Past(key);
            }
            start
        }
        Position::AfterRow(last) => {
            let row = last.bytes();
            if starts_within(&start, row) {
                return Bound::PastRow(row);
            }
            start
        }
    }
}
