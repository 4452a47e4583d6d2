//! Which entries may be parted from each other, and where a reader stands behind one.
ghost use Rattle.std.specs.Prelude.{◌≡◌, IfOk};
ghost use Rattle.cell_key.specs.Ranges.{place_of, IsAtMostRow};
ghost use Rattle.cell_key.specs.Views.{cell_of, key_of};
ghost use Rattle.source_switch.specs.Parting.{mode_of, behind, together, stands_behind};

use cell_key::{ByteText, EntryRef, Key, KeyRef, NoMemory, Position, compare};
use std::alloc::Global;

/// Whether two entries may not be parted: those of one row, where only whole rows are parted, or else those of one key. It
/// takes no memory.
#[tactic(auto, unfolding(crate::specs::Parting::together))]
pub fn are_together(a: EntryRef<'_>, b: EntryRef<'_>, rows: bool) -> bool
    ensures { result ≡ together (mode_of rows) (cell_of a.entry) (cell_of b.entry) }
{
    if rows {
        a.key.row.cmp(b.key.row).is_eq()
    } else {
        compare(a.key, b.key).is_eq()
    }
}

/// The position behind an entry: behind its row, where only whole rows are parted, or else behind its key. It takes memory.
#[tactic(auto, unfolding(crate::specs::Parting::behind))]
pub fn position_behind(alloc: Global, entry: EntryRef<'_>, rows: bool) -> Result<Position, NoMemory>
    ensures place { IfOk result (λ position. place_of position ≡ behind (mode_of rows) (cell_of entry.entry)) }
    ensures row { IfOk result IsAtMostRow }
{
    let key = entry.key;
    if rows {
        Ok(Position::AfterRow(ByteText::of(alloc, key.row)?))
    } else {
        Ok(Position::AfterKey(Key::of(alloc, key)?))
    }
}

/// Whether a position is the one behind an entry of this key, or of its row.
pub(crate) fn stands_behind(position: &Position, key: KeyRef<'_>) -> bool
    ensures { result ≡ stands_behind (place_of position.now) (key_of key.entry) }
{
    match position {
        Position::Start => false,
        Position::AfterKey(last) => compare(last.key(), key).is_eq(),
        Position::AfterRow(row) => row.as_slice().cmp(key.row).is_eq(),
    }
}
