//! The order of entries that come one behind the other.
ghost use Rattle.std.specs.Prelude.{◌≡◌, option_map};
ghost use Rattle.cell_key.specs.Views.{cell_of};
ghost use Rattle.iter_contract.specs.Following.{is_out_of_order};

use cell_key::{EntryRef, compare_entries};

/// Whether an entry sorts before the one before it, if there is one. It takes no memory.
#[tactic(auto, unfolding(tablet_model::specs::Order::above))]
pub fn is_out_of_order(before: Option<EntryRef<'_>>, entry: EntryRef<'_>) -> bool
    ensures { result ≡ is_out_of_order (option_map cell_of before.entry) (cell_of entry.entry) }
{
    match before {
        None => false,
        Some(before) => compare_entries(before, entry).is_gt(),
    }
}
