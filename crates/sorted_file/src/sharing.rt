//! How many parts of its key an entry shares with the one before it.
ghost use Rattle.std.specs.Prelude.{◌≡◌, option_map};
ghost use Rattle.cell_key.specs.Views.{cell_of, key_of};
ghost use Rattle.sorted_file.specs.Image.{equal_parts, shared_parts};

use cell_key::{EntryRef, KeyRef};

/// How many leading parts two keys have in common, of row, family, qualifier and visibility.
#[tactic(auto, unfolding(crate::specs::Image::equal_parts))]
fn equal_parts(a: KeyRef<'_>, b: KeyRef<'_>) -> u8
    ensures { result ≡ equal_parts (key_of a.entry) (key_of b.entry) }
{
    if a.row != b.row {
        return 0;
    }
    if a.family != b.family {
        return 1;
    }
    if a.qualifier != b.qualifier {
        return 2;
    }
    if a.visibility != b.visibility {
        return 3;
    }
    4
}

/// How many parts an entry shares with its neighbour, if it has one: as many as may be.
pub fn shared_parts(near: Option<EntryRef<'_>>, entry: EntryRef<'_>) -> u8
    ensures { result ≡ shared_parts (option_map cell_of near.entry) (cell_of entry.entry) }
{
    match near {
        Some(near) => equal_parts(near.key, entry.key),
        None => 0,
    }
}
