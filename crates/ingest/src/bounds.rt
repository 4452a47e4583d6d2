//! The first check: the bounds of a mutation's parts.
ghost use Rattle.std.specs.Prelude.{◌≡◌, ◌≤◌, None, length, map, option_map};
ghost use Rattle.tablet_model.specs.Limits.{max_changes};
ghost use Rattle.tablet_model.specs.Ingest.{first_too_long, out_of_bounds, too_long};
ghost use Rattle.cell_key.specs.Mutations.{change_of, row_change_of};
ghost use Rattle.ingest.specs.Refusals.{part_of, refusal_of};

use crate::refused::Refused;
use cell_key::{MAX_KEY_PART, Mutation, Part, Update};

/// The longest value, in bytes.
const MAX_VALUE: usize = 65_536;

/// The most updates of a mutation.
const MAX_UPDATES: usize = 100;

/// The first part of an update that is too long.
#[tactic(auto, unfolding(tablet_model::specs::Ingest::too_long))]
fn long_part(update: &Update) -> Option<Part>
    ensures { option_map part_of result ≡ too_long (change_of update.now) }
{
    if update.family.len() > MAX_KEY_PART {
        return Some(Part::Family);
    }
    if update.qualifier.len() > MAX_KEY_PART {
        return Some(Part::Qualifier);
    }
    if update.visibility.len() > MAX_KEY_PART {
        return Some(Part::Visibility);
    }
    match &update.value {
        Some(value) if value.len() > MAX_VALUE => Some(Part::Value),
        _ => None,
    }
}

/// The first update with a part that is too long.
fn first_long(updates: &[Update]) -> Option<Refused>
    requires { length updates.now ≤ max_changes }
    ensures { option_map refusal_of result ≡ first_too_long 1 (map change_of updates.now) }
{
    for i in 0..updates.len() {
        if let Some(part) = long_part(&updates[i]) {
            let at = i as u32 + 1;
            return Some(Refused::Bound { at, part });
        }
    }
    None
}

/// What of a mutation is out of bounds first: the row, the number of updates, or a part of an update.
#[tactic(auto, unfolding(tablet_model::specs::Ingest::out_of_bounds))]
pub fn out_of_bounds(mutation: &Mutation) -> Option<Refused>
    ensures refusal { option_map refusal_of result ≡ out_of_bounds (row_change_of mutation.now) }
    ensures few { result ≡ None → length mutation.now.updates ≤ max_changes }
{
    if mutation.row.is_empty() || mutation.row.len() > MAX_KEY_PART {
        return Some(Refused::Bound {
            at: 0,
            part: Part::Row,
        });
    }
    if mutation.updates.is_empty() || mutation.updates.len() > MAX_UPDATES {
        return Some(Refused::Bound {
            at: 0,
            part: Part::Updates,
        });
    }
    first_long(mutation.updates.as_slice())
}
