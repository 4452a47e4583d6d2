//! The order of several sources by their tops.
ghost use Rattle.std.specs.Prelude.{◌≡◌, ◌<◌, length, option_map};
ghost use Rattle.std.specs.List.{AllByRecursion, prefix_len};
ghost use Rattle.tablet_model.specs.Sorted.{first, sorted};
ghost use Rattle.cell_key.specs.Views.{cell_of};
ghost use Rattle.iter_contract.specs.Several.{comes_before, has_later_top, settled};

use crate::source::SortedSource;
use cell_key::{EntryRef, compare_entries};

/// Puts the sources in the order of their tops.
pub(crate) fn put_in_order<S: SortedSource>(sources: &mut [S])
    requires { AllByRecursion S.valid sources.old }
    ensures { sources.new ≡ sorted (has_later_top S.rest) sources.old }
{
    let mut place = sources.len();
    while place > 0 {
        place -= 1;
        settle(&mut sources[place..]);
    }
}

/// Moves the first source behind those that follow it at once and whose tops come before its own.
pub(crate) fn settle<S: SortedSource>(sources: &mut [S])
    requires { AllByRecursion S.valid sources.old }
    ensures { sources.new ≡ settled S.rest sources.old }
{
    if let Some((first, others)) = sources.split_first() {
        let passed = count_ahead(others, first.top());
        sources[..passed + 1].rotate_left(1);
    }
}

/// How many of the sources, from the first on, have a top that comes before this one.
fn count_ahead<S: SortedSource>(sources: &[S], top: Option<EntryRef<'_>>) -> usize
    requires { AllByRecursion S.valid sources.now }
    ensures { result ≡ prefix_len (λ s. comes_before (first (S.rest s)) (option_map cell_of top.entry)) sources.now }
{
    for (place, source) in sources.iter().enumerate() {
        if !comes_before(source.top(), top) {
            return place;
        }
    }
    sources.len()
}

/// Whether a top sorts before another. Each top comes before none.
#[tactic(auto, unfolding(tablet_model::specs::Order::above))]
fn comes_before(top: Option<EntryRef<'_>>, other: Option<EntryRef<'_>>) -> bool
    ensures { result ≡ comes_before (option_map cell_of top.entry) (option_map cell_of other.entry) }
{
    match (top, other) {
        (Some(top), Some(other)) => compare_entries(other, top).is_gt(),
        (Some(_), None) => true,
        (None, _) => false,
    }
}
