//! What a fetch gives of a source, and over which view.
ghost use Rattle.std.specs.Prelude.{◌≡◌, ◌++◌, true, false, Some, List, IfOk, OnOk};
ghost use Rattle.std.specs.Arc.{arc_value};
ghost use Rattle.std.specs.Option.{ForSome};
ghost use Rattle.tablet_io.specs.Causes.{Rose};
ghost use Rattle.tablet_model.specs.Cell.{Cell};
ghost use Rattle.tablet_model.specs.Cuts.{within};
ghost use Rattle.tablet_model.specs.Places.{Place};
ghost use Rattle.cell_key.specs.Ranges.{span_of, IsAtMostRow};
ghost use Rattle.tablet_view.specs.Extending.{Extends};
ghost use Rattle.tablet_view.specs.Snapshot.{Snapshot};
ghost use Rattle.scan_session.specs.Looks.{Leads, Holds, IsLater};
ghost use Rattle.scan_session.specs.Runs.{place_behind};
ghost use Rattle.scan_session.specs.Takes.{mode_of, place_after, take_together};
ghost use Rattle.scan_session.specs.Walks.{fetch_pieces, end_of};

use crate::piece::{Fetched, pieces_of};
use crate::run::{position_behind_run, take_run};
use crate::views::Views;
use cell_key::{NoMemory, Position, Range};
use iter_contract::SortedSource;
use std::alloc::Global;
use std::sync::Arc;
use tablet_view::View;

/// The newest view: what `views` answers, or the pinned one where that is no older.
pub(crate) fn newest<V: Views>(pinned: &Arc<View>, views: &mut V) -> Result<Arc<View>, NoMemory>
    requires { Leads (V.looks views.old) (V.newest views.old) (arc_value pinned.now) }
    ensures extends { IfOk result (λ view. Extends (arc_value view) (arc_value pinned.now)) }
    ensures own { V.looks views.old ≡ false → IfOk result (λ view. arc_value view ≡ arc_value pinned.now) }
    ensures before { IfOk result (λ view. Holds (V.newest views.old) (arc_value view)) }
    ensures after { IfOk result (λ view. Holds (V.newest views.new) (arc_value view)) }
    ensures asked { OnOk result (Rose (V.questions views.old) (V.questions views.new)) }
    ensures home { (V.home views.new ≡ V.home views.old) × (V.looks views.new ≡ V.looks views.old) }
    ensures leads { Leads (V.looks views.new) (V.newest views.new) (arc_value pinned.now) }
    ensures led { IfOk result (λ view. Leads (V.looks views.new) (V.newest views.new) (arc_value view)) }
    ensures later { IsLater (V.looks views.old) (V.newest views.old) (V.newest views.new) }
{
    match views.newer(pinned.version())? {
        Some(view) => Ok(view),
        None => Ok(Arc::try_clone(pinned)?),
    }
}

/// What a fetch at a number of mutations gives of what a source has in a range, and the position behind it, if it gives an entry.
#[tactic(auto, unfolding(crate::specs::Walks::fetch_pieces))]
pub(crate) fn fetched_from<S: SortedSource>(
    alloc: Global,
    source: S,
    range: &Range<'_>,
    isolated: bool,
    count: u32,
    n: u64,
) -> Result<(Fetched, Option<Position>), NoMemory>
    requires { S.valid source }
    ensures pieces { IfOk result (λ given. given.0.pieces ≡ fetch_pieces (mode_of isolated) count n (within (span_of range.now) (S.cells source))) }
    ensures place { IfOk result (λ given. (old : Place) →
        place_behind given.1 old ≡ place_after (mode_of isolated) old (take_together (mode_of isolated) count (within (span_of range.now) (S.cells source)))) }
    ensures row { IfOk result (λ given. ForSome given.1 IsAtMostRow) }
    ensures ended { IfOk result (λ given. (left : List Cell) →
        within (span_of range.now) (S.cells source) ≡ take_together (mode_of isolated) count (within (span_of range.now) (S.cells source)) ++ left
        → given.0.ended ≡ end_of n left) }
{
    let mut source = source;
    source.seek(range)?;
    fetched_rest(alloc, &mut source, isolated, count, n)
}

/// What it gives of what is left of a source.
#[tactic(auto, unfolding(crate::specs::Walks::fetch_pieces))]
fn fetched_rest<S: SortedSource>(
    alloc: Global,
    source: &mut S,
    isolated: bool,
    count: u32,
    n: u64,
) -> Result<(Fetched, Option<Position>), NoMemory>
    requires { S.valid source.old }
    ensures pieces { IfOk result (λ given. given.0.pieces ≡ fetch_pieces (mode_of isolated) count n (S.rest source.old)) }
    ensures place { IfOk result (λ given. (old : Place) →
        place_behind given.1 old ≡ place_after (mode_of isolated) old (take_together (mode_of isolated) count (S.rest source.old))) }
    ensures row { IfOk result (λ given. ForSome given.1 IsAtMostRow) }
    ensures ended { IfOk result (λ given. (left : List Cell) →
        S.rest source.old ≡ take_together (mode_of isolated) count (S.rest source.old) ++ left → given.0.ended ≡ end_of n left) }
{
    let run = take_run(alloc, source, isolated, count)?;
    let ended = end_at(source, n);
    let position = position_behind_run(alloc, &run, isolated)?;
    let pieces = pieces_of(alloc, n, run)?;
    Ok((Fetched { pieces, ended }, position))
}

/// The number of mutations, where nothing is left of a source.
fn end_at<S: SortedSource>(source: &S, n: u64) -> Option<u64>
    requires { S.valid source.now }
    ensures { result ≡ end_of n (S.rest source.now) }
{
    match source.top() {
        Some(_) => None,
        None => Some(n),
    }
}
