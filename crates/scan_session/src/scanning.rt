//! What a fetch gives of a scan. It is generic in the leaf of the stack, and calls nothing of the stack itself, since the proof of a
//! call of a whole stack grows with what its types name.
ghost use Rattle.std.specs.Prelude.{◌≡◌, ◌++◌, List, IfOk};
ghost use Rattle.std.specs.Option.{ForSome};
ghost use Rattle.tablet_model.specs.Cell.{Cell};
ghost use Rattle.tablet_model.specs.Cuts.{within};
ghost use Rattle.tablet_model.specs.Places.{Place};
ghost use Rattle.tablet_model.specs.Reading.{AreUnmarkedRead};
ghost use Rattle.cell_key.specs.Ranges.{span_of, IsAtMostRow};
ghost use Rattle.iter_config.specs.Stages.{stages_of};
ghost use Rattle.iter_stack.specs.Usages.{usage_cells};
ghost use Rattle.iter_stack.specs.declared.usage.Usage.TheVariants.{Scan};
ghost use Rattle.scan_session.specs.Runs.{place_behind};
ghost use Rattle.scan_session.specs.Takes.{mode_of, place_after, take_together};
ghost use Rattle.scan_session.specs.Walks.{fetch_pieces, end_of};

use crate::fetching::fetched_from;
use crate::piece::Fetched;
use cell_key::{NoMemory, Position, Range};
use iter_config::Config;
use iter_contract::SortedSource;
use iter_stack::{Usage, build};
use std::alloc::Global;

/// What a fetch at a number of mutations gives of what a scan of a leaf has in a range, and the position behind it, if it gives
/// an entry.
pub(crate) fn fetched_in<S: SortedSource>(
    alloc: Global,
    config: &Config,
    leaf: S,
    range: &Range<'_>,
    isolated: bool,
    count: u32,
    n: u64,
) -> Result<(Fetched, Option<Position>), NoMemory>
    requires valid { S.valid leaf }
    requires read { AreUnmarkedRead (stages_of config.now) (S.cells leaf) }
    ensures pieces { IfOk result (λ given. given.0.pieces
        ≡ fetch_pieces (mode_of isolated) count n (within (span_of range.now) (usage_cells config.now Scan (S.cells leaf)))) }
    ensures place { IfOk result (λ given. (old : Place) → place_behind given.1 old
        ≡ place_after (mode_of isolated) old (take_together (mode_of isolated) count (within (span_of range.now) (usage_cells config.now Scan (S.cells leaf))))) }
    ensures row { IfOk result (λ given. ForSome given.1 IsAtMostRow) }
    ensures ended { IfOk result (λ given. (left : List Cell) → within (span_of range.now) (usage_cells config.now Scan (S.cells leaf))
        ≡ take_together (mode_of isolated) count (within (span_of range.now) (usage_cells config.now Scan (S.cells leaf))) ++ left
        → given.0.ended ≡ end_of n left) }
{
    let stack = build(alloc, config, Usage::Scan, leaf)?;
    fetched_from(alloc, stack, range, isolated, count, n)
}
