//! Seeks and steps over any sources.
ghost use Rattle.std.specs.Prelude.{◌≡◌, ◌<◌, ◌≤◌, ◌+◌, true, [], map, ℕ, IsSome, IsOk, List, is_ok, if◌then◌else◌, length, option_map};
ghost use Rattle.std.specs.Arc.{arc_value};
ghost use Rattle.std.specs.List.{AllByRecursion};
ghost use Rattle.tablet_model.specs.Cell.{Cell};
ghost use Rattle.tablet_model.specs.Order.{above};
ghost use Rattle.tablet_model.specs.Cuts.{within};
ghost use Rattle.tablet_model.specs.Sorted.{first, later, Ascends};
ghost use Rattle.cell_key.specs.Ranges.{span_of};
ghost use Rattle.cell_key.specs.Views.{cell_of};
ghost use Rattle.iter_contract.specs.Several.{all_steady};
ghost use Rattle.intersecting.specs.Firsts.{at_first};
ghost use Rattle.intersecting.specs.IntersectStages.{intersect_cells, intersect_left, IntersectFits};

use crate::beginning::{begin, document_key};
use crate::searching::search;
use crate::stage::IntersectStage;
use cell_key::{EntryRef, NoMemory, Range, lies_before};
use iter_contract::SortedSource;

/// Begins at the first document in the range that has all terms and none of the others. Where all sources are steady it takes no
/// memory and succeeds; after `NoMemory` nothing is left.
pub fn intersect_seek<S: SortedSource>(
    sources: &mut [S],
    stage: &mut IntersectStage,
    range: &Range<'_>,
) -> Result<(), NoMemory>
    requires valid { AllByRecursion S.valid sources.old }
    requires same { AllByRecursion (λ cells. cells ≡ at_first S.cells [] sources.old) (map S.cells sources.old) }
    requires fits { IntersectFits stage.old (length sources.old) (at_first S.cells [] sources.old) }
    ensures valid { AllByRecursion S.valid sources.new }
    ensures cells { map S.cells sources.new ≡ map S.cells sources.old }
    ensures steady { map S.steady sources.new ≡ map S.steady sources.old }
    ensures terms { arc_value stage.new.terms ≡ arc_value stage.old.terms }
    ensures without { arc_value stage.new.without ≡ arc_value stage.old.without }
    ensures fits { IntersectFits stage.new (length sources.old) (at_first S.cells [] sources.old) }
    ensures left { intersect_left stage.new (at_first S.cells [] sources.old)
        ≡ (if is_ok result then within (span_of range.now) (intersect_cells stage.old (at_first S.cells [] sources.old)) else []) }
    ensures works { all_steady S.steady sources.old ≡ true → IsOk result }
{
    stage.is_held = false;
    stage.range.set(range);
    if let Some(behind) = begin(&mut sources[0], &mut stage.column, range.start)? {
        stage.is_held = search(
            sources,
            &mut stage.column,
            stage.terms.as_slice(),
            stage.without.as_slice(),
            behind,
        )?;
    }
    Ok(())
}

/// The entry of the first document that is left, and `None` where none is. It takes no memory.
pub fn intersect_top(stage: &IntersectStage) -> Option<EntryRef<'_>>
    requires kept { stage.now.is_held ≡ true → IsSome stage.now.column }
    ensures { (sources : ℕ) → (cells : List Cell) → Ascends above cells → IntersectFits stage.now sources cells →
        option_map cell_of result ≡ first (intersect_left stage.now cells) }
{
    if !stage.is_held {
        return None;
    }
    let key = document_key(stage.column.key(0, false));
    let range = stage.range.range();
    if lies_before(&range.end, key) {
        Some(EntryRef { key, value: &[] })
    } else {
        None
    }
}

/// Drops the first document that is left, of which there has to be one. Where all sources are steady it takes no memory and
/// succeeds; after `NoMemory` nothing is left.
pub fn intersect_next<S: SortedSource>(
    sources: &mut [S],
    stage: &mut IntersectStage,
) -> Result<(), NoMemory>
    requires valid { AllByRecursion S.valid sources.old }
    requires same { AllByRecursion (λ cells. cells ≡ at_first S.cells [] sources.old) (map S.cells sources.old) }
    requires fits { IntersectFits stage.old (length sources.old) (at_first S.cells [] sources.old) }
    requires top { 0 < length (intersect_left stage.old (at_first S.cells [] sources.old)) }
    ensures valid { AllByRecursion S.valid sources.new }
    ensures cells { map S.cells sources.new ≡ map S.cells sources.old }
    ensures steady { map S.steady sources.new ≡ map S.steady sources.old }
    ensures terms { arc_value stage.new.terms ≡ arc_value stage.old.terms }
    ensures without { arc_value stage.new.without ≡ arc_value stage.old.without }
    ensures fits { IntersectFits stage.new (length sources.old) (at_first S.cells [] sources.old) }
    ensures left { intersect_left stage.new (at_first S.cells [] sources.old)
        ≡ (if is_ok result then later (intersect_left stage.old (at_first S.cells [] sources.old)) else []) }
    ensures works { all_steady S.steady sources.old ≡ true → IsOk result }
{
    stage.is_held = false;
    stage.is_held = search(
        sources,
        &mut stage.column,
        stage.terms.as_slice(),
        stage.without.as_slice(),
        true,
    )?;
    Ok(())
}
