//! Levels for the iterators of a configuration.
ghost use Rattle.std.specs.Prelude.{◌≡◌, ◌≤◌, ◌+◌, [], IfOk, slice_get};
ghost use Rattle.iter_config.specs.Limits.{IsLimited};
ghost use Rattle.iter_contract.specs.Copies.{IsCopy};
ghost use Rattle.iter_stack.specs.LevelStages.{IsFresh};
ghost use Rattle.iter_stack.specs.Levels.{level_cells, level_rest, level_steady, level_valid};
ghost use Rattle.iter_stack.specs.Fours.{four_cells, four_rest, four_steady, four_valid};
ghost use Rattle.iter_stack.specs.Places.{bottom_cells, made_at, steady_at, CountsAt, KindCounts, TakesAt, four_made, steady_by_four, FourTake};

use crate::four::Four;
use crate::level::Level;
use crate::stage::LevelStage;
use crate::usage::Usage;
use cell_key::NoMemory;
use iter_config::{Config, Kind};
use iter_contract::SortedSource;
use std::alloc::Global;

/// What deletes leave of a leaf, which may have been sought or not.
#[tactic(auto, unfolding(crate::specs::Levels::level_cells, crate::specs::Levels::level_rest, crate::specs::Levels::level_steady, crate::specs::Levels::level_valid))]
pub(crate) fn bottom<S: SortedSource>(
    alloc: Global,
    usage: Usage,
    leaf: S,
) -> Result<Level<S>, NoMemory>
    requires { S.valid leaf }
    ensures { IfOk result (λ it. IsCopy (bottom_cells usage (S.cells leaf)) (S.steady leaf)
        (level_cells S.cells it) (level_rest S.cells S.rest it) (level_steady S.steady it)
        (level_valid S.cells S.rest S.valid it)) }
{
    let stage = LevelStage::bottom(alloc, usage)?;
    Level::over(alloc, leaf, 0, stage)
}

/// The stage of the iterator at place `i`, if there is one and it runs.
fn stage_at(alloc: Global, config: &Config, usage: Usage, i: usize) -> Result<LevelStage, NoMemory>
    ensures { IfOk result (IsFresh (made_at usage (slice_get config.now.iterators i)) (steady_at usage (slice_get config.now.iterators i))
        (TakesAt usage (slice_get config.now.iterators i)) (CountsAt usage (slice_get config.now.iterators i))) }
{
    if i < config.count() {
        let spec = config.iterator(i);
        if usage.runs(spec) {
            return LevelStage::of(alloc, &spec.kind);
        }
    }
    Ok(LevelStage::Same)
}

/// How many further sources the kind has: an intersection one for each term behind the first.
fn copies_of(kind: &Kind) -> usize
    requires { IsLimited kind.now }
    ensures { KindCounts kind.now (1 + result) }
{
    match kind {
        Kind::Intersecting { terms, without } => terms.len() - 1 + without.len(),
        Kind::Filter { .. } | Kind::Versions { .. } | Kind::Combine { .. } | Kind::WholeRow => 0,
    }
}

/// How many further sources the iterator at place `i` has, if there is one and it runs.
fn copies_at(config: &Config, usage: Usage, i: usize) -> usize
    ensures { CountsAt usage (slice_get config.now.iterators i) (1 + result) }
{
    if i < config.count() {
        let spec = config.iterator(i);
        if usage.runs(spec) {
            return copies_of(&spec.kind);
        }
    }
    0
}

/// The iterator at place `i` over a source that was not sought.
#[tactic(auto, unfolding(crate::specs::Levels::level_cells, crate::specs::Levels::level_rest, crate::specs::Levels::level_steady, crate::specs::Levels::level_valid))]
fn level_at<S: SortedSource>(
    alloc: Global,
    config: &Config,
    usage: Usage,
    i: usize,
    source: S,
) -> Result<Level<S>, NoMemory>
    requires unsought { S.rest source ≡ [] }
    requires valid { S.valid source }
    requires takes { TakesAt usage (slice_get config.now.iterators i) (S.cells source) }
    ensures { IfOk result (λ it. IsCopy
        (made_at usage (slice_get config.now.iterators i) (S.cells source))
        (steady_at usage (slice_get config.now.iterators i) (S.steady source))
        (level_cells S.cells it) (level_rest S.cells S.rest it) (level_steady S.steady it)
        (level_valid S.cells S.rest S.valid it)) }
{
    let stage = stage_at(alloc, config, usage, i)?;
    let copies = copies_at(config, usage, i);
    Level::over(alloc, source, copies, stage)
}

/// The iterator at place `i` and the three behind it, as many as there are, over a source that was not sought.
#[tactic(auto, using(crate::proofs::Past::made_past, crate::proofs::Past::steady_past), unfolding(crate::specs::Fours::four_cells, crate::specs::Fours::four_rest, crate::specs::Fours::four_steady, crate::specs::Fours::four_valid))]
pub(crate) fn four_over<S: SortedSource>(
    alloc: Global,
    config: &Config,
    usage: Usage,
    i: usize,
    source: S,
) -> Result<Four<S>, NoMemory>
    requires few { i ≤ 12 }
    requires unsought { S.rest source ≡ [] }
    requires valid { S.valid source }
    requires take { FourTake usage config.now.iterators i (S.cells source) }
    ensures { IfOk result (λ it. IsCopy
        (four_made usage config.now.iterators i (S.cells source))
        (steady_by_four usage config.now.iterators i (S.steady source))
        (four_cells S.cells it) (four_rest S.cells S.rest it) (four_steady S.steady it)
        (four_valid S.cells S.rest S.valid it)) }
{
    if config.count() <= i {
        return Ok(Four::Bare(source));
    }
    let one = level_at(alloc, config, usage, i, source)?;
    let two = level_at(alloc, config, usage, i + 1, one)?;
    let three = level_at(alloc, config, usage, i + 2, two)?;
    let levels = level_at(alloc, config, usage, i + 3, three)?;
    Ok(Four::Levels(levels))
}
