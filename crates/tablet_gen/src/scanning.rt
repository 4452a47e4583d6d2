//! Scans of which only the totals are kept.
ghost use Rattle.std.specs.Prelude.{IfOk, None};
ghost use Rattle.tablet_model.specs.Answers.{answer};
ghost use Rattle.tablet_model.specs.Cuts.{within};
ghost use Rattle.tablet_model.specs.Reading.{AreUnmarkedRead};
ghost use Rattle.tablet_model.specs.Stages.{stages};
ghost use Rattle.iter_config.specs.Stages.{stages_of};
ghost use Rattle.iter_stack.specs.Usages.{usage_cells};
ghost use Rattle.iter_stack.specs.declared.usage.Usage.TheVariants as usage;
ghost use Rattle.script_text.specs.Scans.{all_keys};
ghost use Rattle.tablet_gen.specs.Scanned.{AreTotalsOf};

use crate::totals::Totals;
use cell_key::{Bound, Families, NoMemory, Range};
use iter_config::Config;
use iter_contract::SortedSource;
use iter_stack::{Usage, build};
use std::alloc::Global;
use tablet_view::View;

/// The totals of all that a source has.
fn totals_of<S: SortedSource>(source: S) -> Result<Totals, NoMemory>
    requires { S.valid source }
    ensures { IfOk result (AreTotalsOf (within all_keys (S.cells source))) }
{
    let mut source = source;
    source.seek(&Range {
        start: Bound::Open,
        end: Bound::Open,
    })?;
    Totals::of_rest(&mut source)
}

/// The totals of what the iterators of a configuration for scans show of a leaf.
fn totals_of_scan<S: SortedSource>(
    alloc: Global,
    config: &Config,
    leaf: S,
) -> Result<Totals, NoMemory>
    requires valid { S.valid leaf }
    requires read { AreUnmarkedRead (stages_of config.now) (S.cells leaf) }
    ensures { IfOk result (AreTotalsOf (within all_keys (usage_cells config.now usage.Scan (S.cells leaf)))) }
{
    totals_of(build(alloc, config, Usage::Scan, leaf)?)
}

/// The totals of a whole scan of a view.
pub fn totals_of_view(alloc: Global, view: &View) -> Result<Totals, NoMemory>
    ensures { IfOk result (AreTotalsOf (answer (stages (stages_of view.now.config)) all_keys None view.now.log)) }
{
    let source = view.source(alloc, &Families::all())?;
    totals_of_scan(alloc, view.config(), source)
}
