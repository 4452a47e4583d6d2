//! Stacks by configuration and usage.
ghost use Rattle.std.specs.Prelude.{IfOk};
ghost use Rattle.tablet_model.specs.Reading.{AreUnmarkedRead};
ghost use Rattle.iter_config.specs.Stages.{stages_of};
ghost use Rattle.iter_contract.specs.Copies.{IsCopy};
ghost use Rattle.iter_stack.specs.Stacks.{stack_cells, stack_rest, stack_steady, stack_valid};
ghost use Rattle.iter_stack.specs.Usages.{usage_cells, usage_steady};

use crate::levels::{bottom, four_over};
use crate::stack::Stack;
use crate::usage::Usage;
use cell_key::NoMemory;
use iter_config::Config;
use iter_contract::SortedSource;
use std::alloc::Global;

/// The iterators of a configuration that run in a usage, over a leaf, which may have been sought or not. The
/// configuration has to read each value of the leaf that is no marker's. It takes memory, and so do the calls of a stack
/// that is not steady.
pub fn build<S: SortedSource>(
    alloc: Global,
    config: &Config,
    usage: Usage,
    leaf: S,
) -> Result<Stack<S>, NoMemory>
    requires valid { S.valid leaf }
    requires read { AreUnmarkedRead (stages_of config.now) (S.cells leaf) }
    ensures { IfOk result (λ it. IsCopy
        (usage_cells config.now usage (S.cells leaf))
        (usage_steady config.now usage (S.steady leaf))
        (stack_cells S.cells it) (stack_rest S.cells S.rest it) (stack_steady S.steady it)
        (stack_valid S.cells S.rest S.valid it)) }
{
    // There is a level for each iterator.
    prove!(config.count() <= 16);
    let bottom = bottom(alloc, usage, leaf)?;
    let one = four_over(alloc, config, usage, 0, bottom)?;
    let two = four_over(alloc, config, usage, 4, one)?;
    let three = four_over(alloc, config, usage, 8, two)?;
    let levels = four_over(alloc, config, usage, 12, three)?;
    Ok(Stack { levels })
}
