// The file of what a compaction makes.
ghost use Rattle.std.specs.Prelude.{◌≡◌, ◌++◌, IfOk, OnOk};
ghost use Rattle.std.specs.List.{AllByRecursion};
ghost use Rattle.tablet_model.specs.Order.{above};
ghost use Rattle.tablet_model.specs.Reading.{AreUnmarkedRead};
ghost use Rattle.tablet_model.specs.Sorted.{Ascends};
ghost use Rattle.iter_config.specs.Stages.{stages_of};
ghost use Rattle.compactor.specs.FileValues.{HasShortValue};
ghost use Rattle.iter_stack.specs.Usages.{usage_cells};
ghost use Rattle.sorted_file.specs.declared.version.Version.TheVariants.{Two};

use cell_key::{Bound, NoMemory, Range};
use iter_config::Config;
use iter_contract::SortedSource;
use iter_stack::{Usage, build};
use sorted_file::{FileBuilder, SortedFile};
use std::alloc::Global;

/// All keys.
pub const ALL_KEYS: Range<'static> = Range {
    start: Bound::Open,
    end: Bound::Open,
};

/// The file of what the iterators of a configuration that run in a usage make of a source, which may have been sought or
/// not. The configuration has to read each value of the source that is no marker's, and a file has to take each value of
/// what is made. The image is one of version 2. It takes memory.
pub fn compact<S: SortedSource>(
    alloc: Global,
    config: &Config,
    usage: Usage,
    source: S,
) -> Result<SortedFile, NoMemory>
    requires valid { S.valid source }
    requires read { AreUnmarkedRead (stages_of config.now) (S.cells source) }
    requires short { AllByRecursion HasShortValue (usage_cells config.now usage (S.cells source)) }
    ensures { IfOk result (λ file. file ≡ record { version = Two; cells = usage_cells config.now usage (S.cells source) }) }
{
    let stack = build(alloc, config, usage, source)?;
    file_of(alloc, stack)
}

/// A file of all entries of a source.
fn file_of<S: SortedSource>(alloc: Global, source: S) -> Result<SortedFile, NoMemory>
    requires valid { S.valid source }
    requires short { AllByRecursion HasShortValue (S.cells source) }
    ensures { IfOk result (λ file. file ≡ record { version = Two; cells = S.cells source }) }
{
    let mut source = source;
    let mut builder = FileBuilder::new(alloc)?;
    source.seek(&ALL_KEYS)?;
    push_rest(&mut source, &mut builder)?;
    builder.finish()
}

/// Puts the entries that a source has left at the end of a file.
fn push_rest<S: SortedSource>(source: &mut S, builder: &mut FileBuilder) -> Result<(), NoMemory>
    requires valid { S.valid source.old }
    requires order { Ascends above (builder.old ++ S.rest source.old) }
    requires short { AllByRecursion HasShortValue (S.rest source.old) }
    ensures { OnOk result (builder.new ≡ builder.old ++ S.rest source.old) }
{
    while let Some(entry) = source.top() {
        builder.push(entry)?;
        source.next()?;
    }
    Ok(())
}
