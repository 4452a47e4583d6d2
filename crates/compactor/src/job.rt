ghost use Rattle.std.specs.Prelude.{◌≡◌, ⊤, map, IfOk};
ghost use Rattle.std.specs.Arc.{arc_value};
ghost use Rattle.tablet_model.specs.Rules.{AreStorable};
ghost use Rattle.iter_config.specs.RulesOf.{rules_of};
ghost use Rattle.merge_iter.specs.MergeParts.{merge_cells, merge_valid};
ghost use Rattle.compactor.specs.PartCells.{part_cells, part_rest, union_of};
ghost use Rattle.compactor.specs.Compacted.{entries_made};
ghost use Rattle.iter_stack.specs.Usages.{usage_cells};
ghost use Rattle.iter_stack.specs.declared.usage.Usage.TheVariants.{Scan};

use crate::part_cursor::PartCursor;
use crate::writing::compact;
use cell_key::NoMemory;
use iter_config::Config;
use iter_contract::SortedSource;
use iter_stack::Usage;
use merge_iter::MergeIter;
use sorted_file::SortedFile;
use std::alloc::Global;
use std::marker::Model;
use std::sync::Arc;

/// A compaction that is to be made: by which configuration, of which kind, and of which parts. Contracts see the parts'
/// entries in one order. It may be run in another thread.
#[derive(Drop)]
pub struct Job {
    config: Arc<Config>,
    usage: Usage,
    parts: Arc<Vec<PartCursor>>,
}

impl Model for Job {
    ghost use Rattle.std.specs.Prelude.{◌≡◌};
    ghost use Rattle.std.specs.Arc.{arc_value};
    ghost use Rattle.tablet_model.specs.Rules.{AreStorable};
    ghost use Rattle.iter_config.specs.RulesOf.{rules_of};
    ghost use Rattle.compactor.specs.PartCells.{union_of};
    ghost use Rattle.compactor.specs.Compacted.{Compaction};
    ghost use Rattle.iter_stack.specs.declared.usage.Usage.TheVariants.{Scan};

    ghost Value = { Compaction };

    ghost view = { λ j. record {
      config = arc_value j.config;
      usage = j.usage;
      input = union_of (arc_value j.parts).items;
    } };

    ghost invariant = { λ j. (¬ (j.usage ≡ Scan))
        × AreStorable (rules_of (arc_value j.config)) (union_of (arc_value j.parts).items) };
}

/// A compaction that was made, and the file of what it made.
#[derive(Drop)]
pub struct DoneJob {
    config: Arc<Config>,
    usage: Usage,
    parts: Arc<Vec<PartCursor>>,
    file: Arc<SortedFile>,
}

impl Model for DoneJob {
    ghost use Rattle.std.specs.Prelude.{◌≡◌};
    ghost use Rattle.std.specs.Arc.{arc_value};
    ghost use Rattle.compactor.specs.PartCells.{union_of};
    ghost use Rattle.compactor.specs.Compacted.{Compaction, entries_made};

    ghost Value = { Compaction };

    ghost view = { λ d. record {
      config = arc_value d.config;
      usage = d.usage;
      input = union_of (arc_value d.parts).items;
    } };

    ghost invariant = { λ d. (arc_value d.file).cells ≡ entries_made record {
      config = arc_value d.config;
      usage = d.usage;
      input = union_of (arc_value d.parts).items;
    } };
}

impl Job {
    /// The job of compacting these parts, whose entries have to be those that mutations give under this configuration. It
    /// takes memory.
    pub fn new(
        alloc: Global,
        config: Arc<Config>,
        usage: Usage,
        parts: Vec<PartCursor>,
    ) -> Result<Job, NoMemory>
        requires compacts { ¬ (usage ≡ Scan) }
        requires storable { AreStorable (rules_of (arc_value config)) (union_of parts.items) }
        ensures { IfOk result (λ job. job ≡ record {
          config = arc_value config;
          usage = usage;
          input = union_of parts.items;
        }) }
    {
        let parts = Arc::new(alloc, parts)?;
        Ok(Job {
            config,
            usage,
            parts,
        })
    }

    /// The job done: the file of what the configured iterators make of its input. It takes memory.
    pub fn run(&self, alloc: Global) -> Result<DoneJob, NoMemory>
        ensures { IfOk result (λ done. done ≡ self.now) }
    {
        let file = compact_parts(alloc, &self.config, self.usage, self.parts.as_slice())?;
        Ok(DoneJob {
            config: Arc::try_clone(&self.config)?,
            usage: self.usage,
            parts: Arc::try_clone(&self.parts)?,
            file: Arc::new(alloc, file)?,
        })
    }
}

impl DoneJob {
    /// The file. It takes no memory.
    pub fn file(&self) -> &Arc<SortedFile>
        ensures { (arc_value result.now).cells ≡ entries_made self.now }
    {
        &self.file
    }
}

/// The file that a compaction of some parts makes.
fn compact_parts(
    alloc: Global,
    config: &Config,
    usage: Usage,
    parts: &[PartCursor],
) -> Result<SortedFile, NoMemory>
    requires compacts { ¬ (usage ≡ Scan) }
    requires storable { AreStorable (rules_of config.now) (union_of parts.now) }
    ensures { IfOk result (λ file. file.cells ≡ usage_cells config.now usage (union_of parts.now)) }
{
    // The configuration is accepted, so that its compactions keep what a store may have.
    prove!(config.count() <= 16);
    let merged = merged(alloc, parts)?;
    compact(alloc, config, usage, merged)
}

/// A source of the entries of some parts in one order.
pub(crate) fn merged(alloc: Global, parts: &[PartCursor]) -> Result<MergeIter<PartCursor>, NoMemory>
    ensures cells { IfOk result (λ it. merge_cells part_cells it ≡ union_of parts.now) }
    ensures valid { IfOk result (merge_valid part_rest (λ _. ⊤)) }
{
    let copies = copies(alloc, parts)?;
    MergeIter::new(alloc, copies)
}

/// A deep copy of each part's cursor.
fn copies(alloc: Global, parts: &[PartCursor]) -> Result<Vec<PartCursor>, NoMemory>
    ensures { IfOk result (λ copies. map part_cells copies.items ≡ map part_cells parts.now) }
{
    let mut copies = Vec::with_capacity(alloc, parts.len())?;
    for part in parts {
        copies.push(part.deep_copy(alloc)?)?;
    }
    Ok(copies)
}
