//! Snapshots of a tablet.
ghost use Rattle.std.specs.Prelude.{◌≡◌, ◌↔◌, ◌<◌, ◌≤◌, ◌+◌, ◌^◌, true, [], ◌∷◌, ◌++◌, Some, None, length, map, slice_get, option_map, unwrap_or, IsTrue, IsSome, IfOk, OnOk, MatchResult};
ghost use Rattle.std.specs.Arc.{arc_value};
ghost use Rattle.tablet_model.specs.Answers.{answer};
ghost use Rattle.tablet_model.specs.Compactions.{minor_compaction};
ghost use Rattle.tablet_model.specs.Cuts.{Span, within};
ghost use Rattle.tablet_model.specs.Families.{in_families};
ghost use Rattle.tablet_model.specs.Reading.{AreUnmarkedRead};
ghost use Rattle.tablet_model.specs.Stages.{stages};
ghost use Rattle.tablet_model.specs.Stands.{AreBelow};
ghost use Rattle.cell_key.specs.Mutations.{row_change_of};
ghost use Rattle.iter_config.specs.RulesOf.{rules_of};
ghost use Rattle.iter_config.specs.Stages.{stages_of};
ghost use Rattle.iter_contract.specs.Copies.{IsCopy};
ghost use Rattle.compactor.specs.Compacted.{entries_made};
ghost use Rattle.compactor.specs.PartCells.{part_cells, part_rest, union_of};
ghost use Rattle.iter_stack.specs.Usages.{usage_cells};
ghost use Rattle.iter_stack.specs.declared.usage.Usage.TheVariants.{Scan};
ghost use Rattle.tablet_view.specs.Extending.{BeginsWith};
ghost use Rattle.tablet_view.specs.Refusals.{refusal_in};
ghost use Rattle.tablet_view.specs.Snapshot.{IsStanding, IsMajorOf, after_apply, empty_snapshot, entries_in, after_flush, after_freeze, refused_by, after_major};
ghost use Rattle.tablet_view.specs.Sources.{source_cells, source_rest, source_valid};

use crate::apply_error::ApplyError;
use crate::files::Files;
use crate::log::Log;
use crate::view_source::ViewSource;
use cell_key::{Families, FileIds, Mutation, NoMemory};
use compactor::{DoneJob, PartCursor};
use iter_config::Config;
use memory_map::{MemMap, mutation_entries};
use sorted_file::SortedFile;
use std::alloc::Global;
use std::marker::Model;
use std::sync::Arc;

/// A snapshot of a tablet: its configuration, the mutations that came in, its files, a frozen part or none, and its memory,
/// all of them shared. It stays as it is; each call that changes the tablet gives the next one, whose version is higher by 1.
#[derive(Drop)]
pub struct View {
    config: Arc<Config>,
    files: Arc<Files>,
    frozen: Option<Arc<MemMap>>,
    memory: Arc<MemMap>,
    version: u64,
    // The last to be dropped: an allocator is slow to take a large block back behind as many small ones as a log has.
    log: Arc<Log>,
}

impl Model for View {
    ghost use Rattle.tablet_view.specs.Snapshot.{Snapshot, IsStanding};

    ghost Value = { Snapshot };

    ghost use Rattle.tablet_view.specs.ViewParts.{snapshot_of};

    ghost view = { snapshot_of };

    ghost invariant = { λ v. IsStanding (snapshot_of v) };
}

impl View {
    /// The view of no mutations. It takes memory.
    pub fn open(alloc: Global, config: Arc<Config>) -> Result<View, NoMemory>
        ensures { IfOk result (λ view. view ≡ empty_snapshot (arc_value config)) }
    {
        // What `count` says of every configuration, the new view keeps.
        let _ = config.count();
        let log = Arc::new(alloc, Log::new(alloc))?;
        let files = Arc::new(alloc, Files::new(alloc))?;
        let memory = Arc::new(alloc, MemMap::empty(alloc)?)?;
        Ok(View {
            config,
            log,
            files,
            frozen: None,
            memory,
            version: 0,
        })
    }

    /// The view where a mutation came in, at the end of the log, or why it stays out: the first broken check, in the order of
    /// [`Refused`](ingest::Refused). It takes memory only where no check is broken.
    pub fn apply(&self, alloc: Global, mutation: &Mutation) -> Result<View, ApplyError>
        requires { self.now.version < 2 ^ 63 }
        ensures { MatchResult result
            (λ view. (refused_by self.now (row_change_of mutation.now) ≡ None)
            × (view ≡ after_apply self.now (row_change_of mutation.now)))
            (λ error. refused_by self.now (row_change_of mutation.now) ≡ refusal_in error) }
    {
        if let Some(refused) = ingest::check(&self.config, self.log.len() as u64, mutation) {
            return Err(ApplyError::Refused(refused));
        }
        Ok(self.with_mutation(alloc, mutation)?)
    }

    /// The view where a mutation that breaks no check came in.
    fn with_mutation(&self, alloc: Global, mutation: &Mutation) -> Result<View, NoMemory>
        requires version { self.now.version < 2 ^ 63 }
        requires free { refused_by self.now (row_change_of mutation.now) ≡ None }
        ensures { IfOk result (λ view. view ≡ after_apply self.now (row_change_of mutation.now)) }
    {
        let time = self.log.len() as i64 + 1;
        let entries = mutation_entries(alloc, mutation, time)?;
        let config = Arc::try_clone(&self.config)?;
        let files = Arc::try_clone(&self.files)?;
        let frozen = shared(&self.frozen)?;
        let memory = Arc::new(alloc, self.memory.add(alloc, &entries)?)?;
        let log = Arc::new(alloc, self.log.with(alloc, entries)?)?;
        Ok(View {
            config,
            log,
            files,
            frozen,
            memory,
            version: self.version + 1,
        })
    }

    /// The view where the memory became the frozen part. It takes memory.
    pub fn freeze(&self, alloc: Global) -> Result<View, NoMemory>
        requires version { self.now.version < 2 ^ 63 }
        requires free { self.now.frozen ≡ None }
        ensures { IfOk result (λ view. view ≡ after_freeze self.now) }
    {
        let config = Arc::try_clone(&self.config)?;
        let log = Arc::try_clone(&self.log)?;
        let files = Arc::try_clone(&self.files)?;
        let frozen = Arc::try_clone(&self.memory)?;
        let memory = Arc::new(alloc, MemMap::empty(alloc)?)?;
        Ok(View {
            config,
            log,
            files,
            frozen: Some(frozen),
            memory,
            version: self.version + 1,
        })
    }

    /// The view where the file of a job stands in the place of the frozen part, whose minor compaction it has to be. The file's
    /// number is above those of all files. It takes memory.
    pub fn install_flush(&self, alloc: Global, id: u64, done: &DoneJob) -> Result<View, NoMemory>
        requires version { self.now.version < 2 ^ 63 }
        requires frozen { IsSome self.now.frozen }
        requires above { AreBelow id self.now.files }
        requires made { entries_made done.now ≡ minor_compaction (rules_of self.now.config).minor (unwrap_or self.now.frozen []) }
        ensures { IfOk result (λ view. view ≡ after_flush self.now id (entries_made done.now)) }
    {
        let config = Arc::try_clone(&self.config)?;
        let log = Arc::try_clone(&self.log)?;
        let files = self
            .files
            .with(alloc, &FileIds::new(alloc), id, done.file())?;
        let files = Arc::new(alloc, files)?;
        let memory = Arc::try_clone(&self.memory)?;
        Ok(View {
            config,
            log,
            files,
            frozen: None,
            memory,
            version: self.version + 1,
        })
    }

    /// The view where the file of a job stands in the place of the files of some numbers, whose partial compaction it has to be,
    /// or whose full one where all other parts are newer. The file's number is above those of all files. It takes memory.
    pub fn install_major(
        &self,
        alloc: Global,
        ids: &FileIds,
        id: u64,
        done: &DoneJob,
    ) -> Result<View, NoMemory>
        requires version { self.now.version < 2 ^ 63 }
        requires above { AreBelow id self.now.files }
        requires made { IsMajorOf self.now ids.now (entries_made done.now) }
        ensures { IfOk result (λ view. view ≡ after_major self.now ids.now id (entries_made done.now)) }
    {
        let config = Arc::try_clone(&self.config)?;
        let log = Arc::try_clone(&self.log)?;
        let files = Arc::new(alloc, self.files.with(alloc, ids, id, done.file())?)?;
        let frozen = shared(&self.frozen)?;
        let memory = Arc::try_clone(&self.memory)?;
        Ok(View {
            config,
            log,
            files,
            frozen,
            memory,
            version: self.version + 1,
        })
    }

    /// A source of the entries of all parts in some families. A stack for scans over it answers what the log answers. It takes
    /// memory.
    pub fn source(&self, alloc: Global, families: &Families) -> Result<ViewSource, NoMemory>
        ensures source { IfOk result (λ source. IsCopy (in_families families.now (entries_in self.now)) true
            (source_cells source) (source_rest source) true (source_valid source)) }
        ensures read { AreUnmarkedRead (stages_of self.now.config) (in_families families.now (entries_in self.now)) }
        ensures answers { (range : Span) →
            within range (usage_cells self.now.config Scan (in_families families.now (entries_in self.now)))
            ≡ answer (stages (stages_of self.now.config)) range families.now self.now.log }
    {
        ViewSource::new(alloc, self.parts(alloc)?, families)
    }

    /// Sources of the entries of each part.
    fn parts(&self, alloc: Global) -> Result<Vec<PartCursor>, NoMemory>
        ensures union { IfOk result (λ parts. union_of parts.items ≡ entries_in self.now) }
        ensures stands { IsStanding self.now }
    {
        let mut parts = self.files.cursors(alloc)?;
        if let Some(frozen) = &self.frozen {
            push_part(alloc, &mut parts, frozen)?;
        }
        push_part(alloc, &mut parts, &self.memory)?;
        Ok(parts)
    }

    /// Whether this view has the other's configuration, and all mutations of the other came in first, in the same order. It
    /// takes no memory.
    pub fn begins_with(&self, other: &View) -> bool
        ensures { IsTrue result ↔ ((self.now.config ≡ other.now.config) × BeginsWith self.now.log other.now.log) }
    {
        self.config.same(&other.config) && self.log.begins_with(&other.log, &self.config)
    }

    /// The number of mutations that came in. It takes no memory.
    pub fn mutations(&self) -> u64
        ensures { result ≡ length self.now.log }
    {
        self.log.len() as u64
    }

    /// The number of runs that its log of mutations lies in: few, however many mutations there are. It takes no memory.
    pub fn log_runs(&self) -> u32
        ensures { 2 ^ result ≤ length self.now.log + 1 }
    {
        self.log.runs()
    }

    /// The number of this view. It takes no memory.
    pub fn version(&self) -> u64
        ensures { result ≡ self.now.version }
    {
        self.version
    }

    /// The number of entries in memory. It takes no memory.
    pub fn memory_count(&self) -> u64
        ensures { result ≡ length self.now.memory }
    {
        self.memory.count()
    }

    /// The number of entries of the frozen part, `None` exactly where there is none. It takes no memory.
    pub fn frozen_count(&self) -> Option<u64>
        ensures { result ≡ option_map (λ frozen. length frozen) self.now.frozen }
    {
        match &self.frozen {
            Some(frozen) => Some(frozen.count()),
            None => None,
        }
    }

    /// The number of files. It takes no memory.
    pub fn file_count(&self) -> usize
        ensures { result ≡ length self.now.files }
    {
        self.files.len()
    }

    /// The number of the file at place `i`, in the order of their numbers, and how many entries it has. It takes no memory.
    pub fn file_at(&self, i: usize) -> (u64, u64)
        requires { i < length self.now.files }
        ensures id { option_map (λ file. file.id) (slice_get self.now.files i) ≡ Some result.0 }
        ensures count { option_map (λ file. length file.cells) (slice_get self.now.files i) ≡ Some result.1 }
    {
        let stored = self.files.get(i);
        (stored.id, stored.file.count())
    }

    /// The configuration. It takes no memory.
    pub fn config(&self) -> &Arc<Config>
        ensures config { arc_value result.now ≡ self.now.config }
        ensures stands { IsStanding self.now }
    {
        &self.config
    }

    /// A source of the entries of the frozen part, which was not sought yet. It takes memory.
    pub fn frozen_cursor(&self, alloc: Global) -> Result<PartCursor, NoMemory>
        requires { IsSome self.now.frozen }
        ensures cells { IfOk result (λ cursor. Some (part_cells cursor) ≡ self.now.frozen) }
        ensures unsought { IfOk result (λ cursor. part_rest cursor ≡ []) }
    {
        let Some(frozen) = &self.frozen else {
            unreachable!()
        };
        Ok(PartCursor::Memory(frozen.cursor(alloc)?))
    }

    /// A source of the entries of the file at place `i`, which was not sought yet. It takes memory.
    pub fn file_cursor(&self, alloc: Global, i: usize) -> Result<PartCursor, NoMemory>
        requires { i < length self.now.files }
        ensures cells { IfOk result (λ cursor. Some (part_cells cursor) ≡ option_map (λ file. file.cells) (slice_get self.now.files i)) }
        ensures unsought { IfOk result (λ cursor. part_rest cursor ≡ []) }
    {
        let stored = self.files.get(i);
        let cursor = SortedFile::cursor(alloc, &stored.file)?;
        Ok(PartCursor::File(cursor))
    }
}

/// The same part, shared, if there is one.
fn shared(part: &Option<Arc<MemMap>>) -> Result<Option<Arc<MemMap>>, NoMemory>
    ensures { IfOk result (λ copy. option_map (λ m. arc_value m) copy ≡ option_map (λ m. arc_value m) part.now) }
{
    match part {
        Some(map) => Ok(Some(Arc::try_clone(map)?)),
        None => Ok(None),
    }
}

/// Puts a source of a part's entries behind others.
fn push_part(alloc: Global, parts: &mut Vec<PartCursor>, part: &MemMap) -> Result<(), NoMemory>
    ensures { OnOk result (map part_cells parts.new.items ≡ map part_cells parts.old.items ++ part.now ∷ []) }
{
    parts.push(PartCursor::Memory(part.cursor(alloc)?))?;
    Ok(())
}
