//! Steps of a store.
ghost use Rattle.std.specs.Prelude.{◌≡◌, option_map, IfOk};
ghost use Rattle.tablet_model.specs.Steps.{find_job};
ghost use Rattle.tablet_core.specs.Jobs.{flush_of, major_of};

use crate::fixtures::{Cell, config, has, mutation};
use crate::views::{scan_gives, source_has};
use cell_key::{Families, FileIds, NoMemory};
use compactor::{DoneJob, JobState};
use iter_config::ConfigError;
use std::alloc::Global;
use std::test::Fail;
use tablet_core::{Answer, Core, Event, FileCount, StepRefusal, StoreStatus};

/// What a core is asked for.
#[derive(Clone, Copy)]
enum Step {
    /// A mutation puts a value in the family `s` and the same in `t`, or deletes in `v`.
    Put(u8),
    Delete(u8),
    Freeze,
    Flush,
    /// A job of a number starts on a file.
    Compact(u32, u64),
    CompactAll(u32),
    Finish(u32),
}

fn file_ids(alloc: Global, file: u64) -> Result<FileIds, NoMemory> {
    let mut files = FileIds::new(alloc);
    files.insert(file)?;
    Ok(files)
}

fn event(alloc: Global, step: Step) -> Result<Event, NoMemory> {
    match step {
        Step::Put(value) => Ok(Event::Apply(mutation(
            alloc,
            b'r',
            &[(b's', Some(value)), (b't', Some(value))],
        )?)),
        Step::Delete(value) => Ok(Event::Apply(mutation(
            alloc,
            b'r',
            &[(b's', Some(value)), (b'v', None)],
        )?)),
        Step::Freeze => Ok(Event::Freeze),
        Step::Flush => Ok(Event::Flush),
        Step::Compact(job, file) => Ok(Event::Compact {
            job,
            files: file_ids(alloc, file)?,
        }),
        Step::CompactAll(job) => Ok(Event::CompactAll { job }),
        Step::Finish(job) => Ok(Event::Finish { job }),
    }
}

/// Takes a step. There are few.
fn take(alloc: Global, core: &mut Core, step: Step) -> Result<Answer, NoMemory> {
    let event = event(alloc, step)?;
    if core.view().version() > 99 {
        return Ok(Answer::NoMemory);
    }
    Ok(core.step(alloc, &event))
}

/// How many mutations, entries in memory and frozen entries a core has; its files, and its one job with its one file.
type Counts = (
    u64,
    u64,
    Option<u64>,
    &'static [FileCount],
    Option<(u32, bool, u64)>,
);

fn is_job(state: Option<&JobState>, job: Option<(u32, bool, u64)>) -> bool {
    match (state, job) {
        (Some(state), Some((job, full, file))) => state.job == job
            && state.full == full
            && state.files.has(file),
        (None, None) => true,
        _ => false,
    }
}

fn is_status(status: &StoreStatus, counts: &Counts) -> bool {
    let (log, memory, frozen, files, job) = *counts;
    status.log == log
        && status.memory == memory
        && status.frozen == frozen
        && status.files.as_slice() == files
        && is_job(status.jobs.as_slice().first(), job)
}

fn has_status(alloc: Global, core: &Core, counts: &Counts) -> Result<bool, NoMemory> {
    let status = core.status(alloc)?;
    Ok(is_status(&status, counts))
}

/// Whether a view's entries are these, and a scan of it gives those.
fn holds(alloc: Global, core: &Core, cells: &[Cell], scanned: &[Cell]) -> Result<bool, NoMemory> {
    Ok(
        source_has(alloc, core.view(), &Families::all(), cells)?
            && scan_gives(alloc, core.view(), &Families::all(), scanned)?,
    )
}

/// A step, its answer, and what the core has then: counts, entries, and the answer of a scan.
type Row = (Step, Answer, Counts, &'static [Cell], &'static [Cell]);

/// Takes a step, and says whether its answer and what the core has then are as they should be.
fn is_taken(alloc: Global, core: &mut Core, row: &Row) -> Result<bool, NoMemory> {
    let (step, answer, counts, cells, scanned) = row;
    Ok(
        take(alloc, core, *step)? == *answer
            && has_status(alloc, core, counts)?
            && holds(alloc, core, cells, scanned)?,
    )
}

const PUT: &[Cell] = &[(b'r', b's', 1, false, b"1"), (b'r', b't', 1, false, b"1")];

const DELETED: &[Cell] = &[
    (b'r', b's', 2, false, b"2"),
    (b'r', b's', 1, false, b"1"),
    (b'r', b't', 1, false, b"1"),
    (b'r', b'v', 2, true, b""),
];

const DELETED_SCANNED: &[Cell] = &[(b'r', b's', 2, false, b"3"), (b'r', b't', 1, false, b"1")];

const THIRD: &[Cell] = &[
    (b'r', b's', 3, false, b"5"),
    (b'r', b's', 2, false, b"2"),
    (b'r', b's', 1, false, b"1"),
    (b'r', b't', 3, false, b"5"),
    (b'r', b't', 1, false, b"1"),
    (b'r', b'v', 2, true, b""),
];

const THIRD_SCANNED: &[Cell] = &[
    (b'r', b's', 3, false, b"8"),
    (b'r', b't', 3, false, b"5"),
    (b'r', b't', 1, false, b"1"),
];

const FLUSHED: &[Cell] = &[
    (b'r', b's', 3, false, b"5"),
    (b'r', b's', 2, false, b"3"),
    (b'r', b't', 3, false, b"5"),
    (b'r', b't', 1, false, b"1"),
    (b'r', b'v', 2, true, b""),
];

const FIRST_FILE: &[FileCount] = &[FileCount { id: 1, count: 3 }];

const BEFORE_JOBS: &[Row] = &[
    (
        Step::Put(b'1'),
        Answer::Applied(1),
        (1, 2, None, &[], None),
        PUT,
        PUT,
    ),
    (
        Step::Delete(b'2'),
        Answer::Applied(2),
        (2, 4, None, &[], None),
        DELETED,
        DELETED_SCANNED,
    ),
    (
        Step::Freeze,
        Answer::Frozen(4),
        (2, 0, Some(4), &[], None),
        DELETED,
        DELETED_SCANNED,
    ),
    (
        Step::Put(b'5'),
        Answer::Applied(3),
        (3, 2, Some(4), &[], None),
        THIRD,
        THIRD_SCANNED,
    ),
    (
        Step::Flush,
        Answer::Flushed { file: 1, count: 3 },
        (3, 2, None, FIRST_FILE, None),
        FLUSHED,
        THIRD_SCANNED,
    ),
];

const TWO_FILES: &[FileCount] = &[FileCount { id: 1, count: 3 }, FileCount { id: 2, count: 2 }];

const COMPACTED_FILES: &[FileCount] = &[
    FileCount { id: 2, count: 2 },
    FileCount { id: 3, count: 3 },
];

const ONE_FILE: &[FileCount] = &[FileCount { id: 4, count: 3 }];

const JOBS: &[Row] = &[
    (
        Step::Freeze,
        Answer::Frozen(2),
        (3, 0, Some(2), FIRST_FILE, None),
        FLUSHED,
        THIRD_SCANNED,
    ),
    (
        Step::Flush,
        Answer::Flushed { file: 2, count: 2 },
        (3, 0, None, TWO_FILES, None),
        FLUSHED,
        THIRD_SCANNED,
    ),
    (
        Step::Compact(7, 1),
        Answer::Started {
            job: 7,
            full: false,
        },
        (3, 0, None, TWO_FILES, Some((7, false, 1))),
        FLUSHED,
        THIRD_SCANNED,
    ),
    (
        Step::Finish(7),
        Answer::Finished {
            job: 7,
            file: 3,
            count: 3,
        },
        (3, 0, None, COMPACTED_FILES, None),
        FLUSHED,
        THIRD_SCANNED,
    ),
    (
        Step::CompactAll(5),
        Answer::Started { job: 5, full: true },
        (3, 0, None, COMPACTED_FILES, Some((5, true, 3))),
        FLUSHED,
        THIRD_SCANNED,
    ),
    (
        Step::Finish(5),
        Answer::Finished {
            job: 5,
            file: 4,
            count: 3,
        },
        (3, 0, None, ONE_FILE, None),
        THIRD_SCANNED,
        THIRD_SCANNED,
    ),
];

fn opened(alloc: Global) -> Result<Core, ConfigError> {
    let config = config(alloc)?;
    Ok(Core::open(alloc, config)?)
}

/// The first row, counted from 1, whose step is not taken as it says.
fn first_wrong(alloc: Global, core: &mut Core, rows: &[Row]) -> Result<Option<usize>, NoMemory> {
    for (i, row) in rows.iter().enumerate() {
        if !is_taken(alloc, core, row)? {
            return Ok(Some(i));
        }
    }
    Ok(None)
}

#[test]
fn each_step_keeps_what_came_in(rt: HostRuntime) -> Result<(), Fail> {
    let mut core = opened(rt.alloc())?;
    let wrong = first_wrong(rt.alloc(), &mut core, BEFORE_JOBS)?;
    assert!(rt; wrong.is_none(), "{wrong:?}");
    let wrong = first_wrong(rt.alloc(), &mut core, JOBS)?;
    assert!(rt; wrong.is_none(), "{wrong:?}");
    Ok(())
}

/// The minor compaction of the frozen part, made elsewhere.
fn written(alloc: Global, core: &Core) -> Result<Option<DoneJob>, NoMemory>
    ensures { IfOk result (λ done. done ≡ option_map (flush_of core.now.view) core.now.view.frozen) }
{
    match core.flush_job(alloc)? {
        Some(job) => Ok(Some(job.run(alloc)?)),
        None => Ok(None),
    }
}

/// The frozen part becomes a file by a job that is run elsewhere.
fn flush(alloc: Global, core: &mut Core) -> Answer {
    if core.view().version() > 99 {
        return Answer::NoMemory;
    }
    match written(alloc, core) {
        Ok(Some(done)) => core.install_flush(alloc, &done),
        Ok(None) => Answer::Refused(StepRefusal::NothingFrozen),
        Err(_) => Answer::NoMemory,
    }
}

/// The compaction of a running job, made elsewhere.
fn compacted(alloc: Global, core: &Core, job: u32) -> Result<Option<DoneJob>, NoMemory>
    ensures { IfOk result (λ done. done ≡ option_map (major_of core.now.view) (find_job job core.now.jobs)) }
{
    match core.major_job(alloc, job)? {
        Some(job) => Ok(Some(job.run(alloc)?)),
        None => Ok(None),
    }
}

/// A job that is run elsewhere is finished.
fn finish(alloc: Global, core: &mut Core, job: u32) -> Answer {
    if core.view().version() > 99 {
        return Answer::NoMemory;
    }
    match compacted(alloc, core, job) {
        Ok(Some(done)) => core.install_finish(alloc, job, &done),
        Ok(None) => Answer::Refused(StepRefusal::NoSuchJob(job)),
        Err(_) => Answer::NoMemory,
    }
}

/// Takes steps up to the frozen part that is to be a file, which no job writes.
fn freeze(alloc: Global, core: &mut Core) -> Result<bool, NoMemory> {
    Ok(
        take(alloc, core, Step::Put(b'1'))? == Answer::Applied(1)
            && take(alloc, core, Step::Delete(b'2'))? == Answer::Applied(2)
            && take(alloc, core, Step::Freeze)? == Answer::Frozen(4),
    )
}

/// Whether the first file has these entries.
fn file_has(alloc: Global, core: &Core, cells: &[Cell]) -> Result<bool, NoMemory> {
    let view = core.view();
    if view.file_count() != 1 {
        return Ok(false);
    }
    let cursor = view.file_cursor(alloc, 0)?;
    has(alloc, &cursor, cells)
}

const WRITTEN: &[Cell] = &[
    (b'r', b's', 2, false, b"3"),
    (b'r', b't', 1, false, b"1"),
    (b'r', b'v', 2, true, b""),
];

fn jobs_end(alloc: Global, core: &mut Core) -> Result<bool, NoMemory> {
    Ok(
        freeze(alloc, core)?
            && flush(alloc, core) == Answer::Flushed { file: 1, count: 3 }
            && file_has(alloc, core, WRITTEN)?
            && take(alloc, core, Step::CompactAll(5))? == Answer::Started { job: 5, full: true }
            && finish(alloc, core, 5)
                == Answer::Finished {
                    job: 5,
                    file: 2,
                    count: 2,
                }
            && file_has(alloc, core, DELETED_SCANNED)?,
    )
}

#[test]
fn jobs_are_run_elsewhere(rt: HostRuntime) -> Result<(), Fail> {
    let mut core = opened(rt.alloc())?;
    assert!(rt; jobs_end(rt.alloc(), &mut core)?);
    Ok(())
}
