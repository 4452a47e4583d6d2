//! The status of a store, as it is written.
ghost use Rattle.std.specs.Prelude.{◌≡◌, ◌++◌, OnOk};
ghost use Rattle.tablet_replay.specs.StatusText.{count_lines, state_lines, status_lines};

use cell_key::{ByteText, NoMemory};
use compactor::JobState;
use script_text::{append_file, append_frozen, append_job, append_log, append_memory};
use std::alloc::Global;
use tablet_core::{FileCount, StoreStatus};

/// Appends the lines of files.
pub fn append_files(alloc: Global, text: &mut ByteText, files: &[FileCount]) -> Result<(), NoMemory>
    ensures { OnOk result (text.new ≡ text.old ++ count_lines files.now) }
{
    for file in files {
        append_file(alloc, text, file.id, file.count)?;
    }
    Ok(())
}

fn append_jobs(alloc: Global, text: &mut ByteText, jobs: &[JobState]) -> Result<(), NoMemory>
    ensures { OnOk result (text.new ≡ text.old ++ state_lines jobs.now) }
{
    for job in jobs {
        append_job(alloc, text, job.job, job.full, &job.files)?;
    }
    Ok(())
}

/// Appends the lines of a status.
pub fn append_status(
    alloc: Global,
    text: &mut ByteText,
    status: &StoreStatus,
) -> Result<(), NoMemory>
    ensures { OnOk result (text.new ≡ text.old ++ status_lines status.now) }
{
    append_log(alloc, text, status.log)?;
    append_memory(alloc, text, status.memory)?;
    append_frozen(alloc, text, status.frozen)?;
    append_files(alloc, text, status.files.as_slice())?;
    append_jobs(alloc, text, status.jobs.as_slice())
}
