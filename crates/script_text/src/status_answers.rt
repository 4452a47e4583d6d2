//! The lines of a store's status.
ghost use Rattle.std.specs.Prelude.{◌≡◌, ◌++◌, OnOk};
ghost use Rattle.script_text.specs.StatusAnswers.{file_line, file_words, frozen_line, job_line, log_line, memory_line};

use cell_key::{ByteText, FileIds, NoMemory};
use std::alloc::Global;
use tablet_steps::{append_number_line, append_numbered, kind_word};

/// Appends `log N`: `n` mutations came in.
pub fn append_log(alloc: Global, text: &mut ByteText, n: u64) -> Result<(), NoMemory>
    ensures { OnOk result (text.new ≡ text.old ++ log_line n) }
{
    append_number_line(alloc, text, b"log", n)
}

/// Appends `memory C`: `count` entries are in memory.
pub fn append_memory(alloc: Global, text: &mut ByteText, count: u64) -> Result<(), NoMemory>
    ensures { OnOk result (text.new ≡ text.old ++ memory_line count) }
{
    append_number_line(alloc, text, b"memory", count)
}

/// Appends `frozen C`, or `frozen none`: how many entries the frozen part has, if there is one.
pub fn append_frozen(alloc: Global, text: &mut ByteText, count: Option<u64>) -> Result<(), NoMemory>
    ensures { OnOk result (text.new ≡ text.old ++ frozen_line count) }
{
    match count {
        Some(count) => append_number_line(alloc, text, b"frozen", count),
        None => text.append(b"frozen none\n"),
    }
}

/// Appends `file fN C`: a file of `count` entries.
pub fn append_file(
    alloc: Global,
    text: &mut ByteText,
    file: u64,
    count: u64,
) -> Result<(), NoMemory>
    ensures { OnOk result (text.new ≡ text.old ++ file_line file count) }
{
    append_numbered(alloc, text, b"file f", file)?;
    append_numbered(alloc, text, b" ", count)?;
    text.append(b"\n")
}

fn append_file_words(alloc: Global, text: &mut ByteText, files: &[u64]) -> Result<(), NoMemory>
    ensures { OnOk result (text.new ≡ text.old ++ file_words files.now) }
{
    for file in files {
        append_numbered(alloc, text, b" f", *file)?;
    }
    Ok(())
}

/// Appends `job jN full fN ..`, or `part`: a running job with its files.
pub fn append_job(
    alloc: Global,
    text: &mut ByteText,
    job: u32,
    full: bool,
    files: &FileIds,
) -> Result<(), NoMemory>
    ensures { OnOk result (text.new ≡ text.old ++ job_line job full files.now) }
{
    append_numbered(alloc, text, b"job j", u64::from(job))?;
    text.append(b" ")?;
    text.append(kind_word(full))?;
    append_file_words(alloc, text, files.as_slice())?;
    text.append(b"\n")
}
