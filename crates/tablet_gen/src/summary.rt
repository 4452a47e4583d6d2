//! The summary of a tablet into which generated mutations were loaded.
ghost use Rattle.std.specs.Prelude.{◌≡◌, ◌++◌, IfOk, OnOk};
ghost use Rattle.script_text.specs.StatusAnswers.{file_line};
ghost use Rattle.tablet_core.specs.State.{state_of};
ghost use Rattle.tablet_gen.specs.Summary.{summary_of, summary_text, total_line};
ghost use Rattle.tablet_gen.specs.SummaryParts.{count_lines, summary_lines};

use crate::configuration::configuration;
use crate::mutations::mutations_of;
use crate::scanning::totals_of_view;
use crate::totals::Totals;
use cell_key::{ByteText, NoMemory};
use script_text::{append_count, append_file, append_frozen, append_log, append_memory};
use std::alloc::Global;
use std::sync::Arc;
use tablet_core::{Core, FileCount, StoreStatus};
use tablet_loader::run_plan;

/// How many mutations come in between two flushes.
const CHUNK: u32 = 100;

/// Appends `total N`.
fn append_total(alloc: Global, text: &mut ByteText, total: u128) -> Result<(), NoMemory>
    ensures { OnOk result (text.new ≡ text.old ++ total_line total) }
{
    text.append(b"total ")?;
    let digits = total.to_string(alloc)?;
    text.append(digits.as_str().as_bytes())?;
    text.append(b"\n")
}

fn append_files(alloc: Global, text: &mut ByteText, files: &[FileCount]) -> Result<(), NoMemory>
    ensures { OnOk result (text.new ≡ text.old ++ count_lines files.now) }
{
    for file in files {
        append_file(alloc, text, file.id, file.count)?;
    }
    Ok(())
}

/// The lines of a summary.
fn summary_lines(alloc: Global, status: &StoreStatus, totals: Totals) -> Result<ByteText, NoMemory>
    ensures { IfOk result (λ text. text ≡ summary_lines status.now totals) }
{
    let mut text = ByteText::new(alloc);
    append_log(alloc, &mut text, status.log)?;
    append_count(alloc, &mut text, totals.entries)?;
    append_total(alloc, &mut text, totals.total)?;
    append_memory(alloc, &mut text, status.memory)?;
    append_frozen(alloc, &mut text, status.frozen)?;
    append_files(alloc, &mut text, status.files.as_slice())?;
    Ok(text)
}

/// The summary of a core.
fn summary_of(alloc: Global, core: &Core) -> Result<ByteText, NoMemory>
    ensures { IfOk result (λ text. text ≡ summary_of core.now.view.config core.now.view.log (state_of core.now)) }
{
    let totals = totals_of_view(alloc, core.view())?;
    let status = core.status(alloc)?;
    summary_lines(alloc, &status, totals)
}

/// Makes mutations by draws that begin at `start`, `size` of them, loads them into a tablet of a sum and two versions, 100 between two
/// flushes, and tells how many came in, how many entries a whole scan has, the sum of its numbers in family `n`, and what is in memory,
/// frozen and in files: a line each. It takes memory.
pub fn generated_summary(alloc: Global, start: u32, size: u32) -> Result<ByteText, NoMemory>
    ensures { IfOk result (λ text. text ≡ summary_text start size) }
{
    let config = Arc::new(alloc, configuration(alloc)?)?;
    let mutations = mutations_of(alloc, start, size)?;
    let planned = run_plan(alloc, config, &mutations, CHUNK)?;
    summary_of(alloc, &planned.core)
}
