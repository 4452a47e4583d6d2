//! What a store answers to a step.
ghost use Rattle.std.specs.Prelude.{◌≡◌, ◌++◌, IsSomeAnd, OnOk};
ghost use Rattle.tablet_model.specs.Steps as model;
ghost use Rattle.tablet_steps.specs.ModelSteps.{model_answer_of};
ghost use Rattle.tablet_steps.specs.Texts.{answer_line, kind_word};

use crate::numbered::{append_number_line, append_numbered};
use crate::refusal::StepRefusal;
use cell_key::{ByteText, NoMemory};
use std::alloc::Global;

/// What a store answers to a step.
#[derive(Clone, Copy, Debug, PartialEq, Eq)]
pub enum Answer {
    /// The number of the mutation that came in.
    Applied(u64),
    /// How many entries were frozen.
    Frozen(u64),
    /// The number of the new file, and how many entries it has.
    Flushed { file: u64, count: u64 },
    /// The number of the job, and whether it is a full compaction.
    Started { job: u32, full: bool },
    /// The number of the job, that of its file, and how many entries the file has.
    Finished { job: u32, file: u64, count: u64 },
    /// The step is refused, and nothing was changed.
    Refused(StepRefusal),
    /// There was no memory, and nothing was changed.
    NoMemory,
}

/// The word for the kind of a job: whether it is a full compaction.
pub fn kind_word(full: bool) -> &'static [u8]
    ensures { result.now ≡ kind_word full }
{
    if full { b"full" } else { b"part" }
}

fn append_flushed(alloc: Global, text: &mut ByteText, file: u64, count: u64) -> Result<(), NoMemory>
    ensures { OnOk result (text.new ≡ text.old ++ answer_line (model.flushed file count)) }
{
    append_numbered(alloc, text, b"flushed f", file)?;
    append_numbered(alloc, text, b" ", count)?;
    text.append(b"\n")
}

fn append_started(alloc: Global, text: &mut ByteText, job: u32, full: bool) -> Result<(), NoMemory>
    ensures { OnOk result (text.new ≡ text.old ++ answer_line (model.started job full)) }
{
    append_numbered(alloc, text, b"compact j", u64::from(job))?;
    text.append(b" ")?;
    text.append(kind_word(full))?;
    text.append(b"\n")
}

fn append_finished(
    alloc: Global,
    text: &mut ByteText,
    job: u32,
    file: u64,
    count: u64,
) -> Result<(), NoMemory>
    ensures { OnOk result (text.new ≡ text.old ++ answer_line (model.finished job file count)) }
{
    append_numbered(alloc, text, b"finish j", u64::from(job))?;
    append_numbered(alloc, text, b" f", file)?;
    append_numbered(alloc, text, b" ", count)?;
    text.append(b"\n")
}

impl Answer {
    /// Appends its line; [`Answer::NoMemory`] has none. Where memory is wanting a part of the line may stand in the text.
    pub fn append(&self, alloc: Global, text: &mut ByteText) -> Result<(), NoMemory>
        ensures { OnOk result (IsSomeAnd (model_answer_of self.now) (λ a. text.new ≡ text.old ++ answer_line a)) }
    {
        match *self {
            Answer::Applied(number) => append_number_line(alloc, text, b"m", number),
            Answer::Frozen(count) => append_number_line(alloc, text, b"freeze", count),
            Answer::Flushed { file, count } => append_flushed(alloc, text, file, count),
            Answer::Started { job, full } => append_started(alloc, text, job, full),
            Answer::Finished { job, file, count } => append_finished(alloc, text, job, file, count),
            Answer::Refused(refusal) => refusal.append(alloc, text),
            Answer::NoMemory => Err(NoMemory),
        }
    }
}
