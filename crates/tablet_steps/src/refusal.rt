//! Why a step of the store, or a line, is refused.
ghost use Rattle.std.specs.Prelude.{◌≡◌, ◌++◌, codes, OnOk};
ghost use Rattle.std.specs.Fmt.{decimal};
ghost use Rattle.ingest.specs.Refusals.{part_of, refusal_of};
ghost use Rattle.tablet_steps.specs.ModelSteps.{model_refusal_of};
ghost use Rattle.tablet_steps.specs.Texts.{answer_line, mutation_code, no_line, part_word, refusal_line};

use crate::numbered::{append_no, append_no_named, append_no_numbered, append_numbered};
use cell_key::{ByteText, NoMemory, Part};
use ingest::Refused;
use std::alloc::Global;

/// Why a step of the store is refused.
#[derive(Clone, Copy, Debug, PartialEq, Eq)]
pub enum StepRefusal {
    /// The mutation breaks a check.
    Mutation(Refused),
    /// There is nothing to freeze.
    NothingInMemory,
    /// A frozen part is there already.
    FrozenThere,
    /// There is no frozen part to write.
    NothingFrozen,
    /// There are 64 files already.
    TooManyFiles,
    /// A job of this number runs.
    JobExists(u32),
    /// The job would have no files.
    NoFiles,
    /// There is no file of this number.
    NoSuchFile(u64),
    /// The file is in a job that runs.
    InJob { file: u64, job: u32 },
    /// No job of this number runs.
    NoSuchJob(u32),
}

/// Why a line is refused that asks no step of the store.
#[derive(Clone, Copy, Debug, PartialEq, Eq)]
pub enum LineRefusal {
    /// The line has no reading.
    Syntax,
    /// A session of this number is open.
    SessionOpen(u32),
    /// No session of this number is open.
    NoSession(u32),
}

fn part_word(part: Part) -> &'static [u8]
    ensures { result.now ≡ part_word (part_of part) }
{
    match part {
        Part::Row => b"row",
        Part::Family => b"family",
        Part::Qualifier => b"qualifier",
        Part::Visibility => b"visibility",
        Part::Value => b"value",
        Part::Updates => b"updates",
    }
}

/// Appends why a mutation stays out: without the update's number.
fn append_refused(text: &mut ByteText, refused: Refused) -> Result<(), NoMemory>
    ensures { OnOk result (text.new ≡ text.old ++ no_line (mutation_code (refusal_of refused))) }
{
    match refused {
        Refused::Bound { part, .. } => append_no(text, b"bound ", part_word(part)),
        Refused::Duplicate { .. } => append_no(text, b"duplicate", b""),
        Refused::DeleteHere { .. } => append_no(text, b"delete", b""),
        Refused::Time { .. } => append_no(text, b"time", b""),
        Refused::Value { .. } => append_no(text, b"value", b""),
        Refused::Full => append_no(text, b"full", b""),
    }
}

/// Appends which file is in which job.
fn append_held(alloc: Global, text: &mut ByteText, file: u64, job: u32) -> Result<(), NoMemory>
    ensures { OnOk result (text.new ≡ text.old ++ codes "in-job f" ++ decimal file ++ codes " j" ++ decimal job) }
{
    append_numbered(alloc, text, b"in-job f", file)?;
    append_numbered(alloc, text, b" j", u64::from(job))
}

fn append_in_job(alloc: Global, text: &mut ByteText, file: u64, job: u32) -> Result<(), NoMemory>
    ensures { OnOk result (text.new ≡ text.old ++ no_line (codes "in-job f" ++ decimal file ++ codes " j" ++ decimal job)) }
{
    text.append(b"no ")?;
    append_held(alloc, text, file, job)?;
    text.append(b"\n")
}

impl StepRefusal {
    /// Appends its line, `no CODE`. Where memory is wanting a part of the line may stand in the text.
    pub fn append(&self, alloc: Global, text: &mut ByteText) -> Result<(), NoMemory>
        ensures { OnOk result (text.new ≡ text.old ++ answer_line (model_refusal_of self.now)) }
    {
        match *self {
            StepRefusal::Mutation(refused) => append_refused(text, refused),
            StepRefusal::NothingInMemory => append_no(text, b"empty", b""),
            StepRefusal::FrozenThere => append_no(text, b"frozen-there", b""),
            StepRefusal::NothingFrozen => append_no(text, b"not-frozen", b""),
            StepRefusal::TooManyFiles => append_no(text, b"too-many-files", b""),
            StepRefusal::JobExists(job) => append_no_named(alloc, text, b"job-exists j", job),
            StepRefusal::NoFiles => append_no(text, b"files", b""),
            StepRefusal::NoSuchFile(file) => append_no_numbered(alloc, text, b"file f", file),
            StepRefusal::InJob { file, job } => append_in_job(alloc, text, file, job),
            StepRefusal::NoSuchJob(job) => append_no_named(alloc, text, b"job j", job),
        }
    }
}

impl LineRefusal {
    /// Appends its line, `no CODE`. Where memory is wanting a part of the line may stand in the text.
    pub fn append(&self, alloc: Global, text: &mut ByteText) -> Result<(), NoMemory>
        ensures { OnOk result (text.new ≡ text.old ++ refusal_line self.now) }
    {
        match *self {
            LineRefusal::Syntax => append_no(text, b"syntax", b""),
            LineRefusal::SessionOpen(session) => {
                append_no_named(alloc, text, b"session-open s", session)
            }
            LineRefusal::NoSession(session) => append_no_named(alloc, text, b"session s", session),
        }
    }
}
