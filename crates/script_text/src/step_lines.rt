//! Lines that ask for a step of the store.
ghost use Rattle.std.specs.Prelude.{◌≡◌};
ghost use Rattle.script_text.specs.Grammar.{compact_all_of, compact_of, finish_of, mutation_of, only_job};
ghost use Rattle.script_text.specs.Reading.{Gives};
ghost use Rattle.script_text.specs.Words.{words_of};

use crate::line::{Line, LineError};
use crate::numbers::{parse_files, parse_job};
use crate::parts::part_text;
use crate::updates::parse_updates;
use crate::words::{next_word, only_word};
use cell_key::Mutation;
use std::alloc::Global;
use tablet_steps::Event;

/// What stands behind `m`: a row and its updates.
#[tactic(auto, unfolding(crate::specs::Grammar::mutation_of))]
pub fn parse_mutation(alloc: Global, text: &[u8]) -> Result<Line, LineError>
    ensures { Gives (λ l. l) (mutation_of (words_of text.now)) result }
{
    let Some((row, rest)) = next_word(text) else {
        return Err(LineError::Syntax);
    };
    let row = part_text(alloc, row)?;
    let updates = parse_updates(alloc, rest)?;
    Ok(Line::Step(Event::Apply(Mutation { row, updates })))
}

/// What stands behind `compact`: a job and its files.
#[tactic(auto, unfolding(crate::specs::Grammar::compact_of))]
pub fn parse_compact(alloc: Global, text: &[u8]) -> Result<Line, LineError>
    ensures { Gives (λ l. l) (compact_of (words_of text.now)) result }
{
    let Some((word, rest)) = next_word(text) else {
        return Err(LineError::Syntax);
    };
    let job = parse_job(word)?;
    let files = parse_files(alloc, rest)?;
    Ok(Line::Step(Event::Compact { job, files }))
}

/// A job alone.
fn only_job(text: &[u8]) -> Result<u32, LineError>
    ensures { Gives (λ n. n) (only_job (words_of text.now)) result }
{
    let word = only_word(text)?;
    parse_job(word)
}

/// What stands behind `compactall`: a job.
pub fn parse_compact_all(text: &[u8]) -> Result<Line, LineError>
    ensures { Gives (λ l. l) (compact_all_of (words_of text.now)) result }
{
    let job = only_job(text)?;
    Ok(Line::Step(Event::CompactAll { job }))
}

/// What stands behind `finish`: a job.
pub fn parse_finish(text: &[u8]) -> Result<Line, LineError>
    ensures { Gives (λ l. l) (finish_of (words_of text.now)) result }
{
    let job = only_job(text)?;
    Ok(Line::Step(Event::Finish { job }))
}
