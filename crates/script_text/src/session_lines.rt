//! Lines that ask a session.
ghost use Rattle.std.specs.Prelude.{◌≡◌};
ghost use Rattle.script_text.specs.Grammar.{fetch_of, isolated_of, open_of, session_step_of};
ghost use Rattle.script_text.specs.Reading.{Gives};
ghost use Rattle.script_text.specs.Words.{words_of};

use crate::line::{Line, LineError, SessionStep};
use crate::numbers::{parse_number_to, parse_session};
use crate::scans::{families_in, range_in, take_families, take_range};
use crate::words::{next_word, only_word};
use std::alloc::Global;

/// The most entries of one fetch.
const MAX_FETCH: u32 = 1_000_000;

/// The word `isolated`, or nothing.
fn parse_isolated(text: &[u8]) -> Result<bool, LineError>
    ensures { Gives (λ b. b) (isolated_of (words_of text.now)) result }
{
    let Some((word, rest)) = next_word(text) else {
        return Ok(false);
    };
    if next_word(rest).is_none() && word == b"isolated".as_slice() {
        Ok(true)
    } else {
        Err(LineError::Syntax)
    }
}

/// What stands behind `open`: a session, then a range, families and `isolated`, all three optional.
#[tactic(auto, unfolding(crate::specs::Grammar::open_of))]
pub fn parse_open(alloc: Global, text: &[u8]) -> Result<Line, LineError>
    ensures { Gives (λ l. l) (open_of (words_of text.now)) result }
{
    let Some((word, rest)) = next_word(text) else {
        return Err(LineError::Syntax);
    };
    let (range, rest) = take_range(rest);
    let (families, rest) = take_families(rest);
    let session = parse_session(word)?;
    let range = range_in(alloc, range)?;
    let families = families_in(alloc, families)?;
    let isolated = parse_isolated(rest)?;
    let step = SessionStep::Open {
        range,
        families,
        isolated,
    };
    Ok(Line::Session { session, step })
}

/// What stands behind `fetch`: a session and how many entries.
#[tactic(auto, unfolding(crate::specs::Grammar::fetch_of))]
pub fn parse_fetch(text: &[u8]) -> Result<Line, LineError>
    ensures { Gives (λ l. l) (fetch_of (words_of text.now)) result }
{
    let Some((word, rest)) = next_word(text) else {
        return Err(LineError::Syntax);
    };
    let session = parse_session(word)?;
    let count = parse_number_to(MAX_FETCH, only_word(rest)?)?;
    let step = SessionStep::Fetch { count };
    Ok(Line::Session { session, step })
}

/// What stands behind `renew`, `drop` and `close`: a session alone.
pub fn parse_session_step(text: &[u8], step: SessionStep) -> Result<Line, LineError>
    ensures { Gives (λ l. l) (session_step_of step (words_of text.now)) result }
{
    let word = only_word(text)?;
    let session = parse_session(word)?;
    Ok(Line::Session { session, step })
}
