//! Lines by their first word.
ghost use Rattle.std.specs.Prelude.{◌≡◌};
ghost use Rattle.script_text.specs.Grammar.{is_comment, line_by_word, line_of};
ghost use Rattle.script_text.specs.Reading.{Gives};
ghost use Rattle.script_text.specs.Words.{words_of};

use crate::line::{Line, LineError, SessionStep};
use crate::scan_line::parse_scan;
use crate::session_lines::{parse_fetch, parse_open, parse_session_step};
use crate::step_lines::{parse_compact, parse_compact_all, parse_finish, parse_mutation};
use crate::words::{ended, next_word};
use std::alloc::Global;
use tablet_steps::Event;

fn is_comment(word: &[u8]) -> bool
    ensures { result ≡ is_comment word.now }
{
    matches!(word, [b'#', ..])
}

/// A line by its first word and what follows it.
#[tactic(auto, unfolding(crate::specs::Grammar::line_by_word))]
fn parse_by_word(alloc: Global, word: &[u8], rest: &[u8]) -> Result<Line, LineError>
    ensures { Gives (λ l. l) (line_by_word word.now (words_of rest.now)) result }
{
    if word == b"m".as_slice() {
        parse_mutation(alloc, rest)
    } else if word == b"scan".as_slice() {
        parse_scan(alloc, rest)
    } else if word == b"open".as_slice() {
        parse_open(alloc, rest)
    } else if word == b"fetch".as_slice() {
        parse_fetch(rest)
    } else if word == b"renew".as_slice() {
        parse_session_step(rest, SessionStep::Renew)
    } else if word == b"drop".as_slice() {
        parse_session_step(rest, SessionStep::Drop)
    } else if word == b"close".as_slice() {
        parse_session_step(rest, SessionStep::Close)
    } else if word == b"freeze".as_slice() {
        ended(rest, Line::Step(Event::Freeze))
    } else if word == b"flushed".as_slice() {
        ended(rest, Line::Step(Event::Flush))
    } else if word == b"compact".as_slice() {
        parse_compact(alloc, rest)
    } else if word == b"compactall".as_slice() {
        parse_compact_all(rest)
    } else if word == b"finish".as_slice() {
        parse_finish(rest)
    } else if word == b"status".as_slice() {
        ended(rest, Line::Status)
    } else {
        Err(LineError::Syntax)
    }
}

/// Reads a script line, without the newline that ends it. Its words stand between runs of spaces and tabs.
///
/// - No words, or a first word that begins with `#`, is [`Line::Nothing`].
/// - `m ROW UPDATE ..` is a mutation. A put is `+FAMILY:QUALIFIER:VISIBILITY=VALUE`, or `^TIME+..` with a time of its own in
///   front, an optional `-` and 1 to 19 digits of a signed 64-bit number; a delete is `-FAMILY:QUALIFIER:VISIBILITY`. A part
///   runs to the first byte that ends it and is then unescaped.
/// - `freeze`, `flushed`, `compact jN fN ..`, `compactall jN` and `finish jN` are the other steps of the store, and `status`
///   asks what it holds.
/// - `scan` with an optional RANGE and optional FAMS is [`Line::Scan`]. RANGE is `*`, or an opening `[` or `(`, an
///   optional row, `,`, an optional row, and a closing `]` or `)`; FAMS is `fams=` and 1 to 64 families between commas.
/// - `open sN` with an optional RANGE, FAMS and `isolated`, `fetch sN COUNT`, `renew sN`, `drop sN` and `close sN` ask a
///   session.
///
/// Any other line has no reading, and the error [`LineError::Syntax`] comes exactly there.
#[tactic(auto, unfolding(crate::specs::Grammar::reading_of))]
pub fn parse_line(alloc: Global, line: &[u8]) -> Result<Line, LineError>
    ensures { Gives (λ l. l) (line_of line.now) result }
{
    let Some((word, rest)) = next_word(line) else {
        return Ok(Line::Nothing);
    };
    if is_comment(word) {
        return Ok(Line::Nothing);
    }
    parse_by_word(alloc, word, rest)
}
