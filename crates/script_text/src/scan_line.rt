//! The line of a scan.
ghost use Rattle.script_text.specs.Grammar.{scan_of};
ghost use Rattle.script_text.specs.Reading.{Gives};
ghost use Rattle.script_text.specs.Words.{words_of};

use crate::line::{Line, LineError};
use crate::scans::{families_in, range_in, take_families, take_range};
use crate::words::ended;
use std::alloc::Global;

/// What stands behind `scan`: a range, then families, both optional.
#[tactic(auto, unfolding(crate::specs::Grammar::scan_of))]
pub fn parse_scan(alloc: Global, text: &[u8]) -> Result<Line, LineError>
    ensures { Gives (λ l. l) (scan_of (words_of text.now)) result }
{
    let (range, rest) = take_range(text);
    let (families, rest) = take_families(rest);
    let range = range_in(alloc, range)?;
    let families = families_in(alloc, families)?;
    ended(rest, Line::Scan { range, families })
}
