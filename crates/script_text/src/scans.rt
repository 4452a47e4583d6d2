//! Which keys and families a scan takes.
ghost use Rattle.std.specs.Prelude.{◌≡◌, ◌≤◌, ◌<◌, ◌∷◌, [], length, MatchOption, IfOk, IfSome, Some, option_map};
ghost use Rattle.std.specs.List.{slice_split};
ghost use Rattle.std.specs.Str.{bytes_eq};
ghost use Rattle.tablet_model.specs.Cuts.{Span};
ghost use Rattle.cell_key.specs.Ranges.{cut_of};
ghost use Rattle.cell_key.specs.RowBounds.{HasShortRow};
ghost use Rattle.memchr.specs.Find.{is_byte};
ghost use Rattle.script_text.specs.Code.{comma};
ghost use Rattle.script_text.specs.Reading.{Gives};
ghost use Rattle.script_text.specs.Words.{words_of};
ghost use Rattle.script_text.specs.Scans.{all_keys, behind_families, behind_fams, behind_range, range_in_brackets, closing, end_cut, families_in, families_of, families_text, is_range, names_of, opening, optional_row, range_in, range_of, range_word, rows_between, short_text, span_between, start_cut};

use crate::line::LineError;
use crate::parts::{part_text, split_once};
use crate::search::find_byte;
use crate::words::next_word;
use cell_key::{Bound, ByteText, Families, MAX_KEY_PART, Names, Range, RangeBuf};
use std::alloc::Global;

/// The most families of a scan.
const MAX_FAMILIES: usize = 64;

/// An escaped text of at most 1,024 bytes.
#[tactic(auto, unfolding(crate::specs::Scans::short_text))]
fn short_text(alloc: Global, part: &[u8]) -> Result<ByteText, LineError>
    ensures text { Gives (λ t. t) (short_text part.now) result }
    ensures short { IfOk result (λ t. length t ≤ 1024) }
{
    let text = part_text(alloc, part)?;
    if text.len() > MAX_KEY_PART {
        return Err(LineError::Syntax);
    }
    Ok(text)
}

/// A row, which may be missing.
#[tactic(auto, unfolding(crate::specs::Scans::optional_row))]
fn optional_row(alloc: Global, text: &[u8]) -> Result<Option<ByteText>, LineError>
    ensures row { Gives (λ r. r) (optional_row text.now) result }
    ensures short { IfOk result (λ r. IfSome r (λ row. length row ≤ 1024)) }
{
    if text.is_empty() {
        return Ok(None);
    }
    let row = short_text(alloc, text)?;
    Ok(Some(row))
}

/// Whether an opening bracket takes its row.
fn opening(b: u8) -> Result<bool, LineError>
    ensures { Gives (λ t. t) (opening b) result }
{
    match b {
        b'[' => Ok(true),
        b'(' => Ok(false),
        _ => Err(LineError::Syntax),
    }
}

/// Whether a closing bracket takes its row.
fn closing(b: u8) -> Result<bool, LineError>
    ensures { Gives (λ t. t) (closing b) result }
{
    match b {
        b']' => Ok(true),
        b')' => Ok(false),
        _ => Err(LineError::Syntax),
    }
}

fn start_bound(takes: bool, row: &Option<ByteText>) -> Bound<'_>
    requires { IfSome row.now (λ r. length r ≤ 1024) }
    ensures cut { cut_of result ≡ start_cut takes row.now }
    ensures short { HasShortRow result }
{
    match row {
        None => Bound::Open,
        Some(row) if takes => Bound::Row(row.bytes()),
        Some(row) => Bound::PastRow(row.bytes()),
    }
}

fn end_bound(takes: bool, row: &Option<ByteText>) -> Bound<'_>
    requires { IfSome row.now (λ r. length r ≤ 1024) }
    ensures cut { cut_of result ≡ end_cut takes row.now }
    ensures short { HasShortRow result }
{
    match row {
        None => Bound::Open,
        Some(row) if takes => Bound::PastRow(row.bytes()),
        Some(row) => Bound::Row(row.bytes()),
    }
}

/// The rows between brackets, cut at the first comma.
#[tactic(auto, unfolding(crate::specs::Scans::rows_between))]
fn rows_between(
    alloc: Global,
    takes_first: bool,
    takes_last: bool,
    text: &[u8],
) -> Result<RangeBuf, LineError>
    ensures { Gives (λ r. r) (rows_between takes_first takes_last text.now) result }
{
    let (first, last) = split_once(text, b',')?;
    let first = optional_row(alloc, first)?;
    let last = optional_row(alloc, last)?;
    let range = Range {
        start: start_bound(takes_first, &first),
        end: end_bound(takes_last, &last),
    };
    Ok(RangeBuf::of(alloc, &range)?)
}

/// Rows in brackets.
#[tactic(auto, unfolding(crate::specs::Scans::range_in_brackets))]
fn bracketed(alloc: Global, word: &[u8]) -> Result<RangeBuf, LineError>
    ensures { Gives (λ r. r) (range_in_brackets word.now) result }
{
    if word.len() < 2 {
        return Err(LineError::Syntax);
    }
    let takes_first = opening(word[0])?;
    let takes_last = closing(word[word.len() - 1])?;
    rows_between(alloc, takes_first, takes_last, &word[1..word.len() - 1])
}

/// All keys.
fn whole_range(alloc: Global) -> Result<RangeBuf, LineError>
    ensures { Gives (λ r. r) (Some all_keys) result }
{
    let range = Range {
        start: Bound::Open,
        end: Bound::Open,
    };
    Ok(RangeBuf::of(alloc, &range)?)
}

/// The range of a word, all keys where there is none.
#[tactic(auto, unfolding(crate::specs::Scans::range_of))]
pub fn range_in(alloc: Global, word: Option<&[u8]>) -> Result<RangeBuf, LineError>
    ensures { Gives (λ r. r) (range_in (option_map (λ w. w.now) word.entry)) result }
{
    match word {
        None => whole_range(alloc),
        Some(word) if word == b"*".as_slice() => whole_range(alloc),
        Some(word) => bracketed(alloc, word),
    }
}

fn is_range(word: &[u8]) -> bool
    ensures { result ≡ is_range word.now }
{
    matches!(word, [b'*' | b'[' | b'(', ..])
}

/// The first word, if it is meant as a range, and what follows it.
pub fn take_range(text: &[u8]) -> (Option<&[u8]>, &[u8])
    ensures word { option_map (λ w. w.now) result.0 ≡ range_word (words_of text.now) }
    ensures rest { words_of result.1.now ≡ behind_range (words_of text.now) }
{
    match next_word(text) {
        Some((word, rest)) if is_range(word) => (Some(word), rest),
        _ => (None, text),
    }
}

/// What stands behind `fams=` in a word that begins so.
fn behind_fams(word: &[u8]) -> Option<&[u8]>
    ensures { option_map (λ w. w.now) result ≡ behind_fams word.now }
{
    word.strip_prefix(b"fams=".as_slice())
}

/// The families' text of the first word, if it is meant as families, and what follows it.
pub fn take_families(text: &[u8]) -> (Option<&[u8]>, &[u8])
    ensures text { option_map (λ w. w.now) result.0 ≡ families_text (words_of text.now) }
    ensures rest { words_of result.1.now ≡ behind_families (words_of text.now) }
{
    let Some((word, rest)) = next_word(text) else {
        return (None, text);
    };
    match behind_fams(word) {
        Some(names) => (Some(names), rest),
        None => (None, text),
    }
}

/// What stands before the first comma, and what stands behind it.
fn next_part(text: &[u8]) -> Option<(&[u8], &[u8])>
    ensures parts { MatchOption result
        (slice_split (is_byte comma) text.now ≡ text.now ∷ [])
        (λ p. slice_split (is_byte comma) text.now ≡ p.0.now ∷ slice_split (is_byte comma) p.1.now) }
    ensures shorter { IfSome result (λ p. length p.1.now < length text.now) }
{
    let k = find_byte(text, b',')?;
    Some((&text[..k], &text[k + 1..]))
}

/// The names between commas.
fn names_in(alloc: Global, text: &[u8]) -> Result<Names, LineError>
    ensures names { Gives (λ n. n) (names_of (slice_split (is_byte comma) text.now)) result }
    ensures some { IfOk result (λ n. 0 < length n) }
{
    let mut names = Names::new(alloc);
    let mut rest = text;
    while let Some((part, behind)) = next_part(rest) {
        names.push(short_text(alloc, part)?)?;
        rest = behind;
    }
    names.push(short_text(alloc, rest)?)?;
    Ok(names)
}

/// The families of a text, all where there is none.
#[tactic(auto, unfolding(crate::specs::Scans::families_of))]
pub fn families_in(alloc: Global, text: Option<&[u8]>) -> Result<Families, LineError>
    ensures { Gives (λ f. f) (families_in (option_map (λ t. t.now) text.entry)) result }
{
    let Some(text) = text else {
        return Ok(Families::all());
    };
    let names = names_in(alloc, text)?;
    if names.len() > MAX_FAMILIES {
        return Err(LineError::Syntax);
    }
    Ok(Families::of(alloc, names.as_slice())?)
}
