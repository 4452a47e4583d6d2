//! Numbers, and the names of sessions, jobs and files.
ghost use Rattle.std.specs.Prelude.{◌≡◌, ◌≤◌, [], Some, IfSome, true};
ghost use Rattle.std.specs.Char.{is_ascii_digit};
ghost use Rattle.std.specs.List.{list_all};
ghost use Rattle.std.specs.Str.Parse.{digits_value};
ghost use Rattle.script_text.specs.Numbers.{are_digits, file_of, job_of, number_of, number_to, session_of};
ghost use Rattle.script_text.specs.Grammar.{files_onto};
ghost use Rattle.script_text.specs.Reading.{Gives};
ghost use Rattle.script_text.specs.Words.{words_of};

use crate::line::LineError;
use crate::words::next_word;
use cell_key::{FileIds, Items};
use std::alloc::Global;
use std::str;

const MAX_DIGITS: usize = 10;

const MAX_SESSION: u32 = 64;

const MAX_JOB: u32 = 999_999;

const MAX_FILE: u64 = 9_999_999_999;

fn are_all_digits(text: &[u8]) -> bool
    ensures { result ≡ list_all is_ascii_digit text.now }
{
    text.iter().all(|b| b.is_ascii_digit())
}

/// Whether a text is 1 up to so many decimal digits.
pub fn are_digits(most: usize, text: &[u8]) -> bool
    ensures { result ≡ are_digits most text.now }
{
    !text.is_empty() && text.len() <= most && are_all_digits(text)
}

/// The number that some digits spell.
fn value_of(digits: &[u8]) -> Option<u64>
    requires { are_digits 10 digits.now ≡ true }
    ensures { result ≡ Some (digits_value 10 digits.now) }
{
    let Ok(text) = str::from_utf8(digits) else {
        return None;
    };
    text.parse::<u64>().ok()
}

/// A number of 1 to 10 digits.
#[tactic(auto, unfolding(crate::specs::Numbers::number_of))]
fn parse_number(text: &[u8]) -> Option<u64>
    ensures number { result ≡ number_of text.now }
{
    if !are_digits(MAX_DIGITS, text) {
        return None;
    }
    value_of(text)
}

/// A number from 1 up to a greatest one.
fn number_to(most: u64, text: &[u8]) -> Option<u64>
    ensures number { result ≡ number_to most text.now }
    ensures bound { IfSome result (λ n. n ≤ most) }
{
    match parse_number(text) {
        Some(n) if n >= 1 && n <= most => Some(n),
        _ => None,
    }
}

/// A number from 1 up to a greatest one, of 32 bits.
pub fn parse_number_to(most: u32, text: &[u8]) -> Result<u32, LineError>
    ensures { Gives (λ n. n) (number_to most text.now) result }
{
    match number_to(u64::from(most), text) {
        Some(n) => Ok(n as u32),
        None => Err(LineError::Syntax),
    }
}

/// `sN`.
pub fn parse_session(word: &[u8]) -> Result<u32, LineError>
    ensures { Gives (λ n. n) (session_of word.now) result }
{
    match word {
        [b's', number @ ..] => parse_number_to(MAX_SESSION, number),
        _ => Err(LineError::Syntax),
    }
}

/// `jN`.
pub fn parse_job(word: &[u8]) -> Result<u32, LineError>
    ensures { Gives (λ n. n) (job_of word.now) result }
{
    match word {
        [b'j', number @ ..] => parse_number_to(MAX_JOB, number),
        _ => Err(LineError::Syntax),
    }
}

/// `fN`.
fn parse_file(word: &[u8]) -> Result<u64, LineError>
    ensures { Gives (λ n. n) (file_of word.now) result }
{
    match word {
        [b'f', number @ ..] => number_to(MAX_FILE, number).ok_or(LineError::Syntax),
        _ => Err(LineError::Syntax),
    }
}

/// The files that the words of a text name. One that is named twice counts once.
#[tactic(auto, using(cell_key::proofs::Gathered::onto_push))]
pub fn parse_files(alloc: Global, text: &[u8]) -> Result<FileIds, LineError>
    ensures { Gives (λ ids. ids) (files_onto [] (words_of text.now)) result }
{
    let mut files = Items::new(alloc);
    let mut rest = text;
    while let Some((word, behind)) = next_word(rest) {
        files.push(parse_file(word)?)?;
        rest = behind;
    }
    let ids = FileIds::of(alloc, files.as_slice())?;
    Ok(ids)
}
