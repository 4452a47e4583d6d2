//! The updates of a mutation.
ghost use Rattle.std.specs.Prelude.{◌≡◌};
ghost use Rattle.script_text.specs.Grammar.{delete_of, put_of, timed_put_of, update_of, updates_of};
ghost use Rattle.script_text.specs.Reading.{Gives};
ghost use Rattle.script_text.specs.Words.{words_of};

use crate::line::LineError;
use crate::parts::{part_text, split_once};
use crate::times::parse_time;
use crate::words::next_word;
use cell_key::{Update, Updates};
use std::alloc::Global;

/// `FAMILY:QUALIFIER:VISIBILITY=VALUE`, a put at a time of its own or at none.
#[tactic(auto, unfolding(crate::specs::Grammar::put_of))]
fn parse_put(alloc: Global, time: Option<i64>, text: &[u8]) -> Result<Update, LineError>
    ensures { Gives (λ u. u) (put_of time text.now) result }
{
    let (family, rest) = split_once(text, b':')?;
    let (qualifier, rest) = split_once(rest, b':')?;
    let (visibility, value) = split_once(rest, b'=')?;
    let family = part_text(alloc, family)?;
    let qualifier = part_text(alloc, qualifier)?;
    let visibility = part_text(alloc, visibility)?;
    let value = part_text(alloc, value)?;
    Ok(Update {
        family,
        qualifier,
        visibility,
        time,
        value: Some(value),
    })
}

/// `TIME+FAMILY:QUALIFIER:VISIBILITY=VALUE`.
#[tactic(auto, unfolding(crate::specs::Grammar::timed_put_of))]
fn parse_timed_put(alloc: Global, text: &[u8]) -> Result<Update, LineError>
    ensures { Gives (λ u. u) (timed_put_of text.now) result }
{
    let (time, put) = split_once(text, b'+')?;
    let time = parse_time(time)?;
    parse_put(alloc, Some(time), put)
}

/// `FAMILY:QUALIFIER:VISIBILITY`.
#[tactic(auto, unfolding(crate::specs::Grammar::delete_of))]
fn parse_delete(alloc: Global, text: &[u8]) -> Result<Update, LineError>
    ensures { Gives (λ u. u) (delete_of text.now) result }
{
    let (family, rest) = split_once(text, b':')?;
    let (qualifier, visibility) = split_once(rest, b':')?;
    let family = part_text(alloc, family)?;
    let qualifier = part_text(alloc, qualifier)?;
    let visibility = part_text(alloc, visibility)?;
    Ok(Update {
        family,
        qualifier,
        visibility,
        time: None,
        value: None,
    })
}

#[tactic(auto, unfolding(crate::specs::Grammar::update_of))]
fn parse_update(alloc: Global, word: &[u8]) -> Result<Update, LineError>
    ensures { Gives (λ u. u) (update_of word.now) result }
{
    match word {
        [b'+', put @ ..] => parse_put(alloc, None, put),
        [b'-', delete @ ..] => parse_delete(alloc, delete),
        [b'^', put @ ..] => parse_timed_put(alloc, put),
        _ => Err(LineError::Syntax),
    }
}

/// The updates that the words of a text spell.
pub fn parse_updates(alloc: Global, text: &[u8]) -> Result<Updates, LineError>
    ensures { Gives (λ u. u) (updates_of (words_of text.now)) result }
{
    let mut updates = Updates::new(alloc);
    let mut rest = text;
    while let Some((word, behind)) = next_word(rest) {
        let update = parse_update(alloc, word)?;
        updates.push(update)?;
        rest = behind;
    }
    Ok(updates)
}
