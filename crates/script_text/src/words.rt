//! The words of a line.
ghost use Rattle.std.specs.Prelude.{◌≡◌, ◌<◌, [], ◌∷◌, length, not, position, MatchOption, IfSome, Some};
ghost use Rattle.script_text.specs.Grammar.{with_no_more, only_word};
ghost use Rattle.script_text.specs.Reading.{Gives};
ghost use Rattle.script_text.specs.Words.{is_blank, words_of};

use crate::line::{Line, LineError};

fn is_blank(b: u8) -> bool
    ensures { result ≡ is_blank b }
{
    b == b' ' || b == b'\t'
}

/// Where the first word starts.
fn word_start(text: &[u8]) -> Option<usize>
    ensures { result ≡ position (λ b. not (is_blank b)) text.now }
{
    text.iter().position(|b| !is_blank(*b))
}

/// Where the first blank stands.
fn blank_start(text: &[u8]) -> Option<usize>
    ensures { result ≡ position is_blank text.now }
{
    text.iter().position(|b| is_blank(*b))
}

/// The first word, and what follows it.
pub fn next_word(text: &[u8]) -> Option<(&[u8], &[u8])>
    ensures words { MatchOption result (words_of text.now ≡ [])
        (λ w. words_of text.now ≡ w.0.now ∷ words_of w.1.now) }
    ensures shorter { IfSome result (λ w. length w.1.now < length text.now) }
{
    let start = word_start(text)?;
    let text = &text[start..];
    match blank_start(text) {
        Some(end) => Some(text.split_at(end)),
        None => Some((text, &[])),
    }
}

/// The only word of a text.
pub fn only_word(text: &[u8]) -> Result<&[u8], LineError>
    ensures { Gives (λ w. w.now) (only_word (words_of text.now)) result }
{
    let Some((word, rest)) = next_word(text) else {
        return Err(LineError::Syntax);
    };
    match next_word(rest) {
        None => Ok(word),
        Some(_) => Err(LineError::Syntax),
    }
}

/// A line behind whose words nothing stands.
pub fn ended(text: &[u8], line: Line) -> Result<Line, LineError>
    ensures { Gives (λ l. l) (with_no_more (words_of text.now) (Some line)) result }
{
    match next_word(text) {
        None => Ok(line),
        Some(_) => Err(LineError::Syntax),
    }
}
