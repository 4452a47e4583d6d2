//! Parts of a line, up to where each ends.
ghost use Rattle.std.specs.Prelude.{◌≡◌};
ghost use Rattle.script_text.specs.Reading.{Gives};
ghost use Rattle.script_text.specs.Words.{split_once, text_of};

use crate::line::LineError;
use crate::search::find_byte;
use cell_key::{ByteText, TextError, unescape};
use std::alloc::Global;

/// What stands before the first such byte, and what stands behind it.
pub fn split_once(text: &[u8], b: u8) -> Result<(&[u8], &[u8]), LineError>
    ensures { Gives (λ p. (p.0.now, p.1.now)) (split_once b text.now) result }
{
    match find_byte(text, b) {
        Some(k) => Ok((&text[..k], &text[k + 1..])),
        None => Err(LineError::Syntax),
    }
}

/// The bytes that a part spells.
pub fn part_text(alloc: Global, part: &[u8]) -> Result<ByteText, LineError>
    ensures { Gives (λ text. text) (text_of part.now) result }
{
    match unescape(alloc, part) {
        Ok(text) => Ok(text),
        Err(TextError::Fault { .. }) => Err(LineError::Syntax),
        Err(TextError::NoMemory) => Err(LineError::NoMemory),
    }
}
