//! Printable text read back as bytes, or the place of its first fault.
ghost use Rattle.std.specs.Prelude.{◌≡◌, ◌≤◌, ◌++◌, take, length, not, position, IfOk};
ghost use Rattle.cell_key.specs.Escape.{behind_backslash, pair_byte, first_spelling, unescape_of};
ghost use Rattle.cell_key.specs.Runs.{is_plain, plain_run};
ghost use Rattle.cell_key.specs.Unescape.{Unescapes};

use crate::items::ByteText;
use crate::no_memory::NoMemory;
use std::alloc::Global;
use thiserror::Error;

/// Why a text wasn't read.
#[derive(Clone, Copy, Debug, PartialEq, Eq, Error)]
pub enum TextError {
    /// The place of the first byte that no spelling allows, counted from 0.
    #[error("no byte is spelled at {at}")]
    Fault { at: usize },
    #[error("out of memory")]
    NoMemory,
}

impl From<NoMemory> for TextError {
    ghost use Rattle.std.specs.Prelude.{◌≡◌};
    ghost use Rattle.cell_key.specs.declared.unescaping.TextError.TheVariants as error;

    ghost from_gives = { λ _ e. e ≡ error.NoMemory };

    fn from(_error: NoMemory) -> TextError {
        TextError::NoMemory
    }
}

/// The bytes that a text spells: `\x` and two hexadecimal digits of either case are that byte; every other
/// byte from `!` up but the backslash and 0x7F is itself.
pub fn unescape(alloc: Global, text: &[u8]) -> Result<ByteText, TextError>
    ensures { Unescapes (unescape_of text.now) result }
{
    let mut bytes = ByteText::with_capacity(alloc, text.len())?;
    let mut at = append_run(&mut bytes, text)?;
    while at < text.len() {
        let Some((byte, more)) = spelled(&text[at..]) else {
            return Err(TextError::Fault { at });
        };
        bytes.push(byte)?;
        at += 1 + more;
        at += append_run(&mut bytes, &text[at..])?;
    }
    Ok(bytes)
}

/// Appends the plain bytes that stand first, and answers how many there are.
fn append_run(bytes: &mut ByteText, text: &[u8]) -> Result<usize, NoMemory>
    ensures run { IfOk result (λ run. run ≡ plain_run text.now) }
    ensures within { IfOk result (λ run. run ≤ length text.now) }
    ensures bytes { IfOk result (λ run. bytes.new ≡ bytes.old ++ take run text.now) }
{
    let run = plain_run(text);
    bytes.append(&text[..run])?;
    Ok(run)
}

/// How many plain bytes stand first.
fn plain_run(text: &[u8]) -> usize
    ensures run { result ≡ plain_run text.now }
    ensures within { result ≤ length text.now }
{
    first_special(text).unwrap_or(text.len())
}

/// Where the first byte stands that is not plain.
fn first_special(text: &[u8]) -> Option<usize>
    ensures { result ≡ position (λ b. not (is_plain b)) text.now }
{
    text.iter().position(|byte| !is_plain(*byte))
}

/// Whether a byte is read as itself wherever it stands first.
fn is_plain(byte: u8) -> bool
    ensures { result ≡ is_plain byte }
{
    byte >= b'!' && byte != b'\\' && byte != 0x7F
}

/// The byte that stands first, and how many more bytes its spelling has.
fn spelled(text: &[u8]) -> Option<(u8, usize)>
    ensures { result ≡ first_spelling text.now }
{
    let [first, rest @ ..] = text else {
        return None;
    };
    if *first == b'\\' {
        return behind_backslash(rest).map(|byte| (byte, 3));
    }
    if *first >= b'!' && *first != 0x7F {
        return Some((*first, 0));
    }
    None
}

fn behind_backslash(text: &[u8]) -> Option<u8>
    ensures { result ≡ behind_backslash text.now }
{
    match text {
        [b'x', high, low, ..] => pair_byte(*high, *low),
        _ => None,
    }
}

/// The byte of two digits.
fn pair_byte(high: u8, low: u8) -> Option<u8>
    ensures { result ≡ pair_byte high low }
{
    let mut byte = [0];
    match hex::decode_to_slice([high, low], &mut byte) {
        Ok(_) => Some(byte[0]),
        Err(_) => None,
    }
}
