//! Words and numbers of a line. Where memory is wanting a part of what is appended may stand in the text.
ghost use Rattle.std.specs.Prelude.{◌≡◌, ◌++◌, OnOk};
ghost use Rattle.std.specs.Fmt.{decimal};
ghost use Rattle.tablet_steps.specs.Texts.{no_line, number_line};

use cell_key::{ByteText, NoMemory};
use std::alloc::Global;

/// Appends a word and a number, without leading zeros.
pub fn append_numbered(
    alloc: Global,
    text: &mut ByteText,
    word: &[u8],
    n: u64,
) -> Result<(), NoMemory>
    ensures { OnOk result (text.new ≡ text.old ++ (word.now ++ decimal n)) }
{
    text.append(word)?;
    let digits = n.to_string(alloc)?;
    text.append(digits.as_str().as_bytes())
}

/// Appends a line of a word and a number.
pub fn append_number_line(
    alloc: Global,
    text: &mut ByteText,
    word: &[u8],
    n: u64,
) -> Result<(), NoMemory>
    ensures { OnOk result (text.new ≡ text.old ++ number_line word.now n) }
{
    text.append(word)?;
    append_numbered(alloc, text, b" ", n)?;
    text.append(b"\n")
}

/// Appends the line `no CODE`, where the code is some words.
pub(crate) fn append_no(text: &mut ByteText, word: &[u8], more: &[u8]) -> Result<(), NoMemory>
    ensures { OnOk result (text.new ≡ text.old ++ no_line (word.now ++ more.now)) }
{
    text.append(b"no ")?;
    text.append(word)?;
    text.append(more)?;
    text.append(b"\n")
}

/// Appends the line `no CODE`, where the code is a word and a number.
pub(crate) fn append_no_numbered(
    alloc: Global,
    text: &mut ByteText,
    word: &[u8],
    n: u64,
) -> Result<(), NoMemory>
    ensures { OnOk result (text.new ≡ text.old ++ no_line (word.now ++ decimal n)) }
{
    text.append(b"no ")?;
    append_numbered(alloc, text, word, n)?;
    text.append(b"\n")
}

/// Appends the line `no CODE`, where the code is a word and the number of a job or a session.
pub(crate) fn append_no_named(
    alloc: Global,
    text: &mut ByteText,
    word: &[u8],
    number: u32,
) -> Result<(), NoMemory>
    ensures { OnOk result (text.new ≡ text.old ++ no_line (word.now ++ decimal number)) }
{
    append_no_numbered(alloc, text, word, u64::from(number))
}
