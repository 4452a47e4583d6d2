//! Bytes written as printable text.
ghost use Rattle.std.specs.Prelude.{◌≡◌, ◌≤◌, ◌++◌, length, not, position, IfOk, OnOk};
ghost use Rattle.cell_key.specs.Escape.{escape_of, is_kept};
ghost use Rattle.cell_key.specs.Runs.{digits_of, kept_run};

use crate::items::ByteText;
use crate::no_memory::NoMemory;
use std::alloc::Global;

/// The spelling of some bytes: a byte from `!` to `~` is itself, but not one of `\:=,()[]`; every other byte
/// is `\x` and two lower-case hexadecimal digits.
pub fn escape(alloc: Global, bytes: &[u8]) -> Result<ByteText, NoMemory>
    ensures { IfOk result (λ text. text ≡ escape_of bytes.now) }
{
    let mut text = ByteText::with_capacity(alloc, bytes.len())?;
    append_escape(&mut text, bytes)?;
    Ok(text)
}

/// Appends the spelling of some bytes. Without memory a part of it may stand there.
pub fn append_escape(text: &mut ByteText, bytes: &[u8]) -> Result<(), NoMemory>
    ensures { OnOk result (text.new ≡ text.old ++ escape_of bytes.now) }
{
    let mut rest = bytes;
    loop {
        let (run, behind) = rest.split_at(kept_run(rest));
        text.append(run)?;
        let Some((byte, more)) = behind.split_first() else {
            return Ok(());
        };
        append_digits(text, *byte)?;
        rest = more;
    }
}

/// Appends `\x` and the two digits of a byte.
fn append_digits(text: &mut ByteText, byte: u8) -> Result<(), NoMemory>
    ensures { OnOk result (text.new ≡ text.old ++ digits_of byte) }
{
    let mut digits = [0; 2];
    hex::encode_to_slice([byte], &mut digits).unwrap();
    text.append(b"\\x")?;
    text.append(&digits)
}

/// How many bytes stand first that are their own spellings.
fn kept_run(bytes: &[u8]) -> usize
    ensures run { result ≡ kept_run bytes.now }
    ensures within { result ≤ length bytes.now }
{
    first_spelled(bytes).unwrap_or(bytes.len())
}

/// Where the first byte stands that is not its own spelling.
fn first_spelled(bytes: &[u8]) -> Option<usize>
    ensures { result ≡ position (λ b. not (is_kept b)) bytes.now }
{
    bytes.iter().position(|byte| !is_kept(*byte))
}

/// Whether a byte is its own spelling.
fn is_kept(byte: u8) -> bool
    ensures { result ≡ is_kept byte }
{
    byte.is_ascii_graphic()
        && !matches!(byte, b'\\' | b':' | b'=' | b',' | b'(' | b')' | b'[' | b']')
}
