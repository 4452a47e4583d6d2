//! A text, line by line.
ghost use Rattle.std.specs.Prelude.{◌≡◌, ◌<◌, ◌∷◌, ◌++◌, length};
ghost use Rattle.std.specs.Io.BufRead.{strip_last};
ghost use Rattle.script_text.specs.Lines.{config_bytes, content, is_separator, lines_of, raw_lines, script_lines};

use crate::search::find_byte;
use std::marker::Model;

/// The first line with the newline that ends it, and what follows it.
fn first_raw_line(text: &[u8]) -> (&[u8], &[u8])
    requires { 0 < length text.now }
    ensures lines { raw_lines text.now ≡ result.0.now ∷ raw_lines result.1.now }
    ensures whole { text.now ≡ result.0.now ++ result.1.now }
    ensures shorter { length result.1.now < length text.now }
{
    match find_byte(text, b'\n') {
        Some(k) => text.split_at(k + 1),
        None => (text, &[]),
    }
}

/// A text without its last byte, if that is `b`.
fn strip_last(text: &[u8], b: u8) -> &[u8]
    ensures { result.now ≡ strip_last b text.now }
{
    match text {
        [front @ .., last] if *last == b => front,
        _ => text,
    }
}

/// What a line says, without its end.
fn content(line: &[u8]) -> &[u8]
    ensures { result.now ≡ content line.now }
{
    strip_last(strip_last(line, b'\n'), b'\r')
}

/// Whether a line is exactly `%%`.
fn is_separator(line: &[u8]) -> bool
    ensures { result ≡ is_separator line.now }
{
    content(line) == b"%%".as_slice()
}

/// Cuts an input at its first line that is exactly `%%`: the configuration's bytes stand before it, and the
/// script's behind it. Without such a line all of the input is the configuration. It takes no memory.
pub fn split_input(text: &[u8]) -> (&[u8], &[u8])
    ensures config { result.0.now ≡ config_bytes text.now }
    ensures script { lines_of result.1.now ≡ script_lines text.now }
{
    let mut rest = text;
    while !rest.is_empty() {
        let (line, behind) = first_raw_line(rest);
        if is_separator(line) {
            return (&text[..text.len() - rest.len()], behind);
        }
        rest = behind;
    }
    (text, &[])
}

/// An iterator over the lines of a text. Each comes without the newline that ends it, which the last one may
/// lack, and then without one carriage return at its end. It takes no memory.
#[derive(Drop)]
pub struct Lines<'a> {
    rest: &'a [u8],
}

impl<'a> Model for Lines<'a> {
    ghost use Rattle.std.specs.Prelude.{List, ℕ};
    ghost use Rattle.script_text.specs.Lines.{lines_of};

    ghost Value = { List (List ℕ) };

    ghost view = { λ l. lines_of l.rest.now };
}

impl<'a> Lines<'a> {
    ghost use Rattle.std.specs.Prelude.{◌≡◌};
    ghost use Rattle.script_text.specs.Lines.{lines_of};

    /// All lines of a text.
    pub fn new(text: &'a [u8]) -> Lines<'a>
        ensures { result ≡ lines_of text.now }
    {
        Lines { rest: text }
    }
}

impl<'a> Iterator for Lines<'a> {
    ghost use Rattle.std.specs.Iterator.{YieldsFirstRef, item_count};

    type Item = &'a [u8];

    ghost next_gives = { YieldsFirstRef (λ lines. lines) };

    ghost remaining = { item_count (λ lines. lines) };

    fn next(&mut self) -> Option<&'a [u8]> {
        if self.rest.is_empty() {
            return None;
        }
        let (line, rest) = first_raw_line(self.rest);
        self.rest = rest;
        Some(content(line))
    }
}
