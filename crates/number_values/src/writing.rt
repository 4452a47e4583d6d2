//! Numbers written as the bytes of a value.
ghost use Rattle.std.specs.Prelude.{◌≡◌, ◌≤◌, [], length};
ghost use Rattle.number_values.specs.Numbers.{text_of};

use crate::op::Encoding;
use byte_fields::u64_bytes;
use itoa::Buffer;
use std::marker::Model;

/// The length of the longest text, that of the least number.
const MAX_TEXT: usize = 20;

/// The text of a number, in place.
#[derive(Drop)]
pub struct NumberText {
    bytes: [u8; MAX_TEXT],
    length: usize,
}

impl Model for NumberText {
    ghost use Rattle.std.specs.Prelude.{◌≤◌, ℕ, List, take};

    ghost Value = { List ℕ };

    ghost view = { λ t. take t.length t.bytes };

    ghost invariant = { λ t. t.length ≤ 20 };
}

impl NumberText {
    /// No text yet.
    pub fn new() -> NumberText
        ensures { result ≡ [] }
    {
        NumberText {
            bytes: [0; MAX_TEXT],
            length: 0,
        }
    }

    /// Becomes the text of the number. It takes no memory.
    pub fn write(&mut self, encoding: Encoding, number: i64)
        ensures { self.new ≡ text_of encoding number }
    {
        match encoding {
            Encoding::Fixed => self.set(&u64_bytes(number.cast_unsigned())),
            Encoding::String => self.set(Buffer::new().format(number).as_bytes()),
        }
    }

    /// The text.
    pub fn bytes(&self) -> &[u8]
        ensures { result.now ≡ self.now }
    {
        &self.bytes[..self.length]
    }

    fn set(&mut self, text: &[u8])
        requires { length text.now ≤ 20 }
        ensures { self.new ≡ text.now }
    {
        self.bytes[..text.len()].copy_from_slice(text);
        self.length = text.len();
    }
}
