//! Numbers read from the bytes of a value.
ghost use Rattle.std.specs.Prelude.{◌≡◌, ◌≤◌, length};
ghost use Rattle.std.specs.Str.Parse.{without_leading_sign};
ghost use Rattle.number_values.specs.Numbers.{number_in, fixed_in, decimal_in};

use crate::op::Encoding;
use crate::parts::FIXED_SIZE;
use byteorder::{BigEndian, ByteOrder};
use std::str;

const MAX_DIGITS: usize = 32;

impl Encoding {
    /// The signed 64-bit number that the bytes spell, and `None` where they spell none. It takes no memory.
    pub fn number(self, bytes: &[u8]) -> Option<i64>
        ensures { result ≡ number_in self bytes.now }
    {
        match self {
            Encoding::Fixed => fixed_number(bytes),
            Encoding::String => decimal_number(bytes),
        }
    }
}

fn fixed_number(bytes: &[u8]) -> Option<i64>
    ensures { result ≡ fixed_in bytes.now }
{
    if bytes.len() != FIXED_SIZE {
        return None;
    }
    Some(BigEndian::read_u64(bytes).cast_signed())
}

fn decimal_number(bytes: &[u8]) -> Option<i64>
    ensures { result ≡ decimal_in bytes.now }
{
    if digits_of(bytes).len() > MAX_DIGITS {
        return None;
    }
    parsed(bytes)
}

/// The bytes without a sign.
fn digits_of(bytes: &[u8]) -> &[u8]
    ensures { result.now ≡ without_leading_sign bytes.now }
{
    match bytes {
        [b'-' | b'+', digits @ ..] => digits,
        _ => bytes,
    }
}

/// The number that few digits spell.
fn parsed(bytes: &[u8]) -> Option<i64>
    requires { length (without_leading_sign bytes.now) ≤ 32 }
    ensures { result ≡ decimal_in bytes.now }
{
    let Ok(text) = str::from_utf8(bytes) else {
        return None;
    };
    text.parse::<i64>().ok()
}
