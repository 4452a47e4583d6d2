//! Times of their own that puts bring.
ghost use Rattle.std.specs.Prelude.{◌≡◌, true};
ghost use Rattle.script_text.specs.Numbers.{are_digits};
ghost use Rattle.script_text.specs.Reading.{Gives};
ghost use Rattle.script_text.specs.Times.{time_of, without_minus};

use crate::line::LineError;
use crate::numbers::are_digits;
use std::str;

const MAX_DIGITS: usize = 19;

/// The bytes without a minus in front.
fn without_minus(text: &[u8]) -> &[u8]
    ensures { result.now ≡ without_minus text.now }
{
    match text {
        [b'-', digits @ ..] => digits,
        _ => text,
    }
}

/// The number of a sign and few digits, if it is one of 64 bits.
fn signed_value(text: &[u8]) -> Option<i64>
    requires { are_digits 19 (without_minus text.now) ≡ true }
    ensures { result ≡ time_of text.now }
{
    let Ok(text) = str::from_utf8(text) else {
        return None;
    };
    text.parse::<i64>().ok()
}

/// A time: a signed number of 64 bits, in 1 to 19 digits behind a minus or none.
pub fn parse_time(text: &[u8]) -> Result<i64, LineError>
    ensures { Gives (λ time. time) (time_of text.now) result }
{
    if !are_digits(MAX_DIGITS, without_minus(text)) {
        return Err(LineError::Syntax);
    }
    signed_value(text).ok_or(LineError::Syntax)
}
