//! Numbers among the words of commands.
ghost use Rattle.std.specs.Prelude.{◌≡◌, ◌≤◌, Some, true, IfSome};
ghost use Rattle.std.specs.Char.{is_ascii_digit};
ghost use Rattle.std.specs.List.{list_all};
ghost use Rattle.std.specs.Str.Parse.{digits_value};
ghost use Rattle.script_text.specs.Numbers.{are_digits};
ghost use Rattle.tablet_cli.specs.Words.{number_between};

/// The most digits of a number.
const MAX_DIGITS: usize = 10;

fn are_all_digits(word: &[u8]) -> bool
    ensures { result ≡ list_all is_ascii_digit word.now }
{
    word.iter().all(|b| b.is_ascii_digit())
}

/// Whether a word is 1 to 10 decimal digits.
fn are_digits(word: &[u8]) -> bool
    ensures { result ≡ are_digits 10 word.now }
{
    !word.is_empty() && word.len() <= MAX_DIGITS && are_all_digits(word)
}

/// The number that some digits spell.
fn value_of(digits: &str) -> Option<u64>
    requires { are_digits 10 digits.now ≡ true }
    ensures { result ≡ Some (digits_value 10 digits.now) }
{
    digits.parse::<u64>().ok()
}

/// The number that a word of 1 to 10 decimal digits spells, which may begin with zeros, if it is from `low` to `high`.
#[tactic(auto, unfolding(script_text::specs::Numbers::number_of))]
pub fn number_between(low: u32, high: u32, word: &str) -> Option<u32>
    ensures number { result ≡ number_between low high word.now }
    ensures between { IfSome result (λ n. (low ≤ n) × (n ≤ high)) }
{
    if !are_digits(word.as_bytes()) {
        return None;
    }
    match value_of(word) {
        Some(n) if u64::from(low) <= n && n <= u64::from(high) => Some(n as u32),
        _ => None,
    }
}
