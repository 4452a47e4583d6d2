//! An array's bytes, cut at its first number.
ghost use Rattle.std.specs.Prelude.{◌≡◌, ◌==◌, ◌∷◌, ◌<◌, length, position, IfSome};
ghost use Rattle.std.specs.Option.{option_copied};
ghost use Rattle.number_values.specs.Arrays.{parts_of, parts_left};

use crate::op::Encoding;

/// How many bytes a fixed number takes.
pub(crate) const FIXED_SIZE: usize = 8;

/// The bytes of an array's first number, and what follows them, if anything does.
pub(crate) fn split_first(encoding: Encoding, bytes: &[u8]) -> (&[u8], Option<&[u8]>)
    ensures parts { parts_of encoding bytes.now ≡ result.0.now ∷ parts_left encoding (option_copied result.1) }
    ensures shorter { IfSome result.1 (λ rest. length rest.now < length bytes.now) }
{
    match encoding {
        Encoding::Fixed => split_fixed(bytes),
        Encoding::String => split_decimal(bytes),
    }
}

#[tactic(auto, using(crate::proofs::ArrayParts::eights_more, crate::proofs::ArrayParts::eights_last))]
fn split_fixed(bytes: &[u8]) -> (&[u8], Option<&[u8]>)
    ensures parts { parts_of Encoding.Fixed bytes.now ≡ result.0.now ∷ parts_left Encoding.Fixed (option_copied result.1) }
    ensures shorter { IfSome result.1 (λ rest. length rest.now < length bytes.now) }
{
    if bytes.len() > FIXED_SIZE {
        let (part, rest) = bytes.split_at(FIXED_SIZE);
        (part, Some(rest))
    } else {
        (bytes, None)
    }
}

#[tactic(auto, using(crate::proofs::ArrayParts::split_found, crate::proofs::ArrayParts::split_not_found, std::proofs::lemmas::List::take_rest))]
fn split_decimal(bytes: &[u8]) -> (&[u8], Option<&[u8]>)
    ensures parts { parts_of Encoding.String bytes.now ≡ result.0.now ∷ parts_left Encoding.String (option_copied result.1) }
    ensures shorter { IfSome result.1 (λ rest. length rest.now < length bytes.now) }
{
    match comma_in(bytes) {
        Some(at) => (&bytes[..at], Some(&bytes[at + 1..])),
        None => (bytes, None),
    }
}

/// Where the first comma stands.
fn comma_in(bytes: &[u8]) -> Option<usize>
    ensures { result ≡ position (λ b. b == 44) bytes.now }
{
    bytes.iter().position(|byte| *byte == b',')
}
