//! Where a byte stands.
ghost use Rattle.std.specs.Prelude.{◌≡◌, position};
ghost use Rattle.memchr.specs.Find.{is_byte};

use memchr::memchr;

/// Where such a byte first stands.
#[tactic(auto, using(crate::proofs::Positions::position_of))]
pub fn find_byte(text: &[u8], b: u8) -> Option<usize>
    ensures { result ≡ position (is_byte b) text.now }
{
    memchr(b, text)
}
