//! That unescaping takes back what escaping wrote.
ghost use Rattle.std.specs.Prelude.{◌≡◌, ℕ, List, Ok};
ghost use Rattle.hex.specs.Hex.{IsBytes};
ghost use Rattle.cell_key.specs.Escape.{escape_of, unescape_of};

/// What is escaped is read again.
pub fn unescape_escape()
    ensures { (b : List ℕ) → IsBytes b → unescape_of (escape_of b) ≡ Ok b }
{}
