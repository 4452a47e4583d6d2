//! That lines lose no byte of a text.
ghost use Rattle.std.specs.Prelude.{◌≡◌, ℕ, List};
ghost use Rattle.std.specs.List.{concat};
ghost use Rattle.script_text.specs.Lines.{raw_lines};

/// A law: no byte of a text is lost where it is cut into lines.
pub fn lines_are_whole()
    ensures { (text : List ℕ) → concat (raw_lines text) ≡ text }
{}
