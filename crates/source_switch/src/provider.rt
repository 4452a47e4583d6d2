//! What gives newer stacks.
ghost use Rattle.std.specs.Prelude.{◌≡◌, ◌≤◌, ℕ, List, IfOk, OnOk, MatchOption};
ghost use Rattle.tablet_io.specs.Causes.{Rose};
ghost use Rattle.tablet_model.specs.Cell.{Cell};
ghost use Rattle.source_switch.specs.Providing.{IsGiven};

use cell_key::NoMemory;
use iter_contract::SortedSource;
use std::alloc::Global;

/// What gives stacks of one kind, each newer than those before it. A stack has a version, and a number of mutations that it
/// is over.
pub trait Provider<S: SortedSource> {
    /// The version that it last looked at.
    ghost version: { Self → ℕ };

    /// The number of mutations there.
    ghost n: { Self → ℕ };

    /// The entries of the stack that it last gave.
    ghost given: { Self → List Cell };

    /// How often it was asked.
    ghost questions: { Self → ℕ };

    /// Whether a state is later than another.
    ghost later: { Self → Self → Type 0 };

    /// Whether its parts fit together. Each call needs it and leaves it so, whatever the call answers.
    ghost valid: { Self → Type 0 };

    /// Looks once at what it holds, and gives the stack of that, with its version and its number of mutations, exactly where
    /// its version is greater than `than`. After `NoMemory` it may have looked further. It takes memory.
    fn newer(&mut self, alloc: Global, than: u64) -> Result<Option<(u64, u64, S)>, NoMemory>
        requires { valid self.old }
        ensures valid { valid self.new }
        ensures later { later self.new self.old }
        ensures version { version self.old ≤ version self.new }
        ensures n { n self.old ≤ n self.new }
        ensures count { questions self.old ≤ questions self.new }
        ensures rose { OnOk result (Rose (questions self.old) (questions self.new)) }
        ensures given { IfOk result (λ answer. MatchOption answer (version self.new ≤ than) (λ found.
            IsGiven than (version self.new) (n self.new) (given self.new) found.0 found.1 (S.cells found.2) (S.valid found.2))) };

    /// Every state is later than itself.
    ghost later_refl: { (s : Self) → later s s };

    /// What is later than a later state is later.
    ghost later_trans: { (newest newer old : Self) → later newest newer → later newer old → later newest old };
}
