//! The trait of reducers, which users may implement.
ghost use Rattle.std.specs.Prelude.{◌≡◌, ℤ, Bool, true, List, Option, Some, None, IsSome, IsOk, is_ok, if◌then◌else◌, IfOk, option_map};
ghost use Rattle.tablet_model.specs.Reductions.{Reduction, IsLawful};

use cell_key::NoMemory;
use std::alloc::Global;

/// Joins the values of a column, one by one. It is open: a combiner takes any reducer.
///
/// After `NoMemory` from `start` or `fold` a new start is needed.
pub trait Reducer: Sized + Drop {
    /// Which bytes it reads, what value they are, how two values are joined, and how a value is written. No call
    /// changes it.
    ghost reduction: { Self → Reduction };

    /// The join of the values since the last start, if one was.
    ghost joined: { Self → Option (List ℤ) };

    /// Whether `start` and `fold` take no memory. No call changes it.
    ghost steady: { Self → Bool };

    /// Whether it reads these bytes as a value. It takes no memory.
    fn reads(&self, bytes: &[u8]) -> bool
        ensures { result ≡ (reduction self.now).reads bytes.now };

    /// Begins a new join with a first value. Where the reducer is steady it takes no memory and succeeds.
    fn start(&mut self, first: &[u8]) -> Result<(), NoMemory>
        requires { (reduction self.old).reads first.now ≡ true }
        ensures reduction { reduction self.new ≡ reduction self.old }
        ensures steady { steady self.new ≡ steady self.old }
        ensures joined { joined self.new ≡ (if is_ok result then Some ((reduction self.old).value first.now) else None) }
        ensures works { steady self.old ≡ true → IsOk result };

    /// Joins a further value to those since the last start. Where the reducer is steady it takes no memory and
    /// succeeds.
    fn fold(&mut self, next: &[u8]) -> Result<(), NoMemory>
        requires started { IsSome (joined self.old) }
        requires read { (reduction self.old).reads next.now ≡ true }
        ensures reduction { reduction self.new ≡ reduction self.old }
        ensures steady { steady self.new ≡ steady self.old }
        ensures joined { joined self.new ≡ (if is_ok result
            then option_map (λ v. (reduction self.old).join v ((reduction self.old).value next.now)) (joined self.old)
            else None) }
        ensures works { steady self.old ≡ true → IsOk result };

    /// The text of the join of the values since the last start. It takes no memory.
    fn result(&self) -> &[u8]
        requires { IsSome (joined self.now) }
        ensures { Some result.now ≡ option_map (reduction self.now).text (joined self.now) };

    /// A reducer that joins the same values in the same way, and has not started. It takes memory.
    fn fresh(&self, alloc: Global) -> Result<Self, NoMemory>
        ensures reduction { IfOk result (λ other. reduction other ≡ reduction self.now) }
        ensures steady { IfOk result (λ other. steady other ≡ steady self.now) }
        ensures joined { IfOk result (λ other. joined other ≡ None) };

    /// Joining is associative and commutative, and the text of a value is read as that value.
    ghost lawful: { (r : Self) → IsLawful (reduction r) };
}
