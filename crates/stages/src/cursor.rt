//! Where a stage has come to.
use crate::stage::Stage;
use cell_key::NoMemory;
use std::alloc::Global;

/// A stage, with where its pass over a source has come to, and whether it was sought.
#[derive(Drop)]
pub struct Cursor<T> {
    pub(crate) stage: T,
    /// Whether the last seek or step came to its end.
    pub(crate) is_sought: bool,
}

impl<T: Stage> Cursor<T> {
    ghost use Rattle.std.specs.Prelude.{◌≡◌, IfOk};
    ghost use Rattle.stages.specs.Cursors.{IsUnsought};

    /// A cursor of a stage, that was not sought. It takes no memory.
    pub fn new(stage: T) -> Cursor<T>
        ensures stage { result.stage ≡ stage }
        ensures unsought { IsUnsought result }
    {
        Cursor {
            stage,
            is_sought: false,
        }
    }

    /// A cursor whose stage makes the same, that was not sought, for a deep copy. It takes the memory that its stage takes.
    pub fn fresh(&self, alloc: Global) -> Result<Cursor<T>, NoMemory>
        ensures made { IfOk result (λ other. T.made other.stage ≡ T.made self.now.stage) }
        ensures unsought { IfOk result IsUnsought }
    {
        let stage = self.stage.fresh(alloc)?;
        Ok(Cursor::new(stage))
    }
}
