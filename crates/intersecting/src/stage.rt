//! Where a search has come to.
ghost use Rattle.std.specs.Prelude.{◌≡◌, false, IfOk};
ghost use Rattle.std.specs.Arc.{arc_value};

use cell_key::{Bound, ColumnBuf, Names, NoMemory, Range, RangeBuf};
use std::alloc::Global;
use std::sync::Arc;

/// Where a search for documents has come to.
#[derive(Drop)]
pub struct IntersectStage {
    /// The terms that a document has to have.
    pub(crate) terms: Arc<Names>,
    /// The terms that it is to be without.
    pub(crate) without: Arc<Names>,
    /// A column whose row and qualifier are the document that is shown next, if one is.
    pub(crate) column: ColumnBuf,
    /// Whether a document is left behind the start of the range of the last seek.
    pub(crate) is_held: bool,
    /// The range of the last seek.
    pub(crate) range: RangeBuf,
}

impl IntersectStage {
    /// A stage that was not sought. It takes the memory that its other calls need.
    pub fn new(
        alloc: Global,
        terms: Arc<Names>,
        without: Arc<Names>,
    ) -> Result<IntersectStage, NoMemory>
        ensures terms { IfOk result (λ stage. arc_value stage.terms ≡ arc_value terms) }
        ensures without { IfOk result (λ stage. arc_value stage.without ≡ arc_value without) }
        ensures unsought { IfOk result (λ stage. stage.is_held ≡ false) }
    {
        let column = ColumnBuf::new(alloc)?;
        let everything = Range {
            start: Bound::Open,
            end: Bound::Open,
        };
        let range = RangeBuf::of(alloc, &everything)?;
        Ok(IntersectStage {
            terms,
            without,
            column,
            is_held: false,
            range,
        })
    }

    /// A stage for the same terms that was not sought.
    pub fn fresh(&self, alloc: Global) -> Result<IntersectStage, NoMemory>
        ensures terms { IfOk result (λ stage. arc_value stage.terms ≡ arc_value self.now.terms) }
        ensures without { IfOk result (λ stage. arc_value stage.without ≡ arc_value self.now.without) }
        ensures unsought { IfOk result (λ stage. stage.is_held ≡ false) }
    {
        let terms = Arc::try_clone(&self.terms)?;
        let without = Arc::try_clone(&self.without)?;
        IntersectStage::new(alloc, terms, without)
    }
}
