//! The published view, and the rule over it: it extends each view that a reader has seen or learnt.
ghost use Rattle.std.specs.Arc.{arc_value};
ghost use Rattle.std.specs.Prelude.{◌≡◌, Some, None};
ghost use Rattle.live_tablet.specs.Rules.{Covers, ExtendsKnown};

use atomic_table::{Join, Split};
use crossbeam_utils::rule::{Outcome, Protocol};
use left_right::Absorb;
use left_right::reader::{Factory, Reader};
use left_right::writer::Writer;
use std::alloc::AllocError;
use std::sync::Arc;
use tablet_view::View;

/// What readers look at.
#[derive(Drop)]
pub struct Published {
    pub view: Arc<View>,
}

impl Absorb<Arc<View>> for Published {
    type State = View;

    ghost state = { λ p. arc_value p.view };

    ghost applied = { λ _ next. arc_value next };

    fn absorb_first(
        &mut self,
        operation: &Arc<View>,
        _other: &Published,
    ) -> Result<(), AllocError> {
        self.view = Arc::try_clone(operation)?;
        Ok(())
    }

    fn absorb_second(&mut self, operation: Arc<View>, _other: &Published) -> Result<(), Arc<View>> {
        self.view = operation;
        Ok(())
    }
}

/// What a seat knows: the newest view that it has seen or learnt, if any.
pub type Known = Option<View>;

/// The rule: what is published extends what each seat knows.
pub struct Extending;

impl Protocol<Published, Known> for Extending {
    ghost holds = { λ p. Covers (arc_value p.view) };

    ghost first = { None };
}

/// The step of a look and of a publish: the view before it extends what the seat knew, and the seat knows the view after it.
pub struct Sight;

impl Outcome<Published, Known> for Sight {
    ghost then = { λ known x y after. ExtendsKnown (arc_value x.view) known × (after ≡ Some (arc_value y.view)) };
}

/// The step of a note: the loader tells what it knows, and a reader takes that in place of what it knew.
pub struct Handover;

impl Split<Known> for Handover {
    ghost left = { λ known. known };

    ghost right = { λ known. known };
}

impl Join<Known> for Handover {
    ghost both = { λ _ told. told };

    ghost spent = { None };
}

pub type PlacedReader = Reader<Published, Known, Extending>;

pub type PlaceFactory = Factory<Published, Known, Extending>;

pub type ViewWriter = Writer<Published, Arc<View>, Known, Extending>;
